//! Rounds of several threads, in which units find that nobody is active and go on later.
ghost use Rattle.std.specs.Prelude.{◌≡◌, ◌<◌, ◌≤◌, length, map, All, IfOk};
ghost use Rattle.shared_tests.specs.Playing.{GoesOn, Sleeps, Receives, IsFresh};
ghost use Rattle.shared_tests.specs.Standing.{StandsAt, IsMember, PlaysOn, HaveAllPlayed, IsOut, AreAllOut, IsFew};
ghost use Rattle.shared_tests.specs.declared.rounds.Stands.TheVariants as stands;

use crate::calls::{asking, start, stop, take_message};
use crate::closing::close;
use crate::parties::feed;
use crate::plan::{MAX_MESSAGES, Plan, bide};
use crate::replay::Played;
use crate::threads::{has_route, is_unit};
use com_cd::InArea;
use com_net::Net;
use com_shared::{Pass, Received, Shared};
use std::alloc::{AllocError, Global};
use std::sync::Wait;
use std::thread;
use std::thread::Threads;

/// How far a party is between two rounds.
#[derive(Clone, Copy, Debug, PartialEq, Eq)]
pub enum Stands {
    /// It has made no call.
    Fresh,
    /// It waits with a RECEIVE.
    Waits,
    /// It is done.
    Out,
}

/// A party between two rounds.
#[derive(Drop)]
pub struct Member {
    pub pass: Pass,
    pub area: InArea,
    pub stands: Stands,
}

/// What the parties do in a round.
#[derive(Clone, Copy, Debug)]
pub enum Round {
    /// The units become active.
    Enter,
    /// The units receive a message and stop, or find that nobody is active. The later ones begin
    /// so many turns after the others.
    Receive(u32),
    /// The terminals send messages by a plan.
    Send(Plan),
}

/// A unit that waits or may wait receives, and stops if it is given a message.
#[tactic(auto, using(crate::proofs::Standing::standing))]
fn receive_once<R: Wait>(rt: &R, shared: &Shared, pass: &mut Pass, area: &mut InArea) -> Stands
    requires { Receives shared.now 0 area.old pass.old }
    ensures goes_on { GoesOn shared.now pass.old pass.new }
    ensures stands { StandsAt shared.now result area.new pass.new }
{
    match take_message(rt, shared, pass, area, 0) {
        Ok(Received::RoundOver) => Stands::Waits,
        Ok(Received::Given(_)) => {
            drop(stop(rt, shared, pass, 1));
            Stands::Out
        }
        _ => Stands::Out,
    }
}

/// A unit starts and receives.
#[tactic(auto, using(crate::proofs::Standing::standing))]
fn start_and_receive<R: Wait>(rt: &R, shared: &Shared, pass: &mut Pass, area: &mut InArea) -> Stands
    requires { Sleeps shared.now pass.old }
    ensures goes_on { GoesOn shared.now pass.old pass.new }
    ensures stands { StandsAt shared.now result area.new pass.new }
{
    match start(rt, shared, pass) {
        Ok(true) => receive_once(rt, shared, pass, area),
        _ => Stands::Out,
    }
}

/// A unit begins or goes on to receive, the first before the second.
#[tactic(auto, using(crate::proofs::Standing::standing))]
fn receive_in_order<R: Wait>(
    rt: &R,
    shared: &Shared,
    pass: &mut Pass,
    area: &mut InArea,
    stands: Stands,
    turns: u32,
) -> Stands
    requires stands { StandsAt shared.now stands area.old pass.old }
    requires unit { pass.old.number < length shared.now.net.units }
    ensures goes_on { GoesOn shared.now pass.old pass.new }
    ensures stands { StandsAt shared.now result area.new pass.new }
{
    let number = pass.number();
    // the START and the WAITS of each unit before it
    let entries = 2 * u64::from(number);
    bide(rt, shared, pass, entries, turns.saturating_mul(number));
    match stands {
        Stands::Fresh => start_and_receive(rt, shared, pass, area),
        Stands::Waits => receive_once(rt, shared, pass, area),
        Stands::Out => Stands::Out,
    }
}

/// A terminal that has not begun sends its messages.
#[tactic(auto, using(crate::proofs::Standing::standing))]
fn send_all<R: Wait>(rt: &R, alloc: Global, shared: &Shared, net: &Net, pass: &mut Pass, plan: Plan)
    requires fresh { IsFresh shared.now pass.old }
    requires net { net.now ≡ shared.now.net }
    requires terminal { length net.now.units ≤ pass.old.number }
    requires few { plan.messages ≤ MAX_MESSAGES }
    ensures { GoesOn shared.now pass.old pass.new }
{
    if !has_route(shared, net, pass) {
        return;
    }
    drop(feed(rt, alloc, shared, pass, plan));
}

/// What a unit does in a round.
#[tactic(auto, using(crate::proofs::Standing::standing))]
fn play_unit<R: Wait>(rt: &R, shared: &Shared, round: Round, member: &mut Member)
    requires member { IsMember shared.now member.old }
    requires unit { member.old.pass.number < length shared.now.net.units }
    ensures { PlaysOn shared.now member.old member.new }
{
    match round {
        Round::Enter => shared.enter(rt, &mut member.pass),
        Round::Receive(turns) => {
            let stands = member.stands;
            member.stands = receive_in_order(
                rt,
                shared,
                &mut member.pass,
                &mut member.area,
                stands,
                turns,
            );
        }
        Round::Send(_) => {}
    }
}

/// What a terminal does in a round.
#[tactic(auto, using(crate::proofs::Standing::standing))]
fn play_terminal<R: Wait>(
    rt: &R,
    alloc: Global,
    shared: &Shared,
    net: &Net,
    round: Round,
    member: &mut Member,
)
    requires member { IsMember shared.now member.old }
    requires net { net.now ≡ shared.now.net }
    requires terminal { length net.now.units ≤ member.old.pass.number }
    requires few { IsFew round }
    ensures { PlaysOn shared.now member.old member.new }
{
    match (round, member.stands) {
        (Round::Send(plan), Stands::Fresh) => {
            send_all(rt, alloc, shared, net, &mut member.pass, plan);
            member.stands = Stands::Out;
        }
        _ => {}
    }
}

/// What one party does in a round.
fn play<R: Wait>(
    rt: &R,
    alloc: Global,
    shared: &Shared,
    net: &Net,
    round: Round,
    member: &mut Member,
)
    requires member { IsMember shared.now member.old }
    requires net { net.now ≡ shared.now.net }
    requires few { IsFew round }
    ensures { PlaysOn shared.now member.old member.new }
{
    if is_unit(net, &member.pass) {
        play_unit(rt, shared, round, member);
        return;
    }
    play_terminal(rt, alloc, shared, net, round, member);
}

/// One round, each party in a thread of its own. How many wait then.
fn play_round<R: Threads + Wait + Sync>(
    rt: &R,
    alloc: Global,
    shared: &Shared,
    net: &Net,
    round: Round,
    members: &mut [Member],
) -> usize
    requires some { 0 < length members.old }
    requires members { All (IsMember shared.now) members.old }
    requires net { net.now ≡ shared.now.net }
    requires few { IsFew round }
    ensures { HaveAllPlayed shared.now members.old members.new }
{
    let threads = members.len();
    thread::for_each_mut(
        rt,
        members,
        threads,
        &|_, member| { play(rt, alloc, shared, net, round, member) },
    );
    how_many_wait(members)
}

/// How many wait.
fn how_many_wait(members: &[Member]) -> usize {
    members
        .iter()
        .filter(|member| member.stands == Stands::Waits)
        .count()
}

/// A party leaves.
#[tactic(auto, using(crate::proofs::Standing::standing))]
fn leave<R: Wait>(rt: &R, shared: &Shared, member: &mut Member)
    requires { IsMember shared.now member.old }
    ensures { IsOut shared.now member.old member.new }
{
    shared.leave(rt, &mut member.pass);
}

/// All parties leave.
fn leave_all<R: Threads + Wait + Sync>(rt: &R, shared: &Shared, members: &mut [Member])
    requires { All (IsMember shared.now) members.old }
    ensures { AreAllOut shared.now members.old members.new }
{
    thread::for_each_mut(rt, members, 1, &|_, member| leave(rt, shared, member));
}

/// A party that has made no call.
fn member_of(pass: Pass, area: InArea) -> Member
    ensures { result ≡ record { pass = pass; area = area; stands = stands.Fresh } }
{
    Member {
        pass,
        area,
        stands: Stands::Fresh,
    }
}

/// Each pass as that of a party that has made no call.
fn deal(alloc: Global, area: InArea, passes: Vec<Pass>) -> Result<Vec<Member>, AllocError>
    ensures { IfOk result (λ members. members.items
        ≡ map (λ pass. record { pass = pass; area = area; stands = stands.Fresh })
        passes.items) }
{
    passes
        .into_iter()
        .map(|pass| member_of(pass, area))
        .collect(alloc)
}

/// The pass of a party.
fn pass_of(member: Member) -> Pass
    ensures { result ≡ member.pass }
{
    let Member { pass, area, stands } = member;
    let _ = (area, stands);
    pass
}

/// The passes of all parties.
fn gather(alloc: Global, members: Vec<Member>) -> Result<Vec<Pass>, AllocError>
    ensures { IfOk result (λ passes. passes.items ≡ map (λ member. member.pass) members.items) }
{
    members
        .into_iter()
        .map(|member| pass_of(member))
        .collect(alloc)
}

/// The units receive twice with nothing there, the terminals send, and the units receive again.
/// How many wait each time.
fn play_rounds<R: Threads + Wait + Sync>(
    rt: &R,
    alloc: Global,
    shared: &Shared,
    net: &Net,
    plan: Plan,
    members: &mut [Member],
) -> [usize; 3]
    requires some { 0 < length members.old }
    requires members { All (IsMember shared.now) members.old }
    requires net { net.now ≡ shared.now.net }
    requires few { plan.messages ≤ MAX_MESSAGES }
    ensures { HaveAllPlayed shared.now members.old members.new }
{
    let turns = plan.turns;
    play_round(rt, alloc, shared, net, Round::Enter, members);
    let first = play_round(rt, alloc, shared, net, Round::Receive(turns), members);
    play_round(rt, alloc, shared, net, Round::Enter, members);
    let again = play_round(rt, alloc, shared, net, Round::Receive(turns), members);
    play_round(rt, alloc, shared, net, Round::Send(plan), members);
    play_round(rt, alloc, shared, net, Round::Enter, members);
    let last = play_round(rt, alloc, shared, net, Round::Receive(turns), members);
    [first, again, last]
}

/// All rounds, after which all parties leave. How many wait each time.
#[tactic(auto, using(crate::proofs::Standing::playing_on))]
fn play_and_leave<R: Threads + Wait + Sync>(
    rt: &R,
    alloc: Global,
    shared: &Shared,
    net: &Net,
    plan: Plan,
    members: &mut [Member],
) -> [usize; 3]
    requires some { 0 < length members.old }
    requires members { All (IsMember shared.now) members.old }
    requires net { net.now ≡ shared.now.net }
    requires few { plan.messages ≤ MAX_MESSAGES }
    ensures { AreAllOut shared.now members.old members.new }
{
    let waited = play_rounds(rt, alloc, shared, net, plan, members);
    leave_all(rt, shared, members);
    waited
}

/// All parties of a network in rounds. How many units waited after each round in which they
/// received, and what comes of it.
pub fn run_in_rounds<R: Threads + Wait + Sync>(
    rt: &R,
    alloc: Global,
    net: &Net,
    plan: Plan,
) -> Result<([usize; 3], Played), AllocError>
    requires { plan.messages ≤ MAX_MESSAGES }
{
    let (shared, passes) = Shared::open(net)?;
    let mut members = deal(alloc, asking(), passes)?;
    let waited = play_and_leave(rt, alloc, &shared, net, plan, members.as_mut_slice());
    let passes = gather(alloc, members)?;
    let played = close(alloc, net, shared, passes)?;
    Ok((waited, played))
}
