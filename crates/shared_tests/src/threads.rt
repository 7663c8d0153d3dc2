//! The parties of a system in threads of their own, and its end.
ghost use Rattle.std.specs.Prelude.{◌≡◌, ◌-◌, ◌<◌, ◌≤◌, length, nat_lt, is_some, All};
ghost use Rattle.com_state.specs.Steps.{feed_of};
ghost use Rattle.com_shared.specs.Passes.{IsPass};
ghost use Rattle.shared_tests.specs.Playing.{GoesOn, IsFresh, StaysFresh, HasLeft, AllStayFresh, HaveAllLeft};

use crate::closing::close;
use crate::parties::{feed, serve};
use crate::plan::{MAX_MESSAGES, Plan};
use crate::replay::Played;
use com_net::Net;
use com_shared::{Pass, Shared};
use std::alloc::{AllocError, Global};
use std::sync::Wait;
use std::thread;
use std::thread::Threads;

/// Whether a pass is that of a unit.
pub fn is_unit(net: &Net, pass: &Pass) -> bool
    ensures { result ≡ nat_lt pass.now.number (length net.now.units) }
{
    (pass.number() as usize) < net.units.len()
}

/// Whether the terminal of a pass has a route.
pub fn has_route(shared: &Shared, net: &Net, pass: &Pass) -> bool
    requires pass { IsPass shared.now pass.now }
    requires net { net.now ≡ shared.now.net }
    requires terminal { length net.now.units ≤ pass.now.number }
    ensures { result ≡ is_some (feed_of net.now (pass.now.number - length net.now.units)) }
{
    let _ = shared;
    let terminal = pass.number() as usize - net.units.len();
    match net.terminals.as_slice()[terminal].feed {
        Some(_) => true,
        None => false,
    }
}

/// What one party does.
#[tactic(auto, using(crate::proofs::Beginning::beginning))]
fn act<R: Wait>(rt: &R, alloc: Global, shared: &Shared, net: &Net, plan: Plan, pass: &mut Pass)
    requires fresh { IsFresh shared.now pass.old }
    requires net { net.now ≡ shared.now.net }
    requires few { (plan.answers ≤ MAX_MESSAGES) × (plan.messages ≤ MAX_MESSAGES) }
    ensures { GoesOn shared.now pass.old pass.new }
{
    if is_unit(net, pass) {
        drop(serve(rt, alloc, shared, pass, plan));
        return;
    }
    if !has_route(shared, net, pass) {
        return;
    }
    drop(feed(rt, alloc, shared, pass, plan));
}

/// What one party does, after which it is not active.
fn play<R: Wait>(rt: &R, alloc: Global, shared: &Shared, net: &Net, plan: Plan, pass: &mut Pass)
    requires fresh { IsFresh shared.now pass.old }
    requires net { net.now ≡ shared.now.net }
    requires few { (plan.answers ≤ MAX_MESSAGES) × (plan.messages ≤ MAX_MESSAGES) }
    ensures { HasLeft shared.now pass.old pass.new }
{
    act(rt, alloc, shared, net, plan, pass);
    shared.leave(rt, pass);
}

/// A party becomes active.
#[tactic(auto, using(crate::proofs::Beginning::beginning))]
fn enter<R: Wait>(rt: &R, shared: &Shared, pass: &mut Pass)
    requires { IsFresh shared.now pass.old }
    ensures { StaysFresh shared.now pass.old pass.new }
{
    shared.enter(rt, pass);
}

/// All parties become active, each in a thread of its own.
fn enter_all<R: Threads + Wait + Sync>(rt: &R, shared: &Shared, passes: &mut [Pass])
    requires some { 0 < length passes.old }
    requires fresh { All (IsFresh shared.now) passes.old }
    ensures { AllStayFresh shared.now passes.old passes.new }
{
    let threads = passes.len();
    thread::for_each_mut(rt, passes, threads, &|_, pass| enter(rt, shared, pass));
}

/// All parties do what they do, each in a thread of its own.
fn play_all<R: Threads + Wait + Sync>(
    rt: &R,
    alloc: Global,
    shared: &Shared,
    net: &Net,
    plan: Plan,
    passes: &mut [Pass],
)
    requires some { 0 < length passes.old }
    requires fresh { All (IsFresh shared.now) passes.old }
    requires net { net.now ≡ shared.now.net }
    requires few { (plan.answers ≤ MAX_MESSAGES) × (plan.messages ≤ MAX_MESSAGES) }
    ensures { HaveAllLeft shared.now passes.old passes.new }
{
    let threads = passes.len();
    thread::for_each_mut(
        rt,
        passes,
        threads,
        &|_, pass| { play(rt, alloc, shared, net, plan, pass) },
    );
}

/// All parties become active, and then do what they do.
fn enter_and_play<R: Threads + Wait + Sync>(
    rt: &R,
    alloc: Global,
    shared: &Shared,
    net: &Net,
    plan: Plan,
    passes: &mut [Pass],
)
    requires some { 0 < length passes.old }
    requires fresh { All (IsFresh shared.now) passes.old }
    requires net { net.now ≡ shared.now.net }
    requires few { (plan.answers ≤ MAX_MESSAGES) × (plan.messages ≤ MAX_MESSAGES) }
    ensures { HaveAllLeft shared.now passes.old passes.new }
{
    enter_all(rt, shared, passes);
    play_all(rt, alloc, shared, net, plan, passes);
}

/// All parties of a network in threads of their own, and what comes of it.
pub fn run_in_threads<R: Threads + Wait + Sync>(
    rt: &R,
    alloc: Global,
    net: &Net,
    plan: Plan,
) -> Result<Played, AllocError>
    requires few { (plan.answers ≤ MAX_MESSAGES) × (plan.messages ≤ MAX_MESSAGES) }
{
    let (shared, mut passes) = Shared::open(net)?;
    enter_and_play(rt, alloc, &shared, net, plan, passes.as_mut_slice());
    close(alloc, net, shared, passes)
}
