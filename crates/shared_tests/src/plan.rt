//! What the parties of a test do, and how they wait for each other.
ghost use Rattle.std.specs.Prelude.{◌≡◌};
ghost use Rattle.com_shared.specs.Passes.{IsPass, own};
ghost use Rattle.shared_tests.specs.Playing.{GoesOn, Runs, Feeds};

use com_shared::{Pass, Shared};
use std::sync::Wait;

/// How many messages a party sends or answers at most.
pub const MAX_MESSAGES: u32 = 1000;

/// What the parties do.
#[derive(Clone, Copy, Debug)]
pub struct Plan {
    /// Whether each unit first enables the queue, when a terminal holds its message.
    pub opens: bool,
    /// How many messages each unit answers at most.
    pub answers: u32,
    /// How many messages each terminal sends.
    pub messages: u32,
    /// A terminal sends its message `k` when there are `first + step * k` entries,
    pub first: u32,
    pub step: u32,
    /// and when so many turns have gone by.
    pub turns: u32,
    /// Each terminal stays active until there are so many entries.
    pub last: u64,
}

/// Waits until there are so many entries.
#[tactic(auto, using(crate::proofs::Playing::playing))]
pub fn wait_for_entries<R: Wait>(rt: &R, shared: &Shared, pass: &mut Pass, entries: u64)
    requires { IsPass shared.now pass.old }
    ensures goes_on { GoesOn shared.now pass.old pass.new }
    ensures own { own pass.new ≡ own pass.old }
{
    for _ in rt.forever() {
        if shared.entries(rt, pass) >= entries {
            return;
        }
    }
}

/// Lets so many turns go by.
#[tactic(auto, using(crate::proofs::Playing::playing))]
pub fn let_turns_go<R: Wait>(rt: &R, shared: &Shared, pass: &mut Pass, turns: u32)
    requires { IsPass shared.now pass.old }
    ensures goes_on { GoesOn shared.now pass.old pass.new }
    ensures own { own pass.new ≡ own pass.old }
{
    for _ in 0..turns {
        shared.entries(rt, pass);
    }
}

/// Waits until there are so many entries, and lets so many turns go by.
pub fn bide<R: Wait>(rt: &R, shared: &Shared, pass: &mut Pass, entries: u64, turns: u32)
    requires { IsPass shared.now pass.old }
    ensures goes_on { GoesOn shared.now pass.old pass.new }
    ensures own { own pass.new ≡ own pass.old }
{
    wait_for_entries(rt, shared, pass, entries);
    let_turns_go(rt, shared, pass, turns);
}

/// A unit that has done so many verbs waits until there are so many entries.
#[tactic(auto, using(crate::proofs::Playing::still))]
pub fn bide_as_unit<R: Wait>(
    rt: &R,
    shared: &Shared,
    pass: &mut Pass,
    entries: u64,
    turns: u32,
    verbs: u32,
)
    requires { Runs shared.now verbs pass.old }
    ensures goes_on { GoesOn shared.now pass.old pass.new }
    ensures runs { Runs shared.now verbs pass.new }
{
    let _ = verbs;
    bide(rt, shared, pass, entries, turns);
}

/// A terminal waits until its next message may go, by the plan.
#[tactic(auto, using(crate::proofs::Feeding::still))]
pub fn bide_as_terminal<R: Wait>(
    rt: &R,
    shared: &Shared,
    pass: &mut Pass,
    plan: Plan,
    arrivals: u32,
)
    requires { Feeds shared.now arrivals pass.old }
    ensures goes_on { GoesOn shared.now pass.old pass.new }
    ensures feeds { Feeds shared.now arrivals pass.new }
{
    let entries = u64::from(plan.first) + u64::from(plan.step) * u64::from(arrivals);
    bide(rt, shared, pass, entries, plan.turns);
}
