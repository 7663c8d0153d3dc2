//! Systems from their descriptions, and what comes of them.
ghost use Rattle.std.specs.Prelude.{◌≤◌};

use crate::outputs::share_output;
use crate::plan::{MAX_MESSAGES, Plan};
use crate::replay::Played;
use crate::rounds::run_in_rounds;
use crate::threads::run_in_threads;
use com_net::{Net, NetError};
use std::alloc::{AllocError, Global};
use std::sync::Wait;
use std::thread::Threads;

/// The network that a description gives, which has no fault.
fn network(alloc: Global, description: &[u8]) -> Result<Net, AllocError> {
    match Net::read(alloc, description) {
        Ok(net) => Ok(net),
        Err(NetError::Refused(_)) => Err(AllocError),
        Err(NetError::Memory(error)) => Err(error),
    }
}

/// All parties do what the plan says, each in a thread of its own.
pub fn played<R: Threads + Wait + Sync>(
    rt: &R,
    alloc: Global,
    description: &[u8],
    plan: Plan,
) -> Result<Played, AllocError>
    requires { (plan.answers ≤ MAX_MESSAGES) × (plan.messages ≤ MAX_MESSAGES) }
{
    let net = network(alloc, description)?;
    run_in_threads(rt, alloc, &net, plan)
}

/// All parties in rounds, and how many units waited after each round in which they received.
pub fn played_in_rounds<R: Threads + Wait + Sync>(
    rt: &R,
    alloc: Global,
    description: &[u8],
    plan: Plan,
) -> Result<([usize; 3], Played), AllocError>
    requires { plan.messages ≤ MAX_MESSAGES }
{
    let net = network(alloc, description)?;
    run_in_rounds(rt, alloc, &net, plan)
}

/// Two units on the output of the one terminal, and STATUS KEY after each call.
pub fn played_on_one_output<R: Wait>(
    rt: &R,
    alloc: Global,
    description: &[u8],
) -> Result<(Vec<u8>, Played), AllocError> {
    let net = network(alloc, description)?;
    if net.units.len() != 2 || net.terminals.len() != 1 {
        return Err(AllocError);
    }
    share_output(rt, alloc, &net)
}
