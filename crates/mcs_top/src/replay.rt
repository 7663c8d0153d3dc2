//! `replay`: does the calls of a script on one thread.
ghost use Rattle.std.specs.Prelude.{◌≡◌, OnOk, IfOk, IfErr};
ghost use Rattle.com_io.specs.Files.{file_limit, IsRead};
ghost use Rattle.mcs_top.specs.Replay.{IsNetRead, IsScriptDone, HasReplayed};
ghost use Rattle.mcs_top.specs.Failing.{IsNetFailure, IsScriptFailure, HasNotReplayed};
ghost use Rattle.mcs_top.specs.Running.{IsDoneBy, IsReached};
ghost use Rattle.mcs_top.specs.Failing.{IsReplayedOn, IsNotReplayedOn, IsWrittenRun, IsUnwrittenRun};

use crate::ends::Verdict;
use crate::files::{read_named, read_net};
use crate::outputs::write_outputs;
use crate::report::{Failure, Refusal};
use crate::run::Run;
use crate::script::{ScriptFailure, perform};
use com_io::{Store, StoreFault};
use com_net::Net;
use std::alloc::Global;

/// Reads a description and a script, does the script's calls, and writes the journal of their
/// history, the transcripts and the summary.
pub fn replay<'a, S: Store>(
    alloc: Global,
    net_file: &'a str,
    script_file: &'a str,
    store: &mut S,
) -> Result<Verdict, Failure<'a>>
    ensures ok { IfOk result
        (HasReplayed (S.shows store.old) (S.shows store.new) net_file.now script_file.now) }
    ensures err { IfErr result
        (HasNotReplayed net_file.now script_file.now (S.shows store.old) (S.shows store.new)) }
    ensures pending { (S.shows store.new).pending ≡ (S.shows store.old).pending }
{
    let net = read_net(alloc, net_file, store)?;
    replay_on(alloc, &net, script_file, store)
}

/// Reads a script, does its calls on a network, and writes what is written of their history.
fn replay_on<'a, S: Store>(
    alloc: Global,
    net: &Net,
    script_file: &'a str,
    store: &mut S,
) -> Result<Verdict, Failure<'a>>
    ensures ok { IfOk result
        (IsReplayedOn script_file.now net.now (S.shows store.old) (S.shows store.new)) }
    ensures err { IfErr result
        (IsNotReplayedOn script_file.now net.now (S.shows store.old) (S.shows store.new)) }
    ensures pending { (S.shows store.new).pending ≡ (S.shows store.old).pending }
{
    let run = perform_file(alloc, net, script_file, store)?;
    write_run(alloc, &run, store)
}

/// Writes what is written of a run, and answers its verdict.
fn write_run<'a, S: Store>(alloc: Global, run: &Run, store: &mut S) -> Result<Verdict, Failure<'a>>
    requires reached { IsReached run.now.state }
    ensures ok { IfOk result (IsWrittenRun run.now (S.shows store.old) (S.shows store.new)) }
    ensures err { IfErr result (IsUnwrittenRun run.now (S.shows store.old) (S.shows store.new)) }
    ensures pending { (S.shows store.new).pending ≡ (S.shows store.old).pending }
{
    match write_outputs(alloc, run, store) {
        Ok(()) => Ok(run.verdict()),
        Err(StoreFault::Failed) => Err(Failure::Write),
        Err(StoreFault::Memory) => Err(Failure::Memory),
    }
}

/// Reads a script, and does its calls.
fn perform_file<'a, S: Store>(
    alloc: Global,
    net: &Net,
    script_file: &'a str,
    store: &mut S,
) -> Result<Run, Failure<'a>>
    ensures ok { IfOk result
        (IsDoneBy script_file.now net.now (S.shows store.old) (S.shows store.new)) }
    ensures err { IfErr result
        (IsScriptFailure script_file.now net.now (S.shows store.old) (S.shows store.new)) }
    ensures pending { (S.shows store.new).pending ≡ (S.shows store.old).pending }
{
    let script = read_named(alloc, script_file, store)?;
    match perform(alloc, net, &script) {
        Ok(run) => Ok(run),
        Err(ScriptFailure::Refused { line, reason }) => {
            Err(Failure::Refused(Refusal::Script { line, reason }))
        }
        Err(ScriptFailure::Memory) => Err(Failure::Memory),
    }
}
