//! Doing the calls of a script, in order.
ghost use Rattle.std.specs.Prelude.{◌≡◌, ◌<◌, ◌^◌, length, IfOk, IfErr, OnOk};
ghost use Rattle.com_journal.specs.Scripts.{lines_of};
ghost use Rattle.mcs_top.specs.Refusal.{IsRefused};
ghost use Rattle.mcs_top.specs.Running.{IsRunOf, HasDoneLines, DoesLine, IsLineRefused, AreRefused, TellsRefusedLine, failure_at};

use crate::run::Run;
use com_events::Entry;
use com_io::FILE_LIMIT;
use com_journal::{Lines, call_line, script_lines};
use com_net::Net;
use std::alloc::{AllocError, Global};

/// Why a script is refused at a line.
#[derive(Clone, Copy, Debug, PartialEq, Eq)]
pub enum Reason {
    /// The script is longer than the limit.
    Size,
    /// The header is bad, or the line is no call's text.
    Text,
    /// The call is not allowed there.
    NotAllowed,
}

/// Why a script was not done.
#[derive(Clone, Copy, Debug, PartialEq, Eq)]
pub enum ScriptFailure {
    /// The first line that is refused, from 1.
    Refused { line: u64, reason: Reason },
    Memory,
}

/// Why a line was not done.
#[derive(Clone, Copy, Debug, PartialEq, Eq)]
enum LineFailure {
    Text,
    NotAllowed,
    Memory,
}

impl From<AllocError> for LineFailure {
    ghost use Rattle.mcs_top.specs.declared.script.LineFailure.TheVariants.{Memory};

    ghost from_gives = { λ _ fault. fault ≡ Memory };

    fn from(_error: AllocError) -> LineFailure {
        LineFailure::Memory
    }
}

/// Does the calls of a script on a system in which nothing has happened.
pub fn perform(alloc: Global, net: &Net, script: &[u8]) -> Result<Run, ScriptFailure>
    ensures run { IfOk result (IsRunOf net.now script.now) }
    ensures refused { IfErr result (TellsRefusedLine net.now script.now) }
{
    if script.len() > FILE_LIMIT {
        return Err(ScriptFailure::Refused {
            line: 1,
            reason: Reason::Size,
        });
    }
    match script_lines(script) {
        Some(lines) => perform_lines(alloc, net, lines),
        None => Err(ScriptFailure::Refused {
            line: 1,
            reason: Reason::Text,
        }),
    }
}

/// Does the lines behind the header.
fn perform_lines(alloc: Global, net: &Net, lines: Lines<'_>) -> Result<Run, ScriptFailure>
    requires few { length lines < 2 ^ 62 }
    ensures done { IfOk result (HasDoneLines net.now (lines_of lines.entry)) }
    ensures refused { IfErr result (AreRefused net.now (lines_of lines.entry)) }
{
    let mut lines = lines;
    let Ok(mut run) = Run::new(alloc, net) else {
        return Err(ScriptFailure::Memory);
    };
    let mut number = 1u64;
    while let Some(line) = lines.next_line() {
        number += 1;
        if let Err(fault) = perform_line(alloc, &mut run, line.text) {
            return Err(failure_at(number, fault));
        }
    }
    Ok(run)
}

fn failure_at(line: u64, fault: LineFailure) -> ScriptFailure
    ensures { result ≡ failure_at line fault }
{
    match fault {
        LineFailure::Text => ScriptFailure::Refused {
            line,
            reason: Reason::Text,
        },
        LineFailure::NotAllowed => ScriptFailure::Refused {
            line,
            reason: Reason::NotAllowed,
        },
        LineFailure::Memory => ScriptFailure::Memory,
    }
}

/// Does the call of a line.
fn perform_line(alloc: Global, run: &mut Run, line: &[u8]) -> Result<(), LineFailure>
    requires arrivals { run.old.arrivals < 2 ^ 63 }
    requires portions { run.old.portions < 2 ^ 63 }
    ensures done { OnOk result (DoesLine line.now run.old run.new) }
    ensures refused { IfErr result (IsLineRefused run.old.state line.now) }
{
    let Some((party, call)) = call_line(alloc, line)? else {
        return Err(LineFailure::Text);
    };
    if !run.state.may(&party, &call) {
        return Err(LineFailure::NotAllowed);
    }
    let reply = run.state.apply(&party, &call)?;
    run.add(line, Entry { party, call, reply })?;
    Ok(())
}
