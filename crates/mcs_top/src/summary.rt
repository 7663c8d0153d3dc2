//! The summary of a run.
ghost use Rattle.std.specs.Prelude.{◌≡◌, ◌++◌, IfOk, OnOk, length, codes};
ghost use Rattle.com_state.specs.Transcripts.{sent_in};
ghost use Rattle.mcs_top.specs.Outputs.{stop_field, end_field, party_line, unit_lines, terminal_lines, count_line, count_lines};
ghost use Rattle.mcs_top.specs.Histories.{stop_reason, end_reason};
ghost use Rattle.mcs_top.specs.Running.{IsReached, summary_of};

use crate::ends::{end_reason, stop_reason};
use crate::run::Run;
use com_events::{EndReason, Entry, StopReason};
use com_journal::{write_finish, write_stop};
use com_net::{Terminal, UnitRow};
use com_state::State;
use com_text::{Name, Rows, put_number};
use std::alloc::{AllocError, Global};

/// The summary of a run.
pub fn summary(alloc: Global, run: &Run) -> Result<Rows<u8>, AllocError>
    requires { IsReached run.now.state }
    ensures { IfOk result (λ text. text ≡ summary_of run.now) }
{
    let mut out = Rows::new(alloc);
    let net = run.state.net();
    let ends = run.ends.as_slice();
    put_units(&mut out, net.units.as_slice(), ends)?;
    put_terminals(&mut out, net.terminals.as_slice(), ends)?;
    let transmitted = transmitted(&run.state)?;
    put_counts(&mut out, run.arrivals, run.portions, transmitted)?;
    Ok(out)
}

/// A line for each unit.
fn put_units(out: &mut Rows<u8>, units: &[UnitRow], ends: &[Entry]) -> Result<(), AllocError>
    ensures { OnOk result (out.new ≡ out.old ++ unit_lines units.now ends.now) }
{
    for unit in units {
        put_unit(out, &unit.name, stop_reason(&unit.name, ends))?;
    }
    Ok(())
}

fn put_unit(out: &mut Rows<u8>, name: &Name, reason: Option<StopReason>) -> Result<(), AllocError>
    ensures { OnOk result (out.new
        ≡ out.old ++ party_line (codes "unit ") name.now (stop_field reason)) }
{
    out.extend_from_slice(b"unit ")?;
    out.extend_from_slice(name.as_bytes())?;
    match reason {
        Some(reason) => write_stop(reason, out)?,
        None => out.extend_from_slice(b" -")?,
    }
    out.extend_from_slice(b"\n")
}

/// A line for each terminal.
fn put_terminals(
    out: &mut Rows<u8>,
    terminals: &[Terminal],
    ends: &[Entry],
) -> Result<(), AllocError>
    ensures { OnOk result (out.new ≡ out.old ++ terminal_lines terminals.now ends.now) }
{
    for terminal in terminals {
        put_terminal(out, &terminal.name, end_reason(&terminal.name, ends))?;
    }
    Ok(())
}

fn put_terminal(
    out: &mut Rows<u8>,
    name: &Name,
    reason: Option<EndReason>,
) -> Result<(), AllocError>
    ensures { OnOk result (out.new
        ≡ out.old ++ party_line (codes "terminal ") name.now (end_field reason)) }
{
    out.extend_from_slice(b"terminal ")?;
    out.extend_from_slice(name.as_bytes())?;
    match reason {
        Some(reason) => write_finish(reason, out)?,
        None => out.extend_from_slice(b" -")?,
    }
    out.extend_from_slice(b"\n")
}

fn put_counts(
    out: &mut Rows<u8>,
    arrivals: u64,
    portions: u64,
    transmitted: u64,
) -> Result<(), AllocError>
    ensures { OnOk result (out.new ≡ out.old ++ count_lines arrivals portions transmitted) }
{
    put_count(out, b"arrivals ", arrivals)?;
    put_count(out, b"portions ", portions)?;
    put_count(out, b"transmitted ", transmitted)?;
    Ok(())
}

fn put_count(out: &mut Rows<u8>, word: &[u8], count: u64) -> Result<(), AllocError>
    ensures { OnOk result (out.new ≡ out.old ++ count_line word.now count) }
{
    out.extend_from_slice(word)?;
    put_number(out, count)?;
    out.extend_from_slice(b"\n")
}

/// How many messages were transmitted to all terminals together. Err where it is no `u64`, which is
/// more messages than memory holds.
fn transmitted(state: &State) -> Result<u64, AllocError>
    requires { IsReached state.now }
    ensures { IfOk result (λ count. count ≡ length (sent_in state.now.outgoing)) }
{
    let mut total = 0u64;
    for terminal in 0..state.net().terminals.len() {
        let count = state.transmitted(terminal as u32).len() as u64;
        total = total.checked_add(count).ok_or(AllocError)?;
    }
    Ok(total)
}
