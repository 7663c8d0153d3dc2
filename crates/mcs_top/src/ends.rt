//! Why parties are done, by the entries that stop a unit or end a terminal.
ghost use Rattle.std.specs.Prelude.{◌≡◌};
ghost use Rattle.std.specs.List.{list_any};
ghost use Rattle.mcs_top.specs.Histories.{stop_by, stop_reason, end_by, end_reason, is_fault_reason, is_fault_end, verdict_of};

use com_events::{Call, EndReason, Entry, Party, StopReason};
use com_text::Name;

/// How the inputs of a history ended.
#[derive(Clone, Copy, Debug, PartialEq, Eq)]
pub enum Verdict {
    /// No END of the history has FRAME, FAULT or LONG.
    Sound,
    /// One has.
    Faulty,
}

/// Why a unit stops, by its first STOP.
pub fn stop_reason(name: &Name, entries: &[Entry]) -> Option<StopReason>
    ensures { result ≡ stop_reason name.now entries.now }
{
    for entry in entries {
        if let Some(reason) = stop_by(name, entry) {
            return Some(reason);
        }
    }
    None
}

/// Why the unit of this name stops, where the entry is its STOP.
fn stop_by(name: &Name, entry: &Entry) -> Option<StopReason>
    ensures { result ≡ stop_by name.now entry.now.party entry.now.call }
{
    match (&entry.party, &entry.call) {
        (Party::Unit(other), Call::Stop { reason }) if name == other => Some(*reason),
        _ => None,
    }
}

/// Why a terminal ends, by its first END.
pub fn end_reason(name: &Name, entries: &[Entry]) -> Option<EndReason>
    ensures { result ≡ end_reason name.now entries.now }
{
    for entry in entries {
        if let Some(reason) = end_by(name, entry) {
            return Some(reason);
        }
    }
    None
}

/// Why the terminal of this name ends, where the entry is its END.
fn end_by(name: &Name, entry: &Entry) -> Option<EndReason>
    ensures { result ≡ end_by name.now entry.now.party entry.now.call }
{
    match (&entry.party, &entry.call) {
        (Party::Terminal(other), Call::Finish { reason }) if name == other => Some(*reason),
        _ => None,
    }
}

/// Faulty exactly where some input ended in a fault.
pub fn verdict_of(entries: &[Entry]) -> Verdict
    ensures { result ≡ verdict_of entries.now }
{
    if has_fault_end(entries) {
        Verdict::Faulty
    } else {
        Verdict::Sound
    }
}

/// Whether some entry is an END with FRAME, FAULT or LONG.
fn has_fault_end(entries: &[Entry]) -> bool
    ensures { result ≡ list_any (λ entry. is_fault_end entry.call) entries.now }
{
    entries.iter().any(|entry| is_fault_end(&entry.call))
}

/// Whether the call is an END with FRAME, FAULT or LONG.
fn is_fault_end(call: &Call) -> bool
    ensures { result ≡ is_fault_end call.now }
{
    match call {
        Call::Finish { reason } => is_fault_reason(*reason),
        _ => false,
    }
}

fn is_fault_reason(reason: EndReason) -> bool
    ensures { result ≡ is_fault_reason reason }
{
    match reason {
        EndReason::Frame(_) | EndReason::Fault | EndReason::Long => true,
        EndReason::End | EndReason::Idle => false,
    }
}
