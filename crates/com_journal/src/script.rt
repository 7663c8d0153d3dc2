//! The calls of scripts.
ghost use Rattle.std.specs.Prelude.{◌≡◌, ◌∷◌, ◌++◌, ◌↔◌, ◌<◌, ◌^◌, ℕ, List, length, IsTrue, IfOk, IfErr, IfSome, IfNone, Some, MatchResult};
ghost use Rattle.com_events.specs.declared.call.Party.{Party as AParty};
ghost use Rattle.com_events.specs.declared.call.Call.{Call as ACall};
ghost use Rattle.com_journal.specs.declared.fault.JournalFault.{JournalFault as AFault};
ghost use Rattle.com_journal.specs.Lines.{IsCallText};
ghost use Rattle.com_journal.specs.Scripts.{IsScript, AreCalls, lines_of, script_header};
ghost use Rattle.com_journal.specs.Faults.{Tells, IsScriptFault, IsFirstLine};
ghost use Rattle.com_journal.specs.inner.Loops.{IsNoCall, IsBadCallBehind, IsMemory};
ghost use Rattle.com_journal.specs.inner.Outcomes.{Is, IsOutOfMemory};

use crate::journal::refused;
use crate::line::Unread;
use crate::split::Lines;
use crate::{JournalError, JournalKind, entry};
use com_events::{Call, Party};
use com_text::Rows;
use std::alloc::{AllocError, Global};

const HEADER: &[u8; 12] = b"MCS-SCRIPT 1";

/// Returns the call whose text a line of a script is, without its line feed. None exactly if it is
/// no call's text.
pub fn call_line(alloc: Global, bytes: &[u8]) -> Result<Option<(Party, Call)>, AllocError>
    ensures found { IfOk result (λ found.
        IfSome found (λ call. IsCallText call.0 call.1 bytes.now)) }
    ensures each_text { (party : AParty) (call : ACall) → IsCallText party call bytes.now
        → IfOk result (λ found. found ≡ Some (party, call)) }
{
    match entry::call_of(alloc, bytes) {
        Ok(found) => Ok(Some(found)),
        Err(Unread::Refused) => Ok(None),
        Err(Unread::Memory) => Err(AllocError),
    }
}

/// Returns the lines of a script after its header. None exactly if the first line is not the
/// header.
pub fn script_lines(bytes: &[u8]) -> Option<Lines<'_>>
    ensures lines { IfSome result
        (λ lines. lines_of bytes.now ≡ script_header ∷ lines_of lines) }
    ensures shorter { IfSome result (λ lines. length lines < length bytes.now) }
    ensures none { IfNone result
        ((lines : List (List ℕ)) → lines_of bytes.now ≡ script_header ∷ lines → ⊥) }
{
    let mut lines = Lines::new(bytes);
    let Some(line) = lines.next_line() else {
        return None;
    };
    if is_header(line.text) {
        Some(lines)
    } else {
        None
    }
}

/// Returns the calls of a script, in order, or the fault of the first line that is refused.
pub fn read_calls(alloc: Global, bytes: &[u8]) -> Result<Rows<(Party, Call)>, JournalError>
    // What is read are the script's calls, and a fault is that of the bytes.
    ensures read { IfOk result (λ calls. IsScript calls bytes.now) }
    ensures refused { IfErr result (Tells (IsScriptFault bytes.now)) }
    // A script is read, and a fault is reported, unless memory runs out.
    ensures each_script { (calls : List (AParty × ACall)) → IsScript calls bytes.now
        → MatchResult result (Is calls) IsMemory }
    ensures each_fault { (fault : AFault) → IsScriptFault bytes.now fault
        → MatchResult result (λ _. ⊥) (Tells (Is fault)) }
{
    read_script(alloc, bytes)
}

fn read_script(alloc: Global, bytes: &[u8]) -> Result<Rows<(Party, Call)>, JournalError>
    ensures read { IfOk result (λ calls. IsScript calls bytes.now) }
    ensures refused { IfErr result (Tells (IsScriptFault bytes.now)) }
{
    let Some(mut lines) = script_lines(bytes) else {
        return Err(refused(1, JournalKind::BadHeader));
    };
    read_lines(alloc, &mut lines)
}

fn is_header(line: &[u8]) -> bool
    ensures { IsTrue result ↔ (line.now ≡ script_header) }
{
    line == HEADER.as_slice()
}

/// Takes the calls of the lines after the header.
fn read_lines(alloc: Global, lines: &mut Lines<'_>) -> Result<Rows<(Party, Call)>, JournalError>
    requires { length lines.old < 2 ^ 63 }
    ensures read { IfOk result (λ calls. AreCalls calls (lines_of lines.old)) }
    ensures refused { IfErr result (Tells (IsBadCallBehind lines.old)) }
{
    let mut calls = Rows::new(alloc);
    let mut number = 1u64;
    while let Some(line) = lines.next_line() {
        number += 1;
        let call = call_in(alloc, line.text, number)?;
        calls
            .push(call)
            .map_err(|(_, error)| JournalError::Memory(error))?;
    }
    Ok(calls)
}

/// Returns the call of a line after the header.
fn call_in(alloc: Global, line: &[u8], number: u64) -> Result<(Party, Call), JournalError>
    ensures call { IfOk result (λ call. IsCallText call.0 call.1 line.now) }
    ensures refused { IfErr result (Tells (IsNoCall number line.now)) }
{
    match entry::call_of(alloc, line) {
        Ok(call) => Ok(call),
        Err(Unread::Refused) => Err(refused(number, JournalKind::BadLine)),
        Err(Unread::Memory) => Err(JournalError::Memory(AllocError)),
    }
}
