//! Journals, written and read.
ghost use Rattle.std.specs.Prelude.{◌≡◌, ◌++◌, ◌+◌, ◌∷◌, [], ◌≤◌, ◌↔◌, ◌<◌, ◌^◌, ℕ, List, All, length, true, IsTrue, IfOk, IfErr, OnOk, MatchResult};
ghost use Rattle.com_events.specs.declared.entry.Entry.{Entry as AnEntry};
ghost use Rattle.com_events.specs.Calls.{HasText};
ghost use Rattle.com_journal.specs.declared.fault.JournalFault.{JournalFault as AFault};
ghost use Rattle.com_journal.specs.Lines.{IsCallText, IsLine};
ghost use Rattle.com_journal.specs.Journals.{IsJournal, AreLines, ended, journal_header};
ghost use Rattle.com_journal.specs.Faults.{Tells, IsJournalFault, IsRefusedLine, IsFirstLine};
ghost use Rattle.com_journal.specs.inner.Loops.{HasRead, IsRefusedBehind, IsRefusedAt, IsNoEntry, IsMemory};
ghost use Rattle.com_journal.specs.inner.Outcomes.{Is, IsOutOfMemory};

use crate::line::Unread;
use crate::split::{Lines, TextLine};
use crate::{JournalError, JournalFault, JournalKind, entry};
use com_events::Entry;
use com_text::Rows;
use std::alloc::{AllocError, Global};

const HEADER: &[u8; 13] = b"MCS-JOURNAL 1";

/// Returns the journal of entries that have a text: a header, and a line for each entry. The only
/// error is out of memory.
pub fn write(alloc: Global, entries: &[Entry]) -> Result<Rows<u8>, AllocError>
    requires { All HasText entries.now }
    ensures { IfOk result (IsJournal entries.now) }
{
    let mut out = Rows::new(alloc);
    out.extend_from_slice(HEADER)?;
    out.extend_from_slice(b"\n")?;
    for entry in entries {
        entry::put(&mut out, entry)?;
        out.extend_from_slice(b"\n")?;
    }
    Ok(out)
}

/// Adds the line of an entry that has a text, with its line feed, after the text of its call.
/// Without memory a prefix of it may have been added.
pub fn write_entry(call: &[u8], entry: &Entry, into: &mut Rows<u8>) -> Result<(), AllocError>
    requires text { HasText entry.now }
    requires call { IsCallText entry.now.party entry.now.call call.now }
    ensures { OnOk result ((line : List ℕ) × IsLine entry.now line
        × (into.new ≡ into.old ++ (line ++ 10 ∷ []))) }
{
    entry::put_behind(into, call, entry)?;
    into.extend_from_slice(b"\n")
}

/// Returns the entries of a journal, or the fault of the first line that is refused.
pub fn read(alloc: Global, bytes: &[u8]) -> Result<Rows<Entry>, JournalError>
    // What is read has these bytes as its journal, and a fault is that of the bytes.
    ensures read { IfOk result (λ entries. IsJournal entries bytes.now) }
    ensures texts { IfOk result (All HasText) }
    ensures refused { IfErr result (Tells (IsJournalFault bytes.now)) }
    // A journal is read, and a fault is reported, unless memory runs out.
    ensures each_journal { (history : List AnEntry) → IsJournal history bytes.now
        → MatchResult result (Is history) IsMemory }
    ensures each_fault { (fault : AFault) → IsJournalFault bytes.now fault
        → MatchResult result (λ _. ⊥) (Tells (Is fault)) }
{
    read_journal(alloc, bytes)
}

fn read_journal(alloc: Global, bytes: &[u8]) -> Result<Rows<Entry>, JournalError>
    ensures read { IfOk result (λ entries. IsJournal entries bytes.now) }
    ensures refused { IfErr result (Tells (IsJournalFault bytes.now)) }
{
    let mut lines = Lines::new(bytes);
    pass_header(&mut lines)?;
    read_entries(alloc, &mut lines)
}

/// Passes the header.
fn pass_header(lines: &mut Lines<'_>) -> Result<(), JournalError>
    ensures passed { OnOk result (lines.old ≡ journal_header ++ 10 ∷ lines.new) }
    ensures shorter { OnOk result (length lines.new < length lines.old) }
    ensures refused { IfErr result (Tells (IsRefusedAt 1 lines.old)) }
{
    let Some(line) = lines.next_line() else {
        return Err(refused(1, JournalKind::BadHeader));
    };
    if !is_header(line.text) {
        return Err(refused(1, JournalKind::BadHeader));
    }
    if !line.is_ended {
        return Err(refused(1, JournalKind::NoLineEnd));
    }
    Ok(())
}

fn is_header(line: &[u8]) -> bool
    ensures { IsTrue result ↔ (line.now ≡ journal_header) }
{
    line == HEADER.as_slice()
}

/// Takes the entries of the lines after the header.
fn read_entries(alloc: Global, lines: &mut Lines<'_>) -> Result<Rows<Entry>, JournalError>
    requires { length lines.old < 2 ^ 63 }
    ensures read { IfOk result (λ entries.
        (texts : List (List ℕ)) × AreLines entries texts × (lines.old ≡ ended texts)) }
    ensures refused { IfErr result (Tells (IsRefusedBehind lines.old)) }
{
    let mut entries = Rows::new(alloc);
    let mut number = 1u64;
    while let Some(line) = lines.next_line() {
        number += 1;
        let entry = entry_in(alloc, &line, number)?;
        entries
            .push(entry)
            .map_err(|(_, error)| JournalError::Memory(error))?;
    }
    Ok(entries)
}

/// Returns the entry of a line after the header.
fn entry_in(alloc: Global, line: &TextLine<'_>, number: u64) -> Result<Entry, JournalError>
    requires { 2 ≤ number }
    ensures entry { IfOk result (λ entry. IsLine entry line.now.text.now) }
    ensures ended { OnOk result (line.now.is_ended ≡ true) }
    ensures refused { IfErr result (Tells (IsNoEntry number line.now.text.now line.now.is_ended)) }
{
    if !line.is_ended {
        return Err(refused(number, JournalKind::NoLineEnd));
    }
    match entry::entry_of(alloc, line.text) {
        Ok(entry) => Ok(entry),
        Err(Unread::Refused) => Err(refused(number, JournalKind::BadLine)),
        Err(Unread::Memory) => Err(JournalError::Memory(AllocError)),
    }
}

pub(crate) fn refused(line: u64, kind: JournalKind) -> JournalError
    ensures { result ≡ JournalError.Refused (record { line = line; kind = kind }) }
{
    JournalError::Refused(JournalFault { line, kind })
}
