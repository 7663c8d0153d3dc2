//! The faults of items run by run: of their levels, of whole items, and of records.
ghost use Rattle.std.specs.Prelude.{◌≡◌, ◌≤◌, ◌&&◌, [], IfOk, drop, if◌then◌else◌, length, nat_lt, not};
ghost use Rattle.cob_forms.specs.Faults.{first};
ghost use Rattle.cob_data.specs.Entries.{split_runs, run};
ghost use Rattle.cob_data.specs.Faults.{is_counted, over, record_faults, records_faults, run_faults, runs_faults};
ghost use Rattle.cob_data.specs.Levels.{records_of};

use crate::entries::is_cd;
use crate::entry::Entry;
use crate::levels::first_level_fault;
use crate::records::{extent_length, first_record_fault, over};
use crate::runs::{next_record, next_run};
use crate::wholes::first_whole_fault;
use cob_forms::first_of;
use cob_lex::{MAX_SOURCE, SourceFault, Token};
use std::alloc::{AllocError, Global};

/// Whether a further record stands behind a place.
fn has_record(items: &[Entry], from: usize) -> bool
    requires { from ≤ length items.now }
    ensures { result ≡ nat_lt 0 (length (records_of (drop from items.now))) }
{
    match next_record(items, from) {
        Some(_) => true,
        None => false,
    }
}

/// Whether a record counts, by the place behind it: a further token stands behind what its first
/// item is made of.
fn is_counted(is_last: bool, items: &[Entry], past: usize, record: &[Entry]) -> bool
    requires { past ≤ length items.now }
    ensures { result ≡ is_counted is_last (records_of (drop past items.now)) record.now }
{
    !is_last || has_record(items, past) || extent_length(record) < record.len()
}

/// The first fault of a record that counts.
fn counted_fault(is_counted: bool, area: Option<u64>, record: &[Entry]) -> Option<SourceFault>
    requires { length record.now ≤ MAX_SOURCE }
    ensures { result ≡ first (if is_counted then record_faults area record.now else []) }
{
    if !is_counted {
        return None;
    }
    first_record_fault(area, record)
}

/// The first fault of the sizes of records.
fn first_records_fault(is_last: bool, area: Option<u64>, items: &[Entry]) -> Option<SourceFault>
    requires { length items.now ≤ MAX_SOURCE }
    ensures { result ≡ first (records_faults is_last area (records_of items.now)) }
{
    let mut found = None;
    let mut place = 0;
    'records: while let Some((record, past)) = next_record(items, place) {
        let counts = is_counted(is_last, items, past, record);
        found = first_of(found, counted_fault(counts, area, record));
        place = past;
    }
    found
}

/// The first fault of a header or a CD entry with the items behind it.
fn first_fault_of(
    alloc: Global,
    is_last: bool,
    head: &[Token],
    items: &[Entry],
) -> Result<Option<SourceFault>, AllocError>
    requires { length items.now ≤ MAX_SOURCE }
    ensures { IfOk result (λ found. found ≡ first (run_faults is_last (run head.now items.now))) }
{
    let over_cd = is_cd(head);
    let levels = first_level_fault(alloc, over_cd, items)?;
    let wholes = first_whole_fault(alloc, is_last, over_cd, items)?;
    let sizes = first_records_fault(is_last, over(head), items);
    Ok(first_of(first_of(levels, wholes), sizes))
}

/// Whether a further header or CD entry stands behind a place.
fn has_run(entries: &[Entry], from: usize) -> bool
    requires { from ≤ length entries.now }
    ensures { result ≡ nat_lt 0 (length (split_runs (drop from entries.now)).1) }
{
    match next_run(entries, from) {
        Some(_) => true,
        None => false,
    }
}

/// Whether no token stands behind the run that ends at a place.
fn is_last_run(is_followed: bool, entries: &[Entry], past: usize) -> bool
    requires { past ≤ length entries.now }
    ensures { result ≡ (not is_followed
        && not (nat_lt 0 (length (split_runs (drop past entries.now)).1))) }
{
    !is_followed && !has_run(entries, past)
}

/// The first fault of items by their levels, groups, values and records, by whether further tokens
/// stand behind the last entry.
pub(crate) fn first_run_fault(
    alloc: Global,
    is_followed: bool,
    entries: &[Entry],
) -> Result<Option<SourceFault>, AllocError>
    requires { length entries.now ≤ MAX_SOURCE }
    ensures { IfOk result
        (λ found. found ≡ first (runs_faults is_followed (split_runs entries.now).1)) }
{
    let mut found = None;
    let mut place = 0;
    'runs: while let Some((head, items, past)) = next_run(entries, place) {
        let is_last = is_last_run(is_followed, entries, past);
        let here = first_fault_of(alloc, is_last, head.tokens(), items)?;
        found = first_of(found, here);
        place = past;
    }
    Ok(found)
}
