//! The divisions from the first token to the word PROCEDURE.
ghost use Rattle.std.specs.Prelude.{◌≡◌, ◌+◌, ◌≤◌, ◌<◌, ◌&&◌, ◌++◌, IfErr, IfOk, MatchResult, None, Some, drop, false, length, not, option_map};
ghost use Rattle.cob_forms.specs.Faults.{at_first, before_wanted, first};
ghost use Rattle.cob_lex.specs.declared.fault.SourceKind.TheVariants.{WantedWord};
ghost use Rattle.cob_forms.specs.Forms.{ends, reading, wanted};
ghost use Rattle.cob_data.specs.Forms.{data_division, alternatives_of};
ghost use Rattle.cob_data.specs.Entries.{cd_runs, chosen_word, entries_of, leads, split_runs, run, second_token, storage_items, word_flags};
ghost use Rattle.cob_data.specs.Divisions.{IsDivisionOf, IsDivisionBefore, cd_named, cds_from, items_by_area, word_behind};
ghost use Rattle.cob_data.specs.Levels.{records_of};
ghost use Rattle.cob_forms.specs.Answers.{IsRefused};
ghost use Rattle.cob_data.specs.Faults.{data_fault, division_reading, faults_by, limits};
ghost use Rattle.cob_data.specs.Occurrences.{HasOccurrences};

use crate::cds::cd_body;
use crate::entries::{Entries, is_cd, leads};
use crate::entry::Entry;
use crate::grammar::DIVISIONS;
use crate::items::{items_by_area, items_over};
use crate::passes::first_other_fault;
use crate::reader::{Wanted, read_parts};
use crate::runs::{described, next_run};
use crate::{CdEntry, DataDivision, Item};
use cob_forms::{Name, first_with, next_is_word, split_wanted};
use cob_lex::{MAX_SOURCE, SourceError, SourceFault, Token};
use com_text::Rows;
use std::alloc::{AllocError, Global};

/// How many tokens stand before the word PROCEDURE, or how many are left where another is wanted.
/// Where PROCEDURE is the last token, the tokens end too early.
pub(crate) fn procedure_place(tokens: &[Token]) -> Result<usize, Wanted>
    ensures { MatchResult result
        (λ place. (reading alternatives_of data_division tokens.now
        ≡ ends (drop (place + 1) tokens.now)) × (place + 1 < length tokens.now)
        × (division_reading tokens.now ≡ ends (drop (place + 1) tokens.now)))
        (λ stop. division_reading tokens.now ≡ wanted stop.left) }
{
    let rest = read_parts(DIVISIONS, tokens)?;
    if !next_is_word(rest, b"PROCEDURE") {
        return Err(Wanted { left: rest.len() });
    }
    if rest.len() == 1 {
        return Err(Wanted { left: 0 });
    }
    Ok(tokens.len() - rest.len())
}

/// The first fault of tokens among which another one is wanted.
fn first_fault_before_stop(
    alloc: Global,
    tokens: &[Token],
    stop: Wanted,
) -> Result<SourceFault, AllocError>
    requires { length tokens.now ≤ MAX_SOURCE }
    ensures { IfOk result
        (λ fault. first (faults_by limits tokens.now (wanted stop.left)) ≡ Some fault) }
{
    let (front, wanted) = split_wanted(tokens, stop.left);
    let found = first_other_fault(alloc, false, front, front)?;
    Ok(first_with(wanted, found))
}

/// The first fault of tokens that tell divisions, with so many before the word PROCEDURE.
fn first_fault_before_procedure(
    alloc: Global,
    tokens: &[Token],
    place: usize,
) -> Result<Option<SourceFault>, AllocError>
    requires few { length tokens.now ≤ MAX_SOURCE }
    requires within { place + 1 < length tokens.now }
    ensures { IfOk result
        (λ found. found
        ≡ first (faults_by limits tokens.now (ends (drop (place + 1) tokens.now)))) }
{
    let (before, _) = tokens.split_at(place);
    let (with_word, _) = tokens.split_at(place + 1);
    first_other_fault(alloc, true, with_word, before)
}

/// Where the program's name stands among the tokens, from 0.
const NAME_PLACE: usize = 5;

/// The divisions that tokens tell, with so many before the word PROCEDURE.
fn division_before(
    alloc: Global,
    tokens: &[Token],
    place: usize,
) -> Result<DataDivision, AllocError>
    requires few { length tokens.now ≤ MAX_SOURCE }
    requires complete { reading alternatives_of data_division tokens.now
        ≡ ends (drop (place + 1) tokens.now) }
    requires within { place < length tokens.now }
    ensures { IfOk result (λ division. IsDivisionOf tokens.now place division) }
{
    let (before, _) = tokens.split_at(place);
    divisions(alloc, &tokens[NAME_PLACE], before)
}

/// Reads the divisions from the first token to the word PROCEDURE, and says how many tokens stand
/// before that word.
pub fn data_division(alloc: Global, tokens: &[Token]) -> Result<(DataDivision, usize), SourceError>
    // A source has no more tokens than bytes.
    requires { length tokens.now ≤ MAX_SOURCE }
    // The tokens tell the divisions that are found, and no others.
    ensures division { IfOk result (λ x. IsDivisionOf tokens.now x.1 x.0) }
    // Where they are found there is no fault.
    ensures sound { IfOk result (λ _. data_fault tokens.now ≡ None) }
    // Each of its tables has 1 to 8 destinations.
    ensures occurrences { IfOk result (λ x. HasOccurrences x.0) }
    // A refusal tells the first fault. Where memory runs out, nothing is said of the tokens.
    ensures fault { IfErr result (λ error. IsRefused error (data_fault tokens.now)) }
{
    match procedure_place(tokens) {
        Ok(place) => match first_fault_before_procedure(alloc, tokens, place)? {
            None => Ok((division_before(alloc, tokens, place)?, place)),
            Some(fault) => Err(SourceError::Refused(fault)),
        },
        Err(stop) => {
            let fault = first_fault_before_stop(alloc, tokens, stop)?;
            Err(SourceError::Refused(fault))
        }
    }
}

/// What the tokens before the word PROCEDURE tell, with the token that names the program.
fn divisions(alloc: Global, named: &Token, before: &[Token]) -> Result<DataDivision, AllocError>
    requires { length before.now ≤ MAX_SOURCE }
    ensures { IfOk result (λ division. IsDivisionBefore named.now before.now division) }
{
    let entries = described(alloc, before)?;
    let (working_storage, areas) = working_storage(alloc, &entries)?;
    let communication = communication(alloc, areas, &entries)?;
    Ok(DataDivision {
        program: Name::of(named)?,
        source_computer: word_behind(b"SOURCE-COMPUTER", before)?,
        object_computer: word_behind(b"OBJECT-COMPUTER", before)?,
        working_storage: Rows::of_vec(working_storage),
        communication: Rows::of_vec(communication),
    })
}

/// The word behind a header.
fn word_behind(header: &[u8], tokens: &[Token]) -> Result<Option<Name>, AllocError>
    ensures { IfOk result (λ name. name ≡ word_behind header.now tokens.now) }
{
    match chosen_word(header, tokens) {
        Some(token) => Ok(Some(Name::of(token)?)),
        None => Ok(None),
    }
}

/// The token behind a header.
fn chosen_word<'a>(header: &[u8], tokens: &'a [Token]) -> Option<&'a Token>
    ensures { option_map (λ token. token.now) result
        ≡ chosen_word header.now (word_flags false (entries_of tokens.now)) }
{
    let mut entries = Entries::of(tokens);
    let mut is_header = false;
    'entries: while let Some((is_chosen, entry)) = entries.next() {
        if is_header {
            return entry.first();
        }
        is_header = leads_as(is_chosen, entry, header);
    }
    None
}

/// Whether an entry is this header, and no word that the program chooses.
fn leads_as(is_chosen: bool, entry: &[Token], header: &[u8]) -> bool
    ensures { result ≡ (not is_chosen && leads header.now entry.now) }
{
    !is_chosen && leads(entry, header)
}

/// The items of Working-Storage, and how many areas they have.
fn working_storage(alloc: Global, entries: &[Entry]) -> Result<(Vec<Item>, u32), AllocError>
    requires { length entries.now ≤ MAX_SOURCE }
    ensures items { IfOk result
        (λ x. x.0.items ≡ items_by_area 0 (records_of (storage_items (split_runs entries.now).1))) }
    ensures areas { IfOk result
        (λ x. x.1 ≡ length (records_of (storage_items (split_runs entries.now).1))) }
    ensures few { IfOk result (λ x. x.1 ≤ MAX_SOURCE) }
{
    let mut place = 0;
    'runs: while let Some((head, items, past)) = next_run(entries, place) {
        if leads(head.tokens(), b"WORKING-STORAGE") {
            return items_by_area(alloc, items);
        }
        place = past;
    }
    Ok((Vec::new(alloc), 0))
}

/// The CD entries, of which the first has this area.
fn communication(alloc: Global, first: u32, entries: &[Entry]) -> Result<Vec<CdEntry>, AllocError>
    requires area { first ≤ MAX_SOURCE }
    requires few { length entries.now ≤ MAX_SOURCE }
    ensures { IfOk result
        (λ list. list.items ≡ cds_from first (cd_runs (split_runs entries.now).1)) }
{
    let mut list = Vec::new(alloc);
    let mut area = first;
    let mut place = 0;
    'runs: while let Some((head, items, past)) = next_run(entries, place) {
        if is_cd(head.tokens()) {
            put_cd(alloc, area, head.tokens(), items, &mut list)?;
            area += 1;
        }
        place = past;
    }
    Ok(list)
}

/// Adds a CD entry with the records over its area.
fn put_cd(
    alloc: Global,
    area: u32,
    head: &[Token],
    items: &[Entry],
    list: &mut Vec<CdEntry>,
) -> Result<(), AllocError>
    requires { length items.now ≤ MAX_SOURCE }
    ensures { IfOk result
        (λ _. list.new.items ≡ list.old.items
        ++ cd_named (second_token head.now) area (run head.now items.now)) }
{
    if let Some(named) = head.get(1) {
        list.push(CdEntry {
            name: Name::of(named)?,
            body: cd_body(alloc, head)?,
            area,
            records: Rows::of_vec(items_over(alloc, area, items)?),
        })?;
    }
    Ok(())
}
