//! How the storage of a program begins.
ghost use Rattle.std.specs.Prelude.{◌≡◌, ◌≤◌, ◌-◌, ◌++◌, IfOk, IfSome, drop, length, map, replicate, true};
ghost use Rattle.std.specs.List.{list_all};
ghost use Rattle.com_cd.specs.InputArea.{zeros};
ghost use Rattle.com_cd.specs.declared.output_area.TheConstants.{MAX_OCCURRENCES};
ghost use Rattle.com_text.specs.Name.{spaces};
ghost use Rattle.cob_data.specs.Clauses.{or_one};
ghost use Rattle.cob_data.specs.Layout.{begins_record, fill, opening_cd, opening_of, opening_storage, table_number, table_of};
ghost use Rattle.cob_data.specs.Occurrences.{HasOccurrences, is_body_right, is_table_right};

use crate::entry::{numeral, rank_of};
use crate::{CdBody, CdEntry, DataDivision, Item, ItemSort, OutputClause, Value};
use com_cd::{InArea, OutArea};
use com_text::Rows;
use std::alloc::{AllocError, Global};

/// Adds a character so many times.
fn put_many(byte: u8, count: usize, area: &mut Vec<u8>) -> Result<(), AllocError>
    ensures { IfOk result (λ _. area.new.items ≡ area.old.items ++ replicate count byte) }
{
    'characters: for _ in 0..count {
        area.push(byte)?;
    }
    Ok(())
}

/// Adds characters with spaces on their right.
fn put_text(characters: &[u8], size: usize, area: &mut Vec<u8>) -> Result<(), AllocError>
    ensures { IfOk result
        (λ _. area.new.items ≡ area.old.items
        ++ (characters.now ++ spaces (size - length characters.now))) }
{
    area.extend_from_slice(characters)?;
    put_many(b' ', size.saturating_sub(characters.len()), area)
}

/// Adds digits with zeros on their left.
fn put_digits(digits: &[u8], size: usize, area: &mut Vec<u8>) -> Result<(), AllocError>
    ensures { IfOk result
        (λ _. area.new.items ≡ area.old.items ++ (zeros (size - length digits.now) ++ digits.now)) }
{
    put_many(b'0', size.saturating_sub(digits.len()), area)?;
    area.extend_from_slice(digits)?;
    Ok(())
}

/// Adds the characters with which an item begins.
fn put_opening(item: &Item, area: &mut Vec<u8>) -> Result<(), AllocError>
    ensures { IfOk result (λ _. area.new.items ≡ area.old.items ++ opening_of item.now) }
{
    let size = item.place.length as usize;
    match (item.place.sort, &item.value) {
        (ItemSort::Group, _) => Ok(()),
        (_, Some(Value::Literal(literal))) => {
            put_text(literal.characters.as_bytes(), size, area)
        }
        (_, Some(Value::Number(number))) => put_digits(number.digits.as_bytes(), size, area),
        (_, Some(Value::Spaces(_))) | (ItemSort::Alphanumeric, None) => put_many(b' ', size, area),
        (_, Some(Value::Zeros(_))) | (ItemSort::Numeric, None) => put_many(b'0', size, area),
    }
}

/// Whether an item begins a record.
fn begins_record(item: &Item) -> bool
    ensures { result ≡ begins_record item.now }
{
    rank_of(item.level.digits.as_bytes()) == 1
}

/// Adds the characters of the items from a place on up to the next record, whose place is given.
fn put_below(items: &[Item], from: usize, area: &mut Vec<u8>) -> Result<usize, AllocError>
    requires { from ≤ length items.now }
    ensures characters { IfOk result
        (λ _. area.new.items ≡ area.old.items ++ (fill (drop from items.now)).0) }
    ensures others { IfOk result
        (λ past. (fill (drop past items.now)).1 ≡ (fill (drop from items.now)).1) }
    ensures past { IfOk result (λ past. (from ≤ past) × (past ≤ length items.now)) }
{
    let mut place = from;
    'items: while place < items.len() {
        let item = &items[place];
        if begins_record(item) {
            return Ok(place);
        }
        put_opening(item, area)?;
        place += 1;
    }
    Ok(place)
}

/// The areas of Working-Storage.
fn storage_areas(alloc: Global, items: &[Item]) -> Result<Vec<Rows<u8>>, AllocError>
    ensures { IfOk result (λ areas. areas.items ≡ (fill items.now).1) }
{
    let mut areas = Vec::new(alloc);
    let mut place = 0;
    'items: while place < items.len() {
        let item = &items[place];
        place += 1;
        if !begins_record(item) {
            continue;
        }
        let mut area = Vec::new(alloc);
        put_opening(item, &mut area)?;
        place = put_below(items, place, &mut area)?;
        areas.push(Rows::of_vec(area))?;
    }
    Ok(areas)
}

/// How often destinations occur, where a clause tells it.
fn table_number(clause: &OutputClause) -> Option<u32>
    requires { is_table_right clause.now ≡ true }
    ensures number { result ≡ table_number clause.now }
    ensures within { IfSome result (λ n. (1 ≤ n) × (n ≤ MAX_OCCURRENCES)) }
{
    match clause {
        OutputClause::Table { occurs, .. } => Some(numeral(occurs.digits.as_bytes()) as u32),
        _ => None,
    }
}

/// How often the destinations of an output CD occur.
fn occurrences(clauses: &[OutputClause]) -> u32
    requires { list_all is_table_right clauses.now ≡ true }
    ensures number { result ≡ or_one (table_of clauses.now) }
    ensures within { (1 ≤ result) × (result ≤ MAX_OCCURRENCES) }
{
    'clauses: for clause in clauses {
        if let Some(number) = table_number(clause) {
            return number;
        }
    }
    1
}

/// The area of a CD.
fn opening_cd(alloc: Global, body: &CdBody) -> Result<Rows<u8>, AllocError>
    requires { is_body_right body.now ≡ true }
    ensures { IfOk result (λ area. area ≡ opening_cd body.now) }
{
    let area = match body {
        CdBody::Input { .. } | CdBody::InputNames { .. } => {
            Vec::from_slice(alloc, InArea::opening().as_bytes())?
        }
        CdBody::Output { clauses } => {
            let count = occurrences(clauses.as_slice());
            Vec::from_slice(alloc, OutArea::opening(count).as_bytes())?
        }
    };
    Ok(Rows::of_vec(area))
}

/// Adds the areas of CDs.
fn put_cd_areas(
    alloc: Global,
    entries: &[CdEntry],
    areas: &mut Vec<Rows<u8>>,
) -> Result<(), AllocError>
    requires { list_all (λ entry. is_body_right entry.body) entries.now ≡ true }
    ensures { IfOk result
        (λ _. areas.new.items ≡ areas.old.items ++ map
        (λ entry. opening_cd entry.body) entries.now) }
{
    'entries: for entry in entries {
        areas.push(opening_cd(alloc, &entry.body)?)?;
    }
    Ok(())
}

/// The areas of a program as they begin: those of the records of Working-Storage, each filled from
/// the values of its items, and then those of the CDs.
pub fn opening_storage(alloc: Global, division: &DataDivision) -> Result<Rows<Rows<u8>>, AllocError>
    // Each table has 1 to 8 destinations.
    requires { HasOccurrences division.now }
    ensures { IfOk result (λ areas. areas ≡ opening_storage division.now) }
{
    let mut areas = storage_areas(alloc, division.working_storage.as_slice())?;
    put_cd_areas(alloc, division.communication.as_slice(), &mut areas)?;
    Ok(Rows::of_vec(areas))
}
