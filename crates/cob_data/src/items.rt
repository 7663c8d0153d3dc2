//! Items and records of the tree, with their places.
ghost use Rattle.std.specs.Prelude.{◌≡◌, ◌≤◌, ◌+◌, ◌*◌, ◌++◌, IfOk, length, option_map};
ghost use Rattle.cob_data.specs.Entries.{picture_in, value_in};
ghost use Rattle.cob_data.specs.Levels.{length_of, records_of, sort_of_item};
ghost use Rattle.cob_data.specs.Divisions.{item_of, items_by_area, items_from, items_over, picture_of, value_of, word_value};

use crate::cds::name_if;
use crate::entries::behind_word;
use crate::entry::{Entry, picture_in};
use crate::pictures::sort_of;
use crate::runs::next_record;
use crate::{Item, ItemPlace, ItemSort, Picture, Value};
use cob_forms::{Literal, Number, Position, is_word};
use cob_lex::{MAX_SOURCE, Token, TokenKind};
use std::alloc::{AllocError, Global};

/// What an item is by its picture.
pub(crate) fn sort_of_item(item: &[Token]) -> ItemSort
    ensures { result ≡ sort_of_item item.now }
{
    match picture_in(item) {
        Some(picture) => sort_of(picture.text.as_bytes()),
        None => ItemSort::Group,
    }
}

/// The value of an item.
pub(crate) fn value_in(item: &[Token]) -> Option<&Token>
    ensures { option_map (λ token. token.now) result ≡ value_in item.now }
{
    behind_word(item, b"VALUE")
        .iter()
        .find(|token| !is_word(token, b"IS"))
}

/// A token as a value.
pub(crate) fn value_of(alloc: Global, token: &Token) -> Result<Value, AllocError>
    ensures { IfOk result (λ value. value ≡ value_of token.now) }
{
    match token.kind {
        TokenKind::Literal => Ok(Value::Literal(Literal::of(alloc, token)?)),
        TokenKind::Number => Ok(Value::Number(Number::of(token)?)),
        _ => Ok(word_value(token)),
    }
}

/// SPACE, SPACES, ZERO, ZEROS or ZEROES as a value.
fn word_value(token: &Token) -> Value
    ensures { result ≡ word_value token.now }
{
    if is_word(token, b"SPACE") || is_word(token, b"SPACES") {
        Value::Spaces(Position::of(token))
    } else {
        Value::Zeros(Position::of(token))
    }
}

/// The picture of an item as it is written.
fn picture_of(item: &[Token]) -> Result<Option<Picture>, AllocError>
    ensures { IfOk result (λ picture. picture ≡ option_map picture_of (picture_in item.now)) }
{
    match picture_in(item) {
        Some(token) => Ok(Some(Picture {
            text: token.text.copy()?,
            position: Position::of(token),
        })),
        None => Ok(None),
    }
}

/// The value of an item as it is written.
fn value_if(alloc: Global, item: &[Token]) -> Result<Option<Value>, AllocError>
    ensures { IfOk result (λ value. value ≡ option_map value_of (value_in item.now)) }
{
    match value_in(item) {
        Some(token) => Ok(Some(value_of(alloc, token)?)),
        None => Ok(None),
    }
}

/// Adds an item at a place.
fn put_item(
    alloc: Global,
    item: &[Token],
    place: ItemPlace,
    list: &mut Vec<Item>,
) -> Result<(), AllocError>
    ensures { IfOk result (λ _. list.new.items ≡ list.old.items ++ item_of item.now place) }
{
    if let Some((level, behind)) = item.split_first()
        && let Some((named, clauses)) = behind.split_first()
    {
        list.push(Item {
            level: Number::of(level)?,
            name: name_if(named)?,
            picture: picture_of(clauses)?,
            value: value_if(alloc, clauses)?,
            place,
        })?;
    }
    Ok(())
}

/// How many characters an item has: of its own picture, and of all items below it.
fn length_of(item: &Entry, others: &[Entry]) -> u32
    requires { length others.now ≤ MAX_SOURCE }
    ensures { result ≡ length_of item.now others.now }
{
    let mut length = item.size();
    'others: for other in others {
        if other.rank() <= item.rank() {
            return length;
        }
        length += other.size();
    }
    length
}

/// Adds the items of a record.
fn put_record(
    alloc: Global,
    area: u32,
    items: &[Entry],
    list: &mut Vec<Item>,
) -> Result<(), AllocError>
    requires { length items.now ≤ MAX_SOURCE }
    ensures { IfOk result (λ _. list.new.items ≡ list.old.items ++ items_from area 0 items.now) }
{
    let mut start = 0;
    'items: for (index, item) in items.iter().enumerate() {
        let (_, others) = items.split_at(index + 1);
        let place = ItemPlace {
            area,
            start,
            length: length_of(item, others),
            sort: sort_of_item(item.tokens()),
        };
        put_item(alloc, item.tokens(), place, list)?;
        start += item.size();
    }
    Ok(())
}

/// The items of records that each have an area of their own, and how many areas these are.
pub(crate) fn items_by_area(alloc: Global, items: &[Entry]) -> Result<(Vec<Item>, u32), AllocError>
    requires { length items.now ≤ MAX_SOURCE }
    ensures items { IfOk result (λ x. x.0.items ≡ items_by_area 0 (records_of items.now)) }
    ensures areas { IfOk result (λ x. x.1 ≡ length (records_of items.now)) }
    ensures few { IfOk result (λ x. x.1 ≤ length items.now) }
{
    let mut list = Vec::new(alloc);
    let mut area = 0;
    let mut place = 0;
    'records: while let Some((these, past)) = next_record(items, place) {
        put_record(alloc, area, these, &mut list)?;
        area += 1;
        place = past;
    }
    Ok((list, area))
}

/// The items of records that have one area.
pub(crate) fn items_over(alloc: Global, area: u32, items: &[Entry]) -> Result<Vec<Item>, AllocError>
    requires { length items.now ≤ MAX_SOURCE }
    ensures { IfOk result (λ list. list.items ≡ items_over area (records_of items.now)) }
{
    let mut list = Vec::new(alloc);
    let mut place = 0;
    'records: while let Some((these, past)) = next_record(items, place) {
        put_record(alloc, area, these, &mut list)?;
        place = past;
    }
    Ok(list)
}
