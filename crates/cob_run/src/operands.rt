//! Operands of flat code, as the areas of a unit give them. None is a stop for DATA.
ghost use Rattle.std.specs.Prelude.{◌≡◌, ◌^◌, ◌<◌, IfSome, length, option_map};
ghost use Rattle.cob_meaning.specs.Layouts.{occurrence};
ghost use Rattle.cob_meaning.specs.Storage.{held_by, number_held};
ghost use Rattle.cob_flat.specs.Effects.{amount_by, content_by, index_number, item_by};
ghost use Rattle.cob_run.specs.Within.{
  HasDigits,
  IsAmountIn,
  IsEachItem,
  IsIndexIn,
  IsItemIn,
  IsSourceIn,
  IsSpotIn,
  sizes,
};
ghost use Rattle.cob_run.specs.inner.Contents.{IsReadable, shown};

use crate::area::Area;
use crate::content::{Content, content_of};
use crate::fields::number_in;
use cob_data::ItemPlace;
use cob_flat::{Amount, Index, Source, Spot};

/// How far each occurrence in a table is from the one before.
const STEP: u64 = 13;

/// The characters of an item.
pub(crate) fn held<'a>(areas: &'a [Area], item: ItemPlace) -> &'a [u8]
    requires { IsItemIn (sizes areas.now) item }
    ensures held { result.now ≡ held_by item areas.now }
    ensures length { length result.now ≡ item.length }
{
    let start = item.start as usize;
    let area = &areas[item.area as usize];
    &area.as_bytes()[start..start + item.length as usize]
}

/// The number that an item holds.
pub(crate) fn number_held(areas: &[Area], item: ItemPlace) -> Option<u64>
    requires item { IsItemIn (sizes areas.now) item }
    requires digits { HasDigits item }
    ensures value { result ≡ number_held item areas.now }
    ensures most { IfSome result (λ n. n < 10 ^ 18) }
{
    number_in(held(areas, item))
}

/// The number of an occurrence.
fn index_number(areas: &[Area], index: Index) -> Option<u64>
    requires { IsIndexIn (sizes areas.now) index }
    ensures { result ≡ index_number index areas.now }
{
    match index {
        Index::Item(item) => number_held(areas, item),
        Index::Number(number) => Some(number),
    }
}

/// The occurrence with a number, counted from 1: None if the table has no such number.
fn occurrence(first: ItemPlace, occurs: u32, number: u64) -> Option<ItemPlace>
    requires { IfSome (occurrence occurs first number) (λ item. item.start < 2 ^ 32) }
    ensures { result ≡ occurrence occurs first number }
{
    if number < 1 || number > u64::from(occurs) {
        return None;
    }
    let start = u64::from(first.start) + STEP * (number - 1);
    Some(ItemPlace {
        area: first.area,
        start: start as u32,
        length: first.length,
        sort: first.sort,
    })
}

/// The item of a spot.
pub(crate) fn item(areas: &[Area], spot: Spot) -> Option<ItemPlace>
    requires { IsSpotIn (sizes areas.now) spot }
    ensures item { result ≡ item_by spot areas.now }
    ensures within { IfSome result (IsItemIn (sizes areas.now)) }
    ensures digits { IsEachItem HasDigits spot → IfSome result HasDigits }
{
    match spot {
        Spot::Fixed(item) => Some(item),
        Spot::Occurrence {
            first,
            occurs,
            index,
        } => occurrence(first, occurs, index_number(areas, index)?),
    }
}

/// The number of an amount.
pub(crate) fn amount(areas: &[Area], amount: Amount) -> Option<u64>
    requires { IsAmountIn (sizes areas.now) amount }
    ensures value { result ≡ amount_by amount areas.now }
    ensures most { IfSome result (λ n. n < 10 ^ 18) }
{
    match amount {
        Amount::Item(spot) => number_held(areas, item(areas, spot)?),
        Amount::Number(number) => Some(number),
    }
}

/// What is moved or compared.
pub(crate) fn content<'a>(areas: &'a [Area], source: &'a Source) -> Option<Content<'a>>
    requires { IsSourceIn (sizes areas.now) source.now }
    ensures content { option_map shown result ≡ content_by source.now areas.now }
    ensures readable { IfSome result (λ content. IsReadable (shown content)) }
{
    match source {
        Source::Item(spot) => {
            let item = item(areas, *spot)?;
            Some(content_of(item.sort, held(areas, item)))
        }
        Source::Literal(characters) => Some(Content::Text(characters.as_bytes())),
        Source::Number(digits) => Some(Content::Number(digits.as_bytes())),
        Source::Spaces => Some(Content::Spaces),
        Source::Zeros => Some(Content::Zeros),
    }
}
