//! Whole items: each group has items below it, and each value fits its item.
ghost use Rattle.std.specs.Prelude.{◌≡◌, IfOk, drop};
ghost use Rattle.cob_forms.specs.Faults.{earlier, first};
ghost use Rattle.cob_data.specs.Faults.{first_text, is_group_right, item_faults, whole_faults};
ghost use Rattle.cob_data.specs.Levels.{is_group, sort_of_item};
ghost use Rattle.cob_data.specs.Numerals.{numeral};

use crate::ItemSort;
use crate::entry::{Entry, numeral};
use crate::items::sort_of_item;
use crate::unless::unless;
use crate::values::value_fault;
use cob_forms::first_of;
use cob_lex::{SourceFault, SourceKind, Token};
use std::alloc::{AllocError, Global};

/// The characters of the level of an item.
pub(crate) fn first_text(item: &[Token]) -> &[u8]
    ensures { result.now ≡ first_text item.now }
{
    match item {
        [level, ..] => level.text.as_bytes(),
        [] => &[],
    }
}

/// The number of the level of an item.
pub(crate) fn level_of(item: &[Token]) -> u64
    ensures { result ≡ numeral (first_text item.now) }
{
    numeral(first_text(item))
}

/// Whether an item is a group: it has no picture.
pub(crate) fn is_group(item: &[Token]) -> bool
    ensures { result ≡ is_group (sort_of_item item.now) }
{
    matches!(sort_of_item(item), ItemSort::Group)
}

/// Whether an item is no group, or may be one by its level and the rank of the item behind it.
fn is_group_right(behind: u64, item: &Entry) -> bool
    ensures { result ≡ is_group_right behind item.now }
{
    if !is_group(item.tokens()) {
        return true;
    }
    let level = level_of(item.tokens());
    level != 77 && level != 49 && item.rank() < behind
}

/// The first fault of an item by itself and by the rank of the item behind it.
fn item_fault(
    alloc: Global,
    over_cd: bool,
    behind: u64,
    item: &Entry,
) -> Result<Option<SourceFault>, AllocError>
    ensures { IfOk result (λ found. found ≡ first (item_faults over_cd behind item.now)) }
{
    let is_right = is_group_right(behind, item);
    let group = unless(is_right, SourceKind::WrongKind, item.tokens().first());
    let value = value_fault(alloc, over_cd, item.tokens())?;
    Ok(first_of(group, value))
}

/// The first fault of the item at the front. The last item of a text is not looked at, and the last
/// one of a run that another follows has none behind it.
fn front_fault(
    alloc: Global,
    is_last: bool,
    over_cd: bool,
    items: &[Entry],
) -> Result<Option<SourceFault>, AllocError>
    ensures { IfOk result
        (λ found. earlier found (first (whole_faults is_last over_cd (drop 1 items.now)))
        ≡ first (whole_faults is_last over_cd items.now)) }
{
    match items {
        [item, next, ..] => item_fault(alloc, over_cd, next.rank(), item),
        [item] if !is_last => item_fault(alloc, over_cd, 0, item),
        _ => Ok(None),
    }
}

/// The first fault of whole items.
pub(crate) fn first_whole_fault(
    alloc: Global,
    is_last: bool,
    over_cd: bool,
    items: &[Entry],
) -> Result<Option<SourceFault>, AllocError>
    ensures { IfOk result (λ found. found ≡ first (whole_faults is_last over_cd items.now)) }
{
    let mut found = None;
    'items: for index in 0..items.len() {
        let (_, left) = items.split_at(index);
        found = first_of(found, front_fault(alloc, is_last, over_cd, left)?);
    }
    Ok(found)
}
