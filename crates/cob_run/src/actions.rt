//! Statements that only change the storage. None is a stop for DATA, after which nothing is said of
//! the storage but its sizes.
ghost use Rattle.std.specs.Prelude.{
  ◌≡◌,
  ◌+◌,
  ◌-◌,
  ◌<◌,
  None,
  Some,
  MatchOption,
  length,
  option_map,
};
ghost use Rattle.std.specs.List.{AllByRecursion};
ghost use Rattle.com_text.specs.Digits.{in_digits};
ghost use Rattle.cob_meaning.specs.Moves.{moved};
ghost use Rattle.cob_meaning.specs.Storage.{with_prefix};
ghost use Rattle.cob_flat.specs.Effects.{effect, filled_by};
ghost use Rattle.cob_run.specs.Within.{
  IsActionIn,
  IsAmountIn,
  IsItemIn,
  IsNumberSpotIn,
  IsSourceIn,
  IsSpotIn,
  sizes,
};
ghost use Rattle.cob_run.specs.inner.Contents.{IsReadable, shown};

use crate::area::Area;
use crate::content::{Content, content_of};
use crate::operands::{amount, held, item, number_held};
use cob_data::ItemPlace;
use cob_flat::{Action, Amount, Source, Spot};
use com_msg::MAX_ITEM_LENGTH;

/// Fills an item with what is moved to it.
fn fill(areas: &mut [Area], item: ItemPlace, content: Content) -> Option<()>
    requires item { IsItemIn (sizes areas.old) item }
    requires readable { IsReadable (shown content) }
    ensures moved { let put = moved (shown content.entry) item.sort item.length in
        MatchOption result (put ≡ None) (λ _. option_map (λ characters.
        with_prefix item characters areas.old) put ≡ Some areas.new) }
    ensures sizes { sizes areas.new ≡ sizes areas.old }
{
    let area = &mut areas[item.area as usize];
    area.move_content(
        item.start as usize,
        item.length as usize,
        item.sort,
        content,
    )
}

/// Fills the targets of a MOVE, one after another.
fn fill_all(areas: &mut [Area], targets: &[Spot], content: Content) -> Option<()>
    requires targets { AllByRecursion (IsSpotIn (sizes areas.old)) targets.now }
    requires readable { IsReadable (shown content) }
    ensures filled { let after = filled_by (shown content.entry) targets.now areas.old in
        MatchOption result (after ≡ None) (λ _. after ≡ Some areas.new) }
    ensures sizes { sizes areas.new ≡ sizes areas.old }
{
    'targets: for target in targets {
        let item = item(areas, *target)?;
        fill(areas, item, content)?;
    }
    Some(())
}

/// MOVE. The characters of an item are copied before the first target is filled.
fn move_to(areas: &mut [Area], copy: &mut [u8], source: &Source, targets: &[Spot]) -> Option<()>
    requires copy { length copy.old ≡ MAX_ITEM_LENGTH }
    requires source { IsSourceIn (sizes areas.old) source.now }
    requires targets { AllByRecursion (IsSpotIn (sizes areas.old)) targets.now }
    ensures moved { let after = effect (Action.Move source.now targets.now) areas.old in
        MatchOption result (after ≡ None) (λ _. after ≡ Some areas.new) }
    ensures sizes { sizes areas.new ≡ sizes areas.old }
{
    match source {
        Source::Item(spot) => {
            let item = item(areas, *spot)?;
            let len = item.length as usize;
            copy[..len].copy_from_slice(held(areas, item));
            fill_all(areas, targets, content_of(item.sort, &copy[..len]))
        }
        Source::Literal(characters) => {
            fill_all(areas, targets, Content::Text(characters.as_bytes()))
        }
        Source::Number(digits) => fill_all(areas, targets, Content::Number(digits.as_bytes())),
        Source::Spaces => fill_all(areas, targets, Content::Spaces),
        Source::Zeros => fill_all(areas, targets, Content::Zeros),
    }
}

/// Writes the low-order digits of a number into an item.
fn put_number(areas: &mut [Area], item: ItemPlace, number: u64)
    requires { IsItemIn (sizes areas.old) item }
    ensures put { areas.new ≡ with_prefix item (in_digits number item.length) areas.old }
    ensures sizes { sizes areas.new ≡ sizes areas.old }
{
    let area = &mut areas[item.area as usize];
    area.write_number(item.start as usize, item.length as usize, number);
}

/// ADD.
fn add(areas: &mut [Area], other: Amount, target: Spot) -> Option<()>
    requires other { IsAmountIn (sizes areas.old) other }
    requires target { IsNumberSpotIn (sizes areas.old) target }
    ensures added { let after = effect (Action.Add other target) areas.old in
        MatchOption result (after ≡ None) (λ _. after ≡ Some areas.new) }
    ensures sizes { sizes areas.new ≡ sizes areas.old }
{
    let number = amount(areas, other)?;
    let item = item(areas, target)?;
    let own = number_held(areas, item)?;
    put_number(areas, item, own + number);
    Some(())
}

/// The difference of two numbers, without its sign.
fn difference(one: u64, other: u64) -> u64
    ensures { result ≡ (one - other) + (other - one) }
{
    if one < other {
        other - one
    } else {
        one - other
    }
}

/// SUBTRACT.
fn subtract(areas: &mut [Area], other: Amount, target: Spot) -> Option<()>
    requires other { IsAmountIn (sizes areas.old) other }
    requires target { IsNumberSpotIn (sizes areas.old) target }
    ensures subtracted { let after = effect (Action.Subtract other target) areas.old in
        MatchOption result (after ≡ None) (λ _. after ≡ Some areas.new) }
    ensures sizes { sizes areas.new ≡ sizes areas.old }
{
    let number = amount(areas, other)?;
    let item = item(areas, target)?;
    let own = number_held(areas, item)?;
    put_number(areas, item, difference(own, number));
    Some(())
}

/// Does a statement that only changes the storage.
pub(crate) fn act(areas: &mut [Area], copy: &mut [u8], action: &Action) -> Option<()>
    requires copy { length copy.old ≡ MAX_ITEM_LENGTH }
    requires within { IsActionIn (sizes areas.old) action.now }
    ensures effect { let after = effect action.now areas.old in
        MatchOption result (after ≡ None) (λ _. after ≡ Some areas.new) }
    ensures sizes { sizes areas.new ≡ sizes areas.old }
{
    match action {
        Action::Move { source, targets } => move_to(areas, copy, source, targets.as_slice()),
        Action::Add { amount, target } => add(areas, *amount, *target),
        Action::Subtract { amount, target } => subtract(areas, *amount, *target),
        Action::Exit => Some(()),
    }
}
