//! Operands of statements as operands of flat code.
ghost use Rattle.std.specs.Prelude.{◌≡◌, IfOk, Some};
ghost use Rattle.std.specs.List.{AllByRecursion};
ghost use Rattle.com_text.specs.Digits.{number};
ghost use Rattle.cob_meaning.specs.Checked.{
  IsCheckedAddend,
  IsCheckedCondition,
  IsCheckedIdentifier,
  IsCheckedOperand,
  IsCheckedSimple,
  IsNumeral,
};
ghost use Rattle.cob_flat.specs.inner.Operands.{
  AreEach,
  HasNumeral,
  IsAmountOf,
  IsIndexOf,
  IsPartOf,
  IsSourceOf,
  IsSpotOf,
};
ghost use Rattle.cob_meaning.specs.Storage.{Storage};
ghost use Rattle.cob_meaning.specs.Moves.{subscripted_item};
ghost use Rattle.cob_flat.specs.Effects.{item_by};
ghost use Rattle.cob_flat.specs.Flat.{IsTestOf};

use crate::names::Names;
use crate::operands::{Amount, Index, SimpleTest, Source, Spot, Test};
use crate::referent::Referent;
use cob_data::{ItemPlace, ItemSort};
use cob_forms::Number;
use cob_proc::{Addend, Condition, Identifier, Operand, Simple, Subscript};
use com_text::{Rows, number_of};
use std::alloc::{AllocError, Global};

/// The item of a name that stands for none, as no name of a checked program does.
const NOWHERE: Spot = Spot::Occurrence {
    first: ItemPlace {
        area: 0,
        start: 0,
        length: 0,
        sort: ItemSort::Group,
    },
    occurs: 0,
    index: Index::Number(0),
};

/// The number that digits write.
pub(crate) fn number(written: &Number) -> u64
    requires { IsNumeral written.now.digits }
    ensures { result ≡ number written.now.digits }
{
    // A number has at most 18 digits, so that it is always read.
    number_of(written.digits.as_bytes()).unwrap_or(0)
}

/// The number of an occurrence.
fn index(names: &Names, subscript: &Subscript) -> Index
    requires { HasNumeral (Some subscript.now) }
    ensures { IsIndexOf names.now subscript.now result }
{
    match subscript {
        Subscript::Number {
            number: written,
            ..
        } => Index::Number(number(written)),
        Subscript::Item { name, .. } => match names.item(name) {
            Some(item) => Index::Item(item),
            None => Index::Number(0),
        },
    }
}

/// The item of a place, with a subscript or without one.
fn spot_at(
    names: &Names,
    place: ItemPlace,
    occurs: Option<u32>,
    subscript: &Option<Subscript>,
) -> Spot
    requires { HasNumeral subscript.now }
    ensures { (storage : Storage) → item_by result storage ≡ subscripted_item names.now storage place occurs subscript.now }
{
    match (occurs, subscript) {
        (None, None) => Spot::Fixed(place),
        (Some(occurs), Some(subscript)) => Spot::Occurrence {
            first: place,
            occurs,
            index: index(names, subscript),
        },
        (None, Some(_)) | (Some(_), None) => NOWHERE,
    }
}

/// The item of an identifier.
pub(crate) fn spot(names: &Names, identifier: &Identifier) -> Spot
    requires { HasNumeral identifier.now.subscript }
    ensures { IsSpotOf names.now identifier.now result }
{
    match names.referent(&identifier.name) {
        Some(Referent::Data { place, occurs }) => {
            spot_at(names, place, occurs, &identifier.subscript)
        }
        Some(Referent::InputCd { .. }) | Some(Referent::OutputCd { .. }) | None => NOWHERE,
    }
}

/// What is moved or compared.
pub(crate) fn source(names: &Names, operand: &Operand) -> Result<Source, AllocError>
    requires { IsCheckedOperand names.now operand.now }
    ensures { IfOk result (λ source. IsSourceOf names.now operand.now source) }
{
    match operand {
        Operand::Item(identifier) => Ok(Source::Item(spot(names, identifier))),
        Operand::Literal(literal) => Ok(Source::Literal(literal.characters.copy()?)),
        Operand::Number(number) => Ok(Source::Number(number.digits.copy()?)),
        Operand::Spaces(_) => Ok(Source::Spaces),
        Operand::Zeros(_) => Ok(Source::Zeros),
    }
}

/// What is added, subtracted or counted.
pub(crate) fn amount(names: &Names, addend: &Addend) -> Amount
    requires { IsCheckedAddend names.now addend.now }
    ensures { IsAmountOf names.now addend.now result }
{
    match addend {
        Addend::Item(identifier) => Amount::Item(spot(names, identifier)),
        Addend::Number(written) => Amount::Number(number(written)),
    }
}

/// A simple condition.
fn part(names: &Names, simple: &Simple) -> Result<SimpleTest, AllocError>
    requires { IsCheckedSimple names.now simple.now }
    ensures { IfOk result (λ test. IsPartOf names.now simple.now test) }
{
    match simple {
        Simple::Compares {
            left,
            denied,
            relation,
            right,
        } => Ok(SimpleTest::Compares {
            left: source(names, left)?,
            denied: *denied,
            relation: *relation,
            right: source(names, right)?,
        }),
        Simple::Numeric { item, denied } => Ok(SimpleTest::Numeric {
            spot: spot(names, item),
            denied: *denied,
        }),
    }
}

/// The items of identifiers.
pub(crate) fn spots(
    alloc: Global,
    names: &Names,
    identifiers: &[Identifier],
) -> Result<Rows<Spot>, AllocError>
    requires { AllByRecursion (IsCheckedIdentifier names.now) identifiers.now }
    ensures { IfOk result (λ spots. AreEach (IsSpotOf names.now) identifiers.now spots) }
{
    let mut spots = Vec::new(alloc);
    'identifiers: for identifier in identifiers {
        spots.push(spot(names, identifier))?;
    }
    Ok(Rows::of_vec(spots))
}

/// Simple conditions.
fn parts(alloc: Global, names: &Names, simples: &[Simple]) -> Result<Rows<SimpleTest>, AllocError>
    requires { AllByRecursion (IsCheckedSimple names.now) simples.now }
    ensures { IfOk result (λ parts. AreEach (IsPartOf names.now) simples.now parts) }
{
    let mut parts = Vec::new(alloc);
    'simples: for simple in simples {
        parts.push(part(names, simple)?)?;
    }
    Ok(Rows::of_vec(parts))
}

/// A condition.
pub(crate) fn test(alloc: Global, names: &Names, condition: &Condition) -> Result<Test, AllocError>
    requires { IsCheckedCondition names.now condition.now }
    ensures { IfOk result (λ test. IsTestOf names.now condition.now test) }
{
    Ok(Test {
        joint: condition.joint,
        parts: parts(alloc, names, condition.parts.as_slice())?,
    })
}
