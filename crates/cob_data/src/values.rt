//! The values of items.
ghost use Rattle.std.specs.Prelude.{◌≡◌, IfOk, option_map};
ghost use Rattle.cob_forms.specs.Faults.{first};
ghost use Rattle.cob_data.specs.Entries.{picture_in, value_in};
ghost use Rattle.cob_data.specs.Pictures.{size_of, sort_of};
ghost use Rattle.cob_data.specs.Faults.{kind_at, sized_value, up_to, value_faults, value_kind, wrong_value};

use crate::entry::picture_in;
use crate::items::{value_in, value_of};
use crate::pictures::{size_of, sort_of};
use crate::{ItemSort, Value};
use cob_forms::fault_at;
use cob_lex::{SourceFault, SourceKind, Token};
use std::alloc::{AllocError, Global};

/// What is wrong with so many characters where only some fit.
fn up_to(limit: u32, count: usize) -> Option<SourceKind>
    ensures { result ≡ up_to limit count }
{
    if count <= limit as usize {
        None
    } else {
        Some(SourceKind::WrongLength)
    }
}

/// What is wrong with the value of an item of so many characters.
fn value_kind(sort: ItemSort, size: u32, value: &Value) -> Option<SourceKind>
    ensures { result ≡ value_kind sort size value.now }
{
    match (sort, value) {
        (ItemSort::Alphanumeric, Value::Literal(literal)) => {
            up_to(size, literal.characters.as_bytes().len())
        }
        (ItemSort::Numeric, Value::Number(number)) => up_to(size, number.digits.as_bytes().len()),
        (ItemSort::Alphanumeric, Value::Spaces(_) | Value::Zeros(_)) => None,
        (ItemSort::Numeric, Value::Zeros(_)) => None,
        _ => Some(SourceKind::WrongKind),
    }
}

/// What is wrong with the value of an item that is elementary. Where the picture is not formed as
/// one, no more is said.
fn sized_value(picture: &[u8], value: &Value) -> Option<SourceKind>
    ensures { result ≡ sized_value (size_of picture.now) (sort_of picture.now) value.now }
{
    match size_of(picture) {
        Some(size) => value_kind(sort_of(picture), size, value),
        None => None,
    }
}

/// What is wrong with the value of an item, which may only stand at an elementary item of
/// Working-Storage.
fn wrong_value(over_cd: bool, item: &[Token], value: &Value) -> Option<SourceKind>
    ensures { result ≡ wrong_value over_cd (picture_in item.now) value.now }
{
    match picture_in(item) {
        Some(picture) if !over_cd => sized_value(picture.text.as_bytes(), value),
        _ => Some(SourceKind::WrongKind),
    }
}

/// A fault at a token, where something is wrong there.
fn fault_of(kind: Option<SourceKind>, token: &Token) -> Option<SourceFault>
    ensures { result ≡ first (kind_at kind token.now) }
{
    match kind {
        Some(kind) => Some(fault_at(token, kind)),
        None => None,
    }
}

/// The fault of the value of an item, where it has one.
pub(crate) fn value_fault(
    alloc: Global,
    over_cd: bool,
    item: &[Token],
) -> Result<Option<SourceFault>, AllocError>
    ensures { IfOk result
        (λ found. found ≡ first (value_faults over_cd (picture_in item.now) (value_in item.now))) }
{
    match value_in(item) {
        Some(token) => {
            let value = value_of(alloc, token)?;
            Ok(fault_of(wrong_value(over_cd, item, &value), token))
        }
        None => Ok(None),
    }
}
