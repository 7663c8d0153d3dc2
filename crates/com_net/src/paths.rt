//! The paths that lead to the keys and tables of a description.
ghost use Rattle.std.specs.Prelude.{◌≡◌, ◌++◌, IfOk};
ghost use Rattle.com_text.specs.Text.{IsText};
ghost use Rattle.com_net.specs.Places.{below, element};

use com_text::{Rows, Text, put_number};
use std::alloc::{AllocError, Global};

/// Returns the path of a key below that of a table; the document's own path is empty.
pub fn below(alloc: Global, path: &[u8], name: &[u8]) -> Result<Text, AllocError>
    requires path { IsText path.now }
    requires name { IsText name.now }
    ensures path { IfOk result (λ text. text ≡ below path.now name.now) }
{
    let mut bytes = Rows::new(alloc);
    if !path.is_empty() {
        bytes.extend_from_slice(path)?;
        bytes.extend_from_slice(b".")?;
    }
    bytes.extend_from_slice(name)?;
    Ok(Text::of_vec(bytes.into_vec()))
}

/// Returns the path of the element with a number.
pub fn element(alloc: Global, path: &[u8], number: u64) -> Result<Text, AllocError>
    requires path { IsText path.now }
    ensures path { IfOk result (λ text. text ≡ element path.now number) }
{
    let mut bytes = Rows::new(alloc);
    bytes.extend_from_slice(path)?;
    bytes.extend_from_slice(b".")?;
    put_number(&mut bytes, number)?;
    Ok(Text::of_vec(bytes.into_vec()))
}

/// Returns two texts, one after the other.
pub fn joined(alloc: Global, front: &[u8], back: &[u8]) -> Result<Text, AllocError>
    requires front { IsText front.now }
    requires back { IsText back.now }
    ensures { IfOk result (λ text. text ≡ front.now ++ back.now) }
{
    let mut bytes = Rows::new(alloc);
    bytes.extend_from_slice(front)?;
    bytes.extend_from_slice(back)?;
    Ok(Text::of_vec(bytes.into_vec()))
}
