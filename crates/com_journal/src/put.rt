//! Writing the fields of a line.
ghost use Rattle.std.specs.Prelude.{◌≡◌, ◌++◌, ◌∷◌, [], OnOk, decimal};
ghost use Rattle.com_text.specs.Counted.{IsCountable, counted_field};
ghost use Rattle.com_journal.specs.inner.Writing.{written};

use com_text::{Rows, put_counted, put_number};
use std::alloc::AllocError;

/// Adds a word after a space.
pub(crate) fn put_word(out: &mut Rows<u8>, word: &[u8]) -> Result<(), AllocError>
    ensures { OnOk result (out.new ≡ written out.old (word.now ∷ [])) }
{
    out.extend_from_slice(b" ")?;
    out.extend_from_slice(word)
}

/// Adds a number after a space.
pub(crate) fn put_decimal(out: &mut Rows<u8>, n: u64) -> Result<(), AllocError>
    ensures { OnOk result (out.new ≡ written out.old (decimal n ∷ [])) }
{
    out.extend_from_slice(b" ")?;
    put_number(out, n)
}

/// Adds a counted field after a space.
pub(crate) fn put_field(out: &mut Rows<u8>, content: &[u8]) -> Result<(), AllocError>
    requires { IsCountable content.now }
    ensures { OnOk result (out.new ≡ written out.old (counted_field content.now ∷ [])) }
{
    out.extend_from_slice(b" ")?;
    put_counted(out, content)
}
