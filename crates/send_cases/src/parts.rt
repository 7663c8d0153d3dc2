//! The part of a SEND, in a word.
ghost use Rattle.std.specs.Prelude.{◌≤◌, IfSome};
ghost use Rattle.com_msg.specs.Rendering.{IsAdvance};
ghost use Rattle.com_send.specs.Sending.{advance_of};

use com_msg::{Advance, MAX_LINES, Part};
use com_text::number_of;

/// `PART`, or `ESI`, `EMI` or `EGI`, a colon and an advance.
pub fn part(word: &[u8]) -> Option<Part>
    ensures { IfSome result (λ part. IfSome (advance_of part) IsAdvance) }
{
    if matches!(word, b"PART") {
        return Some(Part::Portion);
    }
    let (name, how) = word.split_at_checked(4)?;
    let advance = advance(how)?;
    match name {
        b"ESI:" => Some(Part::Esi(advance)),
        b"EMI:" => Some(Part::Emi(advance)),
        b"EGI:" => Some(Part::Egi(advance)),
        _ => None,
    }
}

/// `BP` or `AP`, or `B` or `A` and a number of lines.
fn advance(word: &[u8]) -> Option<Advance>
    ensures { IfSome result IsAdvance }
{
    match word {
        b"BP" => Some(Advance::BeforePage),
        b"AP" => Some(Advance::AfterPage),
        [b'B', digits @ ..] => Some(Advance::Before(lines(digits)?)),
        [b'A', digits @ ..] => Some(Advance::After(lines(digits)?)),
        _ => None,
    }
}

/// Returns how many lines a terminal advances.
fn lines(digits: &[u8]) -> Option<u8>
    ensures { IfSome result (λ lines. lines ≤ MAX_LINES) }
{
    let lines = number_of(digits)?;
    if lines > u64::from(MAX_LINES) {
        return None;
    }
    Some(lines as u8)
}
