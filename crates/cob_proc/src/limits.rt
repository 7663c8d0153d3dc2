//! The limits of a Procedure Division, and the first token with which one is passed.
ghost use Rattle.std.specs.Prelude.{◌≡◌, ◌&&◌, ◌||◌, ◌-◌, ◌==◌, ◌<◌, IfOk, IfSome, codes, if◌then◌else◌, length, nat_le};
ghost use Rattle.cob_forms.specs.Sorts.{is, name, reserved};
ghost use Rattle.cob_proc.specs.Limits.{limit_place};

use crate::ifs::OpenIfs;
use cob_forms::{is_kind, is_name};
use cob_lex::{Token, TokenKind};
use std::alloc::{AllocError, Global};

/// How many paragraphs a program may have.
pub const MAX_PARAGRAPHS: usize = 1_000;

/// How deep IF may nest.
pub const MAX_IFS: usize = 64;

/// Returns whether a token names a paragraph, by whether a period stands before.
fn is_paragraph_name(after_period: bool, token: &Token) -> bool
    ensures { result ≡ (after_period && is name token.now) }
{
    after_period && is_name(token)
}

/// Returns whether a token passes a limit: it is an IF that is too deep, or names a paragraph where
/// no more may come.
fn passes(ifs: &OpenIfs, left: usize, is_paragraph: bool, token: &Token) -> bool
    ensures { result ≡ ((is (reserved (codes "IF")) token.now && nat_le MAX_IFS (length ifs.now)) || (is_paragraph && left == 0)) }
{
    ifs.is_too_deep(token) || (is_paragraph && left == 0)
}

/// Returns how many paragraphs may still come, after a token.
fn left_behind(left: usize, is_paragraph: bool) -> usize
    ensures { result ≡ (if is_paragraph then left - 1 else left) }
{
    if is_paragraph {
        return left.saturating_sub(1);
    }
    left
}

/// Returns where a limit is passed first: at an IF that is too deep, or at the name of a paragraph
/// too many.
pub(crate) fn limit_passed_at(alloc: Global, tokens: &[Token]) -> Result<Option<usize>, AllocError>
    ensures first { IfOk result (λ found. found ≡ limit_place tokens.now) }
    ensures within { IfOk result (λ found. IfSome found (λ at. at < length tokens.now)) }
{
    let mut ifs = OpenIfs::new(alloc);
    let mut left = MAX_PARAGRAPHS;
    let mut after_period = false;
    let mut at = 0;
    let mut rest = tokens;
    'tokens: while let Some((token, behind)) = rest.split_first() {
        let is_paragraph = is_paragraph_name(after_period, token);
        if passes(&ifs, left, is_paragraph, token) {
            return Ok(Some(at));
        }
        left = left_behind(left, is_paragraph);
        ifs.pass(token)?;
        after_period = is_kind(token, TokenKind::Period);
        at += 1;
        rest = behind;
    }
    Ok(None)
}
