//! Headers, items and CD entries, with what is measured of them.
ghost use Rattle.std.specs.Prelude.{◌≡◌, ◌≤◌, option_map};
ghost use Rattle.cob_data.specs.Entries.{picture_in};
ghost use Rattle.cob_data.specs.Levels.{is_level, own_size, rank, rank_of};
ghost use Rattle.cob_data.specs.Numerals.{numeral};

use crate::pictures::size_of;
use cob_forms::is_kind;
use cob_lex::{Token, TokenKind};
use com_text::number_of;
use std::marker::Model;

/// A header, an item or a CD entry by its tokens, with the rank of its level and the characters
/// that it has by its own picture.
#[derive(Drop)]
pub(crate) struct Entry<'a> {
    tokens: &'a [Token],
    rank: u64,
    size: u32,
}

impl<'a> Model for Entry<'a> {
    ghost use Rattle.std.specs.Prelude.{List};
    ghost use Rattle.cob_lex.specs.declared.token.Token.{Token};
    ghost use Rattle.cob_data.specs.Measured.{IsMeasured};

    ghost Value = { List Token };

    ghost view = { λ entry. entry.tokens.now };

    ghost invariant = { λ entry. IsMeasured entry.tokens.now entry.rank entry.size };
}

impl<'a> Entry<'a> {
    pub(crate) fn new(tokens: &'a [Token]) -> Entry<'a>
        ensures { result ≡ tokens.now }
    {
        Entry {
            tokens,
            rank: rank(tokens),
            size: own_size(tokens),
        }
    }

    pub(crate) fn tokens(&self) -> &'a [Token]
        ensures { result.now ≡ self.now }
    {
        self.tokens
    }

    pub(crate) fn rank(&self) -> u64
        ensures { result ≡ rank self.now }
    {
        self.rank
    }

    pub(crate) fn size(&self) -> u32
        ensures size { result ≡ own_size self.now }
        ensures most { result ≤ 2000 }
    {
        self.size
    }
}

/// The number that digits write, and 0 where a text is no number.
pub(crate) fn numeral(digits: &[u8]) -> u64
    ensures { result ≡ numeral digits.now }
{
    number_of(digits).unwrap_or(0)
}

/// The rank of an item by its level.
fn rank(item: &[Token]) -> u64
    ensures { result ≡ rank item.now }
{
    match item {
        [level, ..] => rank_of(level.text.as_bytes()),
        [] => 0,
    }
}

/// The rank of a level, by its digits.
pub(crate) fn rank_of(digits: &[u8]) -> u64
    ensures { result ≡ rank_of digits.now }
{
    match numeral(digits) {
        77 => 1,
        number => number,
    }
}

/// Whether digits are a level: 01 to 49 or 77, with or without the leading zero.
pub(crate) fn is_level(digits: &[u8]) -> bool
    ensures { result ≡ is_level digits.now }
{
    let number = numeral(digits);
    digits.len() <= 2 && (1 <= number && number <= 49 || number == 77)
}

/// The picture of an item.
pub(crate) fn picture_in(item: &[Token]) -> Option<&Token>
    ensures { option_map (λ token. token.now) result ≡ picture_in item.now }
{
    item.iter().find(|token| is_kind(token, TokenKind::Picture))
}

/// How many characters an item has by its own picture.
fn own_size(item: &[Token]) -> u32
    ensures size { result ≡ own_size item.now }
    ensures most { result ≤ 2000 }
{
    match picture_in(item) {
        Some(picture) => size_of(picture.text.as_bytes()).unwrap_or(0),
        None => 0,
    }
}
