//! The entries of the divisions, each up to its period, taken from the front.
ghost use Rattle.std.specs.Prelude.{◌≡◌, ◌≤◌, ◌&&◌, [], ◌∷◌, MatchOption, false, length, not};
ghost use Rattle.cob_forms.specs.Sorts.{is, reserved};
ghost use Rattle.cob_data.specs.Entries.{behind, ends_entry, entries_of, is_cd, is_item, leads, piece_length, word_flags, wants_word};
ghost use Rattle.cob_data.specs.Forms.{period};

use cob_forms::{is_kind, is_word};
use cob_lex::{Token, TokenKind};
use std::marker::Model;

/// The entries that are left, each with whether it is the word that a program chooses behind a
/// header such as PROGRAM-ID.
#[derive(Drop)]
pub(crate) struct Entries<'a> {
    is_chosen: bool,
    rest: &'a [Token],
}

impl<'a> Model for Entries<'a> {
    ghost use Rattle.std.specs.Prelude.{Bool, List};
    ghost use Rattle.cob_lex.specs.declared.token.Token.{Token};
    ghost use Rattle.cob_data.specs.Entries.{entries_of, word_flags};

    ghost Value = { List (Bool × List Token) };

    ghost view = { λ entries. word_flags entries.is_chosen (entries_of entries.rest.now) };
}

impl<'a> Entries<'a> {
    /// All entries of some tokens.
    pub(crate) fn of(tokens: &'a [Token]) -> Entries<'a>
        ensures { result ≡ word_flags false (entries_of tokens.now) }
    {
        Entries {
            is_chosen: false,
            rest: tokens,
        }
    }

    /// The next entry.
    pub(crate) fn next(&mut self) -> Option<(bool, &'a [Token])>
        ensures { MatchOption result ((self.old ≡ []) × (self.new ≡ []))
            (λ x. self.old ≡ (x.0, x.1.now) ∷ self.new) }
    {
        if self.rest.is_empty() {
            return None;
        }
        let (entry, rest) = self.rest.split_at(entry_length(self.rest));
        let is_chosen = self.is_chosen;
        self.is_chosen = awaits_word(is_chosen, entry);
        self.rest = rest;
        Some((is_chosen, entry))
    }
}

/// How many tokens the first entry has.
fn entry_length(tokens: &[Token]) -> usize
    ensures length { result ≡ piece_length ends_entry tokens.now }
    ensures within { result ≤ length tokens.now }
{
    let mut count = 0;
    'tokens: for token in tokens {
        count += 1;
        if is_kind(token, TokenKind::Period) {
            return count;
        }
    }
    count
}

/// Whether an entry begins with this reserved word.
pub(crate) fn leads(entry: &[Token], word: &[u8]) -> bool
    ensures { result ≡ leads word.now entry.now }
{
    match entry {
        [token, ..] => is_word(token, word),
        [] => false,
    }
}

/// What stands behind the first token that is this reserved word.
pub(crate) fn behind_word<'a>(tokens: &'a [Token], word: &[u8]) -> &'a [Token]
    ensures { result.now ≡ behind (is (reserved word.now)) tokens.now }
{
    let mut rest = tokens;
    'tokens: while let Some((token, others)) = rest.split_first() {
        rest = others;
        if is_word(token, word) {
            return rest;
        }
    }
    rest
}

/// Whether the program chooses a word behind an entry.
fn wants_word(entry: &[Token]) -> bool
    ensures { result ≡ wants_word entry.now }
{
    leads(entry, b"PROGRAM-ID")
        || leads(entry, b"SOURCE-COMPUTER")
        || leads(entry, b"OBJECT-COMPUTER")
}

/// Whether the program chooses a word behind an entry, which may be such a word itself.
fn awaits_word(is_chosen: bool, entry: &[Token]) -> bool
    ensures { result ≡ (not is_chosen && wants_word entry.now) }
{
    !is_chosen && wants_word(entry)
}

/// Whether an entry is an item.
pub(crate) fn is_item(entry: &[Token]) -> bool
    ensures { result ≡ is_item entry.now }
{
    match entry {
        [token, ..] => is_kind(token, TokenKind::Number),
        [] => false,
    }
}

/// Whether an entry is that of a CD.
pub(crate) fn is_cd(entry: &[Token]) -> bool
    ensures { result ≡ is_cd entry.now }
{
    leads(entry, b"CD")
}
