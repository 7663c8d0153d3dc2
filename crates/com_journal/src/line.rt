//! A cursor over the bytes of one line.
ghost use Rattle.std.specs.Prelude.{◌≡◌, ◌≤◌, ◌<◌, ◌^◌, false, Some, None, codes, IfOk, IfSome, IsTrue, ◌↔◌, length, option_map};
ghost use Rattle.std.specs.List.{position, position_or_len};
ghost use Rattle.com_text.specs.Text.{IsText};
ghost use Rattle.com_journal.specs.inner.Outcomes.{Gives};
ghost use Rattle.com_journal.specs.inner.Reading.{word_at, expected, number_in, number_at, chunk_at, split_counted, counted_at, is_text_of, text_at, in_area_at, out_area_at, first_at, name_of, is_space, behind, end_at};

use com_cd::{InArea, OutArea};
use com_text::{Name, Text, has_leading_zero, is_text, number_of, take_counted};
use std::alloc::Global;
use std::marker::Model;

/// The largest number that a line can write, of 18 digits.
pub(crate) const MAX_NUMBER: u64 = 999_999_999_999_999_999;

/// Why nothing was read.
#[derive(Clone, Copy, Debug, PartialEq, Eq)]
pub(crate) enum Unread {
    /// The bytes are not a text of what was looked for.
    Refused,
    /// Memory ran out.
    Memory,
}

/// What is left of a line that is read from the left. After an error nothing is said of it.
#[derive(Drop)]
pub(crate) struct Line<'a> {
    rest: &'a [u8],
}

impl<'a> Model for Line<'a> {
    ghost use Rattle.std.specs.Prelude.{List, ℕ};

    ghost Value = { List ℕ };

    ghost view = { λ line. line.rest.now };
}

impl<'a> Line<'a> {
    pub(crate) fn new(bytes: &'a [u8]) -> Line<'a>
        ensures { result ≡ bytes.now }
    {
        Line { rest: bytes }
    }

    /// Passes the end.
    #[tactic(auto, unfolding(crate::specs::inner::Reading::end_at))]
    pub(crate) fn end(&self) -> Result<(), Unread>
        ensures { Gives (λ _. self.now) result (end_at self.now) }
    {
        if self.rest.is_empty() {
            Ok(())
        } else {
            Err(Unread::Refused)
        }
    }

    /// Takes the next byte.
    #[tactic(auto, unfolding(crate::specs::inner::Reading::first_at))]
    pub(crate) fn first(&mut self) -> Result<u8, Unread>
        ensures { Gives (λ byte. (byte, self.new)) result (first_at self.old) }
    {
        let Some((first, rest)) = self.rest.split_first() else {
            return Err(Unread::Refused);
        };
        self.rest = rest;
        Ok(*first)
    }

    /// Takes the word after a space, up to the next space or the end.
    #[tactic(auto, unfolding(crate::specs::inner::Reading::word_at))]
    pub(crate) fn word(&mut self) -> Result<&'a [u8], Unread>
        ensures { Gives (λ word. (word.now, self.new)) result (word_at self.old) }
    {
        let Some(field) = self.rest.strip_prefix(b" ") else {
            return Err(Unread::Refused);
        };
        let (word, rest) = field.split_at(word_length(field));
        self.rest = rest;
        Ok(word)
    }

    /// Passes this word.
    #[tactic(auto, unfolding(crate::specs::inner::Reading::expected))]
    pub(crate) fn expect(&mut self, word: &[u8]) -> Result<(), Unread>
        ensures { Gives (λ _. self.new) result (expected word.now self.old) }
    {
        let found = self.word()?;
        if found == word {
            Ok(())
        } else {
            Err(Unread::Refused)
        }
    }

    /// Passes a hyphen after a space, if one stands there.
    pub(crate) fn skips_hyphen(&mut self) -> bool
        ensures skipped { IsTrue result → behind (codes " -") self.old ≡ Some self.new }
        ensures stays { result ≡ false → (behind (codes " -") self.old ≡ None) }
        ensures same { result ≡ false → (self.new ≡ self.old) }
    {
        match self.rest.strip_prefix(b" -") {
            Some(rest) => {
                self.rest = rest;
                true
            }
            None => false,
        }
    }

    /// Takes the number after a space, written without a leading zero.
    #[tactic(auto, unfolding(crate::specs::inner::Reading::number_at))]
    pub(crate) fn number(&mut self, least: u64, most: u64) -> Result<u64, Unread>
        requires { most < 10 ^ 18 }
        ensures number { Gives (λ n. (n, self.new)) result (number_at least most self.old) }
        ensures most { IfOk result (λ n. n ≤ most) }
    {
        let word = self.word()?;
        match number_in(least, most, word) {
            Some(number) => Ok(number),
            None => Err(Unread::Refused),
        }
    }

    /// So many bytes after a space.
    #[tactic(auto, unfolding(crate::specs::inner::Reading::chunk_at))]
    pub(crate) fn chunk<const N: usize>(&mut self) -> Result<&'a [u8; N], Unread>
        ensures { Gives (λ chunk. (chunk.now, self.new)) result (chunk_at N self.old) }
    {
        let Some(field) = self.rest.strip_prefix(b" ") else {
            return Err(Unread::Refused);
        };
        let Some((chunk, rest)) = field.split_first_chunk::<N>() else {
            return Err(Unread::Refused);
        };
        self.rest = rest;
        Ok(chunk)
    }

    /// Takes the content of the counted field after a space.
    #[tactic(auto, unfolding(crate::specs::inner::Reading::counted_at))]
    pub(crate) fn counted(&mut self) -> Result<&'a [u8], Unread>
        ensures { Gives (λ content. (content.now, self.new)) result (counted_at self.old) }
    {
        let Some(field) = self.rest.strip_prefix(b" ") else {
            return Err(Unread::Refused);
        };
        let Some((content, rest)) = split_counted(field) else {
            return Err(Unread::Refused);
        };
        self.rest = rest;
        Ok(content)
    }

    /// Takes the text of so many characters in the counted field after a space.
    #[tactic(auto, unfolding(crate::specs::inner::Reading::text_at))]
    pub(crate) fn text(&mut self, alloc: Global, least: usize, most: usize) -> Result<Text, Unread>
        ensures { Gives (λ text. (text, self.new)) result (text_at least most self.old) }
    {
        let content = self.counted()?;
        if !is_text_of(least, most, content) {
            return Err(Unread::Refused);
        }
        match Vec::from_slice(alloc, content) {
            Ok(bytes) => Ok(Text::of_vec(bytes)),
            Err(_) => Err(Unread::Memory),
        }
    }

    /// Takes the input area in the counted field after a space.
    #[tactic(auto, unfolding(crate::specs::inner::Reading::in_area_at))]
    pub(crate) fn in_area(&mut self) -> Result<InArea, Unread>
        ensures { Gives (λ area. (area, self.new)) result (in_area_at self.old) }
    {
        match InArea::read(self.counted()?) {
            Some(area) => Ok(area),
            None => Err(Unread::Refused),
        }
    }

    /// Takes the output area in the counted field after a space.
    #[tactic(auto, unfolding(crate::specs::inner::Reading::out_area_at))]
    pub(crate) fn out_area(&mut self) -> Result<OutArea, Unread>
        ensures { Gives (λ area. (area, self.new)) result (out_area_at self.old) }
    {
        match OutArea::read(self.counted()?) {
            Some(area) => Ok(area),
            None => Err(Unread::Refused),
        }
    }
}

/// Returns whether bytes are a text of so many characters.
fn is_text_of(least: usize, most: usize, bytes: &[u8]) -> bool
    ensures { result ≡ is_text_of least most bytes.now }
{
    least <= bytes.len() && bytes.len() <= most && is_text(bytes)
}

/// Returns the name that a word is.
#[tactic(auto, unfolding(crate::specs::inner::Reading::name_of))]
pub(crate) fn name_of(word: &[u8]) -> Result<Name, Unread>
    ensures { Gives (λ name. name) result (name_of word.now) }
{
    match Name::new(word) {
        Some(name) => Ok(name),
        None => Err(Unread::Refused),
    }
}

/// Returns how many bytes stand before the first space.
fn word_length(bytes: &[u8]) -> usize
    ensures length { result ≡ position_or_len is_space bytes.now }
    ensures within { result ≤ length bytes.now }
{
    first_space(bytes).unwrap_or(bytes.len())
}

fn first_space(bytes: &[u8]) -> Option<usize>
    ensures { result ≡ position is_space bytes.now }
{
    bytes.iter().position(|byte| *byte == b' ')
}

/// Returns the content of the counted field at the front, and what comes after it.
fn split_counted(bytes: &[u8]) -> Option<(&[u8], &[u8])>
    ensures { option_map (λ found. (found.0.now, found.1.now)) result ≡ split_counted bytes.now }
{
    let (from, past) = take_counted(bytes)?;
    Some((&bytes[from..past], &bytes[past..]))
}

/// Returns the number from `least` to `most` that a word writes without a leading zero.
pub(crate) fn number_in(least: u64, most: u64, word: &[u8]) -> Option<u64>
    requires { most < 10 ^ 18 }
    ensures number { result ≡ number_in least most word.now }
    ensures most { IfSome result (λ n. n ≤ most) }
{
    if has_leading_zero(word) {
        return None;
    }
    let number = number_of(word)?;
    if least <= number && number <= most {
        Some(number)
    } else {
        None
    }
}
