//! The lines of a text.
ghost use Rattle.std.specs.Prelude.{◌≡◌, ◌≤◌, ◌<◌, [], length, IfNone, IfSome, OnSome};
ghost use Rattle.std.specs.List.{position, position_or_len};
ghost use Rattle.com_journal.specs.Scripts.{is_line_feed};
ghost use Rattle.com_journal.specs.Faults.{IsFirstLine};

use memchr::memchr;
use std::marker::Model;

/// A line without its line feed.
#[derive(Clone, Copy)]
pub struct TextLine<'a> {
    pub text: &'a [u8],
    /// Whether a line feed comes after it.
    pub is_ended: bool,
}

/// The lines that are left of a text. Contracts see the bytes that are left.
#[derive(Drop)]
pub struct Lines<'a> {
    rest: &'a [u8],
}

impl<'a> Model for Lines<'a> {
    ghost use Rattle.std.specs.Prelude.{List, ℕ};

    ghost Value = { List ℕ };

    ghost view = { λ lines. lines.rest.now };
}

impl<'a> Lines<'a> {
    /// Returns the lines of these bytes.
    pub fn new(bytes: &'a [u8]) -> Lines<'a>
        ensures { result ≡ bytes.now }
    {
        Lines { rest: bytes }
    }

    /// Takes the next line, or None at the end.
    pub fn next_line(&mut self) -> Option<TextLine<'a>>
        ensures none { IfNone result (self.old ≡ []) }
        ensures line { IfSome result
            (λ line. IsFirstLine self.old line.text.now line.is_ended self.new) }
        ensures shorter { OnSome result (length self.new < length self.old) }
    {
        if self.rest.is_empty() {
            return None;
        }
        let (text, behind) = self.rest.split_at(line_length(self.rest));
        match behind {
            [] => {
                self.rest = behind;
                Some(TextLine {
                    text,
                    is_ended: false,
                })
            }
            [_, after @ ..] => {
                self.rest = after;
                Some(TextLine {
                    text,
                    is_ended: true,
                })
            }
        }
    }
}

/// Returns how many bytes stand before the first line feed.
fn line_length(bytes: &[u8]) -> usize
    ensures length { result ≡ position_or_len is_line_feed bytes.now }
    ensures within { result ≤ length bytes.now }
{
    line_feed_in(bytes).unwrap_or(bytes.len())
}

#[tactic(auto, using(crate::proofs::Searched::first_byte))]
fn line_feed_in(bytes: &[u8]) -> Option<usize>
    ensures { result ≡ position is_line_feed bytes.now }
{
    memchr(b'\n', bytes)
}
