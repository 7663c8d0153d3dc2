//! The characters of an area.
ghost use Rattle.std.specs.Prelude.{◌≡◌, ◌+◌, ◌≤◌, None, Some, MatchOption, length, option_map};
ghost use Rattle.com_cd.specs.Parts.{with_part};
ghost use Rattle.com_text.specs.Digits.{in_digits};
ghost use Rattle.cob_meaning.specs.Moves.{moved};
ghost use Rattle.cob_run.specs.inner.Contents.{IsReadable, shown};

use crate::content::Content;
use crate::fields::{write_number, write_part};
use crate::moves::move_content;
use cob_data::ItemSort;
use std::marker::Model;

/// An area of the storage. Contracts see the list of its characters.
#[derive(Debug, Drop)]
pub struct Area {
    bytes: Vec<u8>,
}

impl Model for Area {
    ghost use Rattle.std.specs.Prelude.{List, ℕ};

    ghost Value = { List ℕ };

    ghost view = { λ area. area.bytes.items };
}

impl Area {
    /// The area of these characters.
    pub(crate) fn of_vec(bytes: Vec<u8>) -> Area
        ensures { result ≡ bytes.items }
    {
        Area { bytes }
    }

    /// The characters.
    pub(crate) fn as_bytes(&self) -> &[u8]
        ensures { result.now ≡ self.now }
    {
        self.bytes.as_slice()
    }

    /// Writes characters over as many from a place on.
    pub(crate) fn write(&mut self, start: usize, characters: &[u8])
        requires { start + length characters.now ≤ length self.old }
        ensures put { self.new ≡ with_part start (length characters.now) self.old characters.now }
        ensures long { length self.new ≡ length self.old }
    {
        write_part(&mut self.bytes, start, characters);
    }

    /// Writes the low-order digits of a number.
    pub(crate) fn write_number(&mut self, start: usize, len: usize, number: u64)
        requires { start + len ≤ length self.old }
        ensures put { let digits = in_digits number len in
            self.new ≡ with_part start (length digits) self.old digits }
        ensures long { length self.new ≡ length self.old }
    {
        write_number(&mut self.bytes[start..start + len], number);
    }

    /// Fills a field with what is moved to it. None: it is left to the caller what the area holds.
    pub(crate) fn move_content(
        &mut self,
        start: usize,
        len: usize,
        sort: ItemSort,
        content: Content,
    ) -> Option<()>
        requires within { start + len ≤ length self.old }
        requires readable { IsReadable (shown content) }
        ensures moved { let put = moved (shown content.entry) sort len in
            MatchOption result (put ≡ None) (λ _. option_map (λ characters.
            with_part start (length characters) self.old characters) put ≡ Some self.new) }
        ensures long { length self.new ≡ length self.old }
    {
        move_content(&mut self.bytes[start..start + len], sort, content)
    }
}
