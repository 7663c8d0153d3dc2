//! Where bytes come from.
ghost use Rattle.std.specs.Prelude.{ℕ, List, Option, IsOk, IsErr};
ghost use Rattle.std.specs.Io.{ReadsAtMost};
ghost use Rattle.std.specs.Io.KnownBytes.{ReadConsumes};
ghost use Rattle.com_io.specs.Faults.{HasCause};

use thiserror::Error;

/// A read that failed.
#[derive(Clone, Copy, Debug, PartialEq, Eq, Error)]
#[error("a read failed")]
pub struct Failed;

/// Bytes that are read from the front on.
pub trait Source {
    /// The bytes still to come. A source need not tell them.
    ghost left: { Self → Option (List ℕ) };

    /// How often a read has failed.
    ghost faults: { Self → ℕ };

    /// Reads bytes into the front of `into`, and answers how many: none into a buffer with room
    /// is the end of the input. A failed read takes no bytes.
    fn read(&mut self, into: &mut [u8]) -> Result<usize, Failed>
        ensures bound { ReadsAtMost result into.new }
        ensures bytes { ReadConsumes (left self.old) (left self.new) result into.new }
        ensures cause { HasCause (faults self.old) (faults self.new) (IsOk result) (IsErr result) };
}
