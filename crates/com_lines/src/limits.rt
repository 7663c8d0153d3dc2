//! The limits of this crate, each with its number.
ghost use Rattle.std.specs.Prelude.{◌≡◌};
ghost use Rattle.com_lines.specs.declared.reading.TheConstants.{MAX_MESSAGES};

/// States the number of each public limit. It does nothing; its contract is the list.
pub fn limits_are_these()
    ensures messages { MAX_MESSAGES ≡ 65536 }
{}
