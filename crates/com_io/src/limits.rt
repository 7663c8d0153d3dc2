//! The limits of this crate, each with its number.
ghost use Rattle.std.specs.Prelude.{◌≡◌};
ghost use Rattle.com_io.specs.declared.files.TheConstants.{FILE_LIMIT};

/// States the number of each public limit. It does nothing; its contract is the list.
pub fn limits_are_these()
    ensures file { FILE_LIMIT ≡ 1048576 }
{}
