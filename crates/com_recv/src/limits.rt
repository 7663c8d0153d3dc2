//! The limits of this crate, each with its number.
ghost use Rattle.std.specs.Prelude.{◌≡◌};
ghost use Rattle.com_recv.specs.declared.areas.TheConstants.{MAX_COUNT};

/// States the number of each public limit. It does nothing; its contract is the list.
pub fn limits_are_these()
    ensures count { MAX_COUNT ≡ 999999 }
{}
