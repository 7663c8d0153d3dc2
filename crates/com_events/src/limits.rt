//! The limits of this crate, each with its number.
ghost use Rattle.std.specs.Prelude.{◌≡◌};
ghost use Rattle.com_events.specs.declared.call.TheConstants.{MAX_KEY_LENGTH};

/// States the number of each public limit. It does nothing; its contract is the list.
pub fn limits_are_these()
    ensures key_length { MAX_KEY_LENGTH ≡ 10 }
{}
