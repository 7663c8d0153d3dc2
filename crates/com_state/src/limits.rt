//! The limits of this crate, each with its number.
ghost use Rattle.std.specs.Prelude.{◌≡◌};
ghost use Rattle.com_state.specs.declared.parties.TheConstants.{MAX_VERBS, MAX_ARRIVALS};

/// States the number of each public limit. It does nothing; its contract is the list.
pub fn limits_are_these()
    ensures verbs { MAX_VERBS ≡ 10000 }
    ensures arrivals { MAX_ARRIVALS ≡ 65536 }
{}
