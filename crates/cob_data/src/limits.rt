//! The limits of this crate, each with its number.
ghost use Rattle.std.specs.Prelude.{◌≡◌};
ghost use Rattle.cob_data.specs.declared.characters.TheConstants.{MAX_CHARACTERS};
ghost use Rattle.cob_data.specs.declared.names.TheConstants.{MAX_DATA_NAMES};

/// States the number of each public limit. It does nothing; its contract is the list.
pub fn limits_are_these()
    ensures characters { MAX_CHARACTERS ≡ 65536 }
    ensures data_names { MAX_DATA_NAMES ≡ 2000 }
{}
