//! The limits of this crate, each with its number.
ghost use Rattle.std.specs.Prelude.{◌≡◌};
ghost use Rattle.com_text.specs.declared.counted.TheConstants.{MAX_COUNTED};
ghost use Rattle.com_text.specs.declared.decimal.TheConstants.{MAX_DIGITS};
ghost use Rattle.com_text.specs.declared.name.TheConstants.{FIELD_LENGTH};
ghost use Rattle.com_text.specs.declared.name_path.TheConstants.{MAX_NAMES};

/// States the number of each public limit. It does nothing; its contract is the list.
pub fn limits_are_these()
    ensures counted { MAX_COUNTED ≡ 999999 }
    ensures digits { MAX_DIGITS ≡ 18 }
    ensures field { FIELD_LENGTH ≡ 12 }
    ensures names { MAX_NAMES ≡ 4 }
{}
