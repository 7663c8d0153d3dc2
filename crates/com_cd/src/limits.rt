//! The limits of this crate, each with its number.
ghost use Rattle.std.specs.Prelude.{◌≡◌};
ghost use Rattle.com_cd.specs.Designation.{names_length};
ghost use Rattle.com_cd.specs.declared.designation.TheConstants.{NAMES_LENGTH};
ghost use Rattle.com_cd.specs.declared.input_area.TheConstants.{IN_AREA_LENGTH};
ghost use Rattle.com_cd.specs.declared.output_area.TheConstants.{MAX_OCCURRENCES, MAX_OUT_AREA_LENGTH};
ghost use Rattle.com_cd.specs.declared.status.TheConstants.{STATUS_LENGTH};

/// States the number of each public limit. It does nothing; its contract is the list.
pub fn limits_are_these()
    ensures names_length { NAMES_LENGTH ≡ 48 }
    ensures names_defined { names_length ≡ NAMES_LENGTH }
    ensures in_area_length { IN_AREA_LENGTH ≡ 87 }
    ensures occurrences { MAX_OCCURRENCES ≡ 8 }
    ensures out_area_length { MAX_OUT_AREA_LENGTH ≡ 114 }
    ensures status_length { STATUS_LENGTH ≡ 2 }
{}
