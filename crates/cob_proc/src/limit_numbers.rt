//! The limits of this crate, each with its number.
ghost use Rattle.std.specs.Prelude.{◌≡◌};
ghost use Rattle.cob_proc.specs.declared.limits.TheConstants.{MAX_PARAGRAPHS, MAX_IFS};

/// States the number of each public limit. It does nothing; its contract is the list.
pub fn limits_are_these()
    ensures paragraphs { MAX_PARAGRAPHS ≡ 1000 }
    ensures ifs { MAX_IFS ≡ 64 }
{}
