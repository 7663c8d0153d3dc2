//! Laws of the definitions. A function here does nothing; its contract is the law.
ghost use Rattle.std.specs.Prelude.{◌≡◌, ◌++◌, List};
ghost use Rattle.cob_lex.specs.declared.fault.SourceFault.{SourceFault};
ghost use Rattle.cob_forms.specs.Faults.{earlier, first};

/// The first of two lists of faults is the earlier of the first of each.
pub fn first_of_both()
    ensures { (xs ys : List SourceFault) → first (xs ++ ys) ≡ earlier (first xs) (first ys) }
{}
