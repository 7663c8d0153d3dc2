//! Laws of flat code. A function here does nothing; its contract is the law.
ghost use Rattle.std.specs.Prelude.{◌≡◌, ℕ, List, Some, slice_get};
ghost use Rattle.cob_proc.specs.Trees.{ParagraphTree};
ghost use Rattle.cob_meaning.specs.Meaning.{Program};
ghost use Rattle.cob_meaning.specs.Sources.{IsProgramOf};
ghost use Rattle.cob_flat.specs.Compiled.{StaySentences};

use cob_meaning::laws::programs_are_checked;

/// A GO of a program leaves no range that its paragraph is in, and a PERFORM performs a range of the
/// text.
pub fn programs_stay_in_ranges()
    ensures { (source : List ℕ) (program : Program) (k : ℕ) (p : ParagraphTree) →
        IsProgramOf source program → slice_get program.text k ≡ Some p →
        StaySentences program.text k p.sentences }
{
    programs_are_checked();
}
