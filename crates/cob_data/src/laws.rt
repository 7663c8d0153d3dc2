//! Laws of the definitions. A function here does nothing; its contract is the law.
ghost use Rattle.std.specs.Prelude.{◌≡◌, List, None, ℕ};
ghost use Rattle.cob_data.specs.Divisions.{IsDivisionOf};
ghost use Rattle.cob_data.specs.Faults.{data_fault};
ghost use Rattle.cob_data.specs.HasDivision.{HasDivision};
ghost use Rattle.cob_data.specs.declared.tree.DataDivision.{DataDivision};
ghost use Rattle.cob_lex.specs.declared.token.Token.{Token};

/// The same tokens say one place of PROCEDURE, and one division.
pub fn tokens_have_one_division()
    ensures { (ts : List Token) (p q : ℕ) (d e : DataDivision) → IsDivisionOf ts p d
        → IsDivisionOf ts q e → (p ≡ q) × (d ≡ e) }
{}

/// Tokens without a fault up to the word PROCEDURE say a division.
pub fn tokens_without_a_fault_have_a_division()
    ensures { (ts : List Token) → data_fault ts ≡ None → HasDivision ts }
{}
