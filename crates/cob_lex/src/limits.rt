//! The limits of this crate, each with its number.
ghost use Rattle.std.specs.Prelude.{◌≡◌};
ghost use Rattle.cob_lex.specs.declared.lexer.TheConstants.{MAX_SOURCE};

/// States the number of each public limit. It does nothing; its contract is the list.
pub fn limits_are_these()
    ensures source { MAX_SOURCE ≡ 1048576 }
{}
