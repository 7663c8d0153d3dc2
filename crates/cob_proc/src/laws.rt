//! Laws of the definitions. A function here does nothing; its contract is the law.
ghost use Rattle.std.specs.Prelude.{◌≡◌, List};
ghost use Rattle.cob_lex.specs.declared.token.Token.{Token};
ghost use Rattle.cob_proc.specs.Spelled.{IsProcedure};
ghost use Rattle.cob_proc.specs.Trees.{ParagraphTree};

/// Two divisions that the same tokens spell are one.
pub fn trees_are_one()
    ensures { (xs ys : List ParagraphTree) (tokens : List Token) → IsProcedure xs tokens → IsProcedure ys tokens → xs ≡ ys }
{}
