//! Laws of the definitions. A function here does nothing; its contract is the law.
ghost use Rattle.std.specs.Prelude.{◌≡◌, ℕ, List, Ok};
ghost use Rattle.cob_lex.specs.declared.token.Token.{Token};
ghost use Rattle.cob_lex.specs.Lexing.{tokens_of};
ghost use Rattle.cob_lex.specs.Spelled.{AreTokens};

/// The tokens that a source has by the prefixes of its lines are spelled there: spans are in order,
/// each text is its slice, each token is the longest of its kind, and nothing but what is like a
/// space stands beside them in the columns that are read.
pub fn tokens_are_spelled()
    ensures { (source : List ℕ) (tokens : List Token) → tokens_of source ≡ Ok tokens → AreTokens source tokens }
{}
