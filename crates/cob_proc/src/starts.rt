//! Whether a statement comes next.
ghost use Rattle.std.specs.Prelude.{◌≡◌};
ghost use Rattle.cob_forms.specs.Forms.{starts};
ghost use Rattle.cob_forms.specs.Readers.{begins};
ghost use Rattle.cob_proc.specs.Forms as forms;
ghost use Rattle.cob_proc.specs.Forms.{plain_alternatives};
ghost use Rattle.cob_proc.specs.Spelled.{begins_form};

use cob_forms::is_word;
use cob_lex::Token;

/// Returns whether a token begins a statement in which no others stand.
fn starts_plain(token: &Token) -> bool
    ensures { result ≡ starts plain_alternatives token.now }
{
    is_word(token, b"MOVE")
        || is_word(token, b"ADD")
        || is_word(token, b"SUBTRACT")
        || is_word(token, b"PERFORM")
        || is_word(token, b"GO")
        || is_word(token, b"EXIT")
        || is_word(token, b"STOP")
        || is_word(token, b"SEND")
        || is_word(token, b"ENABLE")
        || is_word(token, b"DISABLE")
        || is_word(token, b"ACCEPT")
}

/// Returns whether a token begins a statement that may occur in NO DATA.
fn starts_inner(token: &Token) -> bool
    ensures { result ≡ begins_form forms.inner token.now }
{
    is_word(token, b"RECEIVE") || starts_plain(token)
}

/// Returns whether a token begins a statement.
fn starts_statement(token: &Token) -> bool
    ensures { result ≡ begins_form forms.statement token.now }
{
    is_word(token, b"IF") || starts_inner(token)
}

/// Returns whether a statement that may occur in NO DATA comes next.
pub(crate) fn next_is_inner(tokens: &[Token]) -> bool
    ensures { result ≡ begins (begins_form forms.inner) tokens.now }
{
    match tokens {
        [token, ..] => starts_inner(token),
        [] => false,
    }
}

/// Returns whether a statement comes next.
pub(crate) fn next_is_statement(tokens: &[Token]) -> bool
    ensures { result ≡ begins (begins_form forms.statement) tokens.now }
{
    match tokens {
        [token, ..] => starts_statement(token),
        [] => false,
    }
}

/// Returns whether a sentence comes next.
#[tactic(auto, using(cob_forms::proofs::Agreement::same_begin))]
pub(crate) fn next_is_sentence(tokens: &[Token]) -> bool
    ensures { result ≡ begins (begins_form forms.sentence) tokens.now }
{
    match tokens {
        [token, ..] => starts_statement(token),
        [] => false,
    }
}
