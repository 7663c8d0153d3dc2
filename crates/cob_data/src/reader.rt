//! Reading tokens by the tables of the forms.
ghost use Rattle.std.specs.Prelude.{◌≡◌, ◌≤◌, ◌<◌, [], ◌∷◌, IfOk, IfSome, MatchOption, MatchResult, length, option_map};
ghost use Rattle.cob_forms.specs.Sorts.{is};
ghost use Rattle.cob_data.specs.Tables.{form_of, part_of, parts_of, sort_of};
ghost use Rattle.cob_data.specs.Stops.{BeginsWith, BeginsNot, ReadsTo, StopsAt};
ghost use Rattle.cob_forms.specs.Forms.{behind, more, token};
ghost use Rattle.cob_data.specs.Forms.{alternatives_of};

use crate::grammar::{Form, Part, Sort};
use cob_forms::{is_kind, is_name, is_word};
use cob_lex::{Token, TokenKind};

/// Another token is wanted where so many tokens are left, none where they end too early.
#[derive(Clone, Copy, Debug)]
pub(crate) struct Wanted {
    pub(crate) left: usize,
}

impl Sort {
    /// Whether a token is of this sort.
    fn takes(self, token: &Token) -> bool
        ensures { result ≡ is (sort_of self) token.now }
    {
        match self {
            Sort::Reserved(word) => is_word(token, word),
            Sort::Name => is_name(token),
            Sort::AnyWord => is_kind(token, TokenKind::Word),
            Sort::Kind(kind) => is_kind(token, kind),
        }
    }
}

/// The parts behind a token with which a form begins.
fn parts_behind(form: Form, token: &Token) -> Option<&'static [Part]>
    ensures { option_map (λ parts. parts_of parts.now) result
        ≡ behind (alternatives_of (form_of form)) token.now }
{
    'alternatives: for alternative in form.alternatives() {
        if alternative.0.takes(token) {
            return Some(alternative.1);
        }
    }
    None
}

/// The parts of a form behind its first token, and the tokens behind that one, where the form
/// begins with the next token.
fn entered<'a>(form: Form, tokens: &'a [Token]) -> Option<(&'static [Part], &'a [Token])>
    ensures begins { MatchOption result (BeginsNot (form_of form) tokens.now)
        (λ x. BeginsWith (form_of form) tokens.now (parts_of x.0.now) x.1.now) }
    ensures fewer { IfSome result (λ x. length x.1.now < length tokens.now) }
{
    let [token, rest @ ..] = tokens else {
        return None;
    };
    match parts_behind(form, token) {
        Some(parts) => Some((parts, rest)),
        None => None,
    }
}

/// What is left behind a token of a sort.
fn read_token<'a>(sort: Sort, tokens: &'a [Token]) -> Result<&'a [Token], Wanted>
    ensures read { MatchResult result
        (λ rest. ReadsTo (token (sort_of sort) ∷ []) tokens.now rest.now)
        (λ wanted. StopsAt (token (sort_of sort) ∷ []) tokens.now wanted.left) }
    ensures no_more { IfOk result (λ rest. length rest.now ≤ length tokens.now) }
{
    let [token, rest @ ..] = tokens else {
        return Err(Wanted { left: 0 });
    };
    if sort.takes(token) {
        Ok(rest)
    } else {
        Err(Wanted { left: tokens.len() })
    }
}

/// What is left behind a part.
#[cycle(read)]
pub(crate) fn read_part<'a>(part: Part, tokens: &'a [Token]) -> Result<&'a [Token], Wanted>
    ensures read { MatchResult result (λ rest. ReadsTo (part_of part ∷ []) tokens.now rest.now)
        (λ wanted. StopsAt (part_of part ∷ []) tokens.now wanted.left) }
    ensures no_more { IfOk result (λ rest. length rest.now ≤ length tokens.now) }
{
    match part {
        Part::Token(sort) => read_token(sort, tokens),
        Part::Form(form) => match entered(form, tokens) {
            Some((parts, rest)) => read_parts(parts, rest),
            None => Err(Wanted { left: tokens.len() }),
        },
        Part::Maybe(form) => match entered(form, tokens) {
            Some((parts, rest)) => read_parts(parts, rest),
            None => Ok(tokens),
        },
        Part::More(form) => read_turns(form, tokens),
    }
}

/// What is left behind the parts of a form.
#[cycle(read)]
pub(crate) fn read_parts<'a>(parts: &[Part], tokens: &'a [Token]) -> Result<&'a [Token], Wanted>
    ensures read { MatchResult result (λ rest. ReadsTo (parts_of parts.now) tokens.now rest.now)
        (λ wanted. StopsAt (parts_of parts.now) tokens.now wanted.left) }
    ensures no_more { IfOk result (λ rest. length rest.now ≤ length tokens.now) }
{
    let mut rest = tokens;
    'parts: for part in parts {
        rest = read_part(*part, rest)?;
    }
    Ok(rest)
}

/// What is left behind all further turns of a form.
#[cycle(read)]
fn read_turns<'a>(form: Form, tokens: &'a [Token]) -> Result<&'a [Token], Wanted>
    ensures read { MatchResult result
        (λ rest. ReadsTo (more (form_of form) ∷ []) tokens.now rest.now)
        (λ wanted. StopsAt (more (form_of form) ∷ []) tokens.now wanted.left) }
    ensures no_more { IfOk result (λ rest. length rest.now ≤ length tokens.now) }
{
    let mut rest = tokens;
    'turns: while let Some((parts, behind)) = entered(form, rest) {
        rest = read_parts(parts, behind)?;
    }
    Ok(rest)
}
