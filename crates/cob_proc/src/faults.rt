//! The faults of a Procedure Division that its tokens tell, beside where another is wanted.
ghost use Rattle.std.specs.Prelude.{◌≡◌, ◌++◌, None, Some, [], IfOk, OnOk, bytes_eq, map};
ghost use Rattle.cob_forms.specs.Forms.{starts};
ghost use Rattle.cob_forms.specs.Readers.{begins};
ghost use Rattle.cob_proc.specs.Forms.{relation_alternatives};
ghost use Rattle.std.specs.List.{list_any};
ghost use Rattle.cob_forms.specs.Faults.{first};
ghost use Rattle.cob_proc.specs.declared.limits.TheConstants.{MAX_IFS};
ghost use Rattle.cob_proc.specs.Faults.{bad_columns, behind_word, column_behind, compares_constants, deep_ifs, is_constant, name_behind, named_again, names_paragraph, paragraph_names, read_faults, relates_constant, stands_well, too_many, without_identifier};

use crate::ifs::OpenIfs;
use crate::limits::MAX_PARAGRAPHS;
use cob_forms::{fault_at, first_of, in_area_a, is_kind, is_name, is_word, noted};
use cob_lex::{SourceFault, SourceKind, Token, TokenKind};
use std::alloc::{AllocError, Global};

/// Returns whether a token names a paragraph, by the one before it.
fn names_paragraph(before: &Token, token: &Token) -> bool
    ensures { result ≡ names_paragraph (Some before.now) token.now }
{
    is_kind(before, TokenKind::Period) && is_name(token)
}

/// Returns whether a token begins where it may, by the one before it.
fn stands_well(before: &Token, token: &Token) -> bool
    ensures { result ≡ stands_well (Some before.now) token.now }
{
    if names_paragraph(before, token) {
        return in_area_a(token);
    }
    before.line == token.line || !in_area_a(token)
}

/// Returns the fault of the token that comes next, where it is in the wrong area.
fn column_fault_behind(before: &Token, behind: &[Token]) -> Option<SourceFault>
    ensures { result ≡ first (column_behind before.now behind.now) }
{
    let (token, _) = behind.split_first()?;
    noted(!stands_well(before, token), SourceKind::BadColumn, token)
}

/// Returns the first token in the wrong area.
fn first_bad_column(tokens: &[Token]) -> Option<SourceFault>
    ensures { result ≡ first (bad_columns None tokens.now) }
{
    let (head, _) = tokens.split_first()?;
    let mut found = noted(!in_area_a(head), SourceKind::BadColumn, head);
    let mut rest = tokens;
    'tokens: while let Some((before, behind)) = rest.split_first() {
        found = first_of(found, column_fault_behind(before, behind));
        rest = behind;
    }
    found
}

/// Adds the token that comes next, where it names a paragraph.
fn push_name<'a>(
    names: &mut Vec<&'a Token>,
    before: &Token,
    behind: &'a [Token],
) -> Result<(), AllocError>
    ensures { OnOk result (map (λ t. t.now) names.new.items ≡ map (λ t. t.now) names.old.items ++ name_behind before.now behind.now) }
{
    if let Some((token, _)) = behind.split_first()
        && names_paragraph(before, token)
    {
        names.push(token)?;
    }
    Ok(())
}

/// Returns the tokens that name paragraphs.
fn paragraph_names(alloc: Global, tokens: &[Token]) -> Result<Vec<&Token>, AllocError>
    ensures { IfOk result (λ names. map (λ t. t.now) names.items ≡ paragraph_names None tokens.now) }
{
    let mut names = Vec::new(alloc);
    let mut rest = tokens;
    'tokens: while let Some((before, behind)) = rest.split_first() {
        push_name(&mut names, before, behind)?;
        rest = behind;
    }
    Ok(names)
}

/// Returns whether a name is among some.
fn is_among(name: &Token, names: &[&Token]) -> bool
    ensures { result ≡ list_any (λ other. bytes_eq name.now.text other.now.text) names.now }
{
    names
        .iter()
        .any(|other| name.text.as_str() == other.text.as_str())
}

/// Returns the first paragraph whose name an earlier one has already.
fn first_named_again(names: &[&Token]) -> Option<SourceFault>
    ensures { result ≡ first (named_again [] (map (λ t. t.now) names.now)) }
{
    let mut found = None;
    let mut at = 0;
    'names: while at < names.len() {
        let name = names[at];
        let again = is_among(name, &names[..at]);
        found = first_of(found, noted(again, SourceKind::TwiceDeclared, name));
        at += 1;
    }
    found
}

/// Returns the paragraph with which their number passes the limit.
#[tactic(auto, using(crate::proofs::Families::surplus_first, crate::proofs::Families::surplus_none))]
fn first_surplus(names: &[&Token]) -> Option<SourceFault>
    ensures { result ≡ first (too_many MAX_PARAGRAPHS (map (λ t. t.now) names.now)) }
{
    if MAX_PARAGRAPHS < names.len() {
        return Some(fault_at(names[MAX_PARAGRAPHS], SourceKind::OverLimit));
    }
    None
}

/// Returns the first IF that stands in as many as may be.
fn first_deep_if(alloc: Global, tokens: &[Token]) -> Result<Option<SourceFault>, AllocError>
    ensures { IfOk result (λ found. found ≡ first (deep_ifs MAX_IFS [] tokens.now)) }
{
    let mut ifs = OpenIfs::new(alloc);
    let mut found = None;
    let mut rest = tokens;
    'tokens: while let Some((token, behind)) = rest.split_first() {
        found = first_of(
            found,
            noted(ifs.is_too_deep(token), SourceKind::OverLimit, token),
        );
        ifs.pass(token)?;
        rest = behind;
    }
    Ok(found)
}

/// Returns whether a token is a literal, a number, SPACE, ZERO or one of their kin.
fn is_constant(token: &Token) -> bool
    ensures { result ≡ is_constant token.now }
{
    is_kind(token, TokenKind::Literal)
        || is_kind(token, TokenKind::Number)
        || is_word(token, b"SPACE")
        || is_word(token, b"SPACES")
        || is_word(token, b"ZERO")
        || is_word(token, b"ZEROS")
        || is_word(token, b"ZEROES")
}

/// Returns whether a token begins a relation.
fn is_relation(token: &Token) -> bool
    ensures { result ≡ starts relation_alternatives token.now }
{
    is_kind(token, TokenKind::Equal)
        || is_word(token, b"EQUAL")
        || is_kind(token, TokenKind::Greater)
        || is_word(token, b"GREATER")
        || is_kind(token, TokenKind::Less)
        || is_word(token, b"LESS")
}

/// Returns whether a constant comes next.
fn next_is_constant(tokens: &[Token]) -> bool
    ensures { result ≡ begins is_constant tokens.now }
{
    match tokens {
        [token, ..] => is_constant(token),
        [] => false,
    }
}

/// Returns the tokens after a word that may be left out.
fn behind_word<'a>(word: &[u8], tokens: &'a [Token]) -> &'a [Token]
    ensures { result.now ≡ behind_word word.now tokens.now }
{
    match tokens {
        [token, rest @ ..] if is_word(token, word) => rest,
        _ => tokens,
    }
}

/// Returns whether a relation and a constant come next.
fn relates_constant(tokens: &[Token]) -> bool
    ensures { result ≡ relates_constant tokens.now }
{
    let Some((token, rest)) = tokens.split_first() else {
        return false;
    };
    is_relation(token) && next_is_constant(behind_word(b"TO", behind_word(b"THAN", rest)))
}

/// Returns whether a comparison of two constants comes next.
fn compares_constants(tokens: &[Token]) -> bool
    ensures { result ≡ compares_constants tokens.now }
{
    let Some((token, rest)) = tokens.split_first() else {
        return false;
    };
    is_constant(token) && relates_constant(behind_word(b"NOT", behind_word(b"IS", rest)))
}

/// Returns the first simple condition without an identifier.
fn first_without_identifier(tokens: &[Token]) -> Option<SourceFault>
    ensures { result ≡ first (without_identifier tokens.now) }
{
    let mut found = None;
    let mut rest = tokens;
    'tokens: while let Some((token, behind)) = rest.split_first() {
        let constants = compares_constants(rest);
        found = first_of(found, noted(constants, SourceKind::WrongKind, token));
        rest = behind;
    }
    found
}

/// Returns the first fault of some tokens that were read.
#[tactic(auto, using(crate::proofs::Families::first_of_all))]
pub(crate) fn first_read_fault(
    alloc: Global,
    tokens: &[Token],
) -> Result<Option<SourceFault>, AllocError>
    ensures { IfOk result (λ found. found ≡ first (read_faults tokens.now)) }
{
    let column = first_bad_column(tokens);
    let names = paragraph_names(alloc, tokens)?;
    let again = first_named_again(&names);
    let surplus = first_surplus(&names);
    let deep = first_deep_if(alloc, tokens)?;
    let constants = first_without_identifier(tokens);
    let names_and_columns = first_of(first_of(column, again), surplus);
    Ok(first_of(first_of(names_and_columns, deep), constants))
}
