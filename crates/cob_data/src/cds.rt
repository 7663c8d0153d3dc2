//! The bodies of CD entries.
ghost use Rattle.std.specs.Prelude.{◌≡◌, ◌≤◌, ◌++◌, ℕ, List, [], ◌∷◌, IfOk, MatchOption, filter, find, length, map, option_map, option_to_list, unwrap_or};
ghost use Rattle.cob_data.specs.Entries.{first_token, has, last_token, piece_length};
ghost use Rattle.cob_data.specs.Clauses.{all_clauses, body_of, clause_word, clauses_of, ends_clause, input_field_of, is_input, is_name_or_filler, lists_names, number_in, output_field_of};
ghost use Rattle.cob_data.specs.Divisions.{body_by, initial_of, input_clause, input_clauses, name_if, output_clause, output_clause_by, output_clauses};

use crate::{CdBody, InputClause, OutputClause};
use cob_forms::{Name, Number, Position, is_kind, is_name, is_word, next_is_word};
use cob_lex::{Token, TokenKind};
use com_cd::{InField, OutField};
use com_text::Rows;
use std::alloc::{AllocError, Global};
use std::marker::Model;

/// The words by which the clauses of an input CD are told apart. The first of them that stands in a
/// clause is the clause's.
const INPUT_WORDS: [(&[u8], InField); 11] = [
    (b"QUEUE", InField::Queue),
    (b"SUB-QUEUE-1", InField::Sub1),
    (b"SUB-QUEUE-2", InField::Sub2),
    (b"SUB-QUEUE-3", InField::Sub3),
    (b"DATE", InField::Date),
    (b"TIME", InField::Time),
    (b"SOURCE", InField::Source),
    (b"LENGTH", InField::Length),
    (b"END", InField::EndKey),
    (b"STATUS", InField::Status),
    (b"COUNT", InField::Count),
];

/// The words by which the clauses of an output CD are told apart, with None for the clause of its
/// table. DESTINATION is the last, since DESTINATION COUNT and DESTINATION TABLE have it too.
const OUTPUT_WORDS: [(&[u8], Option<OutField>); 6] = [
    (b"COUNT", Some(OutField::Count)),
    (b"LENGTH", Some(OutField::Length)),
    (b"STATUS", Some(OutField::Status)),
    (b"TABLE", None),
    (b"ERROR", Some(OutField::Error(0))),
    (b"DESTINATION", Some(OutField::Destination(0))),
];

/// Whether this reserved word stands in an entry or a clause.
pub(crate) fn has(tokens: &[Token], word: &[u8]) -> bool
    ensures { result ≡ has word.now tokens.now }
{
    tokens.iter().any(|token| is_word(token, word))
}

/// Whether a CD entry is for input.
pub(crate) fn is_input(entry: &[Token]) -> bool
    ensures { result ≡ is_input entry.now }
{
    has(entry, b"INPUT")
}

/// What stands behind INPUT or OUTPUT.
fn body_of(entry: &[Token]) -> &[Token]
    ensures { result.now ≡ body_of entry.now }
{
    let mut rest = entry;
    'tokens: while let Some((token, behind)) = rest.split_first() {
        rest = behind;
        if is_word(token, b"INPUT") || is_word(token, b"OUTPUT") {
            return rest;
        }
    }
    rest
}

/// Whether a token is a name or FILLER.
fn is_name_or_filler(token: &Token) -> bool
    ensures { result ≡ is_name_or_filler token.now }
{
    is_name(token) || is_word(token, b"FILLER")
}

/// Whether names stand in place of clauses.
fn lists_names(body: &[Token]) -> bool
    ensures { result ≡ lists_names body.now }
{
    match body {
        [token, ..] => is_name_or_filler(token),
        [] => false,
    }
}

/// Whether a clause ends with a token, by what is behind it.
fn ends_clause(token: &Token, behind: &[Token]) -> bool
    ensures { result ≡ ends_clause token.now behind.now }
{
    is_name(token)
        || is_word(token, b"TIMES")
        || is_kind(token, TokenKind::Number) && !next_is_word(behind, b"TIMES")
}

/// How many tokens the first clause has.
fn clause_length(tokens: &[Token]) -> usize
    ensures length { result ≡ piece_length ends_clause tokens.now }
    ensures within { result ≤ length tokens.now }
{
    let mut count = 0;
    let mut rest = tokens;
    'tokens: while let Some((token, behind)) = rest.split_first() {
        count += 1;
        if ends_clause(token, behind) {
            return count;
        }
        rest = behind;
    }
    count
}

/// The clauses that are left, those behind which a further token stands.
#[derive(Drop)]
pub(crate) struct Clauses<'a> {
    rest: &'a [Token],
}

impl<'a> Model for Clauses<'a> {
    ghost use Rattle.std.specs.Prelude.{List};
    ghost use Rattle.cob_lex.specs.declared.token.Token.{Token};
    ghost use Rattle.cob_data.specs.Clauses.{all_clauses};

    ghost Value = { List (List Token) };

    ghost view = { λ clauses. all_clauses clauses.rest.now };
}

impl<'a> Clauses<'a> {
    fn of(body: &'a [Token]) -> Clauses<'a>
        ensures { result ≡ all_clauses body.now }
    {
        Clauses { rest: body }
    }

    /// The next clause, unless it is the last and nothing stands behind it.
    pub(crate) fn next(&mut self) -> Option<&'a [Token]>
        ensures { MatchOption result ((self.old ≡ []) × (self.new ≡ []))
            (λ clause. self.old ≡ clause.now ∷ self.new) }
    {
        let (clause, rest) = self.rest.split_at(clause_length(self.rest));
        self.rest = rest;
        if rest.is_empty() {
            return None;
        }
        Some(clause)
    }
}

/// The field that a clause of an input CD is for.
#[tactic(auto, unfolding(crate::specs::Clauses::input_field_of))]
fn input_field(clause: &[Token]) -> Option<InField>
    ensures { result ≡ input_field_of clause.now }
{
    first_field(&INPUT_WORDS, clause)
}

/// The field that a clause of an output CD is for, or that it is the table.
#[tactic(auto, unfolding(crate::specs::Clauses::output_field_of))]
fn output_field(clause: &[Token]) -> Option<Option<OutField>>
    ensures { result ≡ output_field_of clause.now }
{
    first_field(&OUTPUT_WORDS, clause)
}

/// What the first pair says whose word stands in a clause.
fn first_field<F: Copy>(pairs: &[(&'static [u8], F)], clause: &[Token]) -> Option<F>
    ensures { result ≡ option_map {T = List ℕ × F}
        (λ pair. pair.1) (find
        (λ pair. has pair.0 clause.now) (map (λ pair. (pair.0.now, pair.1)) pairs.now)) }
{
    'pairs: for pair in pairs {
        if has(clause, pair.0) {
            return Some(pair.1);
        }
    }
    None
}

/// The word of the first pair whose word stands in a clause.
fn first_word<F: Copy>(pairs: &[(&'static [u8], F)], clause: &[Token]) -> &'static [u8]
    ensures { result.now
        ≡ unwrap_or (find (λ word. has word clause.now) (map (λ pair. pair.0.now) pairs.now)) [] }
{
    'pairs: for pair in pairs {
        if has(clause, pair.0) {
            return pair.0;
        }
    }
    &[]
}

/// The word by which a clause is told from others of its CD.
pub(crate) fn clause_word(is_input: bool, clause: &[Token]) -> &'static [u8]
    ensures { result.now ≡ clause_word is_input clause.now }
{
    if is_input {
        first_word(&INPUT_WORDS, clause)
    } else {
        first_word(&OUTPUT_WORDS, clause)
    }
}

/// The clauses of a CD entry that has no names in their place.
pub(crate) fn clauses_of(entry: &[Token]) -> Clauses
    ensures { result ≡ clauses_of entry.now }
{
    let body = body_of(entry);
    if lists_names(body) {
        Clauses::of(&[])
    } else {
        Clauses::of(body)
    }
}

/// The first number among some tokens.
pub(crate) fn number_in(clause: &[Token]) -> Option<&Token>
    ensures { option_map (λ token. token.now) result ≡ number_in clause.now }
{
    clause
        .iter()
        .find(|token| is_kind(token, TokenKind::Number))
}

/// The clauses of an input CD.
fn input_clauses(alloc: Global, entry: &[Token]) -> Result<Vec<InputClause>, AllocError>
    ensures { IfOk result (λ list. list.items ≡ input_clauses (clauses_of entry.now)) }
{
    let mut list = Vec::new(alloc);
    let mut clauses = clauses_of(entry);
    'clauses: while let Some(clause) = clauses.next() {
        put_input_clause(clause, &mut list)?;
    }
    Ok(list)
}

/// Adds a clause of an input CD.
fn put_input_clause(clause: &[Token], list: &mut Vec<InputClause>) -> Result<(), AllocError>
    ensures { IfOk result
        (λ _. list.new.items ≡ list.old.items
        ++ input_clause (input_field_of clause.now) (first_token clause.now) (last_token clause.now)) }
{
    let Some(field) = input_field(clause) else {
        return Ok(());
    };
    let Some(first) = clause.first() else {
        return Ok(());
    };
    let Some(named) = clause.last() else {
        return Ok(());
    };
    list.push(InputClause {
        position: Position::of(first),
        field,
        name: Name::of(named)?,
    })?;
    Ok(())
}

/// The clauses of an output CD.
fn output_clauses(alloc: Global, entry: &[Token]) -> Result<Vec<OutputClause>, AllocError>
    ensures { IfOk result (λ list. list.items ≡ output_clauses (clauses_of entry.now)) }
{
    let mut list = Vec::new(alloc);
    let mut clauses = clauses_of(entry);
    'clauses: while let Some(clause) = clauses.next() {
        put_output_clause(clause, &mut list)?;
    }
    Ok(list)
}

/// Adds a clause of an output CD.
fn put_output_clause(clause: &[Token], list: &mut Vec<OutputClause>) -> Result<(), AllocError>
    ensures { IfOk result
        (λ _. list.new.items ≡ list.old.items
        ++ output_clause (output_field_of clause.now) (first_token clause.now) (last_token clause.now) (number_in clause.now)) }
{
    let Some(field) = output_field(clause) else {
        return Ok(());
    };
    let Some(first) = clause.first() else {
        return Ok(());
    };
    let Some(named) = clause.last() else {
        return Ok(());
    };
    if let Some(clause) = output_clause(field, first, named, clause)? {
        list.push(clause)?;
    }
    Ok(())
}

/// A clause of an output CD, by its field.
fn output_clause(
    field: Option<OutField>,
    first: &Token,
    named: &Token,
    clause: &[Token],
) -> Result<Option<OutputClause>, AllocError>
    ensures { IfOk result
        (λ found. option_to_list found
        ≡ output_clause_by field first.now named.now (number_in clause.now)) }
{
    let position = Position::of(first);
    if let Some(field) = field {
        let name = Name::of(named)?;
        return Ok(Some(OutputClause::Field {
            position,
            field,
            name,
        }));
    }
    match number_in(clause) {
        Some(number) => {
            let occurs = Number::of(number)?;
            Ok(Some(OutputClause::Table { position, occurs }))
        }
        None => Ok(None),
    }
}

/// A name, and none for FILLER.
pub(crate) fn name_if(token: &Token) -> Result<Option<Name>, AllocError>
    ensures { IfOk result (λ name. name ≡ name_if token.now) }
{
    if is_name(token) {
        Ok(Some(Name::of(token)?))
    } else {
        Ok(None)
    }
}

/// The names and FILLERs of a CD entry.
fn names_of(alloc: Global, body: &[Token]) -> Result<Vec<Option<Name>>, AllocError>
    ensures { IfOk result (λ list. list.items ≡ map name_if (filter is_name_or_filler body.now)) }
{
    let mut list = Vec::new(alloc);
    'tokens: for token in body {
        if is_name_or_filler(token) {
            list.push(name_if(token)?)?;
        }
    }
    Ok(list)
}

/// Where INITIAL stands in a CD entry.
fn initial_of(entry: &[Token]) -> Option<Position>
    ensures { result ≡ initial_of entry.now }
{
    match entry.iter().find(|token| is_word(token, b"INITIAL")) {
        Some(token) => Some(Position::of(token)),
        None => None,
    }
}

/// The body of a CD entry.
pub(crate) fn cd_body(alloc: Global, entry: &[Token]) -> Result<CdBody, AllocError>
    ensures { IfOk result
        (λ body. body ≡ body_by (is_input entry.now) (lists_names (body_of entry.now)) entry.now) }
{
    let body = body_of(entry);
    if !is_input(entry) {
        return Ok(CdBody::Output {
            clauses: Rows::of_vec(output_clauses(alloc, entry)?),
        });
    }
    let initial = initial_of(entry);
    if lists_names(body) {
        Ok(CdBody::InputNames {
            initial,
            names: Rows::of_vec(names_of(alloc, body)?),
        })
    } else {
        Ok(CdBody::Input {
            initial,
            clauses: Rows::of_vec(input_clauses(alloc, entry)?),
        })
    }
}
