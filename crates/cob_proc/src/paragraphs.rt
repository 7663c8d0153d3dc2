//! Sentences, paragraphs, and the whole division.
ghost use Rattle.std.specs.Prelude.{◌≡◌, ◌<◌, ◌≤◌, length, map, IfOk, Ok};
ghost use Rattle.cob_forms.specs.Readers.{Gives, begins};
ghost use Rattle.cob_proc.specs.Forms as forms;
ghost use Rattle.cob_proc.specs.Spelled.{begins_form};
ghost use Rattle.cob_proc.specs.Trees.{block_of, paragraph_tree, procedure_trees, trees_of};
ghost use Rattle.cob_proc.specs.DivisionReaders.{read_division, read_paragraph, read_paragraphs, read_procedure, read_sentence, read_sentences};

use crate::starts::next_is_sentence;
use crate::statements::take_statements;
use crate::tree::{Paragraph, Procedure, Statement};
use cob_forms::{Stop, is_name, take_kind, take_name, take_word};
use cob_lex::{Token, TokenKind};
use com_text::Rows;
use std::alloc::Global;

/// Reads a sentence: one statement or more, and a period.
#[tactic(auto, unfolding(crate::specs::DivisionReaders::read_sentence))]
fn take_sentence(
    alloc: Global,
    depth: usize,
    tokens: &[Token],
) -> Result<(Vec<Statement>, &[Token]), Stop>
    ensures gives { Gives (λ x. (block_of (trees_of x.0.items), x.1.now)) result (read_sentence depth tokens.now) }
    ensures fewer { IfOk result (λ x. length x.1.now < length tokens.now) }
{
    let (statements, rest) = take_statements(alloc, depth, tokens)?;
    let (_, rest) = take_kind(rest, TokenKind::Period)?;
    Ok((statements, rest))
}

/// Sentences, or none.
#[tactic(auto, unfolding(crate::specs::DivisionReaders::read_sentences))]
fn take_sentences(
    alloc: Global,
    depth: usize,
    tokens: &[Token],
) -> Result<(Rows<Vec<Statement>>, &[Token]), Stop>
    ensures gives { Gives (λ x. (map (λ s. block_of (trees_of s.items)) x.0, x.1.now)) result (read_sentences depth tokens.now) }
    ensures no_more { IfOk result (λ x. length x.1.now ≤ length tokens.now) }
{
    let mut list = Vec::new(alloc);
    let mut rest = tokens;
    'turns: while next_is_sentence(rest) {
        let (item, after) = take_sentence(alloc, depth, rest)?;
        list.push(item)?;
        rest = after;
    }
    Ok((Rows::of_vec(list), rest))
}

/// Reads a paragraph: its name, a period, and its sentences.
#[tactic(auto, unfolding(crate::specs::DivisionReaders::read_paragraph))]
fn take_paragraph(
    alloc: Global,
    depth: usize,
    tokens: &[Token],
) -> Result<(Paragraph, &[Token]), Stop>
    ensures gives { Gives (λ x. (paragraph_tree x.0, x.1.now)) result (read_paragraph depth tokens.now) }
    ensures fewer { IfOk result (λ x. length x.1.now < length tokens.now) }
{
    let (name, rest) = take_name(tokens)?;
    let (_, rest) = take_kind(rest, TokenKind::Period)?;
    let (sentences, rest) = take_sentences(alloc, depth, rest)?;
    Ok((Paragraph { name, sentences }, rest))
}

/// Returns whether a paragraph comes next.
fn next_is_paragraph(tokens: &[Token]) -> bool
    ensures { result ≡ begins (begins_form forms.paragraph) tokens.now }
{
    match tokens {
        [token, ..] if is_name(token) => true,
        _ => false,
    }
}

/// Returns one paragraph or more.
#[tactic(auto, unfolding(crate::specs::DivisionReaders::read_paragraphs))]
fn take_paragraphs(
    alloc: Global,
    depth: usize,
    tokens: &[Token],
) -> Result<(Rows<Paragraph>, &[Token]), Stop>
    ensures gives { Gives (λ x. (map paragraph_tree x.0, x.1.now)) result (read_paragraphs depth tokens.now) }
    ensures fewer { IfOk result (λ x. length x.1.now < length tokens.now) }
{
    let mut list = Vec::new(alloc);
    let (first, mut rest) = take_paragraph(alloc, depth, tokens)?;
    list.push(first)?;
    'turns: while next_is_paragraph(rest) {
        let (item, after) = take_paragraph(alloc, depth, rest)?;
        list.push(item)?;
        rest = after;
    }
    Ok((Rows::of_vec(list), rest))
}

/// PROCEDURE DIVISION, and the paragraphs.
#[tactic(auto, unfolding(crate::specs::DivisionReaders::read_division))]
fn take_division(
    alloc: Global,
    depth: usize,
    tokens: &[Token],
) -> Result<(Procedure, &[Token]), Stop>
    ensures gives { Gives (λ x. (procedure_trees x.0, x.1.now)) result (read_division depth tokens.now) }
{
    let (_, rest) = take_word(tokens, b"PROCEDURE")?;
    let (_, rest) = take_word(rest, b"DIVISION")?;
    let (_, rest) = take_kind(rest, TokenKind::Period)?;
    let (paragraphs, rest) = take_paragraphs(alloc, depth, rest)?;
    Ok((Procedure { paragraphs }, rest))
}

/// Returns the division that all of the tokens are, or how many are left where another is wanted.
/// No IFs nest deeper than there are tokens, so the depth never runs out.
pub(crate) fn read_trees(alloc: Global, tokens: &[Token]) -> Result<Procedure, Stop>
    ensures { Gives procedure_trees result (read_procedure tokens.now) }
{
    let (procedure, rest) = take_division(alloc, tokens.len(), tokens)?;
    if rest.is_empty() {
        return Ok(procedure);
    }
    Err(Stop::Wanted(rest.len()))
}
