//! The statements of a paragraph one after another, each before those in it.
ghost use Rattle.std.specs.Prelude.{◌≡◌, ◌++◌, IfOk, OnOk, flat_map};
ghost use Rattle.cob_proc.specs.Trees.{paragraph_tree};
ghost use Rattle.cob_code.specs.inner.Statements.{all_trees, trees_in};
ghost use Rattle.cob_code.specs.inner.Written.{shown, written};

use cob_proc::{Paragraph, Statement};
use std::alloc::{AllocError, Global};

/// Adds a statement and those in it.
#[cycle(statements)]
fn push_statement<'a>(
    statement: &'a Statement,
    list: &mut Vec<&'a Statement>,
) -> Result<(), AllocError>
    ensures { OnOk result (shown list.new.items ≡ shown list.old.items ++ trees_in (written statement.now)) }
{
    list.push(statement)?;
    match statement {
        Statement::If {
            holds,
            otherwise,
            ..
        } => {
            push_statements(holds, list)?;
            push_statements(otherwise, list)
        }
        Statement::Receive { no_data, .. } => push_statements(no_data, list),
        Statement::Move { .. }
        | Statement::Add { .. }
        | Statement::Subtract { .. }
        | Statement::Perform { .. }
        | Statement::Go { .. }
        | Statement::Exit
        | Statement::Stop
        | Statement::Send { .. }
        | Statement::SwitchInput { .. }
        | Statement::SwitchOutput { .. }
        | Statement::Accept { .. } => Ok(()),
    }
}

/// Adds statements and those in them.
#[cycle(statements)]
fn push_statements<'a>(
    statements: &'a [Statement],
    list: &mut Vec<&'a Statement>,
) -> Result<(), AllocError>
    ensures { OnOk result (shown list.new.items ≡ shown list.old.items ++ flat_map (λ statement. trees_in (written statement)) statements.now) }
{
    'statements: for statement in statements {
        push_statement(statement, list)?;
    }
    Ok(())
}

/// The statements of a paragraph.
pub(crate) fn statements_of(
    alloc: Global,
    paragraph: &Paragraph,
) -> Result<Vec<&Statement>, AllocError>
    ensures { IfOk result (λ list. shown list.items ≡ all_trees (paragraph_tree paragraph.now)) }
{
    let mut list = Vec::new(alloc);
    'sentences: for sentence in paragraph.sentences.as_slice() {
        push_statements(sentence, &mut list)?;
    }
    Ok(list)
}
