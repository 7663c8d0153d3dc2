//! The PERFORMs and the GOs of a program by the numbers of paragraphs.
ghost use Rattle.std.specs.Prelude.{◌≡◌, ◌++◌, IfOk, OnOk, List, flat_map, map, ℕ};
ghost use Rattle.cob_proc.specs.Trees.{paragraph_tree};
ghost use Rattle.cob_meaning.specs.Meaning.{last_of};
ghost use Rattle.cob_meaning.specs.Ranges.{goes_from, performs_from};
ghost use Rattle.cob_code.specs.inner.Numbered.{aimed, numbered};
ghost use Rattle.cob_code.specs.inner.Statements.{own_goes, own_performs};
ghost use Rattle.cob_code.specs.inner.Written.{shown, written};

use crate::paragraphs::Paragraphs;
use crate::statements::statements_of;
use cob_forms::{Name, Position};
use cob_proc::Statement;
use std::alloc::{AllocError, Global};

/// A PERFORM: the paragraph in which it is, its first and last paragraph, and where these are written.
#[derive(Clone, Copy)]
pub(crate) struct Range {
    pub(crate) from: usize,
    pub(crate) first: usize,
    pub(crate) last: usize,
    pub(crate) begin: Position,
    pub(crate) end: Position,
}

/// A GO: the paragraph in which it is, the one that it names, and where that is written.
#[derive(Clone, Copy)]
pub(crate) struct Jump {
    pub(crate) from: usize,
    pub(crate) to: usize,
    pub(crate) place: Position,
}

/// The last paragraph of a range.
fn last_of<'a>(first: &'a Name, last: &'a Option<Name>) -> &'a Name
    ensures { result.now ≡ last_of first.now last.now }
{
    match last {
        Some(last) => last,
        None => first,
    }
}

/// Adds the range of a statement, if it is a PERFORM.
fn push_range(
    text: &Paragraphs,
    from: usize,
    statement: &Statement,
    ranges: &mut Vec<Range>,
) -> Result<(), AllocError>
    ensures { OnOk result (ranges.new.items ≡ ranges.old.items ++ map (numbered (map paragraph_tree text.now.paragraphs.now)) (own_performs from (written statement.now))) }
{
    match statement {
        Statement::Perform { first, last, .. } => {
            let end = last_of(first, last);
            ranges.push(Range {
                from,
                first: text.number(first),
                last: text.number(end),
                begin: first.position,
                end: end.position,
            })?;
            Ok(())
        }
        Statement::Move { .. }
        | Statement::Add { .. }
        | Statement::Subtract { .. }
        | Statement::If { .. }
        | Statement::Go { .. }
        | Statement::Exit
        | Statement::Stop
        | Statement::Receive { .. }
        | Statement::Send { .. }
        | Statement::SwitchInput { .. }
        | Statement::SwitchOutput { .. }
        | Statement::Accept { .. } => Ok(()),
    }
}

/// Adds a statement, if it is a GO.
fn push_jump(
    text: &Paragraphs,
    from: usize,
    statement: &Statement,
    jumps: &mut Vec<Jump>,
) -> Result<(), AllocError>
    ensures { OnOk result (jumps.new.items ≡ jumps.old.items ++ map (aimed (map paragraph_tree text.now.paragraphs.now)) (own_goes from (written statement.now))) }
{
    match statement {
        Statement::Go { target } => {
            jumps.push(Jump {
                from,
                to: text.number(target),
                place: target.position,
            })?;
            Ok(())
        }
        Statement::Move { .. }
        | Statement::Add { .. }
        | Statement::Subtract { .. }
        | Statement::If { .. }
        | Statement::Perform { .. }
        | Statement::Exit
        | Statement::Stop
        | Statement::Receive { .. }
        | Statement::Send { .. }
        | Statement::SwitchInput { .. }
        | Statement::SwitchOutput { .. }
        | Statement::Accept { .. } => Ok(()),
    }
}

/// Adds the ranges of the statements of a paragraph.
fn push_ranges(
    text: &Paragraphs,
    from: usize,
    statements: &[&Statement],
    ranges: &mut Vec<Range>,
) -> Result<(), AllocError>
    ensures { OnOk result (ranges.new.items ≡ ranges.old.items ++ map (numbered (map paragraph_tree text.now.paragraphs.now)) (flat_map (own_performs from) (shown statements.now))) }
{
    let mut at = 0;
    'statements: while at < statements.len() {
        push_range(text, from, statements[at], ranges)?;
        at += 1;
    }
    Ok(())
}

/// Adds the GOs of the statements of a paragraph.
fn push_jumps(
    text: &Paragraphs,
    from: usize,
    statements: &[&Statement],
    jumps: &mut Vec<Jump>,
) -> Result<(), AllocError>
    ensures { OnOk result (jumps.new.items ≡ jumps.old.items ++ map (aimed (map paragraph_tree text.now.paragraphs.now)) (flat_map (own_goes from) (shown statements.now))) }
{
    let mut at = 0;
    'statements: while at < statements.len() {
        push_jump(text, from, statements[at], jumps)?;
        at += 1;
    }
    Ok(())
}

/// The ranges of a program, and its GOs.
pub(crate) fn ranges_and_jumps(
    alloc: Global,
    text: &Paragraphs,
) -> Result<(Vec<Range>, Vec<Jump>), AllocError>
    ensures ranges { IfOk result (λ x. x.0.items ≡ map (numbered (map paragraph_tree text.now.paragraphs.now)) (performs_from 0 (map paragraph_tree text.now.paragraphs.now))) }
    ensures jumps { IfOk result (λ x. x.1.items ≡ map (aimed (map paragraph_tree text.now.paragraphs.now)) (goes_from 0 (map paragraph_tree text.now.paragraphs.now))) }
{
    let mut ranges = Vec::new(alloc);
    let mut jumps = Vec::new(alloc);
    let paragraphs = text.paragraphs;
    let mut from = 0;
    'paragraphs: while from < paragraphs.len() {
        let statements = statements_of(alloc, &paragraphs[from])?;
        push_ranges(text, from, &statements, &mut ranges)?;
        push_jumps(text, from, &statements, &mut jumps)?;
        from += 1;
    }
    Ok((ranges, jumps))
}
