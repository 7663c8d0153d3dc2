//! Code of statements with those inside them.
ghost use Rattle.std.specs.Prelude.{ℕ, IfOk, List, OnOk, map};
ghost use Rattle.cob_proc.specs.Trees.{
  ParagraphTree,
  exits,
  goes,
  paragraph_tree,
  plain,
  stops,
};
ghost use Rattle.cob_meaning.specs.Checked.{
  IsCheckedCondition,
  IsCheckedIdentifier,
  IsInputCd,
};
ghost use Rattle.cob_meaning.specs.Layouts.{Layout};
ghost use Rattle.cob_meaning.specs.Verbs.{receive};
ghost use Rattle.cob_flat.specs.declared.code.Instruction.TheVariants as i;
ghost use Rattle.cob_flat.specs.declared.code.Verb.{Verb as VerbOf};
ghost use Rattle.cob_flat.specs.declared.operands.Test.{Test as TestOf};
ghost use Rattle.cob_flat.specs.Flat.{IsTestOf};
ghost use Rattle.cob_flat.specs.inner.Emitted.{AreEmitted, Extends, IsEmitted, IsPut};
ghost use Rattle.cob_flat.specs.inner.Operands.{IsVerbFor};
ghost use Rattle.cob_flat.specs.inner.Written.{AreSound, IsSound, block_by, written};

use crate::code::{Action, Instruction};
use crate::emit::{
    emit_accept, emit_add, emit_move, emit_perform, emit_send, emit_subtract, emit_switch_input,
    emit_switch_output, paragraph_number, put, put_action,
};
use crate::names::Names;
use crate::resolve::test;
use crate::verbs::receive_verb;
use cob_forms::Name;
use cob_proc::{Condition, Identifier, Paragraph, Statement};
use std::alloc::{AllocError, Global};

/// GO TO.
fn emit_go(
    text: &[Paragraph],
    target: &Name,
    code: &mut Vec<Instruction>,
) -> Result<usize, AllocError>
    ensures extends { OnOk result (Extends code.old.items code.new.items) }
    ensures does { IfOk result (λ place. (layout : Layout) (next : ℕ) →
        IsEmitted layout (map paragraph_tree text.now) code.new.items (plain (goes target.now)) place next) }
{
    put(
        code,
        Instruction::Go {
            paragraph: paragraph_number(text, target),
        },
    )
}

/// EXIT.
fn emit_exit(next: usize, code: &mut Vec<Instruction>) -> Result<usize, AllocError>
    ensures extends { OnOk result (Extends code.old.items code.new.items) }
    ensures does { IfOk result (λ place. (layout : Layout) (text : List ParagraphTree) →
        IsEmitted layout text code.new.items (plain exits) place next) }
{
    put_action(Action::Exit, next, code)
}

/// STOP RUN.
fn emit_stop(code: &mut Vec<Instruction>) -> Result<usize, AllocError>
    ensures extends { OnOk result (Extends code.old.items code.new.items) }
    ensures does { IfOk result (λ place. (layout : Layout) (text : List ParagraphTree) (next : ℕ) →
        IsEmitted layout text code.new.items (plain stops) place next) }
{
    put(code, Instruction::Halt)
}

/// The test of an IF, with the places of its two blocks.
fn emit_choice(
    alloc: Global,
    names: &Names,
    condition: &Condition,
    one: usize,
    other: usize,
    code: &mut Vec<Instruction>,
) -> Result<usize, AllocError>
    requires { IsCheckedCondition names.now condition.now }
    ensures extends { OnOk result (Extends code.old.items code.new.items) }
    ensures chooses { IfOk result (λ place. (test : TestOf) × IsTestOf names.now condition.now test
        × IsPut code.new.items place (i.Choose test one other)) }
{
    let test = test(alloc, names, condition)?;
    put(code, Instruction::Choose { test, one, other })
}

/// The verb of a RECEIVE, with the place of its NO DATA.
fn emit_receive(
    names: &Names,
    cd: &Name,
    segment: bool,
    into: &Identifier,
    is_no_data: bool,
    no_data: usize,
    next: usize,
    code: &mut Vec<Instruction>,
) -> Result<usize, AllocError>
    requires cd { IsInputCd names.now cd.now }
    requires into { IsCheckedIdentifier names.now into.now }
    ensures extends { OnOk result (Extends code.old.items code.new.items) }
    ensures asks { IfOk result (λ place. (verb : VerbOf)
        × IsVerbFor (receive names.now cd.now segment into.now is_no_data) verb
        × IsPut code.new.items place (i.Ask verb no_data next)) }
{
    put(
        code,
        Instruction::Ask {
            verb: receive_verb(names, cd, segment, into, is_no_data),
            no_data,
            next,
        },
    )
}

/// Adds a statement, and answers where its code begins. Behind it the code goes on at `next`.
#[cycle(statements)]
#[tactic(auto, using(crate::proofs::Rows::holds_checked, crate::proofs::Rows::otherwise_checked, crate::proofs::Rows::no_data_checked,))]
fn emit_statement(
    alloc: Global,
    names: &Names,
    statement: &Statement,
    text: &[Paragraph],
    next: usize,
    code: &mut Vec<Instruction>,
) -> Result<usize, AllocError>
    requires { IsSound names.now (map paragraph_tree text.now) statement.now }
    ensures extends { OnOk result (Extends code.old.items code.new.items) }
    ensures does { IfOk result (λ place. IsEmitted names.now (map paragraph_tree text.now)
        code.new.items (written statement.now) place next) }
{
    match statement {
        Statement::Move { source, targets } => {
            emit_move(alloc, names, source, targets.as_slice(), next, code)
        }
        Statement::Add { addend, target } => emit_add(names, addend, target, next, code),
        Statement::Subtract { addend, target } => emit_subtract(names, addend, target, next, code),
        Statement::If {
            condition,
            holds,
            otherwise,
            ..
        } => {
            let one = emit_statements(alloc, names, holds, text, next, code)?;
            let other = emit_statements(alloc, names, otherwise, text, next, code)?;
            emit_choice(alloc, names, condition, one, other, code)
        }
        Statement::Perform {
            first,
            last,
            repetition,
        } => emit_perform(alloc, names, text, first, last, repetition, next, code),
        Statement::Go { target } => emit_go(text, target, code),
        Statement::Exit => emit_exit(next, code),
        Statement::Stop => emit_stop(code),
        Statement::Receive {
            cd,
            segment,
            into,
            no_data,
        } => {
            let place = emit_statements(alloc, names, no_data, text, next, code)?;
            emit_receive(
                names,
                cd,
                *segment,
                into,
                !no_data.is_empty(),
                place,
                next,
                code,
            )
        }
        Statement::Send { cd, from, ending } => emit_send(names, cd, from, ending, next, code),
        Statement::SwitchInput {
            on,
            terminal,
            cd,
            key,
        } => emit_switch_input(names, *on, *terminal, cd, key, next, code),
        Statement::SwitchOutput { on, cd, key } => {
            emit_switch_output(names, *on, cd, key, next, code)
        }
        Statement::Accept { cd } => emit_accept(names, cd, next, code),
    }
}

/// Adds statements, and answers where their code begins. Behind them the code goes on at `next`.
#[cycle(statements)]
#[tactic(auto, using(crate::proofs::Rows::checked_at))]
pub(crate) fn emit_statements(
    alloc: Global,
    names: &Names,
    statements: &[Statement],
    text: &[Paragraph],
    next: usize,
    code: &mut Vec<Instruction>,
) -> Result<usize, AllocError>
    requires { AreSound names.now (map paragraph_tree text.now) statements.now }
    ensures extends { OnOk result (Extends code.old.items code.new.items) }
    ensures does { IfOk result (λ place. AreEmitted names.now (map paragraph_tree text.now)
        code.new.items (block_by statements.now) place next) }
{
    let mut place = next;
    let mut left = statements.len();
    'statements: while 0 < left {
        left -= 1;
        place = emit_statement(alloc, names, &statements[left], text, place, code)?;
    }
    Ok(place)
}
