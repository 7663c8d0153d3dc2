//! Code of statements, from the last to the first: each instruction names the place of the next.
ghost use Rattle.std.specs.Prelude.{◌≡◌, ℕ, IfOk, IfSome, List, OnOk, Option, bytes_eq, map};
ghost use Rattle.std.specs.List.{AllByRecursion};
ghost use Rattle.cob_forms.specs.declared.written.Position.{Position};
ghost use Rattle.cob_proc.specs.Trees.{
  ParagraphTree,
  accepts,
  adds,
  branches,
  moves,
  paragraph_tree,
  performs,
  plain,
  receives,
  sends,
  subtracts,
  switches_input,
  switches_output,
};
ghost use Rattle.cob_meaning.specs.Layouts.{Layout};
ghost use Rattle.cob_meaning.specs.Storage.{Storage};
ghost use Rattle.cob_meaning.specs.Verbs.{Request};
ghost use Rattle.cob_meaning.specs.Checked.{
  AreChecked,
  IsCheckedAddend,
  IsCheckedCondition,
  IsCheckedEnding,
  IsCheckedIdentifier,
  IsCheckedKey,
  IsCheckedNumber,
  IsCheckedOperand,
  IsCheckedRepetition,
  IsCheckedStatement,
  IsInputCd,
  IsOutputCd,
};
ghost use Rattle.cob_meaning.specs.Meaning.{last_of, paragraph_number};
ghost use Rattle.cob_flat.specs.Flat.{AreTurnsOf, Asks, Changes};
ghost use Rattle.cob_flat.specs.inner.Emitted.{AreEmitted, Extends, IsEmitted, IsPut};
ghost use Rattle.cob_flat.specs.declared.code.Instruction.{Instruction as InstructionOf};
ghost use Rattle.cob_flat.specs.inner.Operands.{IsActionFor, IsVerbFor};
ghost use Rattle.cob_flat.specs.inner.Written.{block_by, written};

use crate::actions::{add_action, move_action, subtract_action};
use crate::code::{Action, Instruction, Turns, Verb};
use crate::names::Names;
use crate::resolve::{amount, test};
use crate::verbs::{accept_verb, receive_verb, send_verb, switch_input_verb, switch_output_verb};
use cob_forms::Name;
use cob_proc::{
    Addend, Condition, Ending, Identifier, Key, Operand, Paragraph, Repetition, Statement,
};
use std::alloc::{AllocError, Global};

/// Adds an instruction, and answers its place.
pub(crate) fn put(
    code: &mut Vec<Instruction>,
    instruction: Instruction,
) -> Result<usize, AllocError>
    ensures extends { OnOk result (Extends code.old.items code.new.items) }
    ensures put { IfOk result (λ place. IsPut code.new.items place instruction) }
{
    let place = code.len();
    code.push(instruction)?;
    Ok(place)
}

/// Whether a paragraph has a name.
fn has_name(paragraph: &Paragraph, name: &Name) -> bool
    ensures { result ≡ bytes_eq paragraph.now.name.text name.now.text }
{
    paragraph.name.text.as_bytes() == name.text.as_bytes()
}

/// The number of the paragraph with a name, or how many there are.
pub(crate) fn paragraph_number(text: &[Paragraph], name: &Name) -> usize
    ensures { result ≡ paragraph_number (map paragraph_tree text.now) name.now }
{
    let mut number = 0;
    'paragraphs: while number < text.len() {
        if has_name(&text[number], name) {
            return number;
        }
        number += 1;
    }
    number
}

/// How often a range is performed.
fn turns(alloc: Global, names: &Names, repetition: &Repetition) -> Result<Turns, AllocError>
    requires { IsCheckedRepetition names.now repetition.now }
    ensures { IfOk result (AreTurnsOf names.now repetition.now) }
{
    match repetition {
        Repetition::Once => Ok(Turns::Once),
        Repetition::Times(addend) => Ok(Turns::Times(amount(names, addend))),
        Repetition::Until(condition) => Ok(Turns::Until(test(alloc, names, condition)?)),
    }
}

/// Adds a statement that only changes the storage.
pub(crate) fn put_action(
    action: Action,
    next: usize,
    code: &mut Vec<Instruction>,
) -> Result<usize, AllocError>
    ensures extends { OnOk result (Extends code.old.items code.new.items) }
    ensures acts { IfOk result (λ place. (layout : Layout) (text : List ParagraphTree)
        (change : Storage → Option Storage) → IsActionFor change action →
        (all : List InstructionOf) → Extends code.new.items all →
        Changes layout text all change place next) }
{
    put(code, Instruction::Act { action, next })
}

/// Adds a verb.
fn put_verb(
    verb: Verb,
    no_data: usize,
    next: usize,
    code: &mut Vec<Instruction>,
) -> Result<usize, AllocError>
    ensures extends { OnOk result (Extends code.old.items code.new.items) }
    ensures asks { IfOk result (λ place. (layout : Layout) (text : List ParagraphTree)
        (request : Storage → Option Request) → IsVerbFor request verb →
        (all : List InstructionOf) → Extends code.new.items all →
        Asks layout text all request no_data place next) }
{
    put(
        code,
        Instruction::Ask {
            verb,
            no_data,
            next,
        },
    )
}

/// MOVE.
pub(crate) fn emit_move(
    alloc: Global,
    names: &Names,
    source: &Operand,
    targets: &[Identifier],
    next: usize,
    code: &mut Vec<Instruction>,
) -> Result<usize, AllocError>
    requires source { IsCheckedOperand names.now source.now }
    requires targets { AllByRecursion (IsCheckedIdentifier names.now) targets.now }
    ensures extends { OnOk result (Extends code.old.items code.new.items) }
    ensures does { IfOk result (λ place. (text : List ParagraphTree) →
        IsEmitted names.now text code.new.items (plain (moves source.now targets.now)) place next) }
{
    put_action(move_action(alloc, names, source, targets)?, next, code)
}

/// ADD.
pub(crate) fn emit_add(
    names: &Names,
    addend: &Addend,
    target: &Identifier,
    next: usize,
    code: &mut Vec<Instruction>,
) -> Result<usize, AllocError>
    requires addend { IsCheckedAddend names.now addend.now }
    requires target { IsCheckedNumber names.now target.now }
    ensures extends { OnOk result (Extends code.old.items code.new.items) }
    ensures does { IfOk result (λ place. (text : List ParagraphTree) →
        IsEmitted names.now text code.new.items (plain (adds addend.now target.now)) place next) }
{
    put_action(add_action(names, addend, target), next, code)
}

/// SUBTRACT.
pub(crate) fn emit_subtract(
    names: &Names,
    addend: &Addend,
    target: &Identifier,
    next: usize,
    code: &mut Vec<Instruction>,
) -> Result<usize, AllocError>
    requires addend { IsCheckedAddend names.now addend.now }
    requires target { IsCheckedNumber names.now target.now }
    ensures extends { OnOk result (Extends code.old.items code.new.items) }
    ensures does { IfOk result (λ place. (text : List ParagraphTree) →
        IsEmitted names.now text code.new.items (plain (subtracts addend.now target.now)) place next) }
{
    put_action(subtract_action(names, addend, target), next, code)
}

/// SEND.
pub(crate) fn emit_send(
    names: &Names,
    cd: &Name,
    from: &Option<Identifier>,
    ending: &Option<Ending>,
    next: usize,
    code: &mut Vec<Instruction>,
) -> Result<usize, AllocError>
    requires cd { IsOutputCd names.now cd.now }
    requires from { IfSome from.now (IsCheckedIdentifier names.now) }
    requires ending { IfSome ending.now (IsCheckedEnding names.now) }
    ensures extends { OnOk result (Extends code.old.items code.new.items) }
    ensures does { IfOk result (λ place. (text : List ParagraphTree) →
        IsEmitted names.now text code.new.items (plain (sends cd.now from.now ending.now)) place next) }
{
    put_verb(send_verb(names, cd, from, ending), next, next, code)
}

/// ENABLE and DISABLE INPUT.
pub(crate) fn emit_switch_input(
    names: &Names,
    on: bool,
    terminal: bool,
    cd: &Name,
    key: &Key,
    next: usize,
    code: &mut Vec<Instruction>,
) -> Result<usize, AllocError>
    requires cd { IsInputCd names.now cd.now }
    requires key { IsCheckedKey names.now key.now }
    ensures extends { OnOk result (Extends code.old.items code.new.items) }
    ensures does { IfOk result (λ place. (text : List ParagraphTree) →
        IsEmitted names.now text code.new.items (plain (switches_input on terminal cd.now key.now)) place next) }
{
    let verb = switch_input_verb(names, on, terminal, cd, key)?;
    put_verb(verb, next, next, code)
}

/// ENABLE and DISABLE OUTPUT.
pub(crate) fn emit_switch_output(
    names: &Names,
    on: bool,
    cd: &Name,
    key: &Key,
    next: usize,
    code: &mut Vec<Instruction>,
) -> Result<usize, AllocError>
    requires cd { IsOutputCd names.now cd.now }
    requires key { IsCheckedKey names.now key.now }
    ensures extends { OnOk result (Extends code.old.items code.new.items) }
    ensures does { IfOk result (λ place. (text : List ParagraphTree) →
        IsEmitted names.now text code.new.items (plain (switches_output on cd.now key.now)) place next) }
{
    put_verb(switch_output_verb(names, on, cd, key)?, next, next, code)
}

/// ACCEPT.
pub(crate) fn emit_accept(
    names: &Names,
    cd: &Name,
    next: usize,
    code: &mut Vec<Instruction>,
) -> Result<usize, AllocError>
    requires cd { IsInputCd names.now cd.now }
    ensures extends { OnOk result (Extends code.old.items code.new.items) }
    ensures does { IfOk result (λ place. (text : List ParagraphTree) →
        IsEmitted names.now text code.new.items (plain (accepts cd.now)) place next) }
{
    put_verb(accept_verb(names, cd), next, next, code)
}

/// The last paragraph of a range.
fn last_of<'a>(first: &'a Name, last: &'a Option<Name>) -> &'a Name
    ensures { result.now ≡ last_of first.now last.now }
{
    match last {
        Some(last) => last,
        None => first,
    }
}

/// PERFORM.
pub(crate) fn emit_perform(
    alloc: Global,
    names: &Names,
    text: &[Paragraph],
    first: &Name,
    last: &Option<Name>,
    repetition: &Repetition,
    next: usize,
    code: &mut Vec<Instruction>,
) -> Result<usize, AllocError>
    requires { IsCheckedRepetition names.now repetition.now }
    ensures extends { OnOk result (Extends code.old.items code.new.items) }
    ensures does { IfOk result (λ place. IsEmitted names.now (map paragraph_tree text.now)
        code.new.items (plain (performs first.now last.now repetition.now)) place next) }
{
    let last = last_of(first, last);
    let turns = turns(alloc, names, repetition)?;
    put(
        code,
        Instruction::Perform {
            first: paragraph_number(text, first),
            last: paragraph_number(text, last),
            turns,
            next,
        },
    )
}
