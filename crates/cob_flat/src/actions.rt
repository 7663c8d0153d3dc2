//! Statements that only change the storage.
ghost use Rattle.std.specs.Prelude.{IfOk};
ghost use Rattle.std.specs.List.{AllByRecursion};
ghost use Rattle.cob_meaning.specs.Checked.{
  IsCheckedAddend,
  IsCheckedIdentifier,
  IsCheckedNumber,
  IsCheckedOperand,
};
ghost use Rattle.cob_meaning.specs.Moves.{add, move as move_of, subtract};
ghost use Rattle.cob_flat.specs.inner.Operands.{IsActionFor};

use crate::code::Action;
use crate::names::Names;
use crate::resolve::{amount, source, spot, spots};
use cob_proc::{Addend, Identifier, Operand};
use std::alloc::{AllocError, Global};

/// MOVE.
#[tactic(auto, using(crate::proofs::Acting::moves_so))]
pub(crate) fn move_action(
    alloc: Global,
    names: &Names,
    operand: &Operand,
    targets: &[Identifier],
) -> Result<Action, AllocError>
    requires operand { IsCheckedOperand names.now operand.now }
    requires targets { AllByRecursion (IsCheckedIdentifier names.now) targets.now }
    ensures { IfOk result (IsActionFor (move_of names.now operand.now targets.now)) }
{
    Ok(Action::Move {
        source: source(names, operand)?,
        targets: spots(alloc, names, targets)?,
    })
}

/// ADD.
#[tactic(auto, using(crate::proofs::Acting::combines_so, crate::proofs::Acting::has_numeral))]
pub(crate) fn add_action(names: &Names, addend: &Addend, target: &Identifier) -> Action
    requires addend { IsCheckedAddend names.now addend.now }
    requires target { IsCheckedNumber names.now target.now }
    ensures { IsActionFor (add names.now addend.now target.now) result }
{
    Action::Add {
        amount: amount(names, addend),
        target: spot(names, target),
    }
}

/// SUBTRACT.
#[tactic(auto, using(crate::proofs::Acting::combines_so, crate::proofs::Acting::has_numeral))]
pub(crate) fn subtract_action(names: &Names, addend: &Addend, target: &Identifier) -> Action
    requires addend { IsCheckedAddend names.now addend.now }
    requires target { IsCheckedNumber names.now target.now }
    ensures { IsActionFor (subtract names.now addend.now target.now) result }
{
    Action::Subtract {
        amount: amount(names, addend),
        target: spot(names, target),
    }
}
