//! The Procedure Division of a source, or its first fault.
ghost use Rattle.std.specs.Prelude.{◌≡◌, ◌+◌, ◌<◌, ◌≤◌, None, Some, IfOk, IfErr, length};
ghost use Rattle.cob_lex.specs.declared.fault.SourceKind.TheVariants.{WantedWord};
ghost use Rattle.cob_forms.specs.Forms.{wanted};
ghost use Rattle.cob_lex.specs.Order.{AreInOrder};
ghost use Rattle.cob_forms.specs.Faults.{at_first, before_wanted, earlier, first};
ghost use Rattle.cob_forms.specs.Answers.{IsRefused};
ghost use Rattle.cob_proc.specs.Faults.{faults_by, procedure_fault, read_faults};
ghost use Rattle.cob_proc.specs.DivisionReaders.{read_procedure};
ghost use Rattle.cob_proc.specs.Limits.{left_of, limit_place};
ghost use Rattle.cob_proc.specs.Spelled.{IsProcedure};
ghost use Rattle.cob_proc.specs.Trees.{procedure_trees};

use crate::faults::first_read_fault;
use crate::limits::limit_passed_at;
use crate::paragraphs::read_trees;
use crate::tree::Procedure;
use cob_forms::{Stop, fault_at, first_with, split_wanted};
use cob_lex::{SourceError, SourceFault, SourceKind, Token};
use std::alloc::{AllocError, Global};

/// Returns the first fault where reading stopped with so many tokens left.
fn first_fault_stopped(
    alloc: Global,
    tokens: &[Token],
    left: usize,
) -> Result<SourceFault, AllocError>
    ensures { IfOk result (λ fault. first (faults_by tokens.now (wanted left)) ≡ Some fault) }
{
    let (front, wanted) = split_wanted(tokens, left);
    first_fault_with(alloc, wanted, front)
}

/// Returns the first of a fault and those of some tokens that were read.
fn first_fault_with(
    alloc: Global,
    fault: SourceFault,
    tokens: &[Token],
) -> Result<SourceFault, AllocError>
    ensures { IfOk result (λ found. earlier (Some fault) (first (read_faults tokens.now)) ≡ Some found) }
{
    let found = first_read_fault(alloc, tokens)?;
    Ok(first_with(fault, found))
}

/// Returns how many tokens are left where reading stops, none where it goes over all of them.
fn count_unread(alloc: Global, tokens: &[Token]) -> Result<usize, AllocError>
    ensures { IfOk result (λ left. left ≡ left_of (read_procedure tokens.now)) }
{
    match read_trees(alloc, tokens) {
        Ok(_) => Ok(0),
        Err(Stop::Wanted(left)) => Ok(left),
        Err(Stop::Memory(error)) => Err(error),
    }
}

/// Returns the first fault where a limit is passed at a token with others after it: those tell no
/// earlier one.
#[tactic(auto, using(crate::proofs::CutFault::stopped_fault))]
fn first_fault_up_to(alloc: Global, tokens: &[Token], at: usize) -> Result<SourceFault, AllocError>
    requires limit { limit_place tokens.now ≡ Some at }
    requires in_order { AreInOrder tokens.now }
    requires others { at + 1 < length tokens.now }
    ensures { IfOk result (λ fault. procedure_fault tokens.now ≡ Some fault) }
{
    let (reach, _) = tokens.split_at(at + 1);
    let left = count_unread(alloc, reach)?;
    if left == 0 {
        let limit = fault_at(&tokens[at], SourceKind::OverLimit);
        return first_fault_with(alloc, limit, reach);
    }
    first_fault_stopped(alloc, reach, left)
}

/// Reads a Procedure Division to its end.
#[tactic(auto, using(crate::proofs::Pass::pass_steps))]
fn read_all(alloc: Global, tokens: &[Token]) -> Result<Procedure, SourceError>
    ensures found { IfOk result (λ procedure. IsProcedure (procedure_trees procedure) tokens.now) }
    ensures sound { IfOk result (λ _. procedure_fault tokens.now ≡ None) }
    ensures fault { IfErr result (λ error. IsRefused error (procedure_fault tokens.now)) }
{
    match read_trees(alloc, tokens) {
        Ok(procedure) => match first_read_fault(alloc, tokens)? {
            None => Ok(procedure),
            Some(fault) => Err(SourceError::Refused(fault)),
        },
        Err(Stop::Wanted(left)) => {
            let fault = first_fault_stopped(alloc, tokens, left)?;
            Err(SourceError::Refused(fault))
        }
        Err(Stop::Memory(error)) => Err(SourceError::Memory(error)),
    }
}

/// Reads a Procedure Division, from the word PROCEDURE to the end of the source. Where a limit is
/// passed it looks no further than that token, so it follows no IF deeper than they may nest.
pub fn procedure_division(alloc: Global, tokens: &[Token]) -> Result<Procedure, SourceError>
    // The tokens are in order, as those of a source do.
    requires { AreInOrder tokens.now }
    // The tokens spell the division that is found, and no other.
    ensures found { IfOk result (λ procedure. IsProcedure (procedure_trees procedure) tokens.now) }
    // Where one is found, the tokens have no fault.
    ensures sound { IfOk result (λ _. procedure_fault tokens.now ≡ None) }
    // A refusal reports the first fault. If memory runs out, nothing is said of the tokens.
    ensures fault { IfErr result (λ error. IsRefused error (procedure_fault tokens.now)) }
{
    if let Some(at) = limit_passed_at(alloc, tokens)?
        && at + 1 < tokens.len()
    {
        let fault = first_fault_up_to(alloc, tokens, at)?;
        return Err(SourceError::Refused(fault));
    }
    read_all(alloc, tokens)
}
