//! From the bytes of a source to its program.
ghost use Rattle.std.specs.Prelude.{◌≡◌, ◌≤◌, IfErr, IfOk, drop, length};
ghost use Rattle.cob_lex.specs.Order.{AreInOrder};
ghost use Rattle.cob_forms.specs.Answers.{IsRefused};
ghost use Rattle.cob_data.specs.Occurrences.{HasOccurrences};
ghost use Rattle.cob_proc.specs.Faults.{procedure_fault};
ghost use Rattle.cob_proc.specs.Spelled.{IsProcedure};
ghost use Rattle.cob_proc.specs.Trees.{procedure_trees};
ghost use Rattle.cob_meaning.specs.Sources.{IsProgramOf, Spells, tokens_fault};
ghost use Rattle.cob_code.specs.Compiled.{IsReadRefusal, program_of};

use crate::compiler::{Program, compile};
use cob_data::{DataDivision, data_division};
use cob_lex::{MAX_SOURCE, SourceError, SourceFault, SourceKind, Token, lex};
use cob_proc::{Procedure, procedure_division};
use std::alloc::Global;

/// Reads the Procedure Division of tokens from a place on.
#[tactic(auto, using(cob_lex::proofs::SpelledOrder::order_behind))]
fn read_procedure(alloc: Global, tokens: &[Token], place: usize) -> Result<Procedure, SourceError>
    requires in_order { AreInOrder tokens.now }
    requires within { place ≤ length tokens.now }
    ensures found { IfOk result (λ procedure. IsProcedure (procedure_trees procedure) (drop place tokens.now)) }
    ensures sound { IfOk result (λ _. procedure_fault (drop place tokens.now) ≡ None) }
    ensures fault { IfErr result (λ error. IsRefused error (procedure_fault (drop place tokens.now))) }
{
    let (_, behind) = tokens.split_at(place);
    procedure_division(alloc, behind)
}

/// Reads the divisions and the Procedure Division of tokens.
fn read_trees(alloc: Global, tokens: &[Token]) -> Result<(DataDivision, Procedure), SourceError>
    requires few { length tokens.now ≤ MAX_SOURCE }
    requires in_order { AreInOrder tokens.now }
    ensures occurrences { IfOk result (λ trees. HasOccurrences trees.0) }
    ensures spells { IfOk result (λ trees. Spells tokens.now (program_of trees.0 trees.1)) }
    ensures fault { IfErr result (λ error. IsRefused error (tokens_fault tokens.now)) }
{
    let (divisions, place) = match data_division(alloc, tokens) {
        Ok(read) => read,
        Err(error) => return Err(error),
    };
    match read_procedure(alloc, tokens, place) {
        Ok(procedure) => Ok((divisions, procedure)),
        Err(error) => Err(error),
    }
}

/// Reads the program of a source. It is refused unread if it has more than [`MAX_SOURCE`] bytes.
pub fn read_program(alloc: Global, bytes: &[u8]) -> Result<Program, SourceError>
    // What is read is the program of the source.
    ensures program { IfOk result (λ program. IsProgramOf bytes.now (program_of program.divisions program.procedure)) }
    // A refusal reports the fault of the source. If memory runs out, nothing is said of the source.
    ensures fault { IfErr result (IsReadRefusal bytes.now) }
{
    if MAX_SOURCE < bytes.len() {
        return Err(SourceError::Refused(SourceFault {
            line: 1,
            column: 1,
            kind: SourceKind::OverLimit,
        }));
    }
    let tokens = match lex(alloc, bytes) {
        Ok(tokens) => tokens,
        Err(error) => return Err(error),
    };
    match read_trees(alloc, tokens.as_slice()) {
        Ok((divisions, procedure)) => compile(alloc, divisions, procedure),
        Err(error) => Err(error),
    }
}
