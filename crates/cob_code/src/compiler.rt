//! A program, checked for names and kinds and for ranges.
ghost use Rattle.std.specs.Prelude.{◌≡◌, IfErr, IfOk, map};
ghost use Rattle.cob_data.specs.Occurrences.{HasOccurrences};
ghost use Rattle.cob_proc.specs.Trees.{paragraph_tree};
ghost use Rattle.cob_meaning.specs.Sources.{HasNoTreesFault};
ghost use Rattle.cob_code.specs.Compiled.{AreOfOne, IsRefusalOf, program_of};
ghost use Rattle.cob_code.specs.inner.Answers.{IsAnswer, IsRangesAnswer};

use crate::bounds::bounds_of;
use crate::checks::{first_backward, first_circle, first_leaving};
use crate::circles::table_of;
use crate::names::Names;
use crate::paragraphs::Paragraphs;
use crate::pass::first_names_fault;
use crate::ranges::ranges_and_jumps;
use cob_data::DataDivision;
use cob_forms::first_of;
use cob_lex::{SourceError, SourceFault};
use cob_proc::Procedure;
use std::alloc::{AllocError, Global};
use std::marker::Model;

/// A program without a fault. Contracts see its two trees.
#[derive(Debug, Drop)]
pub struct Program {
    divisions: DataDivision,
    procedure: Procedure,
}

impl Model for Program {
    ghost use Rattle.std.specs.Coded.{codes};
    ghost use Rattle.cob_proc.specs.contracts.tree.Statement as e;
    ghost use Rattle.cob_meaning.specs.Sources.{HasNoTreesFault};
    ghost use Rattle.cob_code.specs.Compiled.{Compiled, program_of};

    ghost Value = { Compiled };

    ghost coded = { Prim.hlevel (codes, e.the_row.coded) };

    ghost view = { λ program. record { divisions = program.divisions; procedure = program.procedure } };

    ghost invariant = { λ program. HasNoTreesFault (program_of program.divisions program.procedure) };
}

/// The first fault of ranges.
fn first_ranges_fault(alloc: Global, text: &Paragraphs) -> Result<Option<SourceFault>, AllocError>
    ensures { IfOk result (λ found. IsRangesAnswer (map paragraph_tree text.now.paragraphs.now) found) }
{
    let (ranges, jumps) = ranges_and_jumps(alloc, text)?;
    let bounds = bounds_of(alloc, text.len(), &ranges)?;
    let table = table_of(alloc, text.len(), &ranges)?;
    let backward = first_backward(&ranges);
    let leaving = first_leaving(&bounds, &jumps);
    let circle = first_circle(&table, &ranges);
    Ok(first_of(first_of(backward, leaving), circle))
}

/// The first fault of a program.
fn first_fault(
    alloc: Global,
    divisions: &DataDivision,
    procedure: &Procedure,
) -> Result<Option<SourceFault>, AllocError>
    requires { HasOccurrences divisions.now }
    ensures { IfOk result (λ found. IsAnswer (program_of divisions.now procedure.now) found) }
{
    let names = Names::of(alloc, divisions)?;
    let text = Paragraphs::of(alloc, procedure)?;
    match first_names_fault(alloc, &names, &text)? {
        Some(fault) => Ok(Some(fault)),
        None => first_ranges_fault(alloc, &text),
    }
}

/// Checks a program, by the divisions and the Procedure Division that were read from the same tokens.
pub fn compile(
    alloc: Global,
    divisions: DataDivision,
    procedure: Procedure,
) -> Result<Program, SourceError>
    // Each table has 1 to 8 destinations.
    requires occurrences { HasOccurrences divisions }
    // Both are of the same tokens, which have no fault.
    requires one { AreOfOne divisions procedure }
    // The program keeps both.
    ensures trees { IfOk result (λ program. (program.divisions ≡ divisions) × (program.procedure ≡ procedure)) }
    // A program that is accepted has no fault of names and kinds, and none of ranges.
    ensures sound { IfOk result (λ _. HasNoTreesFault (program_of divisions procedure)) }
    // A refusal reports the first fault. If memory runs out, nothing is said of the program.
    ensures fault { IfErr result (IsRefusalOf (program_of divisions procedure)) }
{
    match first_fault(alloc, &divisions, &procedure)? {
        Some(fault) => Err(SourceError::Refused(fault)),
        None => Ok(Program {
            divisions,
            procedure,
        }),
    }
}
