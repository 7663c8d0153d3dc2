//! `check`: reads a description and each program that it names.
ghost use Rattle.std.specs.Prelude.{◌≡◌, IfErr, IfOk, OnOk};
ghost use Rattle.cob_code.specs.Compiled.{program_of};
ghost use Rattle.mcs_top.specs.Checking.{AreChecked, AreNotChecked, AreRead, IsUnitFailure, IsUnitsFailure};
ghost use Rattle.mcs_top.specs.Programs.{IsProgramRead};

use crate::files::{read_named, write_output};
use crate::report::{Failure, Refusal};
use cob_code::{Program, read_program};
use cob_lex::SourceError;
use com_io::Store;
use com_net::UnitRow;
use std::alloc::Global;

/// What is written when no program has a fault.
const CHECKED: &[u8] = b"ok\n";

/// Reads the program of each unit, in order, and writes `ok`.
pub fn check<'a, S: Store>(
    alloc: Global,
    units: &'a [UnitRow],
    store: &mut S,
) -> Result<(), Failure<'a>>
    ensures ok { OnOk result (AreChecked units.now (S.shows store.old) (S.shows store.new)) }
    ensures err { IfErr result (AreNotChecked units.now (S.shows store.old) (S.shows store.new)) }
    ensures pending { (S.shows store.new).pending ≡ (S.shows store.old).pending }
{
    read_programs(alloc, units, store)?;
    write_output(CHECKED, store)
}

/// Reads the program of each unit, in order.
fn read_programs<'a, S: Store>(
    alloc: Global,
    units: &'a [UnitRow],
    store: &mut S,
) -> Result<(), Failure<'a>>
    ensures ok { OnOk result (AreRead units.now (S.shows store.old) (S.shows store.new)) }
    ensures err { IfErr result (IsUnitsFailure units.now (S.shows store.old) (S.shows store.new)) }
    ensures pending { (S.shows store.new).pending ≡ (S.shows store.old).pending }
{
    'units: for unit in units {
        read_unit(alloc, unit, store)?;
    }
    Ok(())
}

/// Reads the program of a unit.
fn read_unit<'a, S: Store>(
    alloc: Global,
    unit: &'a UnitRow,
    store: &mut S,
) -> Result<Program, Failure<'a>>
    ensures ok { IfOk result (λ program.
        IsProgramRead unit.now (program_of program.divisions program.procedure)
        (S.shows store.old) (S.shows store.new)) }
    ensures err { IfErr result (λ failure.
        IsUnitFailure failure unit.now (S.shows store.old) (S.shows store.new)) }
    ensures pending { (S.shows store.new).pending ≡ (S.shows store.old).pending }
{
    let source = read_named(alloc, unit.source.as_str(), store)?;
    match read_program(alloc, &source) {
        Ok(program) => Ok(program),
        Err(SourceError::Refused(fault)) => Err(Failure::Refused(Refusal::Source {
            unit: &unit.name,
            fault,
        })),
        Err(SourceError::Memory(_)) => Err(Failure::Memory),
    }
}
