//! Cases of COBOL sources. Each line of `stdin` gives a source, which is read in three passes: its
//! tokens, its divisions up to the word PROCEDURE, and its Procedure Division.
//!
//! - `division "echo.cob"` gives the file of that name in `data/`.
//! - `items "       01  A PIC X."` gives a program with these lines, from line 5 on, as its
//!   Working-Storage Section, and `entries` one with its lines as the Communication Section.
//! - `names 2000 "       01  Z PIC X."` is like `items`, with 2000 items before these lines.
//! - `opening` is like `items`, but is answered with the characters with which the areas begin.
//!
//! `stdout` has the answers. A source with a fault is answered with the first one, as `WrongKind
//! 5:8`: its kind, its line and its column. Any other is answered with the program's name, the
//! number of tokens before PROCEDURE, and the items and CDs. `01 A 0:0+5 Group` is an item in area
//! 0, with 5 characters from place 0; `CD C 1` is a CD with area 1.
#![tactic(auto)]

ghost use Rattle.std.specs.Prelude.{◌≤◌, IfOk, length};
ghost use Rattle.cob_data.specs.Occurrences.{HasOccurrences};
ghost use Rattle.cob_lex.specs.Order.{AreInOrder};

use case_lines::{Cases, Quoted, Words, answer_cases, unknown_call};
use cob_data::{
    CdBody, CdEntry, DataDivision, InputClause, Item, OutputClause, data_division, opening_storage,
};
use cob_forms::Name;
use cob_lex::{MAX_SOURCE, SourceError, SourceFault, Token, lex};
use cob_proc::procedure_division;
use com_cd::InField;
use com_io::{DirStore, read_file};
use std::alloc::{AllocError, Global};
use std::{io, str};

/// The cases of sources.
#[derive(Drop)]
struct Sources<'a> {
    rt: &'a HostRuntime,
    alloc: Global,
}

impl Cases for Sources<'_> {
    fn answer(&mut self, call: &[u8], words: &mut Words<'_>) -> Result<String, AllocError> {
        match call {
            b"division" => answer_to_file(self.rt, words.bytes()),
            b"items" => {
                let source = source_with(self.alloc, b"WORKING-STORAGE", words)?;
                answer_to(self.alloc, &source, false)
            }
            b"entries" => {
                let source = source_with(self.alloc, b"COMMUNICATION", words)?;
                answer_to(self.alloc, &source, false)
            }
            b"names" => {
                let source = source_of_names(self.alloc, words)?;
                answer_to(self.alloc, &source, false)
            }
            b"opening" => {
                let source = source_with(self.alloc, b"WORKING-STORAGE", words)?;
                answer_to(self.alloc, &source, true)
            }
            _ => unknown_call(self.alloc),
        }
    }
}

/// The first four lines of a source of one section.
fn head(alloc: Global, section: &[u8]) -> Result<Vec<u8>, AllocError> {
    let mut source = Vec::new(alloc);
    source.extend_from_slice(b"       IDENTIFICATION DIVISION.\n       PROGRAM-ID. P.\n")?;
    source.extend_from_slice(b"       DATA DIVISION.\n       ")?;
    source.extend_from_slice(section)?;
    source.extend_from_slice(b" SECTION.\n")?;
    Ok(source)
}

/// Adds the lines that words are, and a Procedure Division of one paragraph.
fn push_lines(source: &mut Vec<u8>, words: &mut Words<'_>) -> Result<(), AllocError> {
    for _ in 0..words.len() {
        source.extend_from_slice(words.bytes())?;
        source.push(b'\n')?;
    }
    source.extend_from_slice(b"       PROCEDURE DIVISION.\n       MAIN.\n")?;
    Ok(())
}

/// A source of one section, whose lines stand from line 5, and of one paragraph.
fn source_with(
    alloc: Global,
    section: &[u8],
    words: &mut Words<'_>,
) -> Result<Vec<u8>, AllocError> {
    let mut source = head(alloc, section)?;
    push_lines(&mut source, words)?;
    Ok(source)
}

/// A source of as many items N0, N1 .. as the number says, each in a line from line 5 on, and the
/// lines behind it.
fn source_of_names(alloc: Global, words: &mut Words<'_>) -> Result<Vec<u8>, AllocError> {
    let mut source = head(alloc, b"WORKING-STORAGE")?;
    for number in 0..words.number() {
        let line = format!(in alloc; "       01  N{number} PIC X.\n")?;
        source.extend_from_slice(line.as_bytes())?;
    }
    push_lines(&mut source, words)?;
    Ok(source)
}

/// What the source in the file of this name tells, or its first fault.
fn answer_to_file(rt: &HostRuntime, name: &[u8]) -> Result<String, AllocError> {
    let alloc = rt.alloc();
    let name = str::from_utf8(name).unwrap_or("");
    match read_file(alloc, &mut DirStore::new(rt), name, MAX_SOURCE) {
        Ok(source) => answer_to(alloc, &source, false),
        Err(fault) => format!(in alloc; "{fault}"),
    }
}

/// What a source tells, or its first fault.
fn answer_to(alloc: Global, source: &[u8], is_opening: bool) -> Result<String, AllocError> {
    if source.len() > MAX_SOURCE {
        return String::from_str(alloc, "a source that is too long");
    }
    let tokens = match lex(alloc, source) {
        Ok(tokens) => tokens,
        Err(error) => return refusal_of(alloc, error),
    };
    if tokens.len() > MAX_SOURCE {
        return String::from_str(alloc, "too many tokens");
    }
    match passed(alloc, tokens.as_slice()) {
        Ok((division, _)) if is_opening => opening_of(alloc, &division),
        Ok((division, place)) => text_of(alloc, &division, place),
        Err(error) => refusal_of(alloc, error),
    }
}

/// What tokens tell up to the word PROCEDURE, where they have no fault.
#[tactic(auto, using(cob_lex::proofs::SpelledOrder::order_behind))]
fn passed(alloc: Global, tokens: &[Token]) -> Result<(DataDivision, usize), SourceError>
    requires few { length tokens.now ≤ MAX_SOURCE }
    requires in_order { AreInOrder tokens.now }
    ensures { IfOk result (λ x. HasOccurrences x.0) }
{
    let (division, place) = data_division(alloc, tokens)?;
    let (_, procedure) = tokens.split_at(place);
    let _procedure = procedure_division(alloc, procedure)?;
    Ok((division, place))
}

/// A fault with its line and column.
fn refusal_of(alloc: Global, error: SourceError) -> Result<String, AllocError> {
    match error {
        SourceError::Refused(fault) => fault_text(alloc, fault),
        SourceError::Memory(error) => Err(error),
    }
}

/// The text of a fault.
fn fault_text(alloc: Global, fault: SourceFault) -> Result<String, AllocError> {
    let (kind, line, column) = (fault.kind, fault.line, fault.column);
    format!(in alloc; "{kind:?} {line}:{column}")
}

/// A program's name, how many tokens stand before PROCEDURE, and its items and CDs.
fn text_of(alloc: Global, division: &DataDivision, place: usize) -> Result<String, AllocError> {
    let name = division.program.text.as_str();
    let mut text = format!(in alloc; "{name} to {place}")?;
    push_items(alloc, &mut text, division.working_storage.as_slice())?;
    for entry in division.communication.as_slice() {
        push_cd(alloc, &mut text, entry)?;
    }
    Ok(text)
}

/// The characters with which the areas of a program begin.
fn opening_of(alloc: Global, division: &DataDivision) -> Result<String, AllocError>
    requires { HasOccurrences division.now }
{
    let mut text = String::new(alloc);
    for area in opening_storage(alloc, division)?.as_slice() {
        let one = format!(in alloc; "{} ", Quoted(area.as_slice()))?;
        text.push_str(one.as_str())?;
    }
    Ok(text)
}

/// Items with where their characters are: area, start, length and sort.
fn push_items(alloc: Global, text: &mut String, items: &[Item]) -> Result<(), AllocError> {
    for item in items {
        let name = name_or_filler(&item.name);
        let level = item.level.digits.as_str();
        let (area, start, length) = (item.place.area, item.place.start, item.place.length);
        let sort = item.place.sort;
        let one = format!(in alloc; ", {level} {name} {area}:{start}+{length} {sort:?}")?;
        text.push_str(one.as_str())?;
    }
    Ok(())
}

/// The characters of a name, or FILLER.
fn name_or_filler(name: &Option<Name>) -> &str {
    match name {
        Some(name) => name.text.as_str(),
        None => "FILLER",
    }
}

/// A CD with its area, its fields and the records over it.
fn push_cd(alloc: Global, text: &mut String, entry: &CdEntry) -> Result<(), AllocError> {
    let name = entry.name.text.as_str();
    let area = entry.area;
    let one = format!(in alloc; ", CD {name} {area}")?;
    text.push_str(one.as_str())?;
    match &entry.body {
        CdBody::Input { clauses, .. } => push_clauses(alloc, text, clauses.as_slice())?,
        CdBody::InputNames { names, .. } => push_names(alloc, text, names.as_slice())?,
        CdBody::Output { clauses } => push_output(alloc, text, clauses.as_slice())?,
    }
    push_items(alloc, text, entry.records.as_slice())
}

/// A field of a CD, and the name for it.
fn push_field(
    alloc: Global,
    text: &mut String,
    field: InField,
    name: &str,
) -> Result<(), AllocError> {
    let one = format!(in alloc; ", {field:?} {name}")?;
    text.push_str(one.as_str())
}

/// The fields of an input CD by its clauses.
fn push_clauses(
    alloc: Global,
    text: &mut String,
    clauses: &[InputClause],
) -> Result<(), AllocError> {
    for clause in clauses {
        push_field(alloc, text, clause.field, clause.name.text.as_str())?;
    }
    Ok(())
}

/// The fields of an input CD, in the order of its area.
const FIELDS: [InField; 11] = [
    InField::Queue,
    InField::Sub1,
    InField::Sub2,
    InField::Sub3,
    InField::Date,
    InField::Time,
    InField::Source,
    InField::Length,
    InField::EndKey,
    InField::Status,
    InField::Count,
];

/// The fields of an input CD by the list of its names.
fn push_names(alloc: Global, text: &mut String, names: &[Option<Name>]) -> Result<(), AllocError> {
    for (field, name) in FIELDS.iter().zip(names) {
        push_field(alloc, text, *field, name_or_filler(name))?;
    }
    Ok(())
}

/// The fields of an output CD by its clauses.
fn push_output(
    alloc: Global,
    text: &mut String,
    clauses: &[OutputClause],
) -> Result<(), AllocError> {
    for clause in clauses {
        let one = match clause {
            OutputClause::Field { field, name, .. } => {
                let name = name.text.as_str();
                format!(in alloc; ", {field:?} {name}")?
            }
            OutputClause::Table { occurs, .. } => {
                let number = occurs.digits.as_str();
                format!(in alloc; ", Table {number}")?
            }
        };
        text.push_str(one.as_str())?;
    }
    Ok(())
}

fn main(rt: HostRuntime) -> io::Result<()> {
    let alloc = rt.alloc();
    answer_cases(&rt, &mut Sources { rt: &rt, alloc })
}
