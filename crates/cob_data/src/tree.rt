//! What the divisions before the Procedure Division are made of. Each part of a form is a field, in
//! written order.
use cob_forms::{Literal, Name, Number, Position};
use com_cd::{InField, OutField};
use com_text::{Rows, Text};

/// The divisions of a program up to the word PROCEDURE, named by the last of them: the program's
/// name, the words of SOURCE-COMPUTER and OBJECT-COMPUTER where they are written, and the two
/// sections of the Data Division.
#[derive(Debug, Drop)]
pub struct DataDivision {
    pub program: Name,
    pub source_computer: Option<Name>,
    pub object_computer: Option<Name>,
    pub working_storage: Rows<Item>,
    pub communication: Rows<CdEntry>,
}

/// An item: its level, its name where it is no FILLER, its clauses, and where its characters are.
#[derive(Debug, Drop)]
pub struct Item {
    pub level: Number,
    pub name: Option<Name>,
    pub picture: Option<Picture>,
    pub value: Option<Value>,
    pub place: ItemPlace,
}

/// Where the characters of an item are: the number of its area, from 0, their place there, from 0,
/// how many they are, and their sort. The areas are those of the records of Working-Storage, in
/// written order, and then those of the CDs. A record over a CD is in the area of the CD.
#[derive(Clone, Copy, Debug, PartialEq, Eq)]
pub struct ItemPlace {
    pub area: u32,
    pub start: u32,
    pub length: u32,
    pub sort: ItemSort,
}

/// What an item is by its picture.
#[derive(Clone, Copy, Debug, PartialEq, Eq)]
pub enum ItemSort {
    /// A picture of X.
    Alphanumeric,
    /// A picture of 9.
    Numeric,
    /// No picture.
    Group,
}

/// A picture as it is written.
#[derive(Debug, Drop)]
pub struct Picture {
    pub text: Text,
    pub position: Position,
}

/// The value with which an item begins.
#[derive(Debug, Drop)]
pub enum Value {
    Literal(Literal),
    Number(Number),
    /// SPACE or SPACES.
    Spaces(Position),
    /// ZERO, ZEROS or ZEROES.
    Zeros(Position),
}

/// A CD entry with the number of its area and the items of the records that redefine the area.
#[derive(Debug, Drop)]
pub struct CdEntry {
    pub name: Name,
    pub body: CdBody,
    pub area: u32,
    pub records: Rows<Item>,
}

/// What a CD is for, and the names of its fields.
#[derive(Debug, Drop)]
pub enum CdBody {
    /// INPUT by clauses. The position is that of INITIAL, where it is written.
    Input {
        initial: Option<Position>,
        clauses: Rows<InputClause>,
    },
    /// INPUT by eleven names in the order of the area, None for FILLER.
    InputNames {
        initial: Option<Position>,
        names: Rows<Option<Name>>,
    },
    /// OUTPUT by clauses.
    Output {
        clauses: Rows<OutputClause>,
    },
}

/// A clause of an input CD: where it begins, its field, and the name for it.
#[derive(Debug, Drop)]
pub struct InputClause {
    pub position: Position,
    pub field: InField,
    pub name: Name,
}

/// A clause of an output CD, with where it begins.
#[derive(Debug, Drop)]
pub enum OutputClause {
    /// The name for a field. ERROR KEY and SYMBOLIC DESTINATION are those of the first occurrence.
    Field {
        position: Position,
        field: OutField,
        name: Name,
    },
    /// DESTINATION TABLE OCCURS number TIMES.
    Table {
        position: Position,
        occurs: Number,
    },
}
