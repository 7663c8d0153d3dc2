//! Operands of flat code: names are resolved to places of areas.
use cob_data::ItemPlace;
use cob_proc::{Joint, Relation};
use com_text::{Rows, Text};

/// The number of an occurrence.
#[derive(Clone, Copy, Debug, PartialEq, Eq)]
pub enum Index {
    Item(ItemPlace),
    Number(u64),
}

/// The item that a statement names.
#[derive(Clone, Copy, Debug, PartialEq, Eq)]
pub enum Spot {
    /// One place.
    Fixed(ItemPlace),
    /// An occurrence in a table: the place of the first, how many there are, and the number of the
    /// one that is meant, from 1.
    Occurrence {
        first: ItemPlace,
        occurs: u32,
        index: Index,
    },
}

/// What is moved or compared.
#[derive(Debug, Drop)]
pub enum Source {
    Item(Spot),
    Literal(Text),
    /// A number, by its digits as they are written.
    Number(Text),
    Spaces,
    Zeros,
}

/// What is added, subtracted or counted.
#[derive(Clone, Copy, Debug, PartialEq, Eq)]
pub enum Amount {
    Item(Spot),
    Number(u64),
}

/// A simple condition.
#[derive(Debug, Drop)]
pub enum SimpleTest {
    Compares {
        left: Source,
        denied: bool,
        relation: Relation,
        right: Source,
    },
    Numeric {
        spot: Spot,
        denied: bool,
    },
}

/// A condition.
#[derive(Debug, Drop)]
pub struct Test {
    pub joint: Joint,
    pub parts: Rows<SimpleTest>,
}

/// What a password is taken from.
#[derive(Debug, Drop)]
pub enum KeySource {
    Item(Spot),
    Literal(Text),
}

/// What a SEND ends.
#[derive(Clone, Copy, Debug, PartialEq, Eq)]
pub enum EndSource {
    /// What the character of an item indicates.
    Item(Spot),
    Esi,
    Emi,
    Egi,
}

/// How far is advanced.
#[derive(Clone, Copy, Debug, PartialEq, Eq)]
pub enum LinesSource {
    Count(Amount),
    Page,
}

/// BEFORE or AFTER ADVANCING.
#[derive(Clone, Copy, Debug, PartialEq, Eq)]
pub struct Advancement {
    pub after: bool,
    pub lines: LinesSource,
}

/// What a SEND ends, and how the text is advanced.
#[derive(Clone, Copy, Debug, PartialEq, Eq)]
pub struct SendEnd {
    pub end: EndSource,
    pub advancement: Option<Advancement>,
}
