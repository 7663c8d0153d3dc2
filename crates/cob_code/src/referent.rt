//! What the names of data and CDs stand for, as far as statements look at it.
use cob_data::ItemSort;

/// How data is seen: how many characters it has, their sort, and how often it occurs in a table.
#[derive(Clone, Copy)]
pub(crate) struct Shape {
    pub(crate) length: u32,
    pub(crate) sort: ItemSort,
    pub(crate) occurs: Option<u32>,
}

/// What a name stands for.
#[derive(Clone, Copy)]
pub(crate) enum Referent {
    Item(Shape),
    InputCd,
    OutputCd,
}

/// What a statement asks of an item.
#[derive(Clone, Copy)]
pub(crate) enum ItemRule {
    Any,
    Numeric,
    /// It has at least and at most these numbers of characters.
    OfLength(u32, u32),
}
