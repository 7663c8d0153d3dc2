//! The divisions before the Procedure Division of a program: what they are made of, what tokens say
//! of them, and reading them.
//!
//! - `specs/Forms.antt` has the forms of the headers, items and CD entries as lists of parts, by
//!   which `reading` of cob_forms says where another word or sign is wanted.
//! - `specs/Divisions.antt` says which tokens tell a [`DataDivision`], by what stands where in the
//!   entries up to each period, and where the characters of each item are.
//! - `specs/Layout.antt` says what the names stand for and how storage begins.
//! - `specs/Faults.antt` says which faults tokens have, and which of them is told.
//!
//! [`data_division`] reads the tokens by tables of the forms (`grammar.rt`), which takes no memory
//! and tells where another word is wanted. Then it looks for each family of faults among the tokens
//! that count (`passes.rt`) and answers the first fault of all. Where there is none it takes each
//! entry apart by what stands in it. That tokens without a fault tell a division, and that it is
//! one, are [`laws`].
//!
//! [`opening_storage`] makes the areas of a program as they begin. It asks that each table has 1 to
//! 8 destinations, as in the divisions that [`data_division`] answers.
//!
//! ```rust
//! let tokens = lex(alloc, source)?;
//! let (division, place) = data_division(alloc, tokens.as_slice())?;
//! let areas = opening_storage(alloc, &division)?;
//! ```
//!
//! Of a source with `01 A.`, `02 B PIC X(2).` and `02 C PIC 9(3).` the items are A with five
//! characters from 0, B with two from 0 and C with three from 2, all in area 0, which begins as two
//! spaces and `000`. Before its word PROCEDURE stand `place` tokens.
#![tactic(auto)]

mod cd_faults;
mod cds;
mod characters;
mod columns;
mod division;
mod entries;
mod entry;
mod faults;
mod grammar;
mod items;
pub mod laws;
mod levels;
pub mod limits;
mod names;
mod open_levels;
mod opening;
mod passes;
mod pictures;
mod reader;
mod records;
mod run_faults;
mod runs;
mod seen;
mod tree;
mod unless;
mod values;
mod wholes;

pub use characters::MAX_CHARACTERS;
pub use division::data_division;
pub use names::MAX_DATA_NAMES;
pub use opening::opening_storage;
pub use tree::{
    CdBody, CdEntry, DataDivision, InputClause, Item, ItemPlace, ItemSort, OutputClause, Picture,
    Value,
};
