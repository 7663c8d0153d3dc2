//! The Procedure Division of a program: what it is made of, its forms and its faults, and reading
//! it.
//!
//! `specs/Forms.antt` has the forms of the statements and conditions as lists of parts, by which
//! `reading` of cob_forms says where another word or sign is wanted. `specs/Spelled.antt` says
//! which tokens spell which trees, and `specs/Faults.antt` which fault is the first.
//! `procedure_division` answers the trees that the tokens spell, or the first fault.
//!
//! ```rust
//! let tokens = lex(alloc, b"       PROCEDURE DIVISION.\n       MAIN.\n           GO STOP.\n")?;
//!
//! // refused: WantedWord at line 3 column 15, where a name is wanted
//! let refused = procedure_division(alloc, tokens.as_slice());
//! ```
//!
//! Each form has a function that takes it from the beginning of some tokens. What it takes is said
//! by a reader of `specs/PartReaders.antt`, `StatementReaders.antt` or `DivisionReaders.antt`; that
//! these readers stop where the forms say, and read what is spelled and nothing else, is proved of
//! the definitions.
//!
//! A statement is read by calls as deep as IFs nest. `limits` finds the first token with which a
//! limit is passed, and no more than the tokens up to it are read: those after it tell no earlier
//! fault.
#![tactic(auto)]

mod conditions;
mod faults;
mod ifs;
mod laws;
pub mod limit_numbers;
mod limits;
mod paragraphs;
mod parts;
mod procedure;
mod send;
mod simple;
mod starts;
mod statements;
mod tree;

pub use laws::trees_are_one;
pub use limits::{MAX_IFS, MAX_PARAGRAPHS};
pub use procedure::procedure_division;
pub use tree::{
    Addend, Advancing, Condition, Ending, Identifier, Indicator, Joint, Key, Lines, Operand,
    Paragraph, Procedure, Relation, Repetition, Simple, Statement, Subscript,
};
