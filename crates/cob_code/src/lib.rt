//! The checks of a whole program.
#![tactic(auto)]

mod bounds;
mod checks;
mod circles;
mod compiler;
mod digits;
mod kinds;
mod names;
mod numbers;
mod paragraphs;
mod pass;
mod ranges;
mod referent;
mod sets;
mod source;
mod statements;

pub use compiler::{Program, compile};
pub use source::read_program;
