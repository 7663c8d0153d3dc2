//! Flat code of COBOL programs.
//!
//! [`flatten`] turns a checked program into instructions. Each has its operands resolved to areas,
//! places and lengths, and the places of the instructions that may come next.
//!
//! ```rust
//! let flat = flatten(alloc, &divisions, &procedure)?;
//! let first = &flat.code[flat.starts[0]];
//! ```
//!
//! - What `flatten` answers is the code of the program (`IsCompiled` of `specs/Compiled.antt`): from
//!   the place at which a paragraph begins, the code does the paragraph's sentences, and then the
//!   paragraph ends. A GO leaves no range that its paragraph is in.
//! - `specs/Flat.antt` says by the trees of statements what it means that code does one, and
//!   `specs/Effects.antt` what operands, tests, actions and verbs of code mean.
//! - It asks for a program of some source, whatever the source. Only memory may be lacking.
#![tactic(auto)]

mod actions;
mod code;
mod emit;
pub mod laws;
mod names;
mod operands;
mod paragraphs;
mod referent;
mod resolve;
mod statements;
mod verbs;

pub use code::{Action, Instruction, Turns, Verb};
pub use operands::{
    Advancement, Amount, EndSource, Index, KeySource, LinesSource, SendEnd, SimpleTest, Source,
    Spot, Test,
};
pub use paragraphs::{Flat, flatten};
