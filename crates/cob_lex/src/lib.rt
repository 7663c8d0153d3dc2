//! The tokens of a COBOL source, in the reference format of ANSI X3.23-1974.
//!
//! `lex` gives the words, numbers, literals, pictures and signs of a source, each with its kind,
//! its span, its line and column and its text, or the first fault. Comment lines and comment-entrys
//! are passed over, and so is what stands outside columns 8 to 72.
//!
//! ```rust
//! // MOVE at column 8, 1 at 13, TO at 15, A at 18 and the period at 19
//! let tokens = lex(alloc, b"       MOVE 1 TO A.\n")?;
//!
//! // refused: BadWord at line 1 column 8
//! let refused = lex(alloc, b"       MOVE- 1 TO A.\n");
//! ```
//!
//! Its contract stands on two definitions. `specs/Lexing.antt` goes over the lines of a source, and
//! says what stands at the beginning of what is left of one. `specs/Spelled.antt` says by itself
//! what tokens of a source are; that the first keeps to it is a law, `tokens_are_spelled`.
#![tactic(auto)]

mod characters;
mod fault;
mod front;
mod laws;
mod lexer;
pub mod limits;
mod lines;
mod literal;
mod token;
mod words;

pub use fault::{SourceError, SourceFault, SourceKind};
pub use laws::tokens_are_spelled;
pub use lexer::{MAX_SOURCE, lex};
pub use token::{Token, TokenKind};
