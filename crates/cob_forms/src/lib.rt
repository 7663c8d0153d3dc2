//! What the readers of a program's divisions share: sorts of tokens, forms as lists of parts, where
//! reading by them stops, the first of several faults, and words, numbers and literals with where they
//! stand.
//!
//! A form is given by the sorts of token with which it may begin, each with the parts behind it.
//! `next` takes one token from the parts that are left, and `reading` goes over the tokens once, from left
//! to right: another token is wanted at the first one that is of none of the sorts that may come next. So
//! of the form `GO [TO] p` with the tokens of `GO TO STOP`, the third is where a name is wanted.
//!
//! These are definitions in `specs`. Of code there is the cursor, which says what comes next and takes it
//! from the front of some tokens, and `first_of`, the first of two faults. That the first of several faults
//! does not depend on how they are grouped is a law, `first_of_both`.
//!
//! ```rust
//! // the tokens of GO TO STOP
//! let (_, rest) = take_word(tokens, b"GO")?;
//! let rest = skip_word(rest, b"TO");
//!
//! // stopped: a name is wanted where one token is left
//! let stopped = take_name(rest);
//! ```
#![tactic(auto)]

mod cursor;
mod faults;
mod laws;
mod reserved;
mod stop;
mod written;

pub use cursor::{
    in_area_a, is_kind, is_name, is_word, next_is_kind, next_is_name, next_is_word, skip_word,
    take_kind, take_literal, take_name, take_number, take_word,
};
pub use faults::{fault_at, first_of, first_with, is_before, noted, split_wanted};
pub use laws::first_of_both;
pub use reserved::is_reserved;
pub use stop::Stop;
pub use written::{Literal, Name, Number, Position};
