//! Texts, names, digits and counted fields: the smallest parts of every format here.
//!
//! ```rust
//! use com_text::{Name, Rows, put_counted, take_counted};
//!
//! let name = Name::new(b"QUEUE-1").ok_or(NoName)?;
//! assert!(rt; name.field() == *b"QUEUE-1     ");
//! let mut line = Rows::new(alloc);
//! put_counted(&mut line, b"5:AB")?;
//! assert!(rt; line.as_slice() == b"4:5:AB");
//! assert!(rt; take_counted(line.as_slice()) == Some((2, 6)));
//! ```
//!
//! - [`Text`] and [`Name`] are made exactly of the bytes that are one. `Text::read` names the first
//!   byte that is none. A [`NamePath`] is a list of one to four names.
//! - [`digits`] and [`digits_of`] write the digits of a number, and [`number_of`] is the number of
//!   1 to 18 digits and of nothing else.
//! - [`take_counted`] finds the content of a counted field exactly if one is at the beginning, and
//!   finds again what [`put_counted`] wrote, whatever follows it.
//! - [`Rows`] is a list that owns its items and grows at its end. If memory runs out, nothing
//!   changes.
#![tactic(auto)]

mod counted;
mod decimal;
pub mod limits;
mod name;
mod name_path;
mod rows;
mod text;

pub use counted::{MAX_COUNTED, has_leading_zero, put_counted, take_counted};
pub use decimal::{MAX_DIGITS, digits, digits_of, number_of, put_number};
pub use name::{FIELD_LENGTH, Field, Name, has_character};
pub use name_path::{MAX_NAMES, NamePath};
pub use rows::Rows;
pub use text::{Text, TextError, is_text, is_text_byte};
