//! The areas of CD entries, by which programs and the message control system speak to each other.
//!
//! ```rust
//! use com_cd::{InArea, InField, OutArea, OutField, Status};
//!
//! let mut area = InArea::opening();
//! area.set(InField::Queue, b"QUEUE-1     ");
//! area.set(InField::Status, &Status::S00.bytes());
//! let designation = area.designation();
//! let sending = OutArea::read(b"00010005000T1          ").ok_or(NoArea)?;
//! assert!(rt; sending.count() == Some(1));
//! ```
//!
//! - [`InArea`] is the 87 characters of an input CD, [`OutArea`] the 23 to 114 characters of an
//!   output CD. `read` answers exactly the texts of that length, `get` gives the characters at a
//!   field's place, and `set` changes that field alone.
//! - `InArea::designation` is the path that the four names designate, and is malformed exactly if
//!   they designate none.
//! - `OutArea::count` is the number of DESTINATION COUNT, exactly if it is valid.
//! - `Status::bytes` is the two characters of a status key.
#![tactic(auto)]

mod designation;
mod input_area;
pub mod limits;
mod output_area;
mod parts;
mod status;

pub use designation::{Designation, NAMES_LENGTH, path_fields};
pub use input_area::{IN_AREA_LENGTH, InArea, InField};
pub use output_area::{MAX_OCCURRENCES, MAX_OUT_AREA_LENGTH, OutArea, OutField};
pub use status::{STATUS_LENGTH, Status};
