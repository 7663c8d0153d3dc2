//! The outside: where bytes come from, where they go, and what time it is.
//!
//! The traits [`Source`], [`Store`] and [`Clock`] say what the outside promises. A failure has a
//! cause: it is answered only where the count of its kind rose in the call. A store that tells its
//! contents tells every opening, closing and write, too, so that a contract over any store can say
//! which calls were made on it.
//!
//! [`MemoryStore`] tells everything, and fails where it is told to. [`DirStore`] stands over the
//! current folder and tells its counts alone; what it does with a file is proved of any reader and
//! writer whose bytes are told.
//!
//! ```rust
//! use com_io::{MemoryStore, Store, read_file};
//!
//! let mut store = MemoryStore::new(alloc);
//! store.put("IN", b"ABC")?;
//! let bytes = read_file(alloc, &mut store, "IN", 1_000)?;
//! store.write("OUT", &bytes)?;
//! assert_eq!(rt; store.out("OUT"), Some(b"ABC".as_slice()));
//! ```
#![tactic(auto)]

mod adapter;
mod civil;
mod clock;
mod dir_source;
mod dir_store;
mod files;
pub mod laws;
pub mod limits;
mod memory_source;
mod memory_store;
mod named;
mod source;
mod store;
mod utc_clock;

pub use adapter::OUTPUT_NAME;
pub use civil::stamp_of;
pub use clock::{Clock, FixedClock};
pub use dir_source::DirSource;
pub use dir_store::DirStore;
pub use files::{FILE_LIMIT, ReadFault, read_file};
pub use memory_source::MemorySource;
pub use memory_store::MemoryStore;
pub use source::{Failed, Source};
pub use store::{Store, StoreFault};
pub use utc_clock::UtcClock;
