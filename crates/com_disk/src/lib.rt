//! A journal on a disk: a stopped system can be taken up from it, and no acknowledged entry is lost,
//! whatever a crash did to the bytes in flight.
//!
//! A [`Disk`] says what a read gives and what a crash may leave. Between two syncs each written range
//! may hold any bytes, and so may the part past the old end, which may be shorter; after a sync that
//! succeeds a crash leaves what a read gives. [`create`] begins a log, [`append`] adds an entry, and
//! [`recover`] gives the log's entries again. From the Ok of `create` or `recover` on, at every moment,
//! each image stands for the entries that were acknowledged, or for these and the one whose append is
//! in course or has failed.
//!
//! ```rust
//! use com_disk::{MemoryDisk, Torn, append, create, recover};
//!
//! let mut disk = MemoryDisk::new(alloc);
//! let mut log = create(&mut disk, 1)?;
//! append(alloc, &mut log, &mut disk, &entry)?; // acknowledged
//! let mut image = disk.crash(disk.calls(), Torn::Old)?;
//! let (log, entries) = recover(alloc, &mut image)?; // the entry is there
//! ```
//!
//! An append writes the entry's record after a closed gate, a byte other than 01, and syncs; then it
//! writes the open gate, 01, and syncs again. So a crash finds the gate closed, or finds it open and
//! the record whole, and no checksum is needed.
//!
//! [`MemoryDisk`] reports all that it holds, fails where it is told to, and can be made to crash.
//! [`FileDisk`] is a file of a runtime; it reports nothing.
#![tactic(auto)]

mod disk;
mod disk_log;
mod file_disk;
pub mod laws;
mod log;
mod memory_disk;
mod reading;
mod torn;
mod written;

pub use disk::{Disk, DiskFault};
pub use disk_log::DiskLog;
pub use file_disk::FileDisk;
pub use log::{append, create};
pub use memory_disk::MemoryDisk;
pub use reading::{RecoverFault, recover};
pub use torn::Torn;
