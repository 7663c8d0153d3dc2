//! The network that a description gives: terminals, queue trees and run units.
//!
//! [`Net::read`] reads a description, a TOML document of at most 1,048,576 bytes. It answers the
//! network exactly if the description has no fault, and otherwise the first kind of fault in the
//! order of [`NetKind`], at its first place in the walk: the document's own keys, the terminals,
//! the queues in preorder, the units. The only other answer is that memory ran out. A description
//! has a network or a fault and never both ([`a_description_gives_a_network_or_a_fault`]).
//!
//! Every [`Net`] has 1 to 32 terminals and 1 to 16 units with distinct names, file names, passwords
//! and flags that are such, and routes and schedules that lead into its own trees. `terminal` and
//! `unit` are the number of the one with a name, and None exactly if there is no such one. `copy`
//! gives a network with the same parts.
//!
//! ```rust
//! use com_net::{Net, NetError};
//!
//! match Net::read(alloc, bytes) {
//!     Ok(net) => println!(rt; "{} terminals", net.terminals.len())?,
//!     Err(NetError::Refused(fault)) => println!(rt; "{:?} {}", fault.kind, fault.path.as_str())?,
//!     Err(NetError::Memory(error)) => return Err(error.into()),
//! }
//! ```
#![tactic(auto)]

mod fault;
mod gather;
mod key_faults;
mod keys;
mod laws;
pub mod limits;
mod name_faults;
mod net;
mod numbers;
mod paths;
mod places;
mod read;
mod routes;
mod texts;
mod tree_faults;
mod values;

pub use fault::{MAX_DESCRIPTION, NetError, NetFault, NetKind};
pub use laws::{
    a_description_gives_a_network_or_a_fault, a_description_is_too_long_by_its_length_alone,
    a_document_without_a_fault_gives_a_network,
};
pub use net::{Feed, MAX_PASSWORD_LENGTH, MAX_TERMINALS, MAX_UNITS, Net, Terminal, UnitRow};
pub use numbers::a_name_has_its_place;
