//! Queues of messages, RECEIVE and ACCEPT MESSAGE COUNT.
//!
//! ```rust
//! use com_msg::Kind;
//! use com_recv::{Queues, Taken};
//!
//! let mut queues = Queues::new(alloc, &tree, units)?;
//! queues.put(&tree, leaf, message)?;
//! match queues.receive(&tree, unit, &mut area, Kind::Message, 72)? {
//!     Taken::Given(text) => show(text),
//!     Taken::NoData | Taken::Unknown => show_status(&area),
//! }
//! ```
//!
//! - [`Queues::receive`] gives exactly the portion that RECEIVE gives, and the area tells of it. What is
//!   left of the message is held by the unit, and goes on before what waits.
//! - [`Queues::count`] is ACCEPT MESSAGE COUNT. [`Queues::choice`] is the leaf that a node chooses.
//! - [`Queues::has_data`] and [`Queues::has_message`] say whether a unit, or anyone, would be given
//!   something.
//! - The laws say which node an area designates, and that a node chooses a leaf exactly where a message
//!   waits under it.
//!
//! Without memory nothing changes: [`Queues::put`] then hands the message back.
#![tactic(auto)]

mod areas;
mod giving;
mod laws;
mod leaf_queues;
pub mod limits;
mod lists;
mod queues;

pub use laws::{
    an_area_designates_by_its_path, has_message_tells_whether_a_leaf_is_chosen,
    there_is_data_where_something_waits,
};
pub use queues::{Queues, Taken, designated};
