//! What units send to destinations: SEND, ENABLE OUTPUT and DISABLE OUTPUT.
//!
//! ```rust
//! use com_msg::{Advance, Part};
//! use com_send::Outs;
//!
//! let mut outs = Outs::new(alloc, destinations, 2)?;
//! outs.send(0, &mut area, Part::Emi(Advance::After(1)), Some(&text))?;
//! outs.switch(true, &mut area, &key)?;
//! for message in outs.transmitted(0) {
//!     render(message, &mut bytes)?; // of com_lines
//! }
//! ```
//!
//! - [`Outs::send`] does exactly what SEND does, and writes the outcome into the area: each known
//!   destination is served once, an unknown one stops no other, and with status key 30, 50 or 60
//!   nothing else changes.
//! - [`Outs::switch`] does exactly what ENABLE and DISABLE OUTPUT do: an enabled destination is
//!   sent what is queued for it, in order.
//! - [`Outs::transmitted`] is what was transmitted to a destination, in order, and can be rendered.
//! - The laws say what these calls leave as it was, and that every message is transmitted whole and
//!   in the order in which it was finished.
//!
//! If memory runs out, nothing changes, whatever the number of destinations.
#![tactic(auto)]

mod areas;
mod destination;
mod laws;
mod output;
mod outputs;
mod outs;

pub use areas::find_destination;
pub use destination::{Destination, is_key};
pub use laws::{
    a_refused_send_changes_the_status_alone, a_refused_switch_changes_the_status_alone,
    a_send_leaves_other_destinations, a_send_leaves_what_others_have_begun,
    a_switch_leaves_other_destinations, everything_is_transmitted_in_order,
};
pub use outs::Outs;
