//! Run units: flat code that runs from verb to verb.
//!
//! [`Unit`] runs the flat code of a program. `step_to_call` runs to the next verb and returns its
//! call, or the reason for which the unit stops, and `answer` takes the reply:
//!
//! ```rust
//! let mut unit = Unit::new(alloc, program)?;
//! unit.begin(None);
//! while let Want::Verb(call) = unit.step_to_call()? {
//!     unit.answer(&system.reply_to(call));
//! }
//! ```
//!
//! `specs/Units.antt` says what a unit stands for (`StandsFor`): a program, the names that START
//! handed over, and the replies so far. `begin` gives it for no reply, `answer` for one reply more,
//! and `step_to_call` keeps it, also if memory runs out. What `step_to_call` returns is what the
//! program comes to, given these names and replies (`IsWantOf`), and a wanted call is well formed.
//!
//! - `specs/Machine.antt` says what an instruction does, `specs/Places.antt` what a machine stands
//!   for, and `specs/Weight.antt` how far it is from its next call at most. [`laws`] has their laws.
//! - `specs/Within.antt` says which operands are within areas, so that no read or write is outside.
//!
//! A unit has one buffer for each area. Only `Unit::new`, the call of a SEND, an ENABLE or a
//! DISABLE, and a PERFORM inside more PERFORMs than before take memory.
#![tactic(auto)]

mod actions;
mod area;
mod conditions;
mod content;
mod fields;
pub mod laws;
mod machine;
mod moves;
mod opening;
mod operands;
mod program;
mod replies;
mod requests;
mod returns;
mod sends;
mod stack;
mod unit;
mod want;

pub use program::FlatProgram;
pub use unit::Unit;
pub use want::Want;
