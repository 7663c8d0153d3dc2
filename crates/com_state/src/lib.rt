//! The one-thread message control system: its definitions, what holds of every step and history,
//! and [`State`], a value that does every call.
//!
//! ```rust
//! use com_state::State;
//!
//! let mut state = State::open(&net)?;
//! if state.may(&party, &call) {
//!     let reply = state.apply(&party, &call)?;
//! }
//! let nothing_can_happen = state.idle();
//! ```
//!
//! A contract sees a `State` as a state of the definitions. A crate above cites these and the laws,
//! and opens no step:
//!
//! ```rust
//! ghost use Rattle.com_state.specs.State.{opening};
//! ghost use Rattle.com_state.specs.Histories.{Legal};
//! ghost use Rattle.com_state.specs.Steps.{step};
//!
//! pub fn replay(net: &Net, calls: &[(Party, Call)]) -> Vec<Entry>
//!     ensures { Legal net.now result.items }
//! {
//!     // ..
//! }
//! ```
//!
//! - `step` is what a call is answered and the state that it leaves, `opening` the state of a
//!   network in which nothing has happened, and `Legal` says which histories are the system's.
//! - What comes in is com_recv's `Incoming`, what goes out com_send's `Outgoing`: their definitions
//!   are the system's.
//! - [`every_history_is_whole`]: in every legal history a message goes to one unit, from its front
//!   and with nothing left out; what is missing at the end that unit still holds, or it has
//!   stopped; and the messages of a leaf are taken up in the order of arrival.
//! - [`every_state_reached_is_consistent`] and [`entries_tell_of_their_party`] say what is known of
//!   a state that a legal history leaves.
//!
//! The functions that stand alone do nothing; their contracts are the laws.
#![tactic(auto)]

mod call_laws;
mod laws;
pub mod limits;
mod parties;
mod state;

pub use call_laws::{
    a_call_is_refused_where_it_has_to_wait, a_call_leaves_the_other_parties,
    a_reply_is_of_its_call, idle_calls_need_an_idle_system,
};
pub use laws::{
    a_front_is_legal, a_legal_history_leaves_one_state, a_portion_is_no_longer_than_asked,
    a_refusal_changes_the_status_alone, a_run_goes_on_by_a_step, a_run_is_legal,
    a_step_is_determined, a_step_is_one_entry_more, an_idle_system_only_stops_and_ends,
    entries_tell_of_their_party, entries_tell_what_their_party_may_do, every_history_is_whole,
    every_state_reached_is_consistent, no_call_is_left_at_the_end,
    no_calls_run_behind_such_as_do_not, no_count_passes_its_limit,
    nothing_is_left_of_a_stopped_unit, others_are_left_by_a_stop, others_keep_their_rests,
    shown_is_legal, step_keeps,
};
pub use parties::{MAX_ARRIVALS, MAX_VERBS, TerminalMode, TerminalState, UnitMode, UnitState};
pub use state::State;
