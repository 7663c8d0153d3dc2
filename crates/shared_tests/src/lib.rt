//! Tests of com_shared: parties of one system, in one thread and in threads of their own.
#![tactic(auto)]

mod calls;
mod closing;
mod outputs;
mod parties;
mod plan;
mod replay;
mod rounds;
mod systems;
mod threads;

pub use calls::{
    answering, arrive, asking, count, enable_input, end, message, send, start, stop, switch_output,
    take_message,
};
pub use closing::{close, close_three};
pub use outputs::{Speaker, share_output};
pub use parties::{feed, item, key, last_pass, serve};
pub use plan::{
    MAX_MESSAGES, Plan, bide, bide_as_terminal, bide_as_unit, let_turns_go, wait_for_entries,
};
pub use replay::{Played, is_made_of};
pub use rounds::{Member, Round, Stands, run_in_rounds};
pub use systems::{played, played_in_rounds, played_on_one_output};
pub use threads::{has_route, is_unit, run_in_threads};

#[cfg(test)]
mod tests;
