//! Tests of the commands where the store fails: at an opening, a read or a write. And one run of
//! `mcs`, with a runtime and a clock.
#![tactic(auto)]

#[cfg(test)]
mod reads;
#[cfg(test)]
mod runs;
#[cfg(test)]
mod writes;
