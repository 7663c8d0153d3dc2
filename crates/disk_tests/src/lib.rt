//! Tests of journals on disks: the bytes of a log, every crash of a log of five entries, failing
//! calls, and a file.
#![tactic(auto)]

#[cfg(test)]
mod bytes;
#[cfg(test)]
mod crashes;
#[cfg(test)]
mod files;
#[cfg(test)]
mod logs;
