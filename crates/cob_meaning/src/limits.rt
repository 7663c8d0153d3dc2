//! How much a unit may do.

/// How many statements, and turns of PERFORMs, a unit may begin. How many of its verbs may be
/// answered is `com_state::MAX_VERBS`.
pub const MAX_STATEMENTS: u32 = 1_000_000;
