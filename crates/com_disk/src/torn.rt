//! What a crash leaves of the writes that are pending.

/// What a crash leaves of the bytes that are pending.
#[derive(Clone, Copy, Debug, PartialEq, Eq)]
pub enum Torn {
    /// The bytes as before.
    Old,
    /// The bytes as written.
    New,
    /// Bytes 01.
    Ones,
}
