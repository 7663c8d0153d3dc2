//! What was done.
use crate::{Call, Party, Reply};

/// A call that was made, and its reply.
#[derive(Debug, Drop)]
pub struct Entry {
    pub party: Party,
    pub call: Call,
    pub reply: Reply,
}
