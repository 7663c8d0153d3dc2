//! What COBOL programs mean: which calls a program makes, given the replies.
//!
//! `specs/Meaning.antt` says it by recursion on the statement trees of cob_proc. `meaning` gives the
//! calls that were answered, and then the reason for which the unit stops, or the call for which a
//! reply is wanted. `specs/Follows.antt` says when the own entries of a unit are those of its program
//! (`Follows`), and when they are so far (`SoFar`).
//!
//! `specs/Sources.antt` says which program a source is (`IsProgramOf`) and which fault it has
//! (`IsSourceFaultOf`), over all passes. Each source is one of both, and never both.
//! `specs/Checked.antt` says what the text of such a program is, and `specs/Sound.antt` what its
//! layout is.
//!
//! ```text
//! meaning echo None []                        its RECEIVE is wanted
//! meaning echo None (HELLO ∷ [])              the RECEIVE was answered; a SEND of HELLO is wanted
//! meaning echo None (HELLO ∷ the area ∷ [])   both were answered; the RECEIVE is wanted again
//! ```
//!
//! These are definitions with their laws, which stand in [`laws`]; there is no code.
#![tactic(auto)]

pub mod laws;
mod limits;

pub use limits::MAX_STATEMENTS;
