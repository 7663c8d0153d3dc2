//! What a COBOL program has left to do, as a value.
//!
//! A unit is somewhere in its program. What it has left to do is a list of frames, the innermost
//! first (`specs/Frames.antt`): the rest of a block, the rest of a paragraph, the rest of a range,
//! the turns that are left of a PERFORM. In
//!
//! ```text
//! MAIN.  PERFORM P THRU Q 3 TIMES.  STOP RUN.
//! P.     ADD 1 TO M.  ADD 2 TO N.
//! Q.     ADD 4 TO M.
//! ```
//!
//! a unit that has done the first ADD of its first turn has left: the sentence `ADD 2 TO N`; the
//! paragraph Q of the range; two turns of the range; the sentence `STOP RUN`; and the paragraphs P
//! and Q, which follow MAIN in the whole text.
//!
//! `frames_do` says what such a list does, in the words of `cob_meaning`. A unit's state stands for
//! its program and the replies so far if its frames, whatever replies come, lead to what the
//! program means (`specs/Units.antt`). `specs/Entries.antt` says the same of a unit's entries.
//!
//! These are definitions with their laws ([`laws`]); there is no code.
#![tactic(auto)]

pub mod laws;
