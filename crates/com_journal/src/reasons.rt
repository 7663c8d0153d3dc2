//! Why units stop and terminals end, as the lines of STOP and END have it.
ghost use Rattle.std.specs.Prelude.{◌≡◌, ◌++◌, ◌∷◌, OnOk};
ghost use Rattle.com_journal.specs.Words.{stop_word};
ghost use Rattle.com_journal.specs.Lines.{spaced, end_fields};

use crate::finish::put_reason;
use crate::put::put_word;
use crate::words::stop_word;
use com_events::{EndReason, StopReason};
use com_text::Rows;
use std::alloc::AllocError;

/// Adds why a unit stops, after a space.
pub fn write_stop(reason: StopReason, into: &mut Rows<u8>) -> Result<(), AllocError>
    ensures { OnOk result (into.new ≡ into.old ++ 32 ∷ stop_word reason) }
{
    put_word(into, stop_word(reason))
}

/// Adds why a terminal ends, after a space. If memory runs out, a prefix of it may have been added.
pub fn write_finish(reason: EndReason, into: &mut Rows<u8>) -> Result<(), AllocError>
    ensures { OnOk result (into.new ≡ into.old ++ 32 ∷ spaced (end_fields reason)) }
{
    put_reason(into, &reason)
}
