//! Laws of the framing.
ghost use Rattle.std.specs.Prelude.{◌≡◌, ℕ, List, Option};
ghost use Rattle.com_msg.specs.declared.framing.Framing.{Framing};
ghost use Rattle.com_msg.specs.declared.framing.FrameFault.{FrameFault};
ghost use Rattle.com_msg.specs.declared.message.RawMessage.{RawMessage};
ghost use Rattle.com_lines.specs.Frames.{Frames};

/// Bytes have one reading: one list of messages and one verdict. So what a framer finds in what
/// [`encode`](crate::encode) writes are the messages that were written.
pub fn one_reading()
    ensures { (framing : Framing) (bytes : List ℕ) (messages others : List RawMessage)
        (verdict other : Option FrameFault)
        → Frames framing bytes messages verdict → Frames framing bytes others other
        → (messages ≡ others) × (verdict ≡ other) }
{}
