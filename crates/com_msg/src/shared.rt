//! A message that several terminals are sent.
ghost use Rattle.std.specs.Prelude.{◌≡◌, IfOk};
ghost use Rattle.com_text.specs.Text.{IsText};
ghost use Rattle.com_msg.specs.Begun.{finished, nothing_begun, with_text};

use crate::{Advance, End, OutMessage, OutSegment, Segments};
use com_text::Text;
use std::alloc::{AllocError, Global};
use std::marker::Model;
use std::sync::Arc;

/// A message of one segment that several terminals can be sent, and whose text is kept once.
/// Contracts see the message.
#[derive(Debug, Drop)]
pub struct SharedMessage {
    segment: Arc<OutSegment>,
    end: End,
}

impl Model for SharedMessage {
    ghost use Rattle.std.specs.Prelude.{◌∷◌, []};
    ghost use Rattle.std.specs.Arc.{arc_value};
    ghost use Rattle.com_msg.specs.declared.sending.OutMessage.{OutMessage};

    ghost Value = { OutMessage };

    ghost view = { λ message. record {
      segments = arc_value message.segment ∷ [];
      end = message.end;
    } };
}

impl SharedMessage {
    /// Returns the message of this text alone, which is written with this advance. The only error
    /// is want of memory.
    pub fn new(
        alloc: Global,
        text: &[u8],
        advance: Advance,
        end: End,
    ) -> Result<SharedMessage, AllocError>
        requires { IsText text.now }
        ensures { IfOk result (λ message. message
            ≡ finished advance end (with_text text.now nothing_begun)) }
    {
        let text = Text::of_vec(Vec::from_slice(alloc, text)?);
        match Arc::new(alloc, OutSegment { text, advance }) {
            Ok(segment) => Ok(SharedMessage { segment, end }),
            Err(_) => Err(AllocError),
        }
    }

    /// Returns the message for one more terminal. Fails only if memory runs out.
    pub fn message(&self) -> Result<OutMessage, AllocError>
        ensures { IfOk result (λ message. message ≡ self.now) }
    {
        let segment = Arc::try_clone(&self.segment)?;
        Ok(OutMessage {
            segments: Segments::shared(segment),
            end: self.end,
        })
    }
}
