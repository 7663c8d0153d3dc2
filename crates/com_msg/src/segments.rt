//! The segments of a message to a terminal.
ghost use Rattle.std.specs.Prelude.{◌≡◌, ◌∷◌, []};
ghost use Rattle.std.specs.Arc.{arc_value};

use crate::OutSegment;
use std::marker::Model;
use std::slice;
use std::sync::Arc;

/// The segments of a message to a terminal, in order. Contracts see the list of them.
#[derive(Debug, Drop)]
pub struct Segments {
    kept: Kept,
}

/// How segments are kept.
#[derive(Debug, Drop)]
enum Kept {
    /// Those of one message alone.
    Own(Vec<OutSegment>),
    /// One segment, which the messages to other terminals have too.
    Shared(Arc<OutSegment>),
}

impl Model for Segments {
    ghost use Rattle.std.specs.Prelude.{List};
    ghost use Rattle.com_msg.specs.declared.sending.OutSegment.{OutSegment};
    ghost use Rattle.com_msg.specs.Sharing.{segments_in};

    ghost Value = { List OutSegment };

    ghost view = { λ segments. segments_in segments.kept };
}

impl Segments {
    /// Returns the segments of a `Vec`.
    pub fn of_vec(segments: Vec<OutSegment>) -> Segments
        ensures { result ≡ segments.items }
    {
        Segments {
            kept: Kept::Own(segments),
        }
    }

    /// Returns one segment, which others have too.
    pub(crate) fn shared(segment: Arc<OutSegment>) -> Segments
        ensures { result ≡ arc_value segment ∷ [] }
    {
        Segments {
            kept: Kept::Shared(segment),
        }
    }

    /// Returns the segments.
    pub fn as_slice(&self) -> &[OutSegment]
        ensures { result.now ≡ self.now }
    {
        match &self.kept {
            Kept::Own(segments) => segments.as_slice(),
            Kept::Shared(segment) => slice::from_ref(&**segment),
        }
    }
}
