//! The limits of this crate, each with its number.
ghost use Rattle.std.specs.Prelude.{◌≡◌};
ghost use Rattle.com_msg.specs.declared.message.TheConstants.{MAX_SEGMENTS, MAX_SEGMENT_LENGTH, MAX_MESSAGE_LENGTH};
ghost use Rattle.com_msg.specs.declared.rest.TheConstants.{MAX_SIZE};
ghost use Rattle.com_msg.specs.declared.sending.TheConstants.{MAX_ITEM_LENGTH, MAX_LINES};

/// States the number of each public limit. It does nothing; its contract is the list.
pub fn limits_are_these()
    ensures segments { MAX_SEGMENTS ≡ 9999 }
    ensures segment_length { MAX_SEGMENT_LENGTH ≡ 2000 }
    ensures message_length { MAX_MESSAGE_LENGTH ≡ 9999 }
    ensures size { MAX_SIZE ≡ 2000 }
    ensures item_length { MAX_ITEM_LENGTH ≡ 2000 }
    ensures lines { MAX_LINES ≡ 99 }
{}
