//! What a call is answered.
use com_cd::{InArea, NAMES_LENGTH, OutArea};
use com_text::Text;

/// What a call is answered.
#[derive(Debug, Drop)]
pub enum Reply {
    /// The unit runs. A scheduled unit is handed the four names of the queue, 48 characters.
    Started { names: Option<[u8; NAMES_LENGTH]> },
    /// A portion's text, and its area.
    Given { area: InArea, text: Text },
    /// Nothing waits; the area says so.
    NoData { area: InArea },
    /// The area designates no queue, and says so.
    Refused { area: InArea },
    /// The unit waits until there is something to receive.
    Waits,
    /// The area after COUNT, ENABLE INPUT and DISABLE INPUT.
    AreaIn { area: InArea },
    /// The area after SEND, ENABLE OUTPUT and DISABLE OUTPUT.
    AreaOut { area: OutArea },
    /// The number of the message among all arrivals, from 1.
    Arrived { number: u64 },
    Done,
}
