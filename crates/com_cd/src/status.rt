//! The values of STATUS KEY.
ghost use Rattle.std.specs.Prelude.{◌≡◌};
ghost use Rattle.com_text.specs.Text.{IsText};
ghost use Rattle.com_cd.specs.Status.{status_bytes};

/// How many characters STATUS KEY has.
pub const STATUS_LENGTH: usize = 2;

/// What became of a RECEIVE, SEND, ENABLE or DISABLE, as STATUS KEY says it.
#[derive(Clone, Copy, Debug, PartialEq, Eq)]
pub enum Status {
    /// 00: done.
    S00,
    /// 10: a destination is disabled.
    S10,
    /// 20: a queue or a destination is unknown.
    S20,
    /// 30: DESTINATION COUNT is not valid.
    S30,
    /// 40: the key is wrong.
    S40,
    /// 50: TEXT LENGTH is not four digits, or is past the item that is sent.
    S50,
    /// 60: the portion that is sent has no characters.
    S60,
}

impl Status {
    /// Returns the two characters of STATUS KEY.
    pub const fn bytes(self) -> [u8; STATUS_LENGTH]
        ensures bytes { result ≡ status_bytes self }
        ensures text { IsText result }
    {
        match self {
            Status::S00 => *b"00",
            Status::S10 => *b"10",
            Status::S20 => *b"20",
            Status::S30 => *b"30",
            Status::S40 => *b"40",
            Status::S50 => *b"50",
            Status::S60 => *b"60",
        }
    }
}
