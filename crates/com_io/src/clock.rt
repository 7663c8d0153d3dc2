//! What time it is.
ghost use Rattle.std.specs.Prelude.{◌≡◌};
ghost use Rattle.com_msg.specs.Stamp.{Moment};

use com_msg::Stamp;

/// A clock. It promises no order of moments.
pub trait Clock {
    /// The moments that the clock may say.
    ghost says: { Self → Moment → Type 0 };

    /// The date and time of this moment.
    fn now(&self) -> Stamp
        ensures { says self.now result };
}

/// A clock that stands still, and says its own stamp alone.
#[derive(Clone, Copy, Debug, PartialEq, Eq)]
pub struct FixedClock {
    /// The moment that it always says.
    pub stamp: Stamp,
}

impl Clock for FixedClock {
    ghost says = { λ clock moment. moment ≡ clock.stamp };

    fn now(&self) -> Stamp {
        self.stamp
    }
}
