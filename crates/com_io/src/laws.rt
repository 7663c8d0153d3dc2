//! Laws of the definitions. A function here does nothing; its contract is the law.
ghost use Rattle.std.specs.Prelude.{◌≡◌, ℕ};
ghost use Rattle.com_msg.specs.Stamp.{Moment};
ghost use Rattle.com_io.specs.Civil.{IsStampOf};

/// A second and its hundredths have one stamp.
pub fn seconds_have_one_stamp()
    ensures { (second hundredth : ℕ) (stamp other : Moment) → IsStampOf second hundredth stamp
        → IsStampOf second hundredth other → stamp ≡ other }
{}
