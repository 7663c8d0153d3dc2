//! The limits of this crate, each with its number.
ghost use Rattle.std.specs.Prelude.{◌≡◌};
ghost use Rattle.com_net.specs.declared.fault.TheConstants.{MAX_DESCRIPTION};
ghost use Rattle.com_net.specs.declared.net.TheConstants.{MAX_PASSWORD_LENGTH, MAX_TERMINALS, MAX_UNITS};

/// States the number of each public limit. It does nothing; its contract is the list.
pub fn limits_are_these()
    ensures description { MAX_DESCRIPTION ≡ 1048576 }
    ensures terminals { MAX_TERMINALS ≡ 32 }
    ensures units { MAX_UNITS ≡ 16 }
    ensures password_length { MAX_PASSWORD_LENGTH ≡ 10 }
{}
