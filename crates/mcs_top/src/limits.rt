//! Limits that two crates state and that are one.
ghost use Rattle.std.specs.Prelude.{◌≡◌};
ghost use Rattle.com_io.specs.declared.files.TheConstants.{FILE_LIMIT};
ghost use Rattle.com_events.specs.declared.call.TheConstants.{MAX_KEY_LENGTH};
ghost use Rattle.com_net.specs.declared.fault.TheConstants.{MAX_DESCRIPTION};
ghost use Rattle.com_net.specs.declared.net.TheConstants.{MAX_PASSWORD_LENGTH};
ghost use Rattle.com_state.specs.declared.parties.TheConstants.{MAX_VERBS};
ghost use Rattle.cob_meaning.specs.Meaning.{unit_limits};

/// States that a description is as long as a file may be. It does nothing; its contract is the law.
pub fn limits_agree()
    ensures { MAX_DESCRIPTION ≡ FILE_LIMIT }
{}

/// States that a program may make as many verbs as the system lets a unit make. It does nothing; its
/// contract is the law.
pub fn verbs_agree()
    ensures { unit_limits.verbs ≡ MAX_VERBS }
{}

/// States that a key of ENABLE or DISABLE may be as long as a password. It does nothing; its contract is
/// the law.
pub fn keys_are_as_long_as_passwords()
    ensures { MAX_KEY_LENGTH ≡ MAX_PASSWORD_LENGTH }
{}
