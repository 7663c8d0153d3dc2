//! Why a form was not read.
use std::alloc::{AllocError, AllocFailed};

/// Why a form was not read.
#[derive(Clone, Copy, Debug)]
pub enum Stop {
    /// Another token is wanted where this many are left, the wrong one among them.
    Wanted(usize),
    /// Memory ran out.
    Memory(AllocError),
}

impl From<AllocError> for Stop {
    ghost use Rattle.std.specs.Prelude.{◌≡◌};
    ghost use Rattle.cob_forms.specs.declared.stop.Stop.TheVariants.{Memory};

    ghost from_gives = { λ error gives. gives ≡ Memory error };

    fn from(error: AllocError) -> Stop {
        Stop::Memory(error)
    }
}

impl<T: Drop> From<AllocFailed<T>> for Stop {
    ghost use Rattle.std.specs.Prelude.{◌≡◌, alloc_error};
    ghost use Rattle.cob_forms.specs.declared.stop.Stop.TheVariants.{Memory};

    ghost from_gives = { λ _ error. error ≡ Memory alloc_error };

    fn from(_failed: AllocFailed<T>) -> Stop {
        Stop::Memory(AllocError)
    }
}
