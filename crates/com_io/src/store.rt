//! Where files are kept, and where everything is written.
ghost use Rattle.std.specs.Prelude.{◌≡◌, ◌+◌, ◌≤◌, option_map, is_ok, if◌then◌else◌, IfOk, IsOk, IsErrOf};
ghost use Rattle.com_io.specs.Faults.{HasCause};
ghost use Rattle.com_io.specs.Stores.{Shown, IsOpened, IsOpening, closing_of, with_call, CountsClosing, IsWriting};

use crate::Source;
use std::alloc::{AllocError, AllocFailed};
use thiserror::Error;

/// Why a store did not open or write.
#[derive(Clone, Copy, Debug, PartialEq, Eq, Error)]
pub enum StoreFault {
    /// The file or the output failed, or there is no such file.
    #[error("the file or the output failed")]
    Failed,
    /// Memory ran out.
    #[error("memory ran out")]
    Memory,
}

impl From<AllocError> for StoreFault {
    ghost use Rattle.com_io.specs.declared.store.StoreFault.TheVariants.{Memory};

    ghost from_gives = { λ _ fault. fault ≡ Memory };

    fn from(_error: AllocError) -> StoreFault {
        StoreFault::Memory
    }
}

impl<T: Drop> From<AllocFailed<T>> for StoreFault {
    ghost use Rattle.com_io.specs.declared.store.StoreFault.TheVariants.{Memory};

    ghost from_gives = { λ _ fault. fault ≡ Memory };

    fn from(_failed: AllocFailed<T>) -> StoreFault {
        StoreFault::Memory
    }
}

/// Files by name, and what is written by name. The name `-` is standard output.
///
/// A store that tells its contents tells, too, which openings and writes it was asked for, each with
/// its name, and in order. A call that wants memory is told like one that failed, or has changed
/// nothing at all.
pub trait Store {
    /// A file that was opened.
    type Src: Source + Send;

    /// What it shows: the files that can be read, what was written, and the calls that it was asked
    /// for, which it need not tell; how many sources are open; and its counts of faults.
    ghost shows: { Self → Shown };

    /// Opens a file, to be read from its first byte. A missing file is `Failed`.
    fn open(&mut self, name: &str) -> Result<Self::Src, StoreFault>
        ensures opened { IfOk result (λ source. IsOpened (shows self.old).contents name.now
            (Self.Src.left source) (Self.Src.faults source)) }
        ensures contents { IsOpening name.now result (shows self.old).contents
            (shows self.new).contents }
        ensures pending { (shows self.new).pending
            ≡ (if is_ok result then (shows self.old).pending + 1 else (shows self.old).pending) }

        // the counts
        ensures cause { HasCause (shows self.old).open_faults (shows self.new).open_faults
            (IsOk result) (IsErrOf result StoreFault.Failed) }
        ensures memory { IsErrOf result StoreFault.Memory
            → (shows self.new).open_faults ≡ (shows self.old).open_faults }
        ensures read_faults { (shows self.new).read_faults ≡ (shows self.old).read_faults }
        ensures write_faults { (shows self.new).write_faults ≡ (shows self.old).write_faults };

    /// Closes a source, which cannot be refused. At least one source has to be open.
    fn close(&mut self, source: Self::Src)
        requires { 1 ≤ (shows self.old).pending }
        ensures contents { (shows self.new).contents
            ≡ option_map (with_call (closing_of (Self.Src.left source) (Self.Src.faults source)))
            (shows self.old).contents }
        ensures pending { (shows self.new).pending + 1 ≡ (shows self.old).pending }

        // the counts
        ensures read_faults { CountsClosing (Self.Src.faults source)
            (shows self.old).read_faults (shows self.new).read_faults }
        ensures open_faults { (shows self.new).open_faults ≡ (shows self.old).open_faults }
        ensures write_faults { (shows self.new).write_faults ≡ (shows self.old).write_faults };

    /// Writes the whole content of a name; for `-`, adds to standard output. What is not Ok has
    /// written a front of the bytes, or nothing.
    fn write(&mut self, name: &str, bytes: &[u8]) -> Result<(), StoreFault>
        ensures contents { IsWriting name.now bytes.now result (shows self.old).contents
            (shows self.new).contents }
        ensures pending { (shows self.new).pending ≡ (shows self.old).pending }

        // the counts
        ensures cause { HasCause (shows self.old).write_faults (shows self.new).write_faults
            (IsOk result) (IsErrOf result StoreFault.Failed) }
        ensures memory { IsErrOf result StoreFault.Memory
            → (shows self.new).write_faults ≡ (shows self.old).write_faults }
        ensures open_faults { (shows self.new).open_faults ≡ (shows self.old).open_faults }
        ensures read_faults { (shows self.new).read_faults ≡ (shows self.old).read_faults };
}
