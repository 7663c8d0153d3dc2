//! What a disk is: what a read gives, and what a crash may leave.
ghost use Rattle.std.specs.Prelude.{◌≡◌, ◌<◌, ◌≤◌, ◌↔◌, List, ℕ, length, take, drop, IfOk, OnOk, IsOk, IsErr, IsErrOf};
ghost use Rattle.std.specs.Io.{ReadsAtMost};
ghost use Rattle.com_io.specs.Faults.{HasCause};
ghost use Rattle.com_disk.specs.Disks.{Only, Follows, IsTorn, Holds, Elapses};

use com_io::Failed;
use std::alloc::{AllocError, AllocFailed};
use thiserror::Error;

/// Why a write was not done.
#[derive(Clone, Copy, Debug, PartialEq, Eq, Error)]
pub enum DiskFault {
    /// The disk failed.
    #[error("the disk failed")]
    Failed,
    /// Memory ran out.
    #[error("memory ran out")]
    Memory,
}

impl From<Failed> for DiskFault {
    ghost use Rattle.com_disk.specs.declared.disk.DiskFault.TheVariants.{Failed as HasFailed};

    ghost from_gives = { λ _ fault. fault ≡ HasFailed };

    fn from(_failed: Failed) -> DiskFault {
        DiskFault::Failed
    }
}

impl From<AllocError> for DiskFault {
    ghost use Rattle.com_disk.specs.declared.disk.DiskFault.TheVariants.{Memory};

    ghost from_gives = { λ _ fault. fault ≡ Memory };

    fn from(_error: AllocError) -> DiskFault {
        DiskFault::Memory
    }
}

impl<T: Drop> From<AllocFailed<T>> for DiskFault {
    ghost use Rattle.com_disk.specs.declared.disk.DiskFault.TheVariants.{Memory};

    ghost from_gives = { λ _ fault. fault ≡ Memory };

    fn from(_failed: AllocFailed<T>) -> DiskFault {
        DiskFault::Memory
    }
}

/// A disk, which holds bytes.
///
/// A type of disk reports its content and its images, or neither. If it reports them, each clause on
/// them holds; otherwise nothing is claimed about them. An image is a list of bytes that a crash
/// may leave.
pub trait Disk {
    /// Whether the content and the images are reported.
    ghost told: { Type 0 };

    /// The bytes that a read gives.
    ghost content: { Self → List ℕ };

    /// What a crash at this moment may leave.
    ghost images: { Self → List ℕ → Type 0 };

    /// The moment, a number that never falls.
    ghost moment: { Self → ℕ };

    /// What a crash at some moment since that one might have left, within a call or between two.
    ghost since: { Self → ℕ → List ℕ → Type 0 };

    /// How often it has failed.
    ghost faults: { Self → ℕ };

    /// Returns how many bytes the disk holds.
    fn len(&mut self) -> Result<u64, Failed>
        ensures length { IfOk result (λ n. told → n ≡ length (content self.old)) }
        ensures content { told → content self.new ≡ content self.old }
        ensures images { told → (c : List ℕ) → images self.new c ↔ images self.old c }
        ensures time { told → Elapses (moment self.old) (moment self.new) (since self.old)
            (since self.new) (images self.new) }
        ensures cause { HasCause (faults self.old) (faults self.new) (IsOk result) (IsErr result) };

    /// Reads bytes from this place on into the prefix of `into`, and returns how many.
    fn read(&mut self, at: u64, into: &mut [u8]) -> Result<usize, Failed>
        ensures bound { ReadsAtMost result into.new }
        ensures bytes { IfOk result (λ n. told
            → take n into.new ≡ take n (drop at (content self.old))) }
        ensures within { IfOk result (λ n. told → n ≤ length (drop at (content self.old))) }
        ensures some { IfOk result (λ n. told → at < length (content self.old)
            → 0 < length into.old → 0 < n) }
        ensures content { told → content self.new ≡ content self.old }
        ensures images { told → (c : List ℕ) → images self.new c ↔ images self.old c }
        ensures time { told → Elapses (moment self.old) (moment self.new) (since self.old)
            (since self.new) (images self.new) }
        ensures cause { HasCause (faults self.old) (faults self.new) (IsOk result) (IsErr result) };

    /// Writes over what is there, and past the end. Until a sync, a crash may leave any bytes in the
    /// range.
    fn write_at(&mut self, at: u64, bytes: &[u8]) -> Result<(), DiskFault>
        requires { told → at ≤ length (content self.old) }
        ensures written { OnOk result (told
            → Holds (content self.old) at bytes.now (content self.new)) }
        ensures torn { told
            → IsTorn at (length bytes.now) (content self.old) (content self.new) }
        ensures unwritten { IsErrOf result DiskFault.Memory → told
            → content self.new ≡ content self.old }
        ensures images { told
            → Follows (IsTorn at (length bytes.now)) (images self.old) (images self.new) }
        ensures no_image { IsErrOf result DiskFault.Memory → told
            → (c : List ℕ) → images self.new c ↔ images self.old c }
        ensures time { told → Elapses (moment self.old) (moment self.new) (since self.old)
            (since self.new) (images self.new) }
        ensures cause { HasCause (faults self.old) (faults self.new) (IsOk result)
            (IsErrOf result DiskFault.Failed) };

    /// Makes what a read gives last: after Ok a crash leaves that and nothing else.
    fn sync(&mut self) -> Result<(), Failed>
        ensures durable { OnOk result (told → Only (content self.old) (images self.new)) }
        ensures content { told → content self.new ≡ content self.old }
        ensures images { told → (c : List ℕ) → images self.new c → images self.old c }
        ensures time { told → Elapses (moment self.old) (moment self.new) (since self.old)
            (since self.new) (images self.new) }
        ensures cause { HasCause (faults self.old) (faults self.new) (IsOk result) (IsErr result) };

    /// The content is one of the images.
    ghost content_is_image: { (disk : Self) → told → images disk (content disk) };

    /// This moment is one of those since an earlier one.
    ghost counts_now: { (disk : Self) (t : ℕ) (c : List ℕ) → told → t ≤ moment disk
        → images disk c → since disk t c };

    /// Since this moment there is no other.
    ghost only_now: { (disk : Self) (c : List ℕ) → told → since disk (moment disk) c
        → images disk c };
}
