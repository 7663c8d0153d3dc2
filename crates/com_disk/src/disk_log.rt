//! What is known of a log without its disk.
ghost use Rattle.std.specs.Prelude.{◌≡◌, ◌+◌, ◌≤◌, ◌<◌, ◌^◌, true, false};
ghost use Rattle.com_journal.specs.Versions.{IsVersion};

use std::marker::Model;

/// A log on a disk: its version, its length, and whether an append has failed.
#[derive(Drop)]
pub struct DiskLog {
    version: u8,
    /// How many bytes it has, with its closed gate.
    bytes: u64,
    /// Whether an append has answered Failed.
    failed: bool,
}

impl Model for DiskLog {
    ghost use Rattle.std.specs.Prelude.{◌≤◌};
    ghost use Rattle.com_journal.specs.Versions.{IsVersion};
    ghost use Rattle.com_disk.specs.Logs.{Log};

    ghost Value = { Log };

    ghost view = { λ s. record { version = s.version; bytes = s.bytes; failed = s.failed } };

    ghost invariant = { λ s. IsVersion s.version × (9 ≤ s.bytes) };
}

impl DiskLog {
    /// Makes a log of this many bytes, of which no append has failed.
    pub(crate) fn new(version: u8, bytes: u64) -> DiskLog
        requires version { IsVersion version }
        requires header { 9 ≤ bytes }
        ensures { result ≡ record { version = version; bytes = bytes; failed = false } }
    {
        DiskLog {
            version,
            bytes,
            failed: false,
        }
    }

    /// Returns the version of its lines.
    pub fn version(&self) -> u8
        ensures version { result ≡ self.now.version }
        ensures known { IsVersion result }
    {
        self.version
    }

    /// Returns how many bytes it has: 9, and for each entry five more than its line's length.
    pub fn bytes(&self) -> u64
        ensures bytes { result ≡ self.now.bytes }
        ensures header { 9 ≤ result }
    {
        self.bytes
    }

    /// Returns whether an append has answered Failed. Nothing may be appended then: the disk has to
    /// be opened again, and its log recovered.
    pub fn has_failed(&self) -> bool
        ensures { result ≡ self.now.failed }
    {
        self.failed
    }

    /// Adds this many bytes.
    pub(crate) fn grow(&mut self, count: u64)
        requires { self.old.bytes + count < 2 ^ 64 }
        ensures { self.new ≡ record self.old { bytes = self.old.bytes + count } }
    {
        self.bytes += count;
    }

    /// Notes that an append has failed.
    pub(crate) fn fail(&mut self)
        ensures { self.new ≡ record self.old { failed = true } }
    {
        self.failed = true;
    }
}
