//! A source that reads an open file.
ghost use Rattle.std.specs.Prelude.{◌≡◌};

use crate::adapter::read_counted;
use crate::{Failed, Source};
use std::io::Read;

/// An open file, with how often a read has failed. It tells what the file tells: nothing, for a file
/// of the system.
#[derive(Drop)]
pub struct DirSource<F> {
    file: F,
    /// How often a read has failed.
    faults: u64,
}

impl<F> DirSource<F> {
    /// A source of this file.
    pub(crate) fn new(file: F) -> Self
        ensures file { result.file ≡ file }
        ensures faults { result.faults ≡ 0 }
    {
        DirSource { file, faults: 0 }
    }

    /// How often a read has failed.
    pub(crate) fn faults(&self) -> u64
        ensures { result ≡ self.now.faults }
    {
        self.faults
    }
}

impl<F: Read> Source for DirSource<F> {
    ghost left = { λ s. F.remaining s.file };

    ghost faults = { λ s. s.faults };

    fn read(&mut self, into: &mut [u8]) -> Result<usize, Failed> {
        read_counted(&mut self.file, into, &mut self.faults)
    }
}
