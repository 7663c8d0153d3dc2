//! A source in memory, which can be told to fail.
ghost use Rattle.std.specs.Prelude.{◌≡◌, ◌↔◌, length, take, min, IsTrue, IfOk, IsErr};
ghost use Rattle.std.specs.Io.KnownBytes.{ReadConsumes};
ghost use Rattle.com_io.specs.Reading.{new_reading, is_failing_read, after_read};

use crate::{Failed, Source};
use std::marker::Model;

/// The bytes of a file in memory, from the first that was not read on.
#[derive(Debug, Drop)]
pub struct MemorySource {
    bytes: Vec<u8>,
    /// How many of the bytes were read.
    place: usize,
    /// How often it was read.
    reads: u64,
    /// How often a read has failed.
    faults: u64,
    /// The numbers of the reads that fail, from 1.
    failing: Vec<u64>,
}

impl Model for MemorySource {
    ghost use Rattle.std.specs.Prelude.{◌≤◌, drop, vec_len};
    ghost use Rattle.com_io.specs.Reading.{Reading};

    ghost Value = { Reading };

    ghost view = { λ s. record {
      left = drop s.place s.bytes.items;
      reads = s.reads;
      faults = s.faults;
      failing = s.failing.items;
    } };

    ghost invariant = { λ s. s.place ≤ vec_len s.bytes };
}

impl MemorySource {
    /// A source of these bytes, whose reads of these numbers fail. The first read has the number
    /// 1.
    pub fn new(bytes: Vec<u8>, failing: Vec<u64>) -> Self
        ensures { result ≡ new_reading bytes.items failing.items }
    {
        MemorySource {
            bytes,
            place: 0,
            reads: 0,
            faults: 0,
            failing,
        }
    }

    /// How many bytes it has left.
    pub(crate) fn left_len(&self) -> usize
        ensures { result ≡ length self.now.left }
    {
        self.bytes.len() - self.place
    }

    /// How often a read has failed.
    pub(crate) fn faults(&self) -> u64
        ensures { result ≡ self.now.faults }
    {
        self.faults
    }
}

/// Copies to the front of `into` as many bytes as there are and fit, and answers how many.
fn copy_front(from: &[u8], into: &mut [u8]) -> usize
    ensures count { result ≡ min (length from.now) (length into.old) }
    ensures front { take result into.new ≡ take result from.now }
{
    let count = from.len().min(into.len());
    into[..count].copy_from_slice(&from[..count]);
    count
}

impl Source for MemorySource {
    ghost use Rattle.std.specs.Prelude.{Some};

    ghost left = { λ s. Some s.left };

    ghost faults = { λ s. s.faults };

    /// Fails exactly at the listed reads. Any other read gives as many bytes as are left and fit.
    fn read(&mut self, into: &mut [u8]) -> Result<usize, Failed>
        ensures fails { IsErr result ↔ IsTrue (is_failing_read self.old) }
        ensures count { IfOk result (λ n. n ≡ min (length self.old.left) (length into.old)) }
        ensures after { self.new ≡ after_read result self.old }
        ensures bytes { ReadConsumes (Some self.old.left) (Some self.new.left) result into.new }
    {
        self.reads = self.reads.saturating_add(1);
        if self.failing.contains(&self.reads) {
            self.faults = self.faults.saturating_add(1);
            return Err(Failed);
        }
        let count = copy_front(&self.bytes[self.place..], into);
        self.place += count;
        Ok(count)
    }
}
