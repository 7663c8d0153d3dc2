//! The files of the current folder, and standard output.
ghost use Rattle.std.specs.Prelude.{◌≡◌};
ghost use Rattle.com_io.specs.Folder.{unused_folder};

use crate::adapter::{count_fault, is_standard_output, write_counted};
use crate::{DirSource, Store, StoreFault};
use std::marker::Model;
use std::rt::Files;
use std::{fs, io};

/// The current folder's files, opened and written by a runtime. It tells no content.
#[derive(Drop)]
pub struct DirStore<R> {
    rt: R,
    /// How many sources are open.
    pending: u64,
    /// How often an opening has failed.
    open_faults: u64,
    /// How many closed sources had failed.
    read_faults: u64,
    /// How often a write has failed.
    write_faults: u64,
}

impl<R> Model for DirStore<R> {
    ghost use Rattle.com_io.specs.Folder.{Folder};

    ghost Value = { Folder };

    ghost view = { λ s. record {
      pending = s.pending;
      open_faults = s.open_faults;
      read_faults = s.read_faults;
      write_faults = s.write_faults;
    } };
}

impl<R> DirStore<R> {
    /// The current folder, as the runtime reaches it.
    pub fn new(rt: R) -> Self
        ensures { result ≡ unused_folder }
    {
        DirStore {
            rt,
            pending: 0,
            open_faults: 0,
            read_faults: 0,
            write_faults: 0,
        }
    }
}

impl<R: Files + Print> Store for DirStore<R>
where
    R::File: Send,
{
    ghost use Rattle.std.specs.Prelude.{None};

    type Src = DirSource<R::File>;

    ghost shows = { λ s. record {
      contents = None;
      pending = s.pending;
      open_faults = s.open_faults;
      read_faults = s.read_faults;
      write_faults = s.write_faults;
    } };

    /// With `u64::MAX` open sources it answers `Memory`.
    fn open(&mut self, name: &str) -> Result<DirSource<R::File>, StoreFault> {
        if self.pending == u64::MAX {
            return Err(StoreFault::Memory);
        }
        match fs::open(&self.rt, name) {
            Ok(file) => {
                self.pending += 1;
                Ok(DirSource::new(file))
            }
            Err(error) => Err(count_fault(&error, &mut self.open_faults)),
        }
    }

    fn close(&mut self, source: DirSource<R::File>) {
        if source.faults() > 0 {
            self.read_faults = self.read_faults.saturating_add(1);
        }
        drop(source);
        self.pending -= 1;
    }

    /// A file is made or emptied before it is written.
    fn write(&mut self, name: &str, bytes: &[u8]) -> Result<(), StoreFault> {
        if is_standard_output(name) {
            return write_counted(&mut io::writer(&self.rt), bytes, &mut self.write_faults);
        }
        match fs::create(&self.rt, name) {
            Ok(mut file) => write_counted(&mut file, bytes, &mut self.write_faults),
            Err(error) => Err(count_fault(&error, &mut self.write_faults)),
        }
    }
}
