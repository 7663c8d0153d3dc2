//! What the adapters make of any reader and writer, and of its errors.
ghost use Rattle.std.specs.Prelude.{◌≡◌, ◌↔◌, IsTrue, IsOk, IsErr, OnOk, OnErr, IsErrOf};
ghost use Rattle.std.specs.Io.{ReadsAtMost};
ghost use Rattle.std.specs.Io.KnownBytes.{ReadConsumes, Appends};
ghost use Rattle.std.specs.IoError.{error_kind};
ghost use Rattle.com_io.specs.Listed.{next_count};
ghost use Rattle.com_io.specs.Adapter.{AppendsFront};
ghost use Rattle.com_io.specs.Stores.{output_name};

use crate::{Failed, StoreFault};
use std::io::{self, ErrorKind, Read, Write};

/// The name of standard output.
pub const OUTPUT_NAME: &str = "-";

/// Whether the name is standard output's.
pub fn is_standard_output(name: &str) -> bool
    ensures { IsTrue result ↔ (name.now ≡ output_name) }
{
    name == OUTPUT_NAME
}

/// Reads once, and counts a failure. Any error of the reader is one, an interruption too.
pub fn read_counted<R: Read>(
    from: &mut R,
    into: &mut [u8],
    faults: &mut u64,
) -> Result<usize, Failed>
    ensures bound { ReadsAtMost result into.new }
    ensures bytes { ReadConsumes (R.remaining from.old) (R.remaining from.new) result into.new }
    ensures ok { OnOk result (faults.new ≡ faults.old) }
    ensures err { OnErr result (faults.new ≡ next_count faults.old) }
{
    match from.read(into) {
        Ok(count) => Ok(count),
        Err(_) => {
            *faults = faults.saturating_add(1);
            Err(Failed)
        }
    }
}

/// Writes all the bytes and flushes, and counts a failure. An interrupted write is tried again from
/// the first byte that was not written.
pub fn write_counted<W: Write>(to: &mut W, bytes: &[u8], faults: &mut u64) -> Result<(), StoreFault>
    ensures ok { OnOk result (Appends (W.contents to.old) (W.contents to.new) bytes.now) }
    ensures err { OnErr result (AppendsFront (W.contents to.old) (W.contents to.new) bytes.now) }
    ensures done { OnOk result (faults.new ≡ faults.old) }
    ensures failed { IsErrOf result StoreFault.Failed → faults.new ≡ next_count faults.old }
    ensures memory { IsErrOf result StoreFault.Memory → faults.new ≡ faults.old }
{
    let mut written = 0;
    for _ in 0..u64::MAX {
        if written == bytes.len() {
            return match to.flush() {
                Ok(()) => Ok(()),
                Err(error) => Err(count_fault(&error, faults)),
            };
        }
        match to.write(&bytes[written..]) {
            Ok(0) => break,
            Ok(count) => written += count,
            Err(error) => {
                if error.kind() != ErrorKind::Interrupted {
                    return Err(count_fault(&error, faults));
                }
            }
        }
    }
    *faults = faults.saturating_add(1);
    Err(StoreFault::Failed)
}

/// Why a call failed: only want of memory is no fault of the files. A fault is counted.
pub fn count_fault(error: &io::Error, faults: &mut u64) -> StoreFault
    ensures memory { (result ≡ StoreFault.Memory)
        ↔ (error_kind error.now ≡ ErrorKind.OutOfMemory) }
    ensures failed { result ≡ StoreFault.Failed → faults.new ≡ next_count faults.old }
    ensures kept { result ≡ StoreFault.Memory → faults.new ≡ faults.old }
{
    if error.kind() == ErrorKind::OutOfMemory {
        return StoreFault::Memory;
    }
    *faults = faults.saturating_add(1);
    StoreFault::Failed
}
