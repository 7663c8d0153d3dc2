//! Reading a file of a store as a whole.
ghost use Rattle.std.specs.Prelude.{◌≡◌, ◌≤◌, length, IfOk, IfSome, OnOk, IsErrOf};
ghost use Rattle.com_io.specs.Faults.{Rose};
ghost use Rattle.com_io.specs.Files.{IsRead, IsUnopened, IsUnreadable, IsAbandoned};
ghost use Rattle.com_io.specs.Reads.{HasReadAll, HasTaken, ReadsChunk};

use crate::{Source, Store, StoreFault};
use std::alloc::{AllocError, Global};
use thiserror::Error;

/// How many bytes of one file are looked at.
pub const FILE_LIMIT: usize = 1_048_576;

/// How many bytes are read at once.
const CHUNK: usize = 4_096;

/// Why a file was not read.
#[derive(Clone, Copy, Debug, PartialEq, Eq, Error)]
pub enum ReadFault {
    /// The store did not open it.
    #[error("the file was not opened")]
    NotOpened,
    /// A read of it failed.
    #[error("a read of the file failed")]
    Failed,
    /// Memory ran out.
    #[error("memory ran out")]
    Memory,
}

impl From<AllocError> for ReadFault {
    ghost use Rattle.com_io.specs.declared.files.ReadFault.TheVariants.{Memory};

    ghost from_gives = { λ _ fault. fault ≡ Memory };

    fn from(_error: AllocError) -> ReadFault {
        ReadFault::Memory
    }
}

/// The bytes of a file to its end, or to one past the limit. The file is closed again in any case,
/// and nothing else is asked of the store.
pub fn read_file<S: Store>(
    alloc: Global,
    store: &mut S,
    name: &str,
    limit: usize,
) -> Result<Vec<u8>, ReadFault>
    ensures read { IfOk result
        (λ bytes. IsRead limit name.now bytes.items (S.shows store.old) (S.shows store.new)) }
    ensures not_opened { IsErrOf result ReadFault.NotOpened
        → IsUnopened name.now (S.shows store.old) (S.shows store.new) }
    ensures failed { IsErrOf result ReadFault.Failed
        → IsUnreadable limit name.now (S.shows store.old) (S.shows store.new) }
    ensures memory { IsErrOf result ReadFault.Memory
        → IsAbandoned limit name.now (S.shows store.old) (S.shows store.new) }
{
    let mut source = match store.open(name) {
        Ok(source) => source,
        Err(StoreFault::Failed) => return Err(ReadFault::NotOpened),
        Err(StoreFault::Memory) => return Err(ReadFault::Memory),
    };
    let read = read_to_limit(alloc, &mut source, limit);
    store.close(source);
    read
}

/// The bytes of a source to its end, or to one past the limit.
fn read_to_limit<R: Source>(
    alloc: Global,
    source: &mut R,
    limit: usize,
) -> Result<Vec<u8>, ReadFault>
    ensures read { IfOk result
        (λ bytes. IfSome (R.left source.old) (HasReadAll limit bytes.items (R.left source.new))) }
    ensures taken { IfSome (R.left source.old) (HasTaken limit 0 (R.left source.new)) }

    // the count of failed reads
    ensures kept { OnOk result (R.faults source.new ≡ R.faults source.old) }
    ensures failed { IsErrOf result ReadFault.Failed
        → Rose (R.faults source.old) (R.faults source.new) }
    ensures memory { IsErrOf result ReadFault.Memory → R.faults source.new ≡ R.faults source.old }
    ensures later { R.faults source.old ≤ R.faults source.new }

    // a source is open already
    ensures opened { IsErrOf result ReadFault.NotOpened → ⊥ }
{
    let mut bytes = Vec::new(alloc);
    let mut buffer = [0u8; CHUNK];
    while bytes.len() <= limit {
        if read_chunk(source, &mut buffer, &mut bytes, limit)? == 0 {
            break;
        }
    }
    Ok(bytes)
}

/// Reads some bytes, by way of a buffer, behind those that were read, and answers how many.
fn read_chunk<R: Source>(
    source: &mut R,
    buffer: &mut [u8; CHUNK],
    bytes: &mut Vec<u8>,
    limit: usize,
) -> Result<usize, ReadFault>
    requires { length bytes.old.items ≤ limit }
    ensures read { IfOk result (λ n. ReadsChunk limit n bytes.old.items bytes.new.items
        (R.left source.old) (R.left source.new)) }
    ensures taken { IfSome (R.left source.old)
        (HasTaken limit (length bytes.old.items) (R.left source.new)) }

    // the count of failed reads
    ensures kept { OnOk result (R.faults source.new ≡ R.faults source.old) }
    ensures failed { IsErrOf result ReadFault.Failed
        → Rose (R.faults source.old) (R.faults source.new) }
    ensures memory { IsErrOf result ReadFault.Memory → R.faults source.new ≡ R.faults source.old }
    ensures later { R.faults source.old ≤ R.faults source.new }

    // a source is open already
    ensures opened { IsErrOf result ReadFault.NotOpened → ⊥ }
{
    let room = (limit - bytes.len()).min(CHUNK - 1) + 1;
    let chunk = &mut buffer[..room];
    let Ok(count) = source.read(chunk) else {
        return Err(ReadFault::Failed);
    };
    bytes.extend_from_slice(&chunk[..count])?;
    Ok(count)
}
