//! Logs of lines.
ghost use Rattle.std.specs.Prelude.{◌≡◌, List, [], IfOk, OnOk};
ghost use Rattle.com_events.specs.declared.entry.Entry.{Entry};
ghost use Rattle.com_disk.specs.Logs.{IsAt};

use com_disk::{Disk, DiskFault, DiskLog, RecoverFault, append, create, recover};
use com_journal::{read_line, write};
use com_text::Rows;
use std::alloc::Global;

/// More bytes than any log here has.
const MANY: u64 = 1 << 40;

/// Begins a log.
pub fn begin<D: Disk>(disk: &mut D) -> Result<DiskLog, DiskFault>
    requires { D.told → D.content disk.old ≡ [] }
    ensures { IfOk result (λ log. D.told
        → (entries : List Entry) × IsAt D.content D.images log disk.new entries) }
{
    create(disk, 1)
}

/// Adds the entry of a line. A line that is no entry's is answered Memory.
pub fn add<D: Disk>(
    alloc: Global,
    log: &mut DiskLog,
    disk: &mut D,
    line: &[u8],
) -> Result<(), DiskFault>
    requires { D.told → (entries : List Entry)
        × IsAt D.content D.images log.old disk.old entries }
    ensures { OnOk result (D.told → (entries : List Entry)
        × IsAt D.content D.images log.new disk.new entries) }
{
    let Some(entry) = read_line(alloc, line, 1)? else {
        return Err(DiskFault::Memory);
    };
    if log.has_failed() || log.bytes() > MANY {
        return Err(DiskFault::Memory);
    }
    append(alloc, log, disk, &entry)
}

/// Returns the journal of the entries that are recovered.
pub fn journal_of<D: Disk>(alloc: Global, disk: &mut D) -> Result<Rows<u8>, RecoverFault> {
    let (_, entries) = recover(alloc, disk)?;
    Ok(write(alloc, entries.as_slice())?)
}
