//! The line of one entry, without its line feed.
ghost use Rattle.std.specs.Prelude.{◌≡◌, IfOk, IfSome, Some};
ghost use Rattle.com_events.specs.declared.entry.Entry.{Entry as AnEntry};
ghost use Rattle.com_events.specs.Calls.{HasText};
ghost use Rattle.com_journal.specs.Lines.{IsLine};
ghost use Rattle.com_journal.specs.Versions.{IsVersion};

use crate::entry;
use crate::line::Unread;
use com_events::Entry;
use com_text::Rows;
use std::alloc::{AllocError, Global};

/// Returns the line of an entry that has a text, as the version writes it. The only error is that
/// memory ran out.
pub fn entry_line(alloc: Global, entry: &Entry, version: u8) -> Result<Rows<u8>, AllocError>
    requires text { HasText entry.now }
    requires version { IsVersion version }
    ensures { IfOk result (IsLine entry.now) }
{
    let mut line = Rows::new(alloc);
    entry::put(&mut line, entry)?;
    Ok(line)
}

/// Returns the entry whose line the bytes are, as the version writes it. It is None exactly if they
/// are no entry's line.
pub fn read_line(alloc: Global, line: &[u8], version: u8) -> Result<Option<Entry>, AllocError>
    requires { IsVersion version }
    ensures found { IfOk result (λ found. IfSome found (λ entry. IsLine entry line.now)) }
    ensures each_line { (entry : AnEntry) → IsLine entry line.now
        → IfOk result (λ found. found ≡ Some entry) }
{
    match entry::entry_of(alloc, line) {
        Ok(entry) => Ok(Some(entry)),
        Err(Unread::Refused) => Ok(None),
        Err(Unread::Memory) => Err(AllocError),
    }
}
