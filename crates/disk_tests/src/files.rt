//! A log in a file.
use crate::logs::{add, begin, journal_of};
use com_disk::{Disk, FileDisk, RecoverFault, recover};
use std::test::Fail;

#[test]
fn a_log_in_a_file_is_recovered(rt: HostRuntime) -> Result<(), Fail> {
    let alloc = rt.alloc();
    let mut disk = FileDisk::new(rt, "log");
    assert_eq!(rt; recover(alloc, &mut disk).err(), Some(RecoverFault::Empty));
    let mut log = begin(&mut disk)?;
    add(alloc, &mut log, &mut disk, b"T T1 HELD = DONE")?;
    add(alloc, &mut log, &mut disk, b"U ECHO START = 0:")?;
    assert_eq!(rt; disk.len()?, 52);
    let mut again = FileDisk::new(rt, "log");
    let journal = journal_of(alloc, &mut again)?;
    let wanted = b"MCS-JOURNAL 1\nT T1 HELD = DONE\nU ECHO START = 0:\n";
    assert_eq!(rt; journal.as_slice(), wanted.as_slice());
    Ok(())
}
