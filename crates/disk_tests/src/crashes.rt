//! Every crash of a log of five entries, each torn way.
use crate::logs::{add, begin, journal_of};
use com_disk::{MemoryDisk, Torn, recover};
use std::alloc::Global;
use std::test::Fail;

const LINES: [&[u8]; 5] = [
    b"T T1 HELD = DONE",
    b"U ECHO START = 0:",
    b"T T1 ARRIVE 740601 10203000 EMI 1 5:HELLO = 1",
    b"U ECHO STOP RUN = DONE",
    b"T T1 END END = DONE",
];

/// The journal of the first entries.
fn front(alloc: Global, count: usize) -> Result<Vec<u8>, Fail> {
    let mut journal = Vec::from_slice(alloc, b"MCS-JOURNAL 1\n")?;
    for line in LINES.iter().take(count) {
        journal.extend_from_slice(line)?;
        journal.push(b'\n')?;
    }
    Ok(journal)
}

/// A disk with a log of the five entries.
fn full(alloc: Global) -> Result<MemoryDisk, Fail> {
    let mut disk = MemoryDisk::new(alloc);
    let mut log = begin(&mut disk)?;
    add(alloc, &mut log, &mut disk, LINES[0])?;
    add(alloc, &mut log, &mut disk, LINES[1])?;
    add(alloc, &mut log, &mut disk, LINES[2])?;
    add(alloc, &mut log, &mut disk, LINES[3])?;
    add(alloc, &mut log, &mut disk, LINES[4])?;
    Ok(disk)
}

/// Whether this crash recovers what was acknowledged, or that and the entry in course.
fn recovers(alloc: Global, disk: &MemoryDisk, after: u64, torn: Torn) -> Result<bool, Fail> {
    if after < 2 || after > disk.calls() || after > 22 {
        return Ok(true);
    }
    let acknowledged = (after as usize - 2) / 4;
    let mut image = disk.crash(after, torn)?;
    let journal = journal_of(alloc, &mut image)?;
    let kept = front(alloc, acknowledged)?;
    let longer = front(alloc, acknowledged + 1)?;
    Ok(journal.as_slice() == kept.as_slice() || journal.as_slice() == longer.as_slice())
}

#[test]
fn every_crash_recovers_what_was_acknowledged(rt: HostRuntime) -> Result<(), Fail> {
    let disk = full(rt.alloc())?;
    assert_eq!(rt; disk.calls(), 22);
    for after in 0..23u64 {
        assert!(rt; recovers(rt.alloc(), &disk, after, Torn::Old)?);
        assert!(rt; recovers(rt.alloc(), &disk, after, Torn::New)?);
        assert!(rt; recovers(rt.alloc(), &disk, after, Torn::Ones)?);
    }
    Ok(())
}

#[test]
fn a_recovered_log_goes_on(rt: HostRuntime) -> Result<(), Fail> {
    let alloc = rt.alloc();
    let disk = full(alloc)?;
    assert_eq!(rt; disk.calls(), 22);
    // The third entry's append was in course, and its record is on the disk.
    let mut image = disk.crash(12, Torn::Ones)?;
    let (mut log, entries) = recover(alloc, &mut image)?;
    assert_eq!(rt; entries.len(), 2);
    add(alloc, &mut log, &mut image, LINES[3])?;
    let journal = journal_of(alloc, &mut image)?;
    let wanted = b"MCS-JOURNAL 1\nT T1 HELD = DONE\nU ECHO START = 0:\nU ECHO STOP RUN = DONE\n";
    assert_eq!(rt; journal.as_slice(), wanted.as_slice());
    Ok(())
}
