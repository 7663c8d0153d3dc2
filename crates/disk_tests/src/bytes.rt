//! The bytes of a log.
use crate::logs::{add, begin, journal_of};
use com_disk::{Disk, DiskFault, MemoryDisk, RecoverFault, Torn, recover};
use std::test::Fail;

const HELD: &[u8] = b"T T1 HELD = DONE";

#[test]
fn a_log_of_one_entry_has_30_bytes(rt: HostRuntime) -> Result<(), Fail> {
    let mut disk = MemoryDisk::new(rt.alloc());
    let mut log = begin(&mut disk)?;
    assert_eq!(rt; log.bytes(), 9);
    add(rt.alloc(), &mut log, &mut disk, HELD)?;
    assert_eq!(rt; disk.calls(), 6);
    assert_eq!(rt; log.bytes(), 30);
    assert_eq!(rt; log.version(), 1);
    let mut bytes = [0u8; 40];
    assert_eq!(rt; disk.read(0, &mut bytes)?, 30);
    assert!(rt;
        bytes
            .as_slice()
            .starts_with(b"MCSDISK1\x01\x00\x00\x00\x10T T1 HELD = DONE\x00")
    );
    Ok(())
}

#[test]
fn a_crash_before_the_last_sync_may_lose_the_entry(rt: HostRuntime) -> Result<(), Fail> {
    let alloc = rt.alloc();
    let mut disk = MemoryDisk::new(alloc);
    let mut log = begin(&mut disk)?;
    add(alloc, &mut log, &mut disk, HELD)?;
    assert_eq!(rt; disk.calls(), 6);
    let held = b"MCS-JOURNAL 1\nT T1 HELD = DONE\n".as_slice();
    let none = b"MCS-JOURNAL 1\n".as_slice();
    assert_eq!(rt;
        journal_of(alloc, &mut disk.crash(5, Torn::Ones)?)?.as_slice(),
        held
    );
    assert_eq!(rt;
        journal_of(alloc, &mut disk.crash(5, Torn::Old)?)?.as_slice(),
        none
    );
    assert_eq!(rt;
        journal_of(alloc, &mut disk.crash(4, Torn::Ones)?)?.as_slice(),
        none
    );
    assert_eq!(rt;
        journal_of(alloc, &mut disk.crash(3, Torn::Ones)?)?.as_slice(),
        none
    );
    assert_eq!(rt;
        journal_of(alloc, &mut disk.crash(6, Torn::Old)?)?.as_slice(),
        held
    );
    Ok(())
}

#[test]
fn a_failed_sync_fails_the_append(rt: HostRuntime) -> Result<(), Fail> {
    let mut disk = MemoryDisk::new(rt.alloc());
    disk.fail(4)?;
    let mut log = begin(&mut disk)?;
    let answer = add(rt.alloc(), &mut log, &mut disk, HELD);
    assert_eq!(rt; answer, Err(DiskFault::Failed));
    assert!(rt; log.has_failed());
    assert_eq!(rt; log.bytes(), 9);
    Ok(())
}

/// What `recover` answers to bytes.
fn fault_of(rt: &HostRuntime, bytes: &[u8]) -> Result<Option<RecoverFault>, Fail> {
    let mut disk = MemoryDisk::new(rt.alloc());
    disk.write_at(0, bytes)?;
    match recover(rt.alloc(), &mut disk) {
        Ok(_) => Ok(None),
        Err(fault) => Ok(Some(fault)),
    }
}

#[test]
fn other_bytes_are_no_journal(rt: HostRuntime) -> Result<(), Fail> {
    let at = |at| Some(RecoverFault::NotJournal { at });
    assert_eq!(rt; fault_of(&rt, b"")?, Some(RecoverFault::Empty));
    assert_eq!(rt; fault_of(&rt, b"MCSDISK2\x00")?, at(0));
    assert_eq!(rt; fault_of(&rt, b"MCSDISK1")?, at(0));
    assert_eq!(rt; fault_of(&rt, b"MCSDISK1\x01\x00\x00")?, at(8));
    assert_eq!(rt; fault_of(&rt, b"MCSDISK1\x01\x00\x00\x00\x02XY")?, at(8));
    assert_eq!(rt;
        fault_of(&rt, b"MCSDISK1\x01\x00\x00\x00\x10T T1 HELD = DONE")?,
        at(8)
    );
    assert_eq!(rt;
        fault_of(&rt, b"MCSDISK1\x01\x00\x00\x00\x10T T1 HELD = DONE\x01")?,
        at(29)
    );
    assert_eq!(rt;
        fault_of(&rt, b"MCSDISK1\x01\x00\x00\x00\x10T T1 HELD = DONE\x02\x01")?,
        None
    );
    assert_eq!(rt; fault_of(&rt, b"MCSDISK1\x00\x01\x00\x00")?, None);
    Ok(())
}
