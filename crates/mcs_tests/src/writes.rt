//! Writes that fail: what was written before, and how much of the one that failed.
use crate::runs::{
    CHECK, JOURNAL, REPLAY, SENT, SHOW, SUMMARY, assert_written, status_of, store_of,
};
use std::alloc::Global;
use std::process::Abort;
use std::test::Fail;

/// Asserts what a replay has written whose write of this number fails after so many bytes.
fn assert_stopped<A: Abort>(
    rt: &A,
    alloc: Global,
    number: u64,
    keep: usize,
    written: [Option<&[u8]>; 4],
) -> Result<(), Fail> {
    let mut store = store_of(alloc)?;
    store.fail_write(number, keep)?;
    assert_eq!(rt; status_of(alloc, REPLAY, &mut store)?, 7);
    assert_written(rt, &store, written);
    Ok(())
}

/// Asserts the status of a command whose only write fails after these bytes, which stay.
fn assert_cut<A: Abort>(
    rt: &A,
    alloc: Global,
    words: &[&str],
    status: u8,
    kept: &[u8],
) -> Result<(), Fail> {
    let mut store = store_of(alloc)?;
    store.put("bad.toml", b"version = 2\n")?;
    store.put("bad.txt", b"MCS-SCRIPT 2\n")?;
    store.put("bad.in", b"AB")?;
    store.fail_write(1, kept.len())?;
    assert_eq!(rt; status_of(alloc, words, &mut store)?, status);
    assert_written(rt, &store, [None, None, None, Some(kept)]);
    Ok(())
}

#[test]
fn a_failing_first_write_leaves_a_part_of_the_journal(rt: HostRuntime) -> Result<(), Fail> {
    let written = [Some(b"MCS-J".as_slice()), None, None, None];
    assert_stopped(&rt, rt.alloc(), 1, 5, written)
}

#[test]
fn a_failing_second_write_leaves_a_part_of_the_first_transcript(
    rt: HostRuntime,
) -> Result<(), Fail> {
    let written = [Some(JOURNAL), Some(b"\nO".as_slice()), None, None];
    assert_stopped(&rt, rt.alloc(), 2, 2, written)
}

#[test]
fn a_failing_third_write_leaves_a_part_of_the_second_transcript(
    rt: HostRuntime,
) -> Result<(), Fail> {
    let written = [Some(JOURNAL), Some(SENT), Some(b"".as_slice()), None];
    assert_stopped(&rt, rt.alloc(), 3, 0, written)
}

#[test]
fn a_failing_fourth_write_leaves_a_part_of_the_summary(rt: HostRuntime) -> Result<(), Fail> {
    let written = [
        Some(JOURNAL),
        Some(SENT),
        Some(SENT),
        Some(b"unit ".as_slice()),
    ];
    assert_stopped(&rt, rt.alloc(), 4, 5, written)
}

#[test]
fn a_fifth_write_is_not_tried(rt: HostRuntime) -> Result<(), Fail> {
    let mut store = store_of(rt.alloc())?;
    store.fail_write(5, 0)?;
    assert_eq!(rt; status_of(rt.alloc(), REPLAY, &mut store)?, 0);
    let written = [Some(JOURNAL), Some(SENT), Some(SENT), Some(SUMMARY)];
    assert_written(&rt, &store, written);
    Ok(())
}

#[test]
fn a_failing_write_of_a_report_leaves_the_status(rt: HostRuntime) -> Result<(), Fail> {
    let alloc = rt.alloc();
    assert_cut(&rt, alloc, &["load", "0"], 2, b"usag")?;
    assert_cut(
        &rt,
        alloc,
        &["replay", "bad.toml", "script.txt"],
        3,
        b"desc",
    )?;
    assert_cut(
        &rt,
        alloc,
        &["replay", "net.toml", "missing.txt"],
        5,
        b"cann",
    )?;
    assert_cut(&rt, alloc, &["replay", "net.toml", "bad.txt"], 8, b"scri")?;
    assert_cut(&rt, alloc, &["show", "marks", "bad.in"], 9, b"faul")
}

#[test]
fn a_failing_write_of_the_fault_of_a_program_leaves_the_status(
    rt: HostRuntime,
) -> Result<(), Fail> {
    let mut store = store_of(rt.alloc())?;
    store.put("echo.cob", b"")?;
    store.fail_write(1, 4)?;
    assert_eq!(rt; status_of(rt.alloc(), CHECK, &mut store)?, 4);
    assert_written(&rt, &store, [None, None, None, Some(b"sour")]);
    Ok(())
}

#[test]
fn a_failing_write_of_ok_is_a_failed_write(rt: HostRuntime) -> Result<(), Fail> {
    assert_cut(&rt, rt.alloc(), CHECK, 7, b"o")
}

#[test]
fn a_failing_write_of_messages_that_are_shown_is_a_failed_write(
    rt: HostRuntime,
) -> Result<(), Fail> {
    assert_cut(&rt, rt.alloc(), SHOW, 7, b"1 EM")
}
