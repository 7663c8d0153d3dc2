//! Openings and reads that fail: the file is named, and nothing else is written.
use crate::runs::{CHECK, REPLAY, SHOW, assert_written, status_of, store_of};
use std::alloc::Global;
use std::process::Abort;
use std::test::Fail;

/// Asserts the report of a command whose opening of this number fails.
fn assert_unopened<A: Abort>(
    rt: &A,
    alloc: Global,
    words: &[&str],
    number: u64,
    report: &[u8],
) -> Result<(), Fail> {
    let mut store = store_of(alloc)?;
    store.fail_open(number)?;
    assert_eq!(rt; status_of(alloc, words, &mut store)?, 5);
    assert_written(rt, &store, [None, None, None, Some(report)]);
    Ok(())
}

/// Asserts the report of a command where a read of this file fails: its first, and the one at its end.
fn assert_unread<A: Abort>(
    rt: &A,
    alloc: Global,
    words: &[&str],
    name: &str,
    report: &[u8],
) -> Result<(), Fail> {
    for number in 1..3 {
        let mut store = store_of(alloc)?;
        store.fail_read(name, number)?;
        assert_eq!(rt; status_of(alloc, words, &mut store)?, 5);
        assert_written(rt, &store, [None, None, None, Some(report)]);
    }
    Ok(())
}

#[test]
fn a_description_that_is_not_opened_is_named(rt: HostRuntime) -> Result<(), Fail> {
    assert_unopened(&rt, rt.alloc(), REPLAY, 1, b"cannot read net.toml\n")
}

#[test]
fn a_script_that_is_not_opened_is_named(rt: HostRuntime) -> Result<(), Fail> {
    assert_unopened(&rt, rt.alloc(), REPLAY, 2, b"cannot read script.txt\n")
}

#[test]
fn a_program_that_is_not_opened_is_named(rt: HostRuntime) -> Result<(), Fail> {
    assert_unopened(&rt, rt.alloc(), CHECK, 1, b"cannot read net.toml\n")?;
    assert_unopened(&rt, rt.alloc(), CHECK, 2, b"cannot read echo.cob\n")
}

#[test]
fn an_input_that_is_not_opened_is_named(rt: HostRuntime) -> Result<(), Fail> {
    assert_unopened(&rt, rt.alloc(), SHOW, 1, b"cannot read t1.in\n")
}

#[test]
fn a_description_whose_read_fails_is_named(rt: HostRuntime) -> Result<(), Fail> {
    let report = b"cannot read net.toml\n";
    assert_unread(&rt, rt.alloc(), REPLAY, "net.toml", report)
}

#[test]
fn a_script_whose_read_fails_is_named(rt: HostRuntime) -> Result<(), Fail> {
    let report = b"cannot read script.txt\n";
    assert_unread(&rt, rt.alloc(), REPLAY, "script.txt", report)
}

#[test]
fn a_program_whose_read_fails_is_named(rt: HostRuntime) -> Result<(), Fail> {
    let (net, program) = (b"cannot read net.toml\n", b"cannot read echo.cob\n");
    assert_unread(&rt, rt.alloc(), CHECK, "net.toml", net)?;
    assert_unread(&rt, rt.alloc(), CHECK, "echo.cob", program)
}

#[test]
fn an_input_whose_read_fails_is_named(rt: HostRuntime) -> Result<(), Fail> {
    assert_unread(&rt, rt.alloc(), SHOW, "t1.in", b"cannot read t1.in\n")
}
