ghost use Rattle.std.specs.Prelude.{◌≤◌};
ghost use Rattle.shared_tests.specs.declared.plan.TheConstants.{MAX_MESSAGES};

use super::*;
use com_net::{Net, NetError};
use std::alloc::Global;
use std::sync::Wait;
use std::test::Fail;
use std::thread::Threads;

/// A unit, a terminal T1 and a queue Q1.
const ONE: &[u8] = b"version = 1
terminal = [{ name = \"T1\", password = \"TPASS\", input = \"t1.in\", framing = \"marks\", route = [\"Q1\"] }]
queue = [{ name = \"Q1\", password = \"QPASS\" }]
unit = [{ name = \"U1\", source = \"u1.cob\" }]
";

/// The same with a queue that is closed.
const CLOSED: &[u8] = b"version = 1
terminal = [{ name = \"T1\", password = \"TPASS\", input = \"t1.in\", framing = \"marks\", route = [\"Q1\"] }]
queue = [{ name = \"Q1\", password = \"QPASS\", enabled = false }]
unit = [{ name = \"U1\", source = \"u1.cob\" }]
";

/// The same with a unit that waits for its first message.
const SCHEDULED: &[u8] = b"version = 1
terminal = [{ name = \"T1\", password = \"TPASS\", input = \"t1.in\", framing = \"marks\", route = [\"Q1\"] }]
queue = [{ name = \"Q1\", password = \"QPASS\" }]
unit = [{ name = \"U1\", source = \"u1.cob\", schedule = [\"Q1\"] }]
";

/// Two units and one terminal.
const TWO: &[u8] = b"version = 1
terminal = [{ name = \"T1\", password = \"TPASS\", input = \"t1.in\", framing = \"marks\", route = [\"Q1\"] }]
queue = [{ name = \"Q1\", password = \"QPASS\" }]
unit = [{ name = \"U1\", source = \"u1.cob\" }, { name = \"U2\", source = \"u2.cob\" }]
";

/// Two units and two terminals.
const FOUR: &[u8] = b"version = 1
terminal = [
  { name = \"T1\", password = \"TPASS\", input = \"t1.in\", framing = \"marks\", route = [\"Q1\"] },
  { name = \"T2\", password = \"TPASS\", input = \"t2.in\", framing = \"marks\", route = [\"Q1\"] },
]
queue = [{ name = \"Q1\", password = \"QPASS\" }]
unit = [{ name = \"U1\", source = \"u1.cob\" }, { name = \"U2\", source = \"u2.cob\" }]
";

// A unit waits while a terminal is active, which sends only when it has seen the WAITS.
#[test]
fn no_round_over(rt: HostRuntime) -> Result<(), Fail> {
    let plan = Plan {
        opens: false,
        answers: 1,
        messages: 1,
        first: 2,
        step: 5,
        turns: 1000,
        last: 8,
    };
    assert!(&rt; played(&rt, rt.alloc(), ONE, plan)?.is(b"SWAGIOse", 0, b"", b""));
    Ok(())
}

// The terminal sends a message only when the unit waits for it, and stays active. If the unit is
// not woken, each waits for the other: the test does not end.
#[test]
fn who_waits_for_a_message_is_woken(rt: HostRuntime) -> Result<(), Fail> {
    let plan = Plan {
        opens: false,
        answers: 100,
        messages: 100,
        first: 2,
        step: 5,
        turns: 50,
        last: 503,
    };
    assert!(&rt; played(&rt, rt.alloc(), ONE, plan)?.is(b"S", 100, b"WAGIO", b"se"));
    Ok(())
}

// The terminal ends while the unit waits, and stays active until it has seen the unit stop.
#[test]
fn who_waits_stops_when_nothing_can_happen(rt: HostRuntime) -> Result<(), Fail> {
    let plan = Plan {
        opens: false,
        answers: 4,
        messages: 3,
        first: 2,
        step: 5,
        turns: 1000,
        last: 19,
    };
    for _ in 0..20 {
        assert!(&rt; played(&rt, rt.alloc(), ONE, plan)?.is(b"S", 3, b"WAGIO", b"Wei"));
    }
    Ok(())
}

// A unit waits for its first message in a thread of its own.
#[test]
fn scheduled_unit(rt: HostRuntime) -> Result<(), Fail> {
    let plan = Plan {
        opens: false,
        answers: 1,
        messages: 1,
        first: 0,
        step: 6,
        turns: 1000,
        last: 7,
    };
    for _ in 0..20 {
        assert!(&rt; played(&rt, rt.alloc(), SCHEDULED, plan)?.is(b"ASGIOse", 0, b"", b""));
    }
    Ok(())
}

// A terminal holds its message until the unit has enabled the queue.
#[test]
fn who_holds_a_message_is_woken(rt: HostRuntime) -> Result<(), Fail> {
    let plan = Plan {
        opens: true,
        answers: 1,
        messages: 1,
        first: 1,
        step: 7,
        turns: 1000,
        last: 9,
    };
    for _ in 0..20 {
        assert!(&rt; played(&rt, rt.alloc(), CLOSED, plan)?.is(b"ShIAGIOse", 0, b"", b""));
    }
    Ok(())
}

// Two units wait, and nobody is active: both find that, one because the other wakes it. They take
// up the same calls twice, with no second WAITS, and are given what has come meanwhile.
#[test]
fn round_over_and_again(rt: HostRuntime) -> Result<(), Fail> {
    let plan = Plan {
        opens: false,
        answers: 0,
        messages: 2,
        first: 0,
        step: 0,
        turns: 1000,
        last: 0,
    };
    for _ in 0..20 {
        let (waited, played) = played_in_rounds(&rt, rt.alloc(), TWO, plan)?;
        assert!(&rt; waited == [2, 2, 0]);
        assert!(&rt; played.legal);
        assert!(&rt; played.letters.starts_with(b"SWSWAAe"));
        assert!(&rt; played.letters.len() == 11);
        assert!(&rt; played.count(b'G') == 2);
        assert!(&rt; played.count(b's') == 2);
    }
    Ok(())
}

// Two units switch the output of T1 and send to it, and one sends a message in two portions.
#[test]
fn shared_output(rt: HostRuntime) -> Result<(), Fail> {
    let (statuses, played) = played_on_one_output(&rt, rt.alloc(), TWO)?;
    assert!(&rt; is_made_of(&statuses, b"4000101000000000", 0, b"", b""));
    assert!(&rt; is_made_of(&played.transcript, b"\nA\nB\nC\nHELLO", 0, b"", b""));
    assert!(&rt; played.legal);
    Ok(())
}

// Two units and two terminals in four threads: all messages are answered, on an output that the
// units share, and the calls of the history are answered the same by a system of one thread.
#[test]
fn four_threads(rt: HostRuntime) -> Result<(), Fail> {
    let plan = Plan {
        opens: false,
        answers: 50,
        messages: 50,
        first: 0,
        step: 0,
        turns: 0,
        last: 0,
    };
    let played = played(&rt, rt.alloc(), FOUR, plan)?;
    assert!(&rt; played.legal);
    assert!(&rt; played.count(b'A') == 100);
    assert!(&rt; played.count(b'G') == 100);
    assert!(&rt; played.count(b's') == 2);
    assert!(&rt; played.count(b'e') == 2);
    assert!(&rt; is_made_of(&played.transcript, b"", 100, b"\nA", b""));
    Ok(())
}

// The same with units that would answer more messages than there are: both stop at the end, since
// nothing can happen any more.
#[test]
fn four_threads_until_nothing_can_happen(rt: HostRuntime) -> Result<(), Fail> {
    let plan = Plan {
        opens: false,
        answers: 200,
        messages: 50,
        first: 0,
        step: 0,
        turns: 0,
        last: 0,
    };
    let played = played(&rt, rt.alloc(), FOUR, plan)?;
    assert!(&rt; played.legal);
    assert!(&rt; played.letters.ends_with(b"ii"));
    assert!(&rt; played.count(b'G') == 100);
    Ok(())
}
