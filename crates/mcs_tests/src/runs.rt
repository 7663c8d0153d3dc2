//! Commands over files in memory.
use com_io::{FixedClock, MemoryStore};
use com_msg::Stamp;
use mcs_top::{mcs, tool};
use std::alloc::{AllocError, Global};
use std::process::Abort;
use std::test::Fail;

/// A description of two terminals, a queue and a run unit.
const NET: &[u8] = b"version = 1\n\
    [[terminal]]\n\
    name = \"T1\"\n\
    password = \"TPASS\"\n\
    input = \"t1.in\"\n\
    framing = \"marks\"\n\
    route = [\"Q1\"]\n\
    [[terminal]]\n\
    name = \"T2\"\n\
    password = \"TPASS\"\n\
    [[queue]]\n\
    name = \"Q1\"\n\
    password = \"QPASS\"\n\
    [[unit]]\n\
    name = \"ECHO\"\n\
    source = \"echo.cob\"\n";

/// The program of the run unit.
const PROGRAM: &[u8] = b"       IDENTIFICATION DIVISION.\n\
    \x20      PROGRAM-ID. ECHO.\n\
    \x20      DATA DIVISION.\n\
    \x20      PROCEDURE DIVISION.\n\
    \x20      A1.\n\
    \x20          STOP RUN.\n";

/// A message to both terminals.
const SCRIPT: &[u8] = b"MCS-SCRIPT 1\n\
    U ECHO START\n\
    U ECHO SEND EMI A1 2:OK 36:00020002000T1          0T2          \n\
    T T2 END END\n";

pub const JOURNAL: &[u8] = b"MCS-JOURNAL 1\n\
    U ECHO START = 0:\n\
    U ECHO SEND EMI A1 2:OK 36:00020002000T1          0T2           = 36:00020002000T1          0T2          \n\
    T T2 END END = DONE\n";

/// What each of the terminals is sent.
pub const SENT: &[u8] = b"\nOK";

pub const SUMMARY: &[u8] = b"unit ECHO -\n\
    terminal T1 -\n\
    terminal T2 END\n\
    arrivals 0\n\
    portions 0\n\
    transmitted 2\n";

/// The words of the replay.
pub const REPLAY: &[&str] = &["replay", "net.toml", "script.txt"];

/// The words of the check.
pub const CHECK: &[&str] = &["check", "net.toml"];

/// The words of the showing.
pub const SHOW: &[&str] = &["show", "marks", "t1.in"];

/// A store that has the files of the commands.
pub fn store_of(alloc: Global) -> Result<MemoryStore, AllocError> {
    let mut store = MemoryStore::new(alloc);
    store.put("net.toml", NET)?;
    store.put("script.txt", SCRIPT)?;
    store.put("echo.cob", PROGRAM)?;
    store.put("t1.in", b"AB\x03")?;
    Ok(store)
}

fn words_of(alloc: Global, words: &[&str]) -> Result<Vec<String>, AllocError> {
    let mut all = Vec::new(alloc);
    for word in words {
        all.push(String::from_str(alloc, word)?)?;
    }
    Ok(all)
}

/// The exit status of a command.
pub fn status_of(alloc: Global, words: &[&str], store: &mut MemoryStore) -> Result<u8, AllocError> {
    let words = words_of(alloc, words)?;
    Ok(tool(alloc, &words, store))
}

/// Asserts what was written: the journal, both transcripts and standard output.
pub fn assert_written<A: Abort>(rt: &A, store: &MemoryStore, written: [Option<&[u8]>; 4]) {
    let [journal, first, second, output] = written;
    assert_eq!(rt; store.out("journal.txt"), journal);
    assert_eq!(rt; store.out("T1.out"), first);
    assert_eq!(rt; store.out("T2.out"), second);
    assert_eq!(rt; store.out("-"), output);
}

#[test]
fn a_run_with_a_runtime_and_a_clock_writes_the_same(rt: HostRuntime) -> Result<(), Fail> {
    let stamp = Stamp::new(b"740704", b"10203040").ok_or("no stamp")?;
    let mut store = store_of(rt.alloc())?;
    let words = words_of(rt.alloc(), REPLAY)?;
    let status = mcs(&rt, rt.alloc(), &words, &mut store, &FixedClock { stamp });
    assert_eq!(rt; status, 0);
    let written = [Some(JOURNAL), Some(SENT), Some(SENT), Some(SUMMARY)];
    assert_written(&rt, &store, written);
    Ok(())
}
