//! The program `mcs`: a message control system over the files of the current folder.
//!
//! Its command is the words behind its name, and its exit code is the status that
//! [`mcs_top::mcs`] answers to them:
//!
//! ```text
//! mcs replay net.toml script.txt
//! mcs show marks t1.in
//! ```
#![tactic(auto)]

ghost use Rattle.std.specs.Prelude.{◌≡◌, ◌↔◌, drop, map, string_bytes, IfOk, IfErr, IsErr};
ghost use Rattle.std.specs.IoError.{error_kind};
ghost use Rattle.std.specs.Process.{exit_status};
ghost use Rattle.std.specs.Vec.Iter.{into_iter_items};
ghost use Rattle.mcs.specs.Arguments.{IsStatusOf, words_of};
ghost use Rattle.mcs_top.specs.Outcome.{IsComplete, IsOutcome};

use com_io::{Clock, DirStore, FixedClock, Store};
use com_msg::Stamp;
use std::alloc::{AllocError, Global};
use std::env;
use std::io::{self, ErrorKind};
use std::process::ExitCode;
use std::rt::Files;
use std::sync::Wait;
use std::thread::Threads;

/// The exit status where memory ran out.
const OUT_OF_MEMORY: u8 = 1;

fn main(rt: HostRuntime) -> ExitCode {
    program(&rt, rt.alloc(), env::args(&rt))
}

/// Does the command of a program's arguments over the current folder, and answers its exit code.
fn program<R: Threads + Wait + Sync + Files + Print>(
    rt: &R,
    alloc: Global,
    given: io::Result<env::Args>,
) -> ExitCode
where
    R::File: Send,
    ensures { IsStatusOf (words_of given) (exit_status result) }
{
    // No command asks for the time yet.
    let Some(stamp) = Stamp::new(b"740601", b"10203000") else {
        return ExitCode::from(OUT_OF_MEMORY);
    };
    let clock = FixedClock { stamp };
    let mut store = DirStore::new(rt);
    answer(rt, alloc, given, &mut store, &clock)
}

/// Does the command of the arguments that the process was given, and answers its exit code.
fn answer<H: Threads + Wait + Sync, S: Store, C: Clock + Sync>(
    rt: &H,
    alloc: Global,
    given: io::Result<env::Args>,
    store: &mut S,
    clock: &C,
) -> ExitCode
    ensures outcome { IsOutcome (words_of given) (exit_status result) (S.shows store.old)
        (S.shows store.new) }
    ensures complete { IsComplete (words_of given) (exit_status result) (S.shows store.old)
        (S.shows store.new) }
{
    let Ok(arguments) = arguments_of(alloc, given) else {
        return ExitCode::from(OUT_OF_MEMORY);
    };
    ExitCode::from(mcs_top::mcs(rt, alloc, words_of(&arguments), store, clock))
}

/// The words of the command: all arguments but the first, which is the program's name.
fn words_of(arguments: &[String]) -> &[String]
    ensures { result.now ≡ drop 1 arguments.now }
{
    match arguments {
        [_name, words @ ..] => words,
        [] => &[],
    }
}

/// The arguments that the process was given, its name first. If one is not UTF-8, there are none.
fn arguments_of(alloc: Global, given: io::Result<env::Args>) -> Result<Vec<String>, AllocError>
    ensures words { IfOk result
        (λ arguments. map string_bytes (drop 1 arguments.items) ≡ words_of given) }
    ensures memory { IfErr given
        (λ error. IsErr result ↔ (error_kind error ≡ ErrorKind.OutOfMemory)) }
{
    match given {
        Ok(arguments) => list_of(alloc, arguments),
        Err(error) if error.kind() == ErrorKind::OutOfMemory => Err(AllocError),
        Err(_) => Ok(Vec::new(alloc)),
    }
}

/// All arguments as a list.
fn list_of(alloc: Global, arguments: env::Args) -> Result<Vec<String>, AllocError>
    ensures { IfOk result (λ list. list.items ≡ into_iter_items arguments) }
{
    let mut arguments = arguments;
    let mut list = Vec::new(alloc);
    while let Some(argument) = arguments.next() {
        list.push(argument)?;
    }
    Ok(list)
}
