//! The commands.
ghost use Rattle.std.specs.Prelude.{◌≡◌, ◌↔◌, ◌⊎◌, List, ℕ, codes, map, string_bytes, IsTrue, IfSome, IfNone};
ghost use Rattle.com_msg.specs.declared.framing.Framing.{Framing as AFraming};
ghost use Rattle.mcs_top.specs.Words.{is_file_word, framing_word, IsReplay, IsCheck, IsShow, IsNoCommand, IsCommand};
ghost use Rattle.mcs_top.specs.Outcome.{IsOutcome, IsComplete, IsUsageOutcome, IsReplayOutcome, IsCheckOutcome, IsShowOutcome};

use crate::check::check;
use crate::ends::Verdict;
use crate::files::read_net;
use crate::replay::replay;
use crate::report::{Refusal, answer, refuse};
use crate::show::show;
use com_io::{Clock, Store};
use com_msg::Framing;
use std::alloc::Global;
use std::sync::Wait;
use std::thread::Threads;

const DONE: u8 = 0;

const TERMINAL_FAULTY: u8 = 6;

/// What the program is to do.
#[derive(Clone, Copy, Debug)]
pub enum Command<'a> {
    /// `replay NET SCRIPT`
    Replay { net: &'a str, script: &'a str },
    /// `check NET`
    Check { net: &'a str },
    /// `show MODE FILE`
    Show { framing: Framing, file: &'a str },
}

/// Does the command of these words, which stand after the program's name, and answers the exit
/// status:
///
/// - 0: all was done and written.
/// - 1: memory ran out.
/// - 2: the words are no command. The commands are `replay NET SCRIPT`, `check NET` and `show MODE FILE`,
///   where MODE is `marks` or `lines`, and NET, SCRIPT and FILE are not empty and do not begin with `-`.
/// - 3: the description NET is refused.
/// - 4: the source of a unit was checked and has a fault. The first such unit is reported.
/// - 5: a file could not be read.
/// - 6: all was done and written, and a terminal of the script ended with FRAME, FAULT or LONG.
/// - 7: a write of the outputs failed, or that of `ok`.
/// - 8: SCRIPT is refused: too long, a bad header, or a line that is no call or whose call is not
///   allowed.
/// - 9: FILE was shown, and has a fault or is too long.
///
/// With 2, 3, 4, 5, 8 and 9 one report is written to standard output, in one write, and nothing else; a
/// failure of that write leaves the status. Each file is closed as soon as it was read.
pub fn tool<S: Store>(alloc: Global, words: &[String], store: &mut S) -> u8
    ensures outcome { IsOutcome (map string_bytes words.now) result (S.shows store.old)
        (S.shows store.new) }
    ensures complete { IsComplete (map string_bytes words.now) result (S.shows store.old)
        (S.shows store.new) }
{
    match Command::of_words(words) {
        Some(Command::Replay { net, script }) => replay_status(alloc, net, script, store),
        Some(Command::Check { net }) => check_status(alloc, net, store),
        Some(Command::Show { framing, file }) => show_status(alloc, framing, file, store),
        None => refuse(alloc, Refusal::Usage, store),
    }
}

/// Does the command of these words, as [`tool`] does, for the commands that are built so far: none
/// of them starts a thread or asks what time it is.
pub fn mcs<H: Threads + Wait + Sync, S: Store, C: Clock + Sync>(
    _rt: &H,
    alloc: Global,
    words: &[String],
    store: &mut S,
    _clock: &C,
) -> u8
    ensures outcome { IsOutcome (map string_bytes words.now) result (S.shows store.old)
        (S.shows store.new) }
    ensures complete { IsComplete (map string_bytes words.now) result (S.shows store.old)
        (S.shows store.new) }
{
    tool(alloc, words, store)
}

/// The exit status of a replay.
fn replay_status<S: Store>(alloc: Global, net_file: &str, script_file: &str, store: &mut S) -> u8
    ensures outcome { IsReplayOutcome net_file.now script_file.now result (S.shows store.old)
        (S.shows store.new) }
    ensures pending { (S.shows store.new).pending ≡ (S.shows store.old).pending }
{
    match replay(alloc, net_file, script_file, store) {
        Ok(Verdict::Sound) => DONE,
        Ok(Verdict::Faulty) => TERMINAL_FAULTY,
        Err(fault) => answer(alloc, fault, store),
    }
}

/// The exit status of a check.
fn check_status<S: Store>(alloc: Global, net_file: &str, store: &mut S) -> u8
    ensures outcome { IsCheckOutcome net_file.now result (S.shows store.old) (S.shows store.new) }
    ensures pending { (S.shows store.new).pending ≡ (S.shows store.old).pending }
{
    let net = match read_net(alloc, net_file, store) {
        Ok(net) => net,
        Err(failure) => return answer(alloc, failure, store),
    };
    match check(alloc, net.units.as_slice(), store) {
        Ok(()) => DONE,
        Err(failure) => answer(alloc, failure, store),
    }
}

/// The exit status of showing a file.
fn show_status<S: Store>(alloc: Global, framing: Framing, file: &str, store: &mut S) -> u8
    ensures outcome { IsShowOutcome framing file.now result (S.shows store.old)
        (S.shows store.new) }
    ensures pending { (S.shows store.new).pending ≡ (S.shows store.old).pending }
{
    match show(alloc, framing, file, store) {
        Ok(()) => DONE,
        Err(fault) => answer(alloc, fault, store),
    }
}

impl<'a> Command<'a> {
    /// The command that the words ask for.
    fn of_words(words: &'a [String]) -> Option<Command<'a>>
        ensures found { IfSome result (IsCommand (map string_bytes words.now)) }
        ensures other { IfNone result (IsNoCommand (map string_bytes words.now)) }
    {
        if let Some((net, script)) = replayed_files(words) {
            return Some(Command::Replay { net, script });
        }
        if let Some(net) = checked_file(words) {
            return Some(Command::Check { net });
        }
        let (framing, file) = shown_file(words)?;
        Some(Command::Show { framing, file })
    }
}

/// The two file words of `replay`.
fn replayed_files(words: &[String]) -> Option<(&str, &str)>
    ensures found { IfSome result
        (λ files. IsReplay (map string_bytes words.now) files.0.now files.1.now) }
    ensures other { IfNone result ((net_file script_file : List ℕ) → IsReplay
        (map string_bytes words.now) net_file script_file → ⊥) }
{
    let [word, net_file, script_file] = words else {
        return None;
    };
    let (net_file, script_file) = (net_file.as_str(), script_file.as_str());
    if is_replay(word.as_str()) && is_file_word(net_file) && is_file_word(script_file) {
        return Some((net_file, script_file));
    }
    None
}

/// The file word of `check`.
fn checked_file(words: &[String]) -> Option<&str>
    ensures found { IfSome result (λ file. IsCheck (map string_bytes words.now) file.now) }
    ensures other { IfNone result ((net_file : List ℕ) →
        IsCheck (map string_bytes words.now) net_file → ⊥) }
{
    let [word, net_file] = words else {
        return None;
    };
    let net_file = net_file.as_str();
    if is_check(word.as_str()) && is_file_word(net_file) {
        return Some(net_file);
    }
    None
}

/// The framing and the file word of `show`.
fn shown_file(words: &[String]) -> Option<(Framing, &str)>
    ensures found { IfSome result
        (λ shown. IsShow (map string_bytes words.now) shown.0 shown.1.now) }
    ensures other { IfNone result ((framing : AFraming) (file : List ℕ) → IsShow
        (map string_bytes words.now) framing file → ⊥) }
{
    let [word, mode, file] = words else {
        return None;
    };
    let framing = framing_of(mode.as_str())?;
    let file = file.as_str();
    if is_show(word.as_str()) && is_file_word(file) {
        return Some((framing, file));
    }
    None
}

/// The framing of this name.
fn framing_of(mode: &str) -> Option<Framing>
    ensures found { IfSome result (λ framing. mode.now ≡ framing_word framing) }
    ensures other { IfNone result ((framing : AFraming) → mode.now ≡ framing_word framing → ⊥) }
{
    if is_marks(mode) {
        Some(Framing::Marks)
    } else if is_lines(mode) {
        Some(Framing::Lines)
    } else {
        None
    }
}

fn is_marks(mode: &str) -> bool
    ensures { IsTrue result ↔ (mode.now ≡ codes "marks") }
{
    mode == "marks"
}

fn is_lines(mode: &str) -> bool
    ensures { IsTrue result ↔ (mode.now ≡ codes "lines") }
{
    mode == "lines"
}

fn is_replay(word: &str) -> bool
    ensures { IsTrue result ↔ (word.now ≡ codes "replay") }
{
    word == "replay"
}

fn is_check(word: &str) -> bool
    ensures { IsTrue result ↔ (word.now ≡ codes "check") }
{
    word == "check"
}

fn is_show(word: &str) -> bool
    ensures { IsTrue result ↔ (word.now ≡ codes "show") }
{
    word == "show"
}

fn is_file_word(word: &str) -> bool
    ensures { result ≡ is_file_word word.now }
{
    match word.as_bytes() {
        [] => false,
        [first, ..] => *first != b'-',
    }
}
