//! Tests of com_turn: a diary that several parties write.
#![tactic(auto)]

ghost use Rattle.std.specs.Prelude.{◌≡◌, ◌+◌, ◌<◌, false, not, length, All, IfOk};
ghost use Rattle.com_turn.specs.Passes.{AreReady};
ghost use Rattle.turn_tests.specs.Diaries.{IsFree, IsAfter};

use com_turn::{Logged, Pass, Turn};
use std::alloc::{AllocError, Global};
use std::sync::Wait;
use std::thread::Threads;
use std::{hint, thread};

#[cfg(test)]
mod tests;

/// What one party wrote, with a number of its own.
#[derive(Clone, Copy)]
pub struct Note {
    pub owner: u32,
    pub number: u32,
}

#[derive(Drop)]
pub struct Diary {
    pub title: u32,
    pub notes: Vec<Note>,
}

impl Logged for Diary {
    type Item = Note;

    type Base = u32;

    ghost log = { λ d. d.notes.items };

    ghost base = { λ d. d.title };

    ghost owner = { λ note. note.owner };
}

/// An empty diary, and a pass for each of its writers.
pub fn open(
    alloc: Global,
    title: u32,
    parties: u32,
) -> Result<(Turn<Diary>, Vec<Pass<Diary>>), AllocError>
    requires { 0 < parties }
    ensures ready { IfOk result (λ t. (length t.1.items ≡ parties) × AreReady t.0 t.1.items) }
    ensures free { IfOk result (λ t. All (IsFree t.0) t.1.items) }
{
    let diary = Diary {
        title,
        notes: Vec::new(alloc),
    };
    match Turn::open(alloc, diary, parties) {
        Ok(opened) => Ok(opened),
        Err((_, error)) => Err(error),
    }
}

/// The last pass of the list.
pub fn last_pass(turn: &Turn<Diary>, passes: &mut Vec<Pass<Diary>>) -> Pass<Diary>
    requires not_empty { 0 < length passes.old.items }
    requires free { All (IsFree turn.now) passes.old.items }
    ensures rest { (length passes.new.items + 1 ≡ length passes.old.items) × All (IsFree turn.now) passes.new.items }
    ensures free { IsFree turn.now result }
{
    let Some(pass) = passes.pop() else {
        unreachable!()
    };
    pass
}

/// Writes a note in a turn, if there is memory.
pub fn write_note(rt: &impl Wait, turn: &Turn<Diary>, pass: &mut Pass<Diary>, number: u32)
    requires { (pass.old.turn ≡ turn.now) × (pass.old.at_turn ≡ false) }
    ensures { IsAfter 1 pass.old pass.new }
{
    let mut diary = turn.take(rt, pass);
    let note = Note {
        owner: pass.number(),
        number,
    };
    if diary.notes.len() < 1 << 62 && diary.notes.push(note).is_ok() {
        turn.commit(pass, &note);
    }
    turn.give(pass, diary);
}

/// Spends a time that differs from number to number, so that a party asks for the turn at any moment of
/// another's.
fn spend(number: u32) {
    for _ in 0..number % 2048 {
        hint::spin_loop();
    }
}

/// Writes notes with the numbers from 0, each in a turn of its own.
pub fn write_notes(rt: &impl Wait, turn: &Turn<Diary>, pass: Pass<Diary>, count: u32) -> Pass<Diary>
    requires { (pass.turn ≡ turn.now) × (pass.at_turn ≡ false) }
    ensures { IsAfter count pass result }
{
    let mut pass = pass;
    for number in 0..count {
        write_note(rt, turn, &mut pass, number);
        spend(number);
    }
    pass
}

/// Two threads of a scope write notes, and whether both could be started.
pub fn write_in_scope<R: Threads + Wait + Sync>(
    rt: &R,
    turn: &Turn<Diary>,
    first: Pass<Diary>,
    second: Pass<Diary>,
    count: u32,
) -> bool
    requires { IsFree turn.now first × IsFree turn.now second }
{
    thread::scope(
        thread::scope_env(),
        rt,
        |scope| -> bool
            requires { IsFree turn.now first × IsFree turn.now second }
        {
            let one = scope.spawn(
                move ||
                    requires { IsFree turn.now first }
                { drop(write_notes(rt, turn, first, count)) },
            );
            let other = scope.spawn(
                move ||
                    requires { IsFree turn.now second }
                { drop(write_notes(rt, turn, second, count)) },
            );
            one.is_ok() && other.is_ok()
        },
    )
}

/// Four threads write notes, each with a pass of its own, and whether they could be started.
pub fn write_in_two_scopes<R: Threads + Wait + Sync>(
    rt: &R,
    turn: &Turn<Diary>,
    left: (Pass<Diary>, Pass<Diary>),
    right: (Pass<Diary>, Pass<Diary>),
    count: u32,
) -> bool
    requires left { IsFree turn.now left.0 × IsFree turn.now left.1 }
    requires right { IsFree turn.now right.0 × IsFree turn.now right.1 }
{
    let (first, second) = left;
    let (third, fourth) = right;
    thread::scope(
        thread::scope_env(),
        rt,
        |scope| -> bool
            requires { IsFree turn.now first × IsFree turn.now second × IsFree turn.now third × IsFree turn.now fourth }
        {
            let one = scope.spawn(
                move || -> bool
                    requires { IsFree turn.now first × IsFree turn.now second }
                { write_in_scope(rt, turn, first, second, count) },
            );
            let other = scope.spawn(
                move || -> bool
                    requires { IsFree turn.now third × IsFree turn.now fourth }
                { write_in_scope(rt, turn, third, fourth, count) },
            );
            one.is_ok() && other.is_ok()
        },
    )
}

/// In a turn of its own the pass becomes active where `enters` says so, or inactive, and counts the active ones.
pub fn set_active(rt: &impl Wait, turn: &Turn<Diary>, pass: &mut Pass<Diary>, enters: bool) -> u64
    requires { (pass.old.turn ≡ turn.now) × (pass.old.at_turn ≡ false) × (pass.old.active ≡ not enters) }
    ensures { (pass.new.turn ≡ turn.now) × (pass.new.at_turn ≡ false) × (pass.new.active ≡ enters) }
{
    let diary = turn.take(rt, pass);
    if enters {
        turn.enter(pass);
    } else {
        turn.leave(pass);
    }
    let count = turn.active(pass);
    turn.give(pass, diary);
    count
}

/// How many are active, and how many notes there are.
pub fn look(rt: &impl Wait, turn: &Turn<Diary>, pass: &mut Pass<Diary>) -> (u64, usize)
    requires { (pass.old.turn ≡ turn.now) × (pass.old.at_turn ≡ false) }
    ensures { IsAfter 1 pass.old pass.new }
{
    let diary = turn.take(rt, pass);
    let count = turn.active(pass);
    let notes = diary.notes.len();
    turn.give(pass, diary);
    (count, notes)
}
