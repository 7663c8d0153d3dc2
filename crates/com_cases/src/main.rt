//! Cases of lists, texts, areas and trees. Each line of `stdin` is a call with its arguments, and
//! `stdout` has what it is to answer.
#![tactic(auto)]

mod input_areas;
mod lists;
mod names;
mod numbers;
mod output_areas;
mod texts;
mod trees;

use case_lines::{Cases, Words, answer_cases, unknown_call};
use com_cd::{InArea, OutArea};
use com_tree::Tree;
use std::alloc::{AllocError, Global};
use std::io;

/// What the cases of areas and trees are about: the area, and the tree, that was made last.
#[derive(Drop)]
struct Calls {
    alloc: Global,
    input: InArea,
    output: OutArea,
    tree: Option<Tree>,
}

impl Cases for Calls {
    fn answer(&mut self, call: &[u8], words: &mut Words<'_>) -> Result<String, AllocError> {
        let alloc = self.alloc;
        if let Some(answer) = of_values(alloc, call, words)? {
            return Ok(answer);
        }
        if let Some(answer) = input_areas::answer(alloc, &mut self.input, call, words)? {
            return Ok(answer);
        }
        if let Some(answer) = output_areas::answer(alloc, &mut self.output, call, words)? {
            return Ok(answer);
        }
        if let Some(answer) = trees::answer(alloc, &mut self.tree, call, words)? {
            return Ok(answer);
        }
        unknown_call(alloc)
    }
}

/// Returns what a call answers that rests on its words alone: None for any other call.
fn of_values(
    alloc: Global,
    call: &[u8],
    words: &mut Words<'_>,
) -> Result<Option<String>, AllocError> {
    if let Some(answer) = texts::answer(alloc, call, words)? {
        return Ok(Some(answer));
    }
    if let Some(answer) = names::answer(alloc, call, words)? {
        return Ok(Some(answer));
    }
    if let Some(answer) = numbers::answer(alloc, call, words)? {
        return Ok(Some(answer));
    }
    lists::answer(alloc, call, words)
}

fn main(rt: HostRuntime) -> io::Result<()> {
    let mut calls = Calls {
        alloc: rt.alloc(),
        input: InArea::opening(),
        output: OutArea::opening(1),
        tree: None,
    };
    answer_cases(&rt, &mut calls)
}
