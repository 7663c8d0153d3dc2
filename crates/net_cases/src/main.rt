//! Cases of descriptions. Each line of `stdin` defines a piece of a description or reads pieces one
//! after the other, and `stdout` has what it is to answer.
#![tactic(auto)]

mod networks;
mod pieces;

use case_lines::{Cases, Words, answer_cases, unknown_call};
use com_net::{Net, NetError};
use com_text::Name;
use networks::{fault_text, network_text};
use pieces::Pieces;
use std::alloc::{AllocError, Global};
use std::io;

/// What the cases are about: the pieces of descriptions that were defined so far.
#[derive(Drop)]
struct Calls {
    alloc: Global,
    pieces: Pieces,
}

impl Cases for Calls {
    fn answer(&mut self, call: &[u8], words: &mut Words<'_>) -> Result<String, AllocError> {
        match call {
            b"piece" => self.pieces.define(words.bytes(), 1, words.bytes()),
            b"pieces" => self.define_many(words),
            _ => self.of_network(call, words),
        }
    }
}

impl Calls {
    /// Returns what the calls answer that read pieces.
    fn of_network(&self, call: &[u8], words: &mut Words<'_>) -> Result<String, AllocError> {
        match call {
            b"read" => self.read(0, words.rest()),
            b"read_to" => self.read_to(words),
            b"copy" => self.copy(words.rest()),
            b"count" => self.count(words.rest()),
            b"numbers" => self.numbers(words.bytes(), words.rest()),
            _ => unknown_call(self.alloc),
        }
    }

    fn define_many(&mut self, words: &mut Words<'_>) -> Result<String, AllocError> {
        let name = words.bytes();
        let count = words.number();
        self.pieces.define(name, count, words.bytes())
    }

    /// Returns the network of pieces, filled up by a comment to a length.
    fn net(&self, length: usize, names: &[Vec<u8>]) -> Result<Net, NetError> {
        let bytes = self.pieces.joined(length, names)?;
        Net::read(self.alloc, &bytes)
    }

    /// Reads pieces, filled up to a length.
    fn read(&self, length: usize, names: &[Vec<u8>]) -> Result<String, AllocError> {
        match self.net(length, names) {
            Ok(net) => network_text(self.alloc, &net),
            Err(error) => error_text(self.alloc, &error),
        }
    }

    fn read_to(&self, words: &mut Words<'_>) -> Result<String, AllocError> {
        let length = words.number() as usize;
        self.read(length, words.rest())
    }

    /// Reads pieces and counts what the network has.
    fn count(&self, names: &[Vec<u8>]) -> Result<String, AllocError> {
        match self.net(0, names) {
            Ok(net) => count_text(self.alloc, &net),
            Err(error) => error_text(self.alloc, &error),
        }
    }

    /// Reads pieces and looks for a name among the terminals and among the units.
    fn numbers(&self, name: &[u8], names: &[Vec<u8>]) -> Result<String, AllocError> {
        match self.net(0, names) {
            Ok(net) => numbers_text(self.alloc, &net, name),
            Err(error) => error_text(self.alloc, &error),
        }
    }

    /// Reads pieces and copies the network.
    fn copy(&self, names: &[Vec<u8>]) -> Result<String, AllocError> {
        match self.net(0, names) {
            Ok(net) => network_text(self.alloc, &net.copy()?),
            Err(error) => error_text(self.alloc, &error),
        }
    }
}

fn count_text(alloc: Global, net: &Net) -> Result<String, AllocError> {
    let terminals = net.terminals.len();
    let nodes = net.tree.rows().len();
    let leaves = net.leaf_on.len();
    let units = net.units.len();
    format!(in alloc; "{terminals} terminals, {nodes} nodes, {leaves} leaves, {units} units")
}

fn numbers_text(alloc: Global, net: &Net, name: &[u8]) -> Result<String, AllocError> {
    let Some(name) = Name::new(name) else {
        return String::from_str(alloc, "no name");
    };
    let terminal = net.terminal(&name);
    let unit = net.unit(&name);
    format!(in alloc; "terminal {terminal:?}, unit {unit:?}")
}

fn error_text(alloc: Global, error: &NetError) -> Result<String, AllocError> {
    match error {
        NetError::Refused(fault) => fault_text(alloc, fault),
        NetError::Memory(error) => Err(*error),
    }
}

fn main(rt: HostRuntime) -> io::Result<()> {
    let alloc = rt.alloc();
    let mut calls = Calls {
        alloc,
        pieces: Pieces::new(alloc),
    };
    answer_cases(&rt, &mut calls)
}
