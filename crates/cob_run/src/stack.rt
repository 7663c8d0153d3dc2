//! The PERFORMs that a unit has begun, the innermost first.
ghost use Rattle.std.specs.Prelude.{◌≡◌, ◌<◌, [], ◌∷◌, MatchOption, OnErr, OnOk, drop, length};

use crate::returns::Return;
use std::alloc::{AllocError, AllocFailed, Global};
use std::marker::Model;

/// PERFORMs that were begun. Contracts see the list of them, the innermost first.
#[derive(Debug, Drop)]
pub(crate) struct ReturnStack {
    returns: Vec<Return>,
}

impl Model for ReturnStack {
    ghost use Rattle.std.specs.Prelude.{List, reverse};
    ghost use Rattle.cob_run.specs.declared.returns.Return.{Return};

    ghost Value = { List Return };

    ghost view = { λ stack. reverse stack.returns.items };
}

impl ReturnStack {
    /// Returns an empty stack, which takes no memory.
    pub(crate) fn new(alloc: Global) -> ReturnStack
        ensures { result ≡ [] }
    {
        ReturnStack {
            returns: Vec::new(alloc),
        }
    }

    /// Returns the innermost PERFORM.
    pub(crate) fn top(&self) -> Option<Return>
        ensures { MatchOption result (self.now ≡ []) (λ top. self.now ≡ top ∷ drop 1 self.now) }
    {
        self.returns.last().copied()
    }

    /// Adds a PERFORM. If memory runs out, nothing changes.
    pub(crate) fn push(&mut self, begun: Return) -> Result<(), AllocError>
        ensures ok { OnOk result (self.new ≡ begun ∷ self.old) }
        ensures err { OnErr result (self.new ≡ self.old) }
    {
        match self.returns.push(begun) {
            Ok(()) => Ok(()),
            Err(AllocFailed { .. }) => Err(AllocError),
        }
    }

    /// Drops the innermost PERFORM, if there is one.
    pub(crate) fn pop(&mut self)
        ensures { self.new ≡ drop 1 self.old }
    {
        let _ = self.returns.pop();
    }

    /// Puts a PERFORM in the place of the innermost one.
    pub(crate) fn replace(&mut self, top: Return)
        requires { 0 < length self.old }
        ensures { self.new ≡ top ∷ drop 1 self.old }
    {
        let last = self.returns.len() - 1;
        self.returns[last] = top;
    }

    /// Drops all PERFORMs.
    pub(crate) fn clear(&mut self)
        ensures { self.new ≡ [] }
    {
        self.returns.clear();
    }
}
