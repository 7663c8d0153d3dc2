//! The IFs that are open at a token.
ghost use Rattle.std.specs.Prelude.{◌≡◌, ◌&&◌, Bool, List, OnOk, [], codes, reverse, length, nat_le};
ghost use Rattle.cob_forms.specs.Sorts.{is, reserved};
ghost use Rattle.cob_proc.specs.Faults.{behind_else, open_behind};

use crate::limits::MAX_IFS;
use cob_forms::{is_kind, is_word};
use cob_lex::{Token, TokenKind};
use std::alloc::{AllocError, Global};
use std::marker::Model;

/// The IFs that are open, each with whether its ELSE has come. Contracts see the nearest first.
#[derive(Drop)]
pub(crate) struct OpenIfs {
    ifs: Vec<bool>,
}

impl Model for OpenIfs {
    ghost Value = { List Bool };

    ghost view = { λ x. reverse x.ifs.items };
}

impl OpenIfs {
    /// None is open.
    pub(crate) fn new(alloc: Global) -> OpenIfs
        ensures { result ≡ [] }
    {
        OpenIfs {
            ifs: Vec::new(alloc),
        }
    }

    /// Returns whether a token is an IF, and as many are open as may be.
    pub(crate) fn is_too_deep(&self, token: &Token) -> bool
        ensures { result ≡ (is (reserved (codes "IF")) token.now && nat_le MAX_IFS (length self.now)) }
    {
        is_word(token, b"IF") && MAX_IFS <= self.ifs.len()
    }

    /// Goes past a token: a period ends all, an ELSE belongs to the nearest without one, and an IF
    /// is opened.
    pub(crate) fn pass(&mut self, token: &Token) -> Result<(), AllocError>
        ensures { OnOk result (self.new ≡ open_behind self.old token.now) }
    {
        if is_kind(token, TokenKind::Period) {
            self.ifs.clear();
            return Ok(());
        }
        if is_word(token, b"IF") {
            self.ifs.push(false)?;
            return Ok(());
        }
        if is_word(token, b"ELSE") {
            return self.pass_else();
        }
        Ok(())
    }

    /// Goes past an ELSE: it ends those that have one, and the nearest other has one now.
    fn pass_else(&mut self) -> Result<(), AllocError>
        ensures { OnOk result (self.new ≡ behind_else self.old) }
    {
        'ended: while let Some(has_else) = self.ifs.pop() {
            if !has_else {
                self.ifs.push(true)?;
                return Ok(());
            }
        }
        Ok(())
    }
}
