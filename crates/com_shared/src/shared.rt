//! A shared system, and how each call takes the turn and gives it back.
ghost use Rattle.std.specs.Prelude.{◌≡◌, ◌+◌, ◌<◌};
ghost use Rattle.com_shared.specs.Passes.{Place, IsPass, IsLater, own};
ghost use Rattle.com_shared.specs.inner.Turns.{IsAtTurn, given_back};

use crate::book::Book;
use com_net::Net;
use com_turn::Turn;
use std::marker::Model;
use std::snapshot::Snapshot;
use std::sync::Wait;
use std::sync::atomic::{AtomicU64, Ordering};

/// A party's right to make calls. It is active or not, and tells what it has seen.
pub type Pass = com_turn::Pass<Book>;

/// A system that several threads share.
#[derive(Drop)]
pub struct Shared {
    pub(crate) turn: Turn<Book>,
    pub(crate) net: Snapshot<Net>,
    /// Changes whenever there may be something new for those that wait.
    pub(crate) bell: AtomicU64,
}

impl Model for Shared {
    ghost use Rattle.com_shared.specs.Passes.{Place};

    ghost Value = { Place };

    ghost view = { λ s. record { turn = s.turn; net = s.net.value } };

    ghost use Rattle.com_net.specs.Network.{IsNet};

    ghost invariant = { λ s. IsNet s.net.value };
}

impl Shared {
    /// Waits for the turn, and takes the book.
    pub(crate) fn begin<R: Wait>(&self, rt: &R, pass: &mut Pass) -> Book
        requires { IsPass self.now pass.old }
        ensures turn { IsAtTurn self.now pass.new result }
        ensures later { IsLater pass.old pass.new }
        ensures own { own pass.new ≡ own pass.old }
        ensures active { pass.new.active ≡ pass.old.active }
        ensures turns { pass.new.turns ≡ pass.old.turns + 1 }
    {
        let book = self.turn.take(rt, pass);
        book.tell();
        book
    }

    /// Gives the turn back.
    pub(crate) fn finish(&self, pass: &mut Pass, book: Book)
        requires { IsAtTurn self.now pass.old book }
        ensures pass { IsPass self.now pass.new }
        ensures given_back { pass.new ≡ given_back pass.old }
    {
        self.turn.give(pass, book);
    }

    /// Sleeps until the bell is no longer at this number.
    pub(crate) fn park<R: Wait>(&self, rt: &R, rung: u64) {
        self.bell.park(rt, (rung & 0xFFFF_FFFF) as u32);
    }

    /// Wakes all that wait.
    pub(crate) fn ring(&self) {
        self.bell.fetch_add(1, Ordering::SeqCst);
        self.bell.wake_all();
    }
}
