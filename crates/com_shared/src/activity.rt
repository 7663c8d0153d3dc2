//! Calls that make no entry.
ghost use Rattle.std.specs.Prelude.{◌≡◌, ◌<◌, length, true, false};
ghost use Rattle.com_shared.specs.Passes.{IsPass, IsLater, own, seen};

use crate::shared::{Pass, Shared};
use std::sync::Wait;

impl Shared {
    /// The pass becomes active, if it is not.
    #[tactic(auto, using(crate::proofs::Making::turning))]
    pub fn enter<R: Wait>(&self, rt: &R, pass: &mut Pass)
        requires { IsPass self.now pass.old }
        ensures pass { IsPass self.now pass.new }
        ensures later { IsLater pass.old pass.new }
        ensures own { own pass.new ≡ own pass.old }
        ensures active { pass.new.active ≡ true }
        ensures turns { pass.old.turns < pass.new.turns }
    {
        let book = self.begin(rt, pass);
        self.reenter(pass, true);
        self.finish(pass, book);
    }

    /// The pass becomes inactive, if it is not. If nobody is active then, all that wait are woken.
    #[tactic(auto, using(crate::proofs::Making::turning))]
    pub fn leave<R: Wait>(&self, rt: &R, pass: &mut Pass)
        requires { IsPass self.now pass.old }
        ensures pass { IsPass self.now pass.new }
        ensures later { IsLater pass.old pass.new }
        ensures own { own pass.new ≡ own pass.old }
        ensures active { pass.new.active ≡ false }
        ensures turns { pass.old.turns < pass.new.turns }
    {
        let book = self.begin(rt, pass);
        self.rest(pass, book);
    }

    /// How many entries there are.
    #[tactic(auto, using(crate::proofs::Making::turning))]
    pub fn entries<R: Wait>(&self, rt: &R, pass: &mut Pass) -> u64
        requires { IsPass self.now pass.old }
        ensures pass { IsPass self.now pass.new }
        ensures later { IsLater pass.old pass.new }
        ensures own { own pass.new ≡ own pass.old }
        ensures active { pass.new.active ≡ pass.old.active }
        ensures turns { pass.old.turns < pass.new.turns }
        ensures count { result ≡ length (seen pass.new) }
    {
        let book = self.begin(rt, pass);
        let count = book.len();
        self.finish(pass, book);
        count
    }
}
