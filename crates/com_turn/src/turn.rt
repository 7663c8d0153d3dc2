//! The turn, and the calls of its parties.
ghost use Rattle.std.specs.Prelude.{◌≡◌, ℕ, ◌+◌, ◌%◌, ◌^◌, ◌<◌, [], ◌∷◌, ◌++◌, length, Some, None, true, false, All, IfOk, IfErr};
ghost use Rattle.com_turn.specs.Histories.{IsPrefixOf};
ghost use Rattle.com_turn.specs.Toggles.{toggle_of, is_active, active_count};
ghost use Rattle.com_turn.specs.Passes.{mine, AreNew, AreReady, IsKept, HasToggles, AgreeOnToggles};
ghost use Rattle.com_turn.specs.Steps.{IsServed};
ghost use Rattle.com_turn.specs.declared.view.Stage.TheVariants.{Waiting};

use crate::board::{Board, SeatOf};
use crate::logged::Logged;
use crate::pass::Pass;
use crate::passes::{collect, deal};
use crate::view::Opening;
use std::alloc::{AllocError, Global};
use std::marker::{Brand, Model};
use std::snapshot::Snapshot;
use std::sync::Wait;
use std::sync::atomic::{AtomicU64, Ordering};

/// A value that several parties share, each in its turn. A clause names a turn by its table.
#[derive(Drop)]
pub struct Turn<V: Logged> {
    board: Board<V>,
    /// Changes whenever a turn ends.
    bell: AtomicU64,
}

impl<V: Logged> Model for Turn<V> {
    ghost use Rattle.atomic_table.specs.Seated.{TableId};

    ghost Value = { TableId };

    ghost view = { λ t. t.board };
}

/// The turn and its passes as they were, where a turn is not closed.
#[derive(Drop)]
pub struct CloseRefused<V: Logged> {
    pub turn: Turn<V>,
    pub passes: Vec<Pass<V>>,
}

impl<V: Logged> Turn<V> {
    /// A turn for so many parties, and a pass for each. Without memory the value comes back.
    pub fn open(
        alloc: Global,
        value: V,
        parties: u32,
    ) -> Result<(Turn<V>, Vec<Pass<V>>), (V, AllocError)>
        requires { 0 < parties }
        ensures ok { IfOk result (λ t. AreNew t.0 parties (V.base value) (V.log value) t.1.items) }
        ensures err { IfErr result (λ e. e.0 ≡ value) }
    {
        let passes = match Vec::with_capacity(alloc, parties as usize) {
            Ok(passes) => passes,
            Err(error) => return Err((value, error)),
        };
        let opening = Opening {
            value: Snapshot::of(&value),
            parties,
        };
        match Board::new(alloc, value, &opening) {
            Ok((board, seat)) => {
                let passes = deal(&board, seat, &opening, passes);
                let bell = AtomicU64::new(0);
                Ok((Turn { board, bell }, passes))
            }
            Err(refused) => {
                passes.destroy_empty();
                Err(refused)
            }
        }
    }

    /// Waits for the pass's turn, and takes the value.
    pub fn take(&self, rt: &impl Wait, pass: &mut Pass<V>) -> V
        requires turn { pass.old.turn ≡ self.now }
        requires idle { pass.old.at_turn ≡ false }
        // the pass is at its turn, and has seen the log and all toggles
        ensures pass { pass.new ≡ record pass.old { seen = V.log result; toggles = pass.new.toggles; at_turn = true; turns = pass.old.turns + 1; found = None } }
        ensures base { pass.old.base ≡ Some (V.base result) }
        // the log and the toggles begin with what the pass had seen, and none of the new entries is its own
        ensures seen { IsPrefixOf pass.old.seen (V.log result) }
        ensures mine { mine V.owner pass.new ≡ mine V.owner pass.old }
        ensures toggles { HasToggles pass.new.toggles pass.old }
        ensures active { is_active pass.new.number pass.new.toggles ≡ pass.new.active }
        ensures opened { IsPrefixOf pass.old.opened pass.old.seen }
    {
        let ticket = self.board.draw(&mut pass.seat);
        self.wait(rt, &mut pass.seat, ticket)
    }

    /// Looks until the ticket is served, and sleeps after each look that found it is not.
    fn wait<R: Wait>(&self, rt: &R, seat: &mut SeatOf<V>, ticket: u64) -> V
        requires own { seat.old.table_id ≡ self.now }
        requires waiting { (n : ℕ) × (seat.old.me.0.stage ≡ Waiting n) × (ticket ≡ n % 2 ^ 64) × (seat.old.me.0.spent ≡ false) }
        requires slots { seat.old.me.1 ≡ [] }
        ensures own { seat.new.table_id ≡ seat.old.table_id }
        ensures taken { (n : ℕ) → seat.old.me.0.stage ≡ Waiting n → IsServed V.log V.base V.owner seat.old.me.0 n result seat.new.me.0 × (seat.new.me.1 ≡ (0, None) ∷ []) }
    {
        for _ in rt.forever() {
            let rung = self.bell.load(Ordering::SeqCst);
            if self.board.look(seat, ticket) {
                return self.board.lift(seat);
            }
            self.bell.park(rt, (rung & 0xFFFF_FFFF) as u32);
        }
        unreachable!()
    }

    /// Adds an entry of the pass's own to the log that it has seen. The value that it gives back has it too.
    pub fn commit(&self, pass: &mut Pass<V>, entry: &V::Item)
        requires turn { pass.old.turn ≡ self.now }
        requires at_turn { pass.old.at_turn ≡ true }
        requires owner { V.owner entry.now ≡ pass.old.number }
        requires room { length pass.old.seen < 2 ^ 63 }
        ensures seen { pass.new ≡ record pass.old { seen = pass.old.seen ++ entry.now ∷ [] } }
        ensures mine { mine V.owner pass.new ≡ mine V.owner pass.old ++ entry.now ∷ [] }
    {
        self.board.commit::<Brand>(&mut pass.seat, entry);
    }

    /// Gives the value back, and the turn to the next pass that waits.
    pub fn give(&self, pass: &mut Pass<V>, value: V)
        requires turn { pass.old.turn ≡ self.now }
        requires at_turn { pass.old.at_turn ≡ true }
        requires log { V.log value ≡ pass.old.seen }
        requires base { pass.old.base ≡ Some (V.base value) }
        ensures { pass.new ≡ record pass.old { at_turn = false } }
    {
        self.board.put(&mut pass.seat, value);
        self.board.pass_on(&mut pass.seat);
        self.bell.fetch_add(1, Ordering::SeqCst);
        self.bell.wake_all();
    }

    /// The pass becomes active.
    pub fn enter(&self, pass: &mut Pass<V>)
        requires turn { pass.old.turn ≡ self.now }
        requires at_turn { pass.old.at_turn ≡ true }
        requires inactive { pass.old.active ≡ false }
        ensures { pass.new ≡ record pass.old { toggles = pass.old.toggles ++ toggle_of pass.old.number true ∷ []; active = true; found = None } }
    {
        self.board.enter(&mut pass.seat);
        pass.active = true;
    }

    /// The pass becomes inactive.
    pub fn leave(&self, pass: &mut Pass<V>)
        requires turn { pass.old.turn ≡ self.now }
        requires at_turn { pass.old.at_turn ≡ true }
        requires active { pass.old.active ≡ true }
        ensures { pass.new ≡ record pass.old { toggles = pass.old.toggles ++ toggle_of pass.old.number false ∷ []; active = false; found = None } }
    {
        self.board.leave(&mut pass.seat);
        pass.active = false;
    }

    /// How many passes are active, by the toggles of all passes.
    pub fn active(&self, pass: &mut Pass<V>) -> u64
        requires turn { pass.old.turn ≡ self.now }
        requires at_turn { pass.old.at_turn ≡ true }
        ensures found { pass.new ≡ record pass.old { found = Some result } }
        ensures count { result ≡ active_count pass.old.parties pass.old.toggles }
    {
        self.board.count_active(&mut pass.seat)
    }

    /// Hands the value out, for all passes in the order of their numbers. Without memory nothing changes.
    pub fn close(self, passes: Vec<Pass<V>>) -> Result<V, CloseRefused<V>>
        requires not_empty { 0 < length passes.items }
        requires all { AreReady self passes.items }
        ensures kept { IfOk result (λ value. All (λ pass. IsKept V.log V.base V.owner value pass) passes.items) }
        ensures toggles { IfOk result (λ _. AgreeOnToggles passes.items) }
        ensures refused { IfErr result (λ r. (r.turn ≡ self) × (r.passes.items ≡ passes.items)) }
    {
        let Turn { board, bell: _ } = self;
        let seat = collect(&board, passes);
        Ok(board.close(seat))
    }
}
