//! The words and the slot under the rule, and the steps on them, each by a seat.
ghost use Rattle.std.specs.Prelude.{◌≡◌, ℕ, ◌%◌, ◌^◌, ◌<◌, [], ◌∷◌, length, Some, None, true, false, MatchBool, IfOk, IfErr};
ghost use Rattle.com_turn.specs.Rule.{HasEveryNumber, IsClosed};
ghost use Rattle.com_turn.specs.Steps.{Serves};
ghost use Rattle.com_turn.specs.Toggles.{active_count};
ghost use Rattle.com_turn.specs.Views.{first_view, is_at_turn, at_stage, with_item, with_toggle, with_found, with_next_count, view_of_next, joined};
ghost use Rattle.com_turn.specs.declared.view.Stage.TheVariants.{Idle, Waiting};

use crate::logged::Logged;
use crate::steps::{
    Chosen, Commit, CountActive, Draw, End, Enter, GiveNumber, Leave, Look, PassOn,
};
use crate::view::{Law, Opening, View};
use atomic_table::{Refused, Seat, Table};
use std::alloc::{AllocError, Global};
use std::marker::Model;

const TICKET: usize = 0;

const SERVING: usize = 1;

const COUNT: usize = 2;

const ACTIVE: usize = 3;

/// The one slot, in which the value lies between two turns.
const SLOT: usize = 0;

pub(crate) type SeatOf<V> = Seat<Option<V>, View<<V as Logged>::Item, <V as Logged>::Base>>;

/// A clause names a board by its table.
#[derive(Drop)]
pub(crate) struct Board<V: Logged> {
    table: Table<Option<V>, View<V::Item, V::Base>, Opening<V>, Law<V>, Global>,
}

impl<V: Logged> Model for Board<V> {
    ghost use Rattle.std.specs.Prelude.{◌≡◌};
    ghost use Rattle.atomic_table.specs.Seated.{TableId};

    ghost Value = { TableId };

    ghost view = { λ b. b.table.shared.table_id };

    ghost invariant = { λ b. (b.table.shared.table_id.words ≡ 4) × (b.table.shared.table_id.slots ≡ 1) };
}

impl<V: Logged> Board<V> {
    /// A board at which one seat has the first view.
    pub(crate) fn new(
        alloc: Global,
        value: V,
        opening: &Opening<V>,
    ) -> Result<(Board<V>, SeatOf<V>), (V, AllocError)>
        requires opening { opening.now.value.value ≡ value }
        requires parties { (0 < opening.now.parties) × (opening.now.parties < 2 ^ 32) }
        ensures ok { IfOk result (λ b. (b.1.table_id ≡ b.0) × (b.1.me ≡ (first_view (V.log value) (V.base value) opening.now.parties, []))) }
        ensures err { IfErr result (λ e. e.0 ≡ value) }
    {
        let mut slots = match Vec::with_capacity(alloc, 1) {
            Ok(slots) => slots,
            Err(error) => return Err((value, error)),
        };
        match slots.push(Some(value)) {
            Ok(()) => {}
            Err(_) => unreachable!(),
        }
        match Table::new(alloc, &[0, 0, 0, 0], slots, opening) {
            Ok((table, seat)) => Ok((Board { table }, seat)),
            Err(Refused { slots }) => Err((only_value(slots), AllocError)),
        }
    }

    pub(crate) fn draw(&self, seat: &mut SeatOf<V>) -> u64
        requires own { seat.old.table_id ≡ self.now }
        requires idle { (seat.old.me.0.stage ≡ Idle) × (seat.old.me.0.olds ≡ []) × (seat.old.me.0.spent ≡ false) }
        ensures own { seat.new.table_id ≡ seat.old.table_id }
        ensures drawn { (ticket : ℕ) × (result ≡ ticket % 2 ^ 64) × (seat.new.me ≡ (at_stage (Waiting ticket) seat.old.me.0, seat.old.me.1)) }
    {
        self.table.shared.fetch_add::<Draw>(seat, TICKET, 1)
    }

    /// Whether the ticket is served. If it is, the slot is out with the seat.
    pub(crate) fn look(&self, seat: &mut SeatOf<V>, ticket: u64) -> bool
        requires own { seat.old.table_id ≡ self.now }
        requires waiting { (n : ℕ) × (seat.old.me.0.stage ≡ Waiting n) × (ticket ≡ n % 2 ^ 64) × (seat.old.me.0.spent ≡ false) }
        ensures own { seat.new.table_id ≡ seat.old.table_id }
        ensures looked { (n : ℕ) → seat.old.me.0.stage ≡ Waiting n → MatchBool result (Serves V.log V.base V.owner seat.old.me n seat.new.me) (seat.new.me ≡ seat.old.me) }
    {
        self.table.shared.load::<Look<V>>(seat, SERVING) == ticket
    }

    /// The value of the slot that is out.
    pub(crate) fn lift(&self, seat: &mut SeatOf<V>) -> V
        requires own { seat.old.table_id ≡ self.now }
        requires out { (value : V) × (seat.old.me.1 ≡ (SLOT, Some value) ∷ []) }
        ensures own { seat.new.table_id ≡ seat.old.table_id }
        ensures lifted { (seat.old.me.1 ≡ (SLOT, Some result) ∷ []) × (seat.new.me ≡ (seat.old.me.0, (SLOT, None) ∷ [])) }
    {
        match self.table.shared.exchange(seat, SLOT, None) {
            Some(value) => value,
            None => unreachable!(),
        }
    }

    /// Puts a value into the slot that is out.
    pub(crate) fn put(&self, seat: &mut SeatOf<V>, value: V)
        requires own { seat.old.table_id ≡ self.now }
        requires out { seat.old.me.1 ≡ (SLOT, None) ∷ [] }
        ensures own { seat.new.table_id ≡ seat.old.table_id }
        ensures put { seat.new.me ≡ (seat.old.me.0, (SLOT, Some value) ∷ []) }
    {
        match self.table.shared.exchange(seat, SLOT, Some(value)) {
            None => {}
            Some(_) => unreachable!(),
        }
    }

    pub(crate) fn commit<C: Chosen<V::Item>>(&self, seat: &mut SeatOf<V>, item: &V::Item)
        // The seat is one of this table, and at its turn.
        requires own { seat.old.table_id ≡ self.now }
        requires at_turn { (is_at_turn seat.old.me.0.stage ≡ true) × (seat.old.me.0.spent ≡ false) }

        // The item is the one that the step picks, and the seat's own; one more can be counted.
        requires chosen { C.item ≡ Some item.now }
        requires owner { V.owner item.now ≡ seat.old.me.0.known.number }
        requires room { length seat.old.me.0.known.seen < 2 ^ 63 }

        // The seat has seen it then.
        ensures own { seat.new.table_id ≡ seat.old.table_id }
        ensures committed { seat.new.me ≡ (with_item item.now seat.old.me.0, seat.old.me.1) }
    {
        self.table.shared.fetch_add::<Commit<C>>(seat, COUNT, 1);
    }

    pub(crate) fn pass_on(&self, seat: &mut SeatOf<V>)
        requires own { seat.old.table_id ≡ self.now }
        requires at_turn { (is_at_turn seat.old.me.0.stage ≡ true) × (seat.old.me.0.spent ≡ false) }
        requires home { (value : V) × (seat.old.me.1 ≡ (SLOT, Some value) ∷ []) × (V.log value ≡ seat.old.me.0.known.seen) × (seat.old.me.0.known.base ≡ Some (V.base value)) }
        ensures own { seat.new.table_id ≡ seat.old.table_id }
        ensures passed { seat.new.me ≡ (at_stage Idle seat.old.me.0, []) }
    {
        self.table.shared.fetch_add::<PassOn>(seat, SERVING, 1);
    }

    /// The next number goes to a new seat.
    pub(crate) fn give_number(&self, seat: &mut SeatOf<V>) -> SeatOf<V>
        requires own { seat.old.table_id ≡ self.now }
        requires counts { (count : ℕ) × (seat.old.me.0.count ≡ Some count) × (count < seat.old.me.0.known.parties) × (seat.old.me.0.spent ≡ false) }
        ensures own { (seat.new.table_id ≡ seat.old.table_id) × (result.table_id ≡ seat.old.table_id) }
        ensures views { (seat.new.me ≡ (with_next_count seat.old.me.0, seat.old.me.1)) × (result.me ≡ (view_of_next seat.old.me.0, [])) }
    {
        self.table.shared.split_seat::<GiveNumber>(seat)
    }

    pub(crate) fn join(&self, seat: &mut SeatOf<V>, other: SeatOf<V>)
        requires own { (seat.old.table_id ≡ self.now) × (other.table_id ≡ self.now) × (other.me.1 ≡ []) }
        requires live { (seat.old.me.0.spent ≡ false) × (other.me.0.spent ≡ false) }
        requires idle { (seat.old.me.0.stage ≡ Idle) × (other.me.0.stage ≡ Idle) }
        requires inactive { (seat.old.me.0.active ≡ false) × (other.me.0.active ≡ false) }
        ensures own { seat.new.table_id ≡ seat.old.table_id }
        ensures joined { seat.new.me ≡ (joined seat.old.me.0 other.me.0, seat.old.me.1) }
    {
        self.table.shared.join_seat::<End>(seat, other);
    }

    pub(crate) fn enter(&self, seat: &mut SeatOf<V>)
        requires own { seat.old.table_id ≡ self.now }
        requires at_turn { (is_at_turn seat.old.me.0.stage ≡ true) × (seat.old.me.0.spent ≡ false) }
        requires inactive { seat.old.me.0.active ≡ false }
        ensures own { seat.new.table_id ≡ seat.old.table_id }
        ensures entered { seat.new.me ≡ (with_toggle true seat.old.me.0, seat.old.me.1) }
    {
        self.table.shared.fetch_add::<Enter>(seat, ACTIVE, 1);
    }

    pub(crate) fn leave(&self, seat: &mut SeatOf<V>)
        requires own { seat.old.table_id ≡ self.now }
        requires at_turn { (is_at_turn seat.old.me.0.stage ≡ true) × (seat.old.me.0.spent ≡ false) }
        requires active { seat.old.me.0.active ≡ true }
        ensures own { seat.new.table_id ≡ seat.old.table_id }
        ensures left { seat.new.me ≡ (with_toggle false seat.old.me.0, seat.old.me.1) }
    {
        self.table.shared.fetch_sub::<Leave>(seat, ACTIVE, 1);
    }

    pub(crate) fn count_active(&self, seat: &mut SeatOf<V>) -> u64
        requires own { seat.old.table_id ≡ self.now }
        requires at_turn { (is_at_turn seat.old.me.0.stage ≡ true) × (seat.old.me.0.spent ≡ false) }
        ensures own { seat.new.table_id ≡ seat.old.table_id }
        ensures found { seat.new.me ≡ (with_found result seat.old.me.0, seat.old.me.1) }
        ensures count { result ≡ active_count seat.old.me.0.known.parties seat.old.me.0.known.toggles }
    {
        self.table.shared.load::<CountActive>(seat, ACTIVE)
    }

    /// The value comes out where one view has every number.
    pub(crate) fn close(self, seat: SeatOf<V>) -> V
        requires own { seat.table_id ≡ self }
        requires idle { (seat.me.0.spent ≡ false) × (seat.me.0.stage ≡ Idle) }
        requires all { HasEveryNumber seat.me.0 }
        ensures { IsClosed V.log V.base V.owner seat.me.0 result }
    {
        let Board { table } = self;
        let mut closed = table.close_with(seat);
        let value = closed.take(SLOT);
        closed.free();
        match value {
            Some(value) => value,
            None => unreachable!(),
        }
    }
}

fn only_value<V>(slots: Vec<Option<V>>) -> V
    requires { (value : V) × (slots.items ≡ Some value ∷ []) }
    ensures { slots.items ≡ Some result ∷ [] }
{
    let mut slots = slots;
    let Some(slot) = slots.pop() else {
        unreachable!()
    };
    slots.destroy_empty();
    match slot {
        Some(value) => value,
        None => unreachable!(),
    }
}
