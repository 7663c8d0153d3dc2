//! Passes are dealt out at the opening, and taken in at the end.
ghost use Rattle.std.specs.Prelude.{◌≡◌, ◌<◌, ◌≤◌, [], length, false, All, vec_capacity};
ghost use Rattle.com_turn.specs.Passes.{AreNew, AreReady};
ghost use Rattle.com_turn.specs.Views.{first_view, known_of, Gathers};
ghost use Rattle.com_turn.specs.declared.view.Stage.TheVariants.{Idle};

use crate::board::{Board, SeatOf};
use crate::logged::Logged;
use crate::pass::Pass;
use crate::view::Opening;

/// A pass for each number, in their order. The first seat, which gives the numbers out, is put in front at last.
pub(crate) fn deal<V: Logged>(
    board: &Board<V>,
    seat: SeatOf<V>,
    opening: &Opening<V>,
    passes: Vec<Pass<V>>,
) -> Vec<Pass<V>>
    requires own { seat.table_id ≡ board.now }
    requires first { seat.me ≡ (first_view (V.log opening.now.value.value) (V.base opening.now.value.value) opening.now.parties, []) }
    requires room { (passes.items ≡ []) × (opening.now.parties ≤ vec_capacity passes) × (0 < opening.now.parties) }
    ensures { AreNew board.now opening.now.parties (V.base opening.now.value.value) (V.log opening.now.value.value) result.items }
{
    let mut seat = seat;
    let mut passes = passes;
    for number in 1..opening.parties {
        let next = board.give_number(&mut seat);
        match passes.push(Pass::new(next, number)) {
            Ok(()) => {}
            Err(_) => unreachable!(),
        }
    }
    match passes.insert(0, Pass::new(seat, 0)) {
        Ok(()) => {}
        Err(_) => unreachable!(),
    }
    passes
}

/// One seat takes in what all passes know.
pub(crate) fn collect<V: Logged>(board: &Board<V>, passes: Vec<Pass<V>>) -> SeatOf<V>
    requires not_empty { 0 < length passes.items }
    requires all { AreReady board.now passes.items }
    ensures own { result.table_id ≡ board.now }
    ensures idle { (result.me.0.spent ≡ false) × (result.me.0.stage ≡ Idle) × (result.me.0.known.parties ≡ length passes.items) }
    ensures all { All (λ pass. Gathers result.me.0 (known_of pass)) passes.items }
{
    let mut passes = passes;
    let Some(first) = passes.pop() else {
        unreachable!()
    };
    let mut seat = first.into_seat();
    while let Some(pass) = passes.pop() {
        board.join(&mut seat, pass.into_seat());
    }
    passes.destroy_empty();
    seat
}
