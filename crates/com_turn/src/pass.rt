//! A party's pass.
ghost use Rattle.std.specs.Prelude.{◌≡◌, [], false};
ghost use Rattle.com_turn.specs.Views.{known_of, shown, IsSettled};
ghost use Rattle.com_turn.specs.declared.view.Stage.TheVariants.{Idle};

use crate::board::SeatOf;
use crate::logged::Logged;
use std::marker::Model;

/// A party's right to take the turn, and what it has seen. Contracts see its number, the number of parties, the base and the log at the opening,
/// the log as far as it has seen it, who became active or inactive until then, whether it is at its turn, whether it is
/// active, how often it took the turn, and what `Turn::active` answered last in its last turn.
#[derive(Drop)]
pub struct Pass<V: Logged> {
    pub(crate) seat: SeatOf<V>,
    pub(crate) number: u32,
    pub(crate) active: bool,
}

impl<V: Logged> Model for Pass<V> {
    ghost use Rattle.std.specs.Prelude.{◌≡◌};
    ghost use Rattle.com_turn.specs.Passes.{PassState};

    ghost Value = { PassState V.Item V.Base };

    ghost use Rattle.com_turn.specs.Views.{shown, IsSettled};

    ghost view = { λ p. shown p.seat };

    ghost invariant = { λ p. IsSettled p.seat × (p.number ≡ p.seat.me.0.known.number) × (p.active ≡ p.seat.me.0.active) };
}

impl<V: Logged> Pass<V> {
    pub(crate) fn new(seat: SeatOf<V>, number: u32) -> Pass<V>
        requires settled { IsSettled seat }
        requires number { number ≡ seat.me.0.known.number }
        requires inactive { seat.me.0.active ≡ false }
        ensures { result ≡ shown seat }
    {
        Pass {
            seat,
            number,
            active: false,
        }
    }

    /// The party's number, from 0.
    pub fn number(&self) -> u32
        ensures { result ≡ self.now.number }
    {
        self.number
    }

    /// Whether the party is active.
    pub fn is_active(&self) -> bool
        ensures { result ≡ self.now.active }
    {
        self.active
    }

    pub(crate) fn into_seat(self) -> SeatOf<V>
        requires { self.at_turn ≡ false }
        ensures turn { result.table_id ≡ self.turn }
        ensures known { result.me.0.known ≡ known_of self }
        ensures idle { (result.me.0.stage ≡ Idle) × (result.me.1 ≡ []) }
        ensures live { (result.me.0.olds ≡ []) × (result.me.0.spent ≡ false) }
        ensures active { result.me.0.active ≡ self.active }
    {
        let Pass {
            seat,
            number: _,
            active: _,
        } = self;
        seat
    }
}
