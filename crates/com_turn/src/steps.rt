//! The kinds of step on the table.
ghost use Rattle.std.specs.Prelude.{Option, None};
ghost use Rattle.com_turn.specs.Steps.{Draws, Looks, Commits, PassesOn, Enters, Leaves, CountsActive};
ghost use Rattle.com_turn.specs.Views.{with_next_count, view_of_next, joined, spent_view};

use crate::logged::Logged;
use crate::view::View;
use atomic_table::{Join, Play, Split};
use std::marker::{Brand, PhantomData};

/// A ticket is drawn.
pub(crate) struct Draw;

impl<V, I, B> Play<Option<V>, View<I, B>> for Draw {
    ghost then = { Draws };
}

/// Whether the ticket is served.
pub(crate) struct Look<V> {
    value: PhantomData<V>,
}

impl<V: Logged> Play<Option<V>, View<V::Item, V::Base>> for Look<V> {
    ghost then = { Looks V.log V.base V.owner };
}

/// The item that a commit adds. Each call picks it.
pub(crate) trait Chosen<I> {
    ghost item: { Option I };
}

impl<I> Chosen<I> for Brand {
    ghost item = { None };
}

/// The log grows by the chosen item.
pub(crate) struct Commit<C> {
    chosen: PhantomData<C>,
}

impl<V, I, B, C: Chosen<I>> Play<Option<V>, View<I, B>> for Commit<C> {
    ghost then = { Commits C.item };
}

/// The next ticket is served.
pub(crate) struct PassOn;

impl<V, I, B> Play<Option<V>, View<I, B>> for PassOn {
    ghost then = { PassesOn };
}

/// The next number is given out.
pub(crate) struct GiveNumber;

impl<I, B> Split<View<I, B>> for GiveNumber {
    ghost left = { with_next_count };

    ghost right = { view_of_next };
}

/// A view ends in another.
pub(crate) struct End;

impl<I, B> Join<View<I, B>> for End {
    ghost both = { joined };

    ghost spent = { spent_view };
}

pub(crate) struct Enter;

impl<V, I, B> Play<Option<V>, View<I, B>> for Enter {
    ghost then = { Enters };
}

pub(crate) struct Leave;

impl<V, I, B> Play<Option<V>, View<I, B>> for Leave {
    ghost then = { Leaves };
}

pub(crate) struct CountActive;

impl<V, I, B> Play<Option<V>, View<I, B>> for CountActive {
    ghost then = { CountsActive };
}
