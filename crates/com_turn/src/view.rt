//! What the seats at the table know, and the rule. Clauses alone have values of these types.
use crate::logged::Logged;
use atomic_table::TableRule;
use std::collections::LinkedList;
use std::marker::PhantomData;
use std::snapshot::Snapshot;

/// A party became active, or inactive.
pub struct Toggle {
    pub number: u32,
    pub active: bool,
}

/// What a party knows: its number, the opening, and the log and the toggles as far as it has seen them.
pub(crate) struct Known<I, B> {
    pub number: u32,
    pub parties: u32,
    pub base: Option<B>,
    pub opened: LinkedList<I>,
    pub seen: LinkedList<I>,
    pub toggles: LinkedList<Toggle>,
}

/// Without a ticket, with one that is not served yet, or at the turn.
pub(crate) enum Stage {
    Idle,
    Waiting(u64),
    Holding(u64),
}

/// What a seat knows. A spent view is what is left of one that ended in another, which keeps what both knew in `olds`.
pub(crate) struct View<I, B> {
    pub known: Known<I, B>,
    pub olds: LinkedList<Known<I, B>>,
    pub stage: Stage,
    pub active: bool,
    pub turns: u64,
    pub found: Option<u64>,
    pub count: Option<u32>,
    pub spent: bool,
}

/// The value and the number of parties at the opening.
#[derive(Drop)]
pub(crate) struct Opening<V> {
    pub value: Snapshot<V>,
    pub parties: u32,
}

/// The rule of the turn.
pub(crate) struct Law<V> {
    value: PhantomData<V>,
}

impl<V: Logged> TableRule<Option<V>, View<V::Item, V::Base>, Opening<V>> for Law<V> {
    ghost use Rattle.com_turn.specs.Rule.{IsRuled};
    ghost use Rattle.com_turn.specs.Views.{first_view};

    ghost holds = { λ _. IsRuled V.log V.base V.owner };

    ghost first = { λ opening. first_view (V.log opening.value.value) (V.base opening.value.value) opening.parties };
}
