//! The levels that are open at an item: those of the items before it below which items may still
//! stand.
ghost use Rattle.std.specs.Prelude.{◌≡◌, ◌∷◌, List, [], IfOk, OnOk, reverse};
ghost use Rattle.cob_data.specs.Levels.{rank};
ghost use Rattle.cob_data.specs.OpenLevels.{closed, is_under, open_after, stands_under};
ghost use Rattle.cob_data.specs.declared.open_levels.Level.{Level};

use crate::entry::Entry;
use crate::wholes::is_group;
use std::alloc::{AllocError, Global};
use std::marker::Model;

/// An open level: its rank, whether its item is a group, and the rank of the first item below the
/// open level before it.
#[derive(Clone, Copy, Debug)]
pub(crate) struct Level {
    rank: u64,
    is_group: bool,
    first: u64,
}

/// The levels that are open. Contracts see the last one first.
#[derive(Drop)]
pub(crate) struct OpenLevels {
    levels: Vec<Level>,
}

impl Model for OpenLevels {
    ghost Value = { List Level };

    ghost view = { λ x. reverse x.levels.items };
}

impl OpenLevels {
    /// None is open.
    pub(crate) fn new(alloc: Global) -> OpenLevels
        ensures { result ≡ [] }
    {
        OpenLevels {
            levels: Vec::new(alloc),
        }
    }

    /// Closes the levels below which an item of this rank does not stand, and gives the rank of the
    /// first item below the last one that stays open.
    fn close(&mut self, rank: u64) -> Result<u64, AllocError>
        ensures { IfOk result (λ first. closed rank rank self.old ≡ (first, self.new)) }
    {
        let mut first = rank;
        'levels: while let Some(level) = self.levels.pop() {
            if level.rank < rank {
                self.levels.push(level)?;
                return Ok(first);
            }
            first = level.first;
        }
        Ok(first)
    }

    /// Whether the last level is that of a group whose first item has this rank.
    fn is_under(&self, rank: u64, first: u64) -> bool
        ensures { result ≡ is_under rank first self.now }
    {
        match self.levels.last() {
            Some(level) => level.is_group && rank == first,
            None => false,
        }
    }

    /// Adds a level that is open.
    fn push(&mut self, level: Level) -> Result<(), AllocError>
        ensures { OnOk result (self.new ≡ level ∷ self.old) }
    {
        self.levels.push(level)?;
        Ok(())
    }

    /// Goes past an item, and says whether it stands under a group whose first item has its level.
    pub(crate) fn pass(&mut self, item: &Entry) -> Result<bool, AllocError>
        ensures under { IfOk result (λ under. under ≡ stands_under (rank item.now) self.old) }
        ensures levels { OnOk result (self.new ≡ open_after item.now self.old) }
    {
        let first = self.close(item.rank())?;
        let under = self.is_under(item.rank(), first);
        self.push(Level {
            rank: item.rank(),
            is_group: is_group(item.tokens()),
            first,
        })?;
        Ok(under)
    }
}
