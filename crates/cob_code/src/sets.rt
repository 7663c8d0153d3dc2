//! Sets of numbers, and tables of sets.
ghost use Rattle.std.specs.Prelude.{◌≡◌, ◌<◌, ◌≤◌, ◌&&◌, ◌||◌, IfOk, OnOk, Bool, List, false, length, map, nat_le, replicate, slice_set, true, ℕ};
ghost use Rattle.std.specs.List.{list_any};
ghost use Rattle.cob_code.specs.inner.Sets.{Chain, IsSquare, any_between, has, leads};

use std::alloc::{AllocError, Global};
use std::marker::Model;

/// A set of numbers below a limit.
#[derive(Drop)]
pub(crate) struct Set {
    flags: Vec<bool>,
}

impl Model for Set {
    ghost use Rattle.std.specs.Prelude.{Bool, List};

    ghost Value = { List Bool };

    ghost view = { λ set. set.flags.items };
}

/// Sets the flags that are set in others.
fn join_flags(flags: &mut [bool], others: &[bool])
    requires { length flags.old ≡ length others.now }
    ensures { (number : ℕ) → has flags.new number ≡ (has flags.old number || has others.now number) }
{
    let len = flags.len();
    'numbers: for number in 0..len {
        flags[number] = flags[number] || others[number];
    }
}

/// Whether one of some flags is set.
fn is_any_set(flags: &[bool]) -> bool
    ensures { result ≡ list_any (λ flag. flag) flags.now }
{
    'flags: for flag in flags {
        if *flag {
            return true;
        }
    }
    false
}

/// Whether a flag from a first to a last place is set.
fn any_flag(flags: &[bool], first: usize, last: usize) -> bool
    ensures { result ≡ any_between flags.now first last }
{
    let past = last.saturating_add(1).min(flags.len());
    if past <= first {
        return false;
    }
    is_any_set(&flags[first..past])
}

impl Set {
    /// An empty set.
    pub(crate) fn new(alloc: Global, limit: usize) -> Result<Set, AllocError>
        ensures { IfOk result (λ set. set ≡ replicate limit false) }
    {
        Ok(Set {
            flags: vec![in alloc; false; limit]?,
        })
    }

    /// Whether a number is in the set.
    pub(crate) fn has(&self, number: usize) -> bool
        ensures { result ≡ has self.now number }
    {
        match self.flags.get(number) {
            Some(flag) => *flag,
            None => false,
        }
    }

    /// Whether a number from a first to a last one is in the set.
    pub(crate) fn has_any(&self, first: usize, last: usize) -> bool
        ensures { result ≡ any_between self.now first last }
    {
        any_flag(&self.flags, first, last)
    }

    /// Adds a number.
    pub(crate) fn add(&mut self, number: usize)
        requires { number < length self.old }
        ensures { self.new ≡ slice_set self.old number true }
    {
        self.flags[number] = true;
    }

    /// Adds what is in another set, if a number is in this one.
    fn join_with(&mut self, number: usize, others: &Set)
        requires { length self.old ≡ length others.now }
        ensures same { length self.new ≡ length self.old }
        ensures each { (from : ℕ) → has self.new from ≡ (has self.old from || (has self.old number && has others.now from)) }
    {
        if self.has(number) {
            join_flags(&mut self.flags, &others.flags);
        }
    }

    /// A copy.
    fn copy(&self) -> Result<Set, AllocError>
        ensures { IfOk result (λ set. set ≡ self.now) }
    {
        Ok(Set {
            flags: Vec::from_slice(*self.flags.allocator(), &self.flags)?,
        })
    }
}

/// What leads to a number also leads to each that the number leads to.
fn pass_over(table: &mut [Set], between: usize) -> Result<(), AllocError>
    requires square { IsSquare (length table.old) table.old }
    requires within { between < length table.old }
    ensures square { OnOk result (IsSquare (length table.old) table.new) }
    ensures each { OnOk result ((to from : ℕ) → leads table.new to from ≡ (leads table.old to from || (leads table.old to between && leads table.old between from))) }
{
    let others = table[between].copy()?;
    let len = table.len();
    'numbers: for number in 0..len {
        table[number].join_with(between, &others);
    }
    Ok(())
}

/// What leads to a number over others leads to it.
pub(crate) fn close(table: &mut [Set]) -> Result<(), AllocError>
    requires { IsSquare (length table.old) table.old }
    ensures kept { OnOk result ((to from : ℕ) → leads table.old to from ≡ true → leads table.new to from ≡ true) }
    ensures closed { OnOk result ((between : ℕ) → between < length table.old → (to from : ℕ) → leads table.new to between ≡ true → leads table.new between from ≡ true → leads table.new to from ≡ true) }
    ensures sound { OnOk result ((to from : ℕ) → leads table.new to from ≡ true → Chain table.old to from) }
{
    let len = table.len();
    'betweens: for between in 0..len {
        pass_over(table, between)?;
    }
    Ok(())
}
