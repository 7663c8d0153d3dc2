//! Which paragraphs lead to which, over the ranges that they perform.
ghost use Rattle.std.specs.Prelude.{◌≡◌, ◌<◌, ◌⊎◌, IfOk, length, true, ℕ};
ghost use Rattle.std.specs.List.{All};
ghost use Rattle.cob_code.specs.inner.Bounds.{is_in};
ghost use Rattle.cob_code.specs.inner.Leading.{IsTableOf};
ghost use Rattle.cob_code.specs.inner.Sets.{IsSquare, leads};

use crate::ranges::Range;
use crate::sets::{Set, close};
use std::alloc::{AllocError, Global};

/// A table in which each number leads to itself alone.
fn alone(alloc: Global, limit: usize) -> Result<Vec<Set>, AllocError>
    ensures square { IfOk result (λ table. IsSquare limit table.items) }
    ensures itself { IfOk result (λ table. (k : ℕ) → k < limit → leads table.items k k ≡ true) }
    ensures others { IfOk result (λ table. (to from : ℕ) → leads table.items to from ≡ true → to ≡ from) }
{
    let mut table = Vec::new(alloc);
    'numbers: for number in 0..limit {
        let mut set = Set::new(alloc, limit)?;
        set.add(number);
        table.push(set)?;
    }
    Ok(table)
}

/// The paragraph of a PERFORM leads to each in its range.
fn mark(table: &mut [Set], range: Range)
    requires square { IsSquare (length table.old) table.old }
    requires within { range.from < length table.old }
    ensures square { IsSquare (length table.old) table.new }
    ensures kept { (to from : ℕ) → leads table.old to from ≡ true → leads table.new to from ≡ true }
    ensures marked { (to : ℕ) → to < length table.old → is_in range to ≡ true → leads table.new to range.from ≡ true }
    ensures only { (to from : ℕ) → leads table.new to from ≡ true → (leads table.old to from ≡ true) ⊎ ((is_in range to ≡ true) × (from ≡ range.from)) }
{
    let past = range.last.saturating_add(1).min(table.len());
    'paragraphs: for to in range.first..past {
        table[to].add(range.from);
    }
}

/// Which paragraphs lead to which, each to itself.
pub(crate) fn table_of(
    alloc: Global,
    limit: usize,
    ranges: &[Range],
) -> Result<Vec<Set>, AllocError>
    requires { All (λ range. range.from < limit) ranges.now }
    ensures { IfOk result (λ table. IsTableOf limit ranges.now table.items) }
{
    let mut table = alone(alloc, limit)?;
    'performs: for range in ranges {
        mark(&mut table, *range);
    }
    close(&mut table)?;
    Ok(table)
}
