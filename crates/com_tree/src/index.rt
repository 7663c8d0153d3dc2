//! Where nodes and leaves are in the rows of a tree, so that calls find them without going over the
//! rows.
ghost use Rattle.std.specs.Prelude.{◌≡◌, ◌<◌, ◌≤◌, ℕ, length, get_or, IfOk};
ghost use Rattle.com_tree.specs.declared.index.Place.{Place as PlaceOf};
ghost use Rattle.com_tree.specs.Written.{IsWritten};
ghost use Rattle.com_tree.specs.inner.Index.{IsPlace, ArePlaces, AreLeafRows};

use crate::TreeRow;
use crate::search::{branch, count_leaves};
use std::alloc::{AllocError, Global};

/// Where a node's leaves and the nodes below it are.
#[derive(Clone, Copy, Debug)]
pub(crate) struct Place {
    /// The number of the first leaf under the node.
    pub first: u32,
    /// One past the number of the last leaf under it.
    pub past: u32,
    /// How many nodes are below it.
    pub below: u32,
    /// The first row of those before it, in one sequence up to it, whose leaves all come before its
    /// leaves. So the next node above it is in the row before this one.
    pub apart: u32,
}

/// Finds the place of each node.
pub(crate) fn places_of(alloc: Global, rows: &[TreeRow]) -> Result<Vec<Place>, AllocError>
    requires { IsWritten rows.now }
    ensures places { IfOk result (λ places. ArePlaces rows.now places.items) }
    ensures size { IfOk result (λ places. length places.items ≡ length rows.now) }
{
    let mut places = Vec::with_capacity(alloc, rows.len())?;
    for at in 0..rows.len() {
        let place = place_after(rows, &places, at);
        places.push(place)?;
    }
    Ok(places)
}

/// Finds the place of the node at a row, by those of the nodes before it.
fn place_after(rows: &[TreeRow], places: &[Place], at: usize) -> Place
    requires at { at < length rows.now }
    requires size { length places.now ≡ at }
    requires written { IsWritten rows.now }
    requires places { ArePlaces rows.now places.now }
    ensures { IsPlace rows.now at result }
{
    let first = count_leaves(&rows[..at]);
    let branch = branch(rows, at);
    Place {
        first,
        past: first + count_leaves(branch),
        below: (branch.len() - 1) as u32,
        apart: apart_from(places, first) as u32,
    }
}

/// Finds the row from which on no node has a leaf at or past a number.
fn apart_from(places: &[Place], first: u32) -> usize
    ensures within { result ≤ length places.now }
    ensures apart { (row : ℕ) (other : PlaceOf) → result ≤ row → row < length places.now
        → (get_or places.now row other).past ≤ first }
{
    for at in (0..places.len()).rev() {
        if places[at].past > first {
            return at + 1;
        }
    }
    0
}

/// Finds the row of each leaf.
pub(crate) fn leaf_rows_of(alloc: Global, rows: &[TreeRow]) -> Result<Vec<u32>, AllocError>
    requires { IsWritten rows.now }
    ensures { IfOk result (λ leaves. AreLeafRows rows.now leaves.items) }
{
    let mut leaves = Vec::new(alloc);
    for (at, row) in rows.iter().enumerate() {
        if row.is_leaf() {
            leaves.push(at as u32)?;
        }
    }
    Ok(leaves)
}
