//! Trees of queues, as they are written.
ghost use Rattle.std.specs.Prelude.{◌≡◌, IfOk, IsTrue, length};
ghost use Rattle.com_tree.specs.Shapes.{shape};
ghost use Rattle.com_tree.specs.Written.{is_leaf, IsWritten};
ghost use Rattle.com_tree.specs.inner.Index.{ArePlaces, AreLeafRows};

use crate::index::{Place, leaf_rows_of, places_of};
use com_text::{Name, Rows};
use std::alloc::{AllocError, Global};
use std::marker::Model;

/// How many levels a tree has at most.
pub const MAX_DEPTH: u32 = 4;

/// How many leaves all trees of a network have at most.
pub const MAX_LEAVES: u32 = 64;

/// How an inner node chooses a leaf among those of its children.
#[derive(Clone, Copy, Debug, PartialEq, Eq)]
pub enum Choose {
    /// That of the first child, in written order, that has one.
    Ordered,
    /// The one whose first waiting message arrived first.
    Oldest,
}

/// A node, as a description writes it.
#[derive(Clone, Copy, Debug, PartialEq, Eq)]
pub struct TreeRow {
    /// Its level, from 1 at the top.
    pub depth: u32,
    pub name: Name,
    /// None at a leaf.
    pub choose: Option<Choose>,
}

impl TreeRow {
    /// Whether the node is a leaf.
    pub fn is_leaf(&self) -> bool
        ensures { result ≡ is_leaf self.now }
    {
        self.choose.is_none()
    }
}

/// A node, by the place of its row, from 0.
#[derive(Clone, Copy, Debug, PartialEq, Eq)]
pub struct Node {
    pub row: u32,
}

/// A leaf, by its number among all leaves in written order, from 0.
#[derive(Clone, Copy, Debug, PartialEq, Eq)]
pub struct Leaf {
    pub number: u32,
}

/// The trees of a network. Contracts see their rows in preorder: each node, and behind it its
/// children in written order.
#[derive(Debug, Drop)]
pub struct Tree {
    rows: Rows<TreeRow>,
    places: Vec<Place>,
    /// The row of each leaf.
    leaves: Vec<u32>,
}

impl Model for Tree {
    ghost use Rattle.std.specs.Prelude.{List};
    ghost use Rattle.com_tree.specs.declared.tree.TreeRow.{TreeRow};
    ghost use Rattle.com_tree.specs.inner.Index.{IsIndexed};

    ghost Value = { List TreeRow };

    ghost view = { λ tree. tree.rows };

    ghost invariant = { λ tree. IsIndexed tree.rows tree.places.items tree.leaves.items };
}

impl Tree {
    pub(crate) fn of_rows(alloc: Global, rows: Rows<TreeRow>) -> Result<Tree, AllocError>
        requires { IsWritten rows }
        ensures { IfOk result (λ tree. tree ≡ rows) }
    {
        let places = places_of(alloc, rows.as_slice())?;
        let leaves = leaf_rows_of(alloc, rows.as_slice())?;
        Ok(Tree {
            rows,
            places,
            leaves,
        })
    }

    /// An equal tree. The only error is want of memory.
    pub fn copy(&self) -> Result<Tree, AllocError>
        ensures { IfOk result (λ copy. copy ≡ self.now) }
    {
        let alloc = self.rows.allocator();
        let rows = Vec::from_slice(alloc, self.rows.as_slice())?;
        let places = Vec::from_slice(alloc, &self.places)?;
        let leaves = Vec::from_slice(alloc, &self.leaves)?;
        Ok(Tree {
            rows: Rows::of_vec(rows),
            places,
            leaves,
        })
    }

    /// The nodes in preorder.
    pub fn rows(&self) -> &[TreeRow]
        ensures rows { result.now ≡ self.now }
        ensures written { IsWritten self.now }
    {
        self.rows.as_slice()
    }

    /// The place of each node, in preorder.
    pub(crate) fn places(&self) -> &[Place]
        ensures size { length result.now ≡ length self.now }
        ensures places { ArePlaces self.now result.now }
    {
        &self.places
    }

    /// The row of each leaf, in written order.
    pub(crate) fn leaf_rows(&self) -> &[u32]
        ensures leaves { AreLeafRows self.now result.now }
        ensures written { IsWritten self.now }
    {
        &self.leaves
    }

    /// Whether another tree differs from this one in names alone: each node has the same level and
    /// chooses in the same way.
    pub fn is_alike(&self, other: &Tree) -> bool
        ensures { IsTrue result → shape self.now ≡ shape other.now }
    {
        are_alike(self.rows(), other.rows())
    }
}

/// Whether nodes have the same levels, and choose in the same ways.
fn are_alike(rows: &[TreeRow], others: &[TreeRow]) -> bool
    ensures { IsTrue result → shape rows.now ≡ shape others.now }
{
    if rows.len() != others.len() {
        return false;
    }
    for at in 0..rows.len() {
        if !is_alike(&rows[at], &others[at]) {
            return false;
        }
    }
    true
}

/// Whether two nodes have the same level, and choose in the same way.
fn is_alike(row: &TreeRow, other: &TreeRow) -> bool
    ensures { IsTrue result
        → (row.now.depth ≡ other.now.depth) × (row.now.choose ≡ other.now.choose) }
{
    if row.depth != other.depth {
        return false;
    }
    match (row.choose, other.choose) {
        (None, None) => true,
        (Some(Choose::Ordered), Some(Choose::Ordered)) => true,
        (Some(Choose::Oldest), Some(Choose::Oldest)) => true,
        _ => false,
    }
}
