//! The first messages of the leaves, and the leaf that each node chooses by them.
ghost use Rattle.std.specs.Prelude.{◌≡◌, ◌<◌, ◌≤◌, ℕ, false, None, length, get_or, slice_set, replicate, IfOk, IfSome};
ghost use Rattle.com_tree.specs.Written.{IsWritten, leaf_count};
ghost use Rattle.com_tree.specs.NextLeaf.{next_leaf, choice, head_on, node_at};
ghost use Rattle.com_tree.specs.Places.{first_leaf};
ghost use Rattle.com_tree.specs.CachedHeads.{IsRight, IsHeadsOf};
ghost use Rattle.com_tree.specs.UnderNodes.{is_over};
ghost use Rattle.com_tree.specs.inner.Index.{ArePlaces, IsLeafRow};

use crate::index::Place;
use crate::search::{better, leaf_with_head};
use crate::{Leaf, Node, Tree, TreeRow};
use std::alloc::{AllocError, Global};
use std::marker::Model;

/// The arrival number of the first message on each leaf of a tree, and the leaf that each node
/// chooses by them. Contracts see both lists. Each call is made with the tree that these heads were
/// made for.
#[derive(Debug, Drop)]
pub struct Heads {
    numbers: Vec<Option<u64>>,
    choices: Vec<Option<u32>>,
}

impl Model for Heads {
    ghost use Rattle.com_tree.specs.CachedHeads.{HeadLists};

    ghost Value = { HeadLists };

    ghost view = { λ heads. record {
      numbers = heads.numbers.items;
      choices = heads.choices.items;
    } };
}

impl Heads {
    /// Makes the heads of a tree on whose leaves no message waits.
    pub fn new(alloc: Global, tree: &Tree) -> Result<Heads, AllocError>
        ensures heads { IfOk result (IsHeadsOf tree.now) }
        ensures numbers { IfOk result
            (λ heads. heads.numbers ≡ replicate (leaf_count tree.now) None) }
    {
        let numbers = vec![in alloc; None; tree.leaves() as usize]?;
        let choices = vec![in alloc; None; tree.rows().len()]?;
        Ok(Heads { numbers, choices })
    }

    /// Sets the number of the first message on a leaf, or that none waits there, and mends the
    /// choices of the leaf and of the nodes above it.
    pub fn set(&mut self, tree: &Tree, leaf: Leaf, first: Option<u64>)
        requires heads { IsHeadsOf tree.now self.old }
        requires leaf { leaf.number < leaf_count tree.now }
        ensures heads { IsHeadsOf tree.now self.new }
        ensures numbers { self.new.numbers ≡ slice_set self.old.numbers leaf.number first }
    {
        let number = leaf.number as usize;
        self.numbers[number] = first;
        let row = tree.leaf_rows()[number] as usize;
        mend_above(tree, &self.numbers, &mut self.choices, row);
    }

    /// The leaf that a node chooses by the numbers that were set: None exactly if no message waits
    /// under the node.
    pub fn choice(&self, tree: &Tree, node: Node) -> Option<Leaf>
        requires heads { IsHeadsOf tree.now self.now }
        requires node { node.row < length tree.now }
        ensures leaf { result ≡ next_leaf tree.now node (head_on self.now.numbers) }
    {
        let _tree = tree;
        let number = self.choices[node.row as usize]?;
        Some(Leaf { number })
    }
}

/// Mends the choices of a leaf and of the nodes above it, where all others are right.
fn mend_above(tree: &Tree, numbers: &[Option<u64>], choices: &mut Vec<Option<u32>>, row: usize)
    requires leaf { IsLeafRow tree.now (first_leaf tree.now (node_at row)) row }
    requires size { (length choices.old.items ≡ length tree.now)
        × (length numbers.now ≡ leaf_count tree.now) }
    requires others { (other : ℕ) → other < length tree.now
        → is_over tree.now (first_leaf tree.now (node_at row)) other ≡ false
        → IsRight tree.now numbers.now choices.old.items other }
    ensures size { length choices.new.items ≡ length tree.now }
    ensures right { (other : ℕ) → other < length tree.now
        → IsRight tree.now numbers.now choices.new.items other }
{
    let rows = tree.rows();
    let places = tree.places();
    let mut past = row + 1;
    while past > 0 {
        let at = past - 1;
        let choice = mended(rows, places, numbers, choices, at);
        choices[at] = choice;
        past = places[at].apart as usize;
    }
}

/// Finds the choice of a node by those of the nodes below it.
fn mended(
    rows: &[TreeRow],
    places: &[Place],
    numbers: &[Option<u64>],
    choices: &[Option<u32>],
    at: usize,
) -> Option<u32>
    requires written { IsWritten rows.now }
    requires places { ArePlaces rows.now places.now }
    requires at { at < length rows.now }
    requires size { (length places.now ≡ length rows.now)
        × (length choices.now ≡ length rows.now) × (length numbers.now ≡ leaf_count rows.now) }
    requires below { (row : ℕ) → at < row → row < length rows.now
        → IsRight rows.now numbers.now choices.now row }
    ensures choice { result ≡ choice 4 rows.now (head_on numbers.now) (node_at at) }
{
    let row = rows[at];
    let choose = match row.choose {
        Some(choose) => choose,
        None => return leaf_with_head(numbers, places[at].first),
    };
    // From the last child back, so that the first as written wins.
    let mut chosen = None;
    for child in (at + 1..at + 1 + places[at].below as usize).rev() {
        if rows[child].depth == row.depth + 1 {
            chosen = better(choose, numbers, choices[child], chosen);
        }
    }
    chosen
}
