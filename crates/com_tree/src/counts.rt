//! How many of something are under each node of a tree.
ghost use Rattle.std.specs.Prelude.{◌≡◌, ◌<◌, ◌≤◌, ◌^◌, ◌-◌, ℕ, true, length, get_or, replicate, nat_lt, if◌then◌else◌, IfOk};
ghost use Rattle.std.specs.List.{All};
ghost use Rattle.com_tree.specs.Written.{leaf_count};
ghost use Rattle.com_tree.specs.UnderNodes.{is_over, IsOneMore};
ghost use Rattle.com_tree.specs.inner.Index.{IsLeafRow};

use crate::{Leaf, Node, Tree};
use std::alloc::{AllocError, Global};
use std::marker::Model;

/// A number for each node of a tree, which rises and falls with what is on the leaves under it.
/// Contracts see the list of the numbers, in preorder. Each call is made with the tree that these
/// counts were made for.
#[derive(Debug, Drop)]
pub struct Counts {
    numbers: Vec<usize>,
}

impl Model for Counts {
    ghost use Rattle.std.specs.Prelude.{List, ℕ};

    ghost Value = { List ℕ };

    ghost view = { λ counts. counts.numbers.items };
}

impl Counts {
    /// Makes the counts of a tree with nothing on its leaves.
    pub fn new(alloc: Global, tree: &Tree) -> Result<Counts, AllocError>
        ensures { IfOk result (λ counts. counts ≡ replicate (length tree.now) 0) }
    {
        let numbers = vec![in alloc; 0; tree.rows().len()]?;
        Ok(Counts { numbers })
    }

    /// Counts one more on a leaf.
    pub fn add(&mut self, tree: &Tree, leaf: Leaf)
        requires tree { length self.old ≡ length tree.now }
        requires leaf { leaf.number < leaf_count tree.now }
        requires room { All (λ number. number < 2 ^ 64 - 1) self.old }
        ensures { IsOneMore tree.now leaf.number self.old self.new }
    {
        let row = tree.leaf_rows()[leaf.number as usize] as usize;
        add_above(tree, &mut self.numbers, leaf.number, row);
    }

    /// Counts one less on a leaf.
    pub fn take(&mut self, tree: &Tree, leaf: Leaf)
        requires tree { length self.old ≡ length tree.now }
        requires leaf { leaf.number < leaf_count tree.now }
        requires some { (row : ℕ) → row < length tree.now
            → is_over tree.now leaf.number row ≡ true → 1 ≤ get_or self.old row 0 }
        ensures { IsOneMore tree.now leaf.number self.new self.old }
    {
        let row = tree.leaf_rows()[leaf.number as usize] as usize;
        take_above(tree, &mut self.numbers, leaf.number, row);
    }

    /// How many there are under a node.
    pub fn under(&self, node: Node) -> usize
        requires { node.row < length self.now }
        ensures { result ≡ get_or self.now node.row 0 }
    {
        self.numbers[node.row as usize]
    }
}

/// Counts one more at the leaf of a row and at the nodes above it.
fn add_above(tree: &Tree, numbers: &mut Vec<usize>, leaf: u32, row: usize)
    requires leaf { IsLeafRow tree.now leaf row }
    requires size { length numbers.old.items ≡ length tree.now }
    requires room { All (λ number. number < 2 ^ 64 - 1) numbers.old.items }
    ensures { IsOneMore tree.now leaf numbers.old.items numbers.new.items }
{
    let places = tree.places();
    let mut past = row + 1;
    while past > 0 {
        let at = past - 1;
        numbers[at] += reaches(places[at].past, leaf);
        past = places[at].apart as usize;
    }
}

/// Counts one less at the leaf of a row and at the nodes above it.
fn take_above(tree: &Tree, numbers: &mut Vec<usize>, leaf: u32, row: usize)
    requires leaf { IsLeafRow tree.now leaf row }
    requires size { length numbers.old.items ≡ length tree.now }
    requires some { (other : ℕ) → other < length tree.now
        → is_over tree.now leaf other ≡ true → 1 ≤ get_or numbers.old.items other 0 }
    ensures { IsOneMore tree.now leaf numbers.new.items numbers.old.items }
{
    let places = tree.places();
    let mut past = row + 1;
    while past > 0 {
        let at = past - 1;
        numbers[at] -= reaches(places[at].past, leaf);
        past = places[at].apart as usize;
    }
}

/// 1 for a node whose leaves end past a leaf, and else 0.
fn reaches(past: u32, leaf: u32) -> usize
    ensures { result ≡ (if nat_lt leaf past then 1 else 0) }
{
    if leaf < past { 1 } else { 0 }
}
