//! Looking for nodes and leaves.
ghost use Rattle.std.specs.Prelude.{◌≡◌, ◌<◌, ◌≤◌, ◌+◌, ◌-◌, ◌⊎◌, length, take, drop, Some, slice_get, option_map, unwrap_or, IfSome};
ghost use Rattle.com_tree.specs.Written.{IsWritten, leaf_count, top_count, rows_below};
ghost use Rattle.com_tree.specs.Places.{leaf_at, first_leaf, past_leaf, top_of, branch_of, node_with, leaf_paths};
ghost use Rattle.com_tree.specs.NextLeaf.{next_leaf, choice, is_later, head_on, node_at};
ghost use Rattle.com_tree.specs.Choosing.{better};

use crate::{Choose, Leaf, MAX_DEPTH, MAX_LEAVES, Node, Tree, TreeRow};
use com_text::{MAX_NAMES, Name, NamePath};

impl Tree {
    /// How many leaves there are, 1 to 64.
    pub fn leaves(&self) -> u32
        ensures leaves { result ≡ leaf_count self.now }
        ensures few { result ≤ MAX_LEAVES }
    {
        count_leaves(self.rows())
    }

    /// The leaf that a node of this tree is: None exactly at an inner node.
    pub fn leaf(&self, node: Node) -> Option<Leaf>
        requires { node.row < length self.now }
        ensures leaf { result ≡ leaf_at self.now node }
        ensures within { IfSome result (λ leaf. leaf.number < leaf_count self.now) }
    {
        let rows = self.rows();
        let at = node.row as usize;
        if rows[at].is_leaf() {
            let number = count_leaves(&rows[..at]);
            Some(Leaf { number })
        } else {
            None
        }
    }

    /// The number, from 0 among the top nodes, of the one whose tree holds a node.
    pub fn top(&self, node: Node) -> u32
        requires { node.row < length self.now }
        ensures top { result ≡ top_of self.now node }
        ensures within { result < top_count self.now }
    {
        let rows = self.rows();
        let at = node.row as usize;
        (count_tops(&rows[..=at]) - 1) as u32
    }

    /// The numbers of the first leaf under a node and of one past the last. A leaf is under itself.
    pub fn leaves_under(&self, node: Node) -> (u32, u32)
        requires { node.row < length self.now }
        ensures leaves { result ≡ (first_leaf self.now node, past_leaf self.now node) }
        ensures order { result.0 ≤ result.1 }
        ensures within { result.1 ≤ leaf_count self.now }
    {
        let place = self.places()[node.row as usize];
        (place.first, place.past)
    }

    /// The node with a path: None exactly where there is none.
    pub fn node(&self, path: &NamePath) -> Option<Node>
        ensures node { result ≡ node_with self.now path.now }
        ensures within { IfSome result (λ node. node.row < length self.now) }
    {
        let rows = self.rows();
        let mut names = [rows[0].name; MAX_NAMES];
        for (at, row) in rows.iter().enumerate() {
            let depth = row.depth as usize;
            names[depth - 1] = row.name;
            if &names[..depth] == path.names() {
                return Some(Node { row: at as u32 });
            }
        }
        None
    }

    /// The path of a leaf of this tree.
    pub fn path(&self, leaf: Leaf) -> NamePath
        requires { leaf.number < leaf_count self.now }
        ensures { slice_get (leaf_paths self.now) leaf.number ≡ Some result }
    {
        let rows = self.rows();
        let mut names = [rows[0].name; MAX_NAMES];
        let mut before = leaf.number;
        for row in rows {
            let depth = row.depth as usize;
            names[depth - 1] = row.name;
            if row.is_leaf() {
                if before == 0 {
                    return path_of(&names[..depth]);
                }
                before -= 1;
            }
        }
        // There are more leaves than the number of this one, so it was found.
        path_of(&names)
    }

    /// The leaf that a node of this tree chooses, where `heads` has for each leaf the arrival
    /// number of the first message that waits on it: None exactly where no message waits under the
    /// node. A leaf is its own choice. An `Ordered` node has that of its first child that has one,
    /// an `Oldest` node the one with the least number, and of equal ones the first as written.
    pub fn next(&self, node: Node, heads: &[Option<u64>]) -> Option<Leaf>
        requires node { node.row < length self.now }
        requires heads { length heads.now ≡ leaf_count self.now }
        ensures leaf { result ≡ next_leaf self.now node (head_on heads.now) }
        ensures within { IfSome result (λ leaf. leaf.number < leaf_count self.now) }
    {
        match choice(MAX_DEPTH, self.rows(), heads, node.row as usize) {
            Some(number) => Some(Leaf { number }),
            None => None,
        }
    }
}

/// The choice of a node that has no more than so many levels, its own among them.
fn choice(levels: u32, rows: &[TreeRow], heads: &[Option<u64>], at: usize) -> Option<u32>
    requires at { at < length rows.now }
    requires written { IsWritten rows.now }
    requires heads { length heads.now ≡ leaf_count rows.now }
    ensures choice { result ≡ choice levels rows.now (head_on heads.now) (node_at at) }
    ensures within { IfSome result (λ leaf. leaf < length heads.now) }
{
    if levels == 0 {
        return None;
    }
    let row = &rows[at];
    let Some(choose) = row.choose else {
        return leaf_with_head(heads, count_leaves(&rows[..at]));
    };
    // From the last child back, so that the first as written wins.
    let mut chosen = None;
    for child in (at + 1..at + branch(rows, at).len()).rev() {
        if rows[child].depth == row.depth + 1 {
            let found = choice(levels - 1, rows, heads, child);
            chosen = better(choose, heads, found, chosen);
        }
    }
    chosen
}

/// The leaf itself, where a message waits on it.
pub(crate) fn leaf_with_head(heads: &[Option<u64>], leaf: u32) -> Option<u32>
    ensures leaf { result ≡ option_map (λ arrival. leaf) (head_on heads.now leaf) }
    ensures within { IfSome result (λ leaf. leaf < length heads.now) }
{
    heads.get(leaf as usize).copied().flatten().map(|_| leaf)
}

/// The choice of a node by that of one child and that of the children behind it.
pub(crate) fn better(
    choose: Choose,
    heads: &[Option<u64>],
    first: Option<u32>,
    behind: Option<u32>,
) -> Option<u32>
    ensures better { result ≡ better choose (head_on heads.now) first behind }
    ensures one { (result ≡ first) ⊎ (result ≡ behind) }
{
    match (first, behind) {
        (Some(first), Some(behind)) => match choose {
            Choose::Ordered => Some(first),
            Choose::Oldest => if is_later(heads, first, behind) {
                Some(behind)
            } else {
                Some(first)
            },
        },
        (Some(first), None) => Some(first),
        (None, behind) => behind,
    }
}

/// Whether the first message on the second leaf arrived before that on the first leaf.
fn is_later(heads: &[Option<u64>], leaf: u32, other: u32) -> bool
    ensures { result ≡ is_later (head_on heads.now) leaf other }
{
    head_on(heads, other) < head_on(heads, leaf)
}

/// The number of the first message on a leaf, and 0 where none waits there.
fn head_on(heads: &[Option<u64>], leaf: u32) -> u64
    ensures { result ≡ unwrap_or (head_on heads.now leaf) 0 }
{
    heads.get(leaf as usize).copied().flatten().unwrap_or(0)
}

/// The path of one to four names.
fn path_of(names: &[Name]) -> NamePath
    requires not_empty { 1 ≤ length names.now }
    requires few { length names.now ≤ MAX_NAMES }
    ensures { result ≡ names.now }
{
    let mut path = NamePath::new(names[0]);
    for name in &names[1..] {
        path = path.then(*name).unwrap();
    }
    path
}

/// How many of the nodes are leaves.
pub(crate) fn count_leaves(rows: &[TreeRow]) -> u32
    requires { leaf_count rows.now ≤ MAX_LEAVES }
    ensures { result ≡ leaf_count rows.now }
{
    rows.iter().filter(|row| row.is_leaf()).count() as u32
}

/// How many of the nodes stand at the top.
fn count_tops(rows: &[TreeRow]) -> usize
    ensures tops { result ≡ top_count rows.now }
    ensures within { result ≤ length rows.now }
{
    rows.iter().filter(|row| row.depth == 1).count()
}

/// A node and those below it.
pub(crate) fn branch(rows: &[TreeRow], at: usize) -> &[TreeRow]
    requires { at < length rows.now }
    ensures branch { result.now ≡ branch_of (drop at rows.now) }
    ensures within { at + length result.now ≤ length rows.now }
{
    let below = count_below(rows[at].depth, &rows[at + 1..]);
    &rows[at..at + 1 + below]
}

/// How many rows stand below a level, up to the first that does not.
fn count_below(depth: u32, rows: &[TreeRow]) -> usize
    ensures below { result ≡ length (rows_below depth rows.now) }
    ensures within { result ≤ length rows.now }
{
    rows.iter().take_while(|row| row.depth > depth).count()
}
