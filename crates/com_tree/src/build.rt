//! Which rows are trees, and why others are none.
ghost use Rattle.std.specs.Prelude.{◌≡◌, ◌≤◌, ◌+◌, ◌-◌, ◌++◌, [], ◌∷◌, false, length, take, None, IsTrue, IfNone, IfOk, IfErr, OnOk};
ghost use Rattle.std.specs.List.{list_all, list_any};
ghost use Rattle.std.specs.Str.{bytes_eq};
ghost use Rattle.com_text.specs.Name.{is_name};
ghost use Rattle.com_tree.specs.Faults.{is_outline, may_stand_behind, tree_fault, twice_named, too_deep, too_many, empty, is_childless};
ghost use Rattle.com_tree.specs.Refusals.{IsRefusalOf};
ghost use Rattle.com_tree.specs.Siblings.{taken_names, names_at, with_name};

use crate::{MAX_DEPTH, MAX_LEAVES, Tree, TreeRow};
use com_text::{Name, Rows};
use indexmap::IndexSet;
use std::alloc::{AllocError, Global};
use thiserror::Error;

/// Why rows are no trees of a description.
#[derive(Clone, Copy, Debug, PartialEq, Eq)]
pub enum TreeFault {
    /// The row has the name of a sibling before it.
    TwiceNamed,
    /// The row is below the fourth level.
    TooDeep,
    /// The row is the 65th leaf.
    TooMany,
    /// The row is an inner node without a child, or there is no row.
    Empty,
}

/// Why no tree was built.
#[derive(Clone, Copy, Debug, Error)]
pub enum TreeError {
    /// The first of these faults, in the order of [`TreeFault`], and its first row, from 0.
    #[error("the node at row {row} is refused: {fault:?}")]
    Refused { row: usize, fault: TreeFault },
    /// Memory ran out.
    #[error("memory ran out")]
    Memory(AllocError),
}

impl From<AllocError> for TreeError {
    ghost use Rattle.com_tree.specs.declared.build.TreeError.TheVariants.{Memory};

    ghost from_gives = { λ error tree_error. tree_error ≡ Memory error };

    fn from(error: AllocError) -> TreeError {
        TreeError::Memory(error)
    }
}

impl Tree {
    /// The trees with these nodes, which stand in preorder, the first at the top and each at most
    /// one level below the one before it, and below an inner node alone. Refused where there is a
    /// fault: the first kind in the order of [`TreeFault`], at its first row.
    pub fn build(alloc: Global, rows: &[TreeRow]) -> Result<Tree, TreeError>
        requires outline { IsTrue (is_outline rows.now) }
        ensures tree { IfOk result (λ tree. tree ≡ rows.now) }
        ensures accepted { OnOk result (tree_fault rows.now ≡ None) }
        ensures refused { IfErr result (IsRefusalOf rows.now) }
    {
        if let Some((row, fault)) = fault_in(alloc, rows)? {
            return Err(TreeError::Refused { row, fault });
        }
        let rows = Vec::from_slice(alloc, rows)?;
        Ok(Tree::of_rows(alloc, Rows::of_vec(rows))?)
    }
}

/// Whether rows may be handed to [`Tree::build`]: the first stands at the top, each other at most
/// one level below the one before it, and below an inner node alone.
pub fn is_outline(rows: &[TreeRow]) -> bool
    ensures { result ≡ is_outline rows.now }
{
    let Some((first, rest)) = rows.split_first() else {
        return true;
    };
    if first.depth != 1 {
        return false;
    }
    let mut before = first;
    for row in rest {
        if row.depth < 1 || !may_stand_behind(before, row) {
            return false;
        }
        before = row;
    }
    true
}

/// Whether a row may stand behind another.
fn may_stand_behind(row: &TreeRow, next: &TreeRow) -> bool
    ensures { result ≡ may_stand_behind row.now next.now }
{
    next.depth <= row.depth || next.depth - 1 == row.depth && !row.is_leaf()
}

/// The first kind of fault that there is, and its first row.
fn fault_in(alloc: Global, rows: &[TreeRow]) -> Result<Option<(usize, TreeFault)>, AllocError>
    requires outline { IsTrue (is_outline rows.now) }
    ensures fault { IfOk result (λ found. found ≡ tree_fault rows.now) }
    ensures names { IfOk result (λ found. IfNone found
        (IsTrue (list_all (λ row. is_name row.name) rows.now))) }
{
    if let Some(row) = twice_named(alloc, rows)? {
        return Ok(Some((row, TreeFault::TwiceNamed)));
    }
    if let Some(row) = too_deep(rows) {
        return Ok(Some((row, TreeFault::TooDeep)));
    }
    if let Some(row) = too_many(rows) {
        return Ok(Some((row, TreeFault::TooMany)));
    }
    match empty(rows) {
        Some(row) => Ok(Some((row, TreeFault::Empty))),
        None => Ok(None),
    }
}

/// The first row that has the name of a sibling before it.
fn twice_named(alloc: Global, rows: &[TreeRow]) -> Result<Option<usize>, AllocError>
    requires outline { IsTrue (is_outline rows.now) }
    ensures row { IfOk result (λ found. found ≡ twice_named rows.now) }
    ensures names { IfOk result (λ found. IfNone found
        (IsTrue (list_all (λ row. is_name row.name) rows.now))) }
{
    let mut levels = Vec::new(alloc);
    for (at, row) in rows.iter().enumerate() {
        if is_taken(alloc, &mut levels, row)? {
            return Ok(Some(at));
        }
    }
    Ok(None)
}

/// Whether a sibling has the name of a row; else it is taken from now on. `levels` has, level by
/// level, the names of the siblings so far.
fn is_taken<'a>(
    alloc: Global,
    levels: &mut Vec<IndexSet<&'a [u8]>>,
    row: &'a TreeRow,
) -> Result<bool, AllocError>
    requires top { 1 ≤ row.now.depth }
    requires next { row.now.depth ≤ length levels.old.items + 1 }
    ensures taken { IfOk result (λ taken. taken ≡ list_any (bytes_eq row.now.name)
        (names_at row.now.depth (taken_names levels.old.items))) }
    ensures levels { IfOk result (λ taken. taken ≡ false → taken_names levels.new.items
        ≡ with_name row.now.depth row.now.name (taken_names levels.old.items)) }
    ensures name { IsTrue (is_name row.now.name) }
{
    let name = row.name.as_bytes();
    let level = row.depth as usize;
    go_to_level(alloc, levels, level)?;
    let is_new = levels[level - 1].insert(name)?;
    Ok(!is_new)
}

/// Goes on at a level, which is at most one below the lowest: what is taken below it is taken no
/// more.
fn go_to_level<'a>(
    alloc: Global,
    levels: &mut Vec<IndexSet<&'a [u8]>>,
    level: usize,
) -> Result<(), AllocError>
    requires top { 1 ≤ level }
    requires next { level ≤ length levels.old.items + 1 }
    ensures names { OnOk result (taken_names levels.new.items
        ≡ take (level - 1) (taken_names levels.old.items)
        ++ names_at level (taken_names levels.old.items) ∷ []) }
    ensures level { OnOk result (length levels.new.items ≡ level) }
{
    levels.truncate(level);
    if levels.len() < level {
        levels.push(IndexSet::new(alloc))?;
    }
    Ok(())
}

/// The first row below the fourth level.
fn too_deep(rows: &[TreeRow]) -> Option<usize>
    ensures { result ≡ too_deep rows.now }
{
    for (at, row) in rows.iter().enumerate() {
        if row.depth > MAX_DEPTH {
            return Some(at);
        }
    }
    None
}

/// The row of the 65th leaf.
fn too_many(rows: &[TreeRow]) -> Option<usize>
    ensures { result ≡ too_many rows.now }
{
    let mut leaves = 0;
    for (at, row) in rows.iter().enumerate() {
        if row.is_leaf() {
            if leaves == MAX_LEAVES {
                return Some(at);
            }
            leaves += 1;
        }
    }
    None
}

/// The first inner node without a child. Where there are no rows, the place of the first.
fn empty(rows: &[TreeRow]) -> Option<usize>
    ensures { result ≡ empty rows.now }
{
    if rows.is_empty() {
        return Some(0);
    }
    for at in 0..rows.len() {
        if is_childless(&rows[at..]) {
            return Some(at);
        }
    }
    None
}

/// Whether the first row is an inner node that no child follows.
fn is_childless(rows: &[TreeRow]) -> bool
    ensures { result ≡ is_childless rows.now }
{
    match rows {
        [row, next, ..] => !row.is_leaf() && next.depth <= row.depth,
        [row] => !row.is_leaf(),
        [] => false,
    }
}
