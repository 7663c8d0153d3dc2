//! The queues of a description as trees.
ghost use Rattle.std.specs.Prelude.{◌≡◌, ◌<◌, ◌≤◌, ◌++◌, true, None, Some, map, length, slice_get, IfOk, IfErr, OnOk, IsTrue};
ghost use Rattle.std.specs.List.{list_all, flat_map};
ghost use Rattle.toml.specs.View.{table_view};
ghost use Rattle.com_text.specs.Name.{is_name};
ghost use Rattle.com_tree.specs.Faults.{is_outline};
ghost use Rattle.com_net.specs.declared.keys.Section.TheVariants as section;
ghost use Rattle.com_net.specs.declared.keys.Key.TheVariants as key;
ghost use Rattle.com_net.specs.Values.{string_at};
ghost use Rattle.com_net.specs.TreeFaults.{choose_of, queue_rows, tree_rows, row_paths, tree_path, bad_tree};
ghost use Rattle.com_net.specs.Description.{told_tree, IsRefusalBy};
ghost use Rattle.com_net.specs.inner.Sound.{has_names};
ghost use Rattle.com_net.specs.inner.Seen.{seen};

use crate::fault::{NetError, NetFault, NetKind};
use crate::keys::{Key, Section};
use crate::paths::below;
use crate::places::TableAt;
use crate::values::{count_at, has, name_at, string_at};
use com_text::Text;
use com_tree::{Choose, MAX_DEPTH, Tree, TreeError, TreeFault, TreeRow};
use std::alloc::{AllocError, Global};
use toml::Table;

/// Returns the trees of the queues, or their first fault.
pub fn tree_of(alloc: Global, places: &[TableAt<'_>]) -> Result<Tree, NetError>
    requires names { list_all has_names (map seen places.now) ≡ true }
    requires outline { IsTrue (is_outline (tree_rows (map seen places.now))) }
    ensures tree { IfOk result (λ tree. tree ≡ tree_rows (map seen places.now)) }
    ensures accepted { OnOk result (told_tree (map seen places.now) ≡ None) }
    ensures refused { IfErr result (IsRefusalBy (told_tree (map seen places.now))) }
{
    let rows = tree_rows(alloc, places)?;
    match Tree::build(alloc, &rows) {
        Ok(tree) => Ok(tree),
        Err(TreeError::Refused { row, fault }) => {
            let path = tree_path(alloc, places, row, fault)?;
            let kind = NetKind::BadTree(fault);
            Err(NetError::Refused(NetFault { kind, path }))
        }
        Err(TreeError::Memory(error)) => Err(NetError::Memory(error)),
    }
}

/// Returns the nodes of the queues in preorder. One row stands for all below the lowest level of a
/// tree.
fn tree_rows(alloc: Global, places: &[TableAt<'_>]) -> Result<Vec<TreeRow>, AllocError>
    requires { list_all has_names (map seen places.now) ≡ true }
    ensures { IfOk result (λ rows. rows.items ≡ tree_rows (map seen places.now)) }
{
    let mut rows = Vec::new(alloc);
    for at in places {
        if let Section::Queue(level) = at.section {
            push_rows(level, at.table, &mut rows)?;
        }
    }
    Ok(rows)
}

/// Adds the node of a queue, and the row below it where it is of the lowest level.
fn push_rows(level: u32, table: &Table, rows: &mut Vec<TreeRow>) -> Result<(), AllocError>
    requires { is_name (string_at key.Name (table_view table.now)) ≡ true }
    ensures { OnOk result (rows.new.items ≡ rows.old.items
        ++ queue_rows (section.Queue level) (table_view table.now)) }
{
    let name = name_at(Key::Name, table);
    let choose = choose_of(table);
    let depth = level;
    rows.push(TreeRow {
        depth,
        name,
        choose,
    })?;
    if level == MAX_DEPTH && count_at(Key::Children, table) != 0 {
        let depth = MAX_DEPTH + 1;
        let choose = None;
        rows.push(TreeRow {
            depth,
            name,
            choose,
        })?;
    }
    Ok(())
}

/// Returns how a queue chooses, where there are queues below it.
fn choose_of(table: &Table) -> Option<Choose>
    ensures { result ≡ choose_of (table_view table.now) }
{
    if !has(Key::Children, table) {
        return None;
    }
    if string_at(Key::Choose, table) == "oldest" {
        Some(Choose::Oldest)
    } else {
        Some(Choose::Ordered)
    }
}

/// Returns where a fault of the trees is reported: an empty tree at the array that is empty, others
/// at the node.
fn tree_path(
    alloc: Global,
    places: &[TableAt<'_>],
    row: usize,
    fault: TreeFault,
) -> Result<Text, AllocError>
    ensures { IfOk result (λ path. path ≡ tree_path (map seen places.now) row fault) }
{
    let Some(path) = path_of_row(alloc, places, row)? else {
        return below(alloc, b"", b"queue");
    };
    match fault {
        TreeFault::Empty => below(alloc, path.as_bytes(), b"sub"),
        _ => Ok(path),
    }
}

/// Returns the path of a row: None if there is no such row.
fn path_of_row(
    alloc: Global,
    places: &[TableAt<'_>],
    row: usize,
) -> Result<Option<Text>, AllocError>
    ensures { IfOk result (λ path. path
        ≡ slice_get (flat_map row_paths (map seen places.now)) row) }
{
    let mut left = row;
    for at in places {
        let count = count_rows(at);
        if left < count {
            return Ok(Some(row_path(alloc, at, left)?));
        }
        left -= count;
    }
    Ok(None)
}

/// Returns how many rows a table has: none, or that of a queue, with the row below it.
fn count_rows(at: &TableAt<'_>) -> usize
    ensures count { result ≡ length (row_paths (seen at.now)) }
    ensures few { result ≤ 2 }
{
    match at.section {
        Section::Queue(level) => if level == MAX_DEPTH && count_at(Key::Children, at.table) != 0 {
            2
        } else {
            1
        },
        _ => 0,
    }
}

/// Returns the path of a queue's own row, or of the row below it.
fn row_path(alloc: Global, at: &TableAt<'_>, number: usize) -> Result<Text, AllocError>
    requires { number < length (row_paths (seen at.now)) }
    ensures { IfOk result (λ path. slice_get (row_paths (seen at.now)) number ≡ Some path) }
{
    if number == 0 {
        at.path.copy()
    } else {
        below(alloc, at.path.as_bytes(), b"sub.1")
    }
}
