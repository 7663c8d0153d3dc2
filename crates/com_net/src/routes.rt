//! Routes of terminals and schedules of units.
ghost use Rattle.std.specs.Prelude.{◌≡◌, ◌<◌, true, length, map, option_map, IfOk, IfSome};
ghost use Rattle.std.specs.List.{list_all};
ghost use Rattle.toml.specs.View.{table_view};
ghost use Rattle.com_tree.specs.Places.{node_with};
ghost use Rattle.com_net.specs.declared.keys.Key.TheVariants as key;
ghost use Rattle.com_net.specs.Places.{key_path};
ghost use Rattle.com_net.specs.KeyFaults.{first_of};
ghost use Rattle.com_net.specs.TreeFaults.{leaf_with, leads_to_no_leaf, leads_to_no_node, bad_route};
ghost use Rattle.com_net.specs.inner.Sound.{is_name_path, has_path, has_names};
ghost use Rattle.com_net.specs.inner.Seen.{seen, texts_in};

use crate::key_faults::path_of_key;
use crate::keys::{Key, Section};
use crate::places::TableAt;
use crate::values::{has, names_at, path_of};
use com_text::Text;
use com_tree::{Leaf, Node, Tree};
use std::alloc::{AllocError, Global};
use toml::{Table, Value};

/// Returns the node at the end of a path.
pub fn node_with(tree: &Tree, names: &[Value]) -> Option<Node>
    requires { is_name_path (texts_in names.now) ≡ true }
    ensures node { result ≡ node_with tree.now (texts_in names.now) }
    ensures within { IfSome result (λ node. node.row < length tree.now) }
{
    tree.node(&path_of(names))
}

/// Returns the leaf at the end of a path.
pub fn leaf_with(tree: &Tree, names: &[Value]) -> Option<Leaf>
    requires { is_name_path (texts_in names.now) ≡ true }
    ensures { result ≡ leaf_with tree.now (texts_in names.now) }
{
    match node_with(tree, names) {
        Some(node) => tree.leaf(node),
        None => None,
    }
}

/// Returns whether a terminal's messages would come to no leaf.
fn leads_to_no_leaf(tree: &Tree, table: &Table) -> bool
    requires { has_path key.Input key.Route (table_view table.now) ≡ true }
    ensures { result ≡ leads_to_no_leaf tree.now (table_view table.now) }
{
    has(Key::Input, table) && leaf_with(tree, names_at(Key::Route, table)).is_none()
}

/// Returns whether no node would start a unit.
fn leads_to_no_node(tree: &Tree, table: &Table) -> bool
    requires { has_path key.Schedule key.Schedule (table_view table.now) ≡ true }
    ensures { result ≡ leads_to_no_node tree.now (table_view table.now) }
{
    has(Key::Schedule, table) && node_with(tree, names_at(Key::Schedule, table)).is_none()
}

/// Returns the key of a table's path that leads nowhere.
fn lost_key(tree: &Tree, at: &TableAt<'_>) -> Option<Key>
    requires { has_names (seen at.now) ≡ true }
    ensures { option_map (key_path (seen at.now)) result ≡ bad_route tree.now (seen at.now) }
{
    match at.section {
        Section::Terminal => if leads_to_no_leaf(tree, at.table) {
            Some(Key::Route)
        } else {
            None
        },
        Section::Unit => if leads_to_no_node(tree, at.table) {
            Some(Key::Schedule)
        } else {
            None
        },
        _ => None,
    }
}

/// Returns the first route that leads to no leaf or schedule that leads to no node.
pub fn bad_route(
    alloc: Global,
    tree: &Tree,
    places: &[TableAt<'_>],
) -> Result<Option<Text>, AllocError>
    requires { list_all has_names (map seen places.now) ≡ true }
    ensures { IfOk result (λ found. found
        ≡ first_of (bad_route tree.now) (map seen places.now)) }
{
    for at in places {
        if let Some(path) = path_of_key(alloc, at, lost_key(tree, at))? {
            return Ok(Some(path));
        }
    }
    Ok(None)
}
