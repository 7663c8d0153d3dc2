//! The tables of a description, in the order of the walk.
ghost use Rattle.std.specs.Prelude.{◌≡◌, ◌++◌, ◌∷◌, ◌-◌, ◌<◌, ◌≤◌, map, codes, IfOk, OnOk};
ghost use Rattle.com_text.specs.Text.{IsText};
ghost use Rattle.toml.specs.View.{items_view, table_view};
ghost use Rattle.com_net.specs.declared.keys.Section.TheVariants as section;
ghost use Rattle.com_net.specs.declared.keys.Key.TheVariants as key;
ghost use Rattle.com_net.specs.Values.{tables_of, tables_at};
ghost use Rattle.com_net.specs.Places.{places, places_from, queues_from, below};
ghost use Rattle.com_net.specs.inner.Seen.{seen};

use crate::keys::{Key, Section};
use crate::paths::{below, element};
use crate::values::tables_at;
use com_text::Text;
use com_tree::MAX_DEPTH;
use std::alloc::{AllocError, Global};
use toml::{Table, Value};

/// A table, what it is, and its path.
#[derive(Drop)]
pub struct TableAt<'a> {
    pub section: Section,
    pub path: Text,
    pub table: &'a Table,
}

/// Returns the tables of a document: itself, the terminals, the queues in preorder, the units.
pub fn places<'a>(alloc: Global, document: &'a Table) -> Result<Vec<TableAt<'a>>, AllocError>
    ensures { IfOk result (λ found. map seen found.items ≡ places (table_view document.now)) }
{
    let mut found = Vec::new(alloc);
    found.push(TableAt {
        section: Section::Top,
        path: below(alloc, b"", b"")?,
        table: document,
    })?;
    let terminals = tables_at(Key::Terminals, document);
    push_tables(alloc, Section::Terminal, b"terminal", terminals, &mut found)?;
    push_queues(
        alloc,
        MAX_DEPTH,
        b"queue",
        tables_at(Key::Queues, document),
        &mut found,
    )?;
    let units = tables_at(Key::Units, document);
    push_tables(alloc, Section::Unit, b"unit", units, &mut found)?;
    Ok(found)
}

/// Adds the tables among these values, numbered from 1 on.
fn push_tables<'a>(
    alloc: Global,
    section: Section,
    path: &[u8],
    values: &'a [Value],
    found: &mut Vec<TableAt<'a>>,
) -> Result<(), AllocError>
    requires path { IsText path.now }
    ensures tables { OnOk result (map seen found.new.items ≡ map seen found.old.items
        ++ places_from 1 section path.now (tables_of (items_view values.now))) }
{
    let mut number = 1u64;
    for value in values {
        if let Some(table) = value.as_table() {
            let path = element(alloc, path, number)?;
            found.push(TableAt {
                section,
                path,
                table,
            })?;
            number += 1;
        }
    }
    Ok(())
}

/// Adds the queues among these values, numbered from 1 on, each before those below it, down to so
/// many levels.
#[cycle(queues)]
fn push_queues<'a>(
    alloc: Global,
    levels: u32,
    path: &[u8],
    values: &'a [Value],
    found: &mut Vec<TableAt<'a>>,
) -> Result<(), AllocError>
    requires path { IsText path.now }
    requires levels { levels ≤ MAX_DEPTH }
    ensures queues { OnOk result (map seen found.new.items ≡ map seen found.old.items
        ++ queues_from levels 1 path.now (tables_of (items_view values.now))) }
{
    if levels == 0 {
        return Ok(());
    }
    let mut number = 1u64;
    for value in values {
        if let Some(table) = value.as_table() {
            push_queue(
                alloc,
                levels - 1,
                element(alloc, path, number)?,
                table,
                found,
            )?;
            number += 1;
        }
    }
    Ok(())
}

/// Adds a queue, and those below it down to so many levels.
#[cycle(queues)]
fn push_queue<'a>(
    alloc: Global,
    levels: u32,
    path: Text,
    table: &'a Table,
    found: &mut Vec<TableAt<'a>>,
) -> Result<(), AllocError>
    requires levels { levels < MAX_DEPTH }
    ensures queues { OnOk result (map seen found.new.items ≡ map seen found.old.items
        ++ record { section = section.Queue (MAX_DEPTH - levels); path = path; table = table_view table.now }
        ∷ queues_from levels 1 (below path (codes "sub"))
        (tables_at key.Children (table_view table.now))) }
{
    let inner = below(alloc, path.as_bytes(), b"sub")?;
    found.push(TableAt {
        section: Section::Queue(MAX_DEPTH - levels),
        path,
        table,
    })?;
    push_queues(
        alloc,
        levels,
        inner.as_bytes(),
        tables_at(Key::Children, table),
        found,
    )
}
