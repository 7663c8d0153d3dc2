//! The lists of a network, gathered table by table.
ghost use Rattle.std.specs.Prelude.{◌≡◌, ◌++◌, true, [], map, IfOk, OnOk};
ghost use Rattle.std.specs.List.{list_all};
ghost use Rattle.toml.specs.View.{table_view};
ghost use Rattle.com_net.specs.declared.keys.Section.TheVariants as section;
ghost use Rattle.com_net.specs.declared.keys.Key.TheVariants as key;
ghost use Rattle.com_text.specs.Name.{is_name};
ghost use Rattle.com_net.specs.Network.{is_password, is_file_name, IsNet};
ghost use Rattle.com_net.specs.Values.{string_at};
ghost use Rattle.com_net.specs.Description.{terminal_of, feed_of, framing_of, unit_of, schedule_of, leaf_flags};
ghost use Rattle.com_net.specs.inner.Lists.{terminals_of, passwords_of, units_of, parts_from};
ghost use Rattle.com_net.specs.inner.Sound.{is_name_path, has_input_name, has_path, has_names, has_password};
ghost use Rattle.com_net.specs.inner.Seen.{seen, gathered_parts};

use crate::keys::{Key, Section};
use crate::net::{Feed, Net, Terminal, UnitRow};
use crate::places::TableAt;
use crate::routes::{leaf_with, node_with};
use crate::values::{flag_at, has, name_at, names_at, string_at, text_at};
use com_msg::Framing;
use com_text::{Rows, Text};
use com_tree::{Node, Tree};
use std::alloc::{AllocError, Global};
use toml::Table;

/// The lists of a network except its tree.
#[derive(Drop)]
pub struct Gathered {
    pub terminals: Vec<Terminal>,
    pub queue_passwords: Vec<Text>,
    pub leaf_on: Vec<bool>,
    pub units: Vec<UnitRow>,
}

/// Returns the lists that tables without a fault give.
pub fn gather(alloc: Global, tree: &Tree, places: &[TableAt<'_>]) -> Result<Gathered, AllocError>
    requires names { list_all has_names (map seen places.now) ≡ true }
    requires passwords { list_all has_password (map seen places.now) ≡ true }
    ensures { IfOk result (λ gathered. gathered_parts tree.now gathered
        ≡ parts_from tree.now (map seen places.now)) }
{
    let mut gathered = Gathered {
        terminals: Vec::new(alloc),
        queue_passwords: Vec::new(alloc),
        leaf_on: Vec::new(alloc),
        units: Vec::new(alloc),
    };
    for at in places {
        gathered.add(alloc, tree, at)?;
    }
    Ok(gathered)
}

impl Gathered {
    /// Returns the network of these lists and the tree.
    pub fn into_net(self, alloc: Global, tree: Tree) -> Result<Net, AllocError>
        requires { IsNet (gathered_parts tree self) }
        ensures { IfOk result (λ net. net ≡ gathered_parts tree self) }
    {
        let Gathered {
            terminals,
            queue_passwords,
            leaf_on,
            units,
        } = self;
        Net::of(
            alloc,
            Rows::of_vec(terminals),
            tree,
            Rows::of_vec(queue_passwords),
            Rows::of_vec(leaf_on),
            Rows::of_vec(units),
        )
    }

    /// Adds what a table gives.
    fn add(&mut self, alloc: Global, tree: &Tree, at: &TableAt<'_>) -> Result<(), AllocError>
        requires names { has_names (seen at.now) ≡ true }
        requires password { has_password (seen at.now) ≡ true }
        ensures terminals { OnOk result (self.new.terminals.items
            ≡ self.old.terminals.items ++ terminals_of tree.now (seen at.now)) }
        ensures passwords { OnOk result (self.new.queue_passwords.items
            ≡ self.old.queue_passwords.items ++ passwords_of (seen at.now)) }
        ensures flags { OnOk result (self.new.leaf_on.items
            ≡ self.old.leaf_on.items ++ leaf_flags (seen at.now)) }
        ensures units { OnOk result (self.new.units.items
            ≡ self.old.units.items ++ units_of tree.now (seen at.now)) }
    {
        match at.section {
            Section::Top => {}
            Section::Terminal => self.terminals.push(terminal_of(alloc, tree, at.table)?)?,
            Section::Queue(level) => self.add_queue(alloc, level, at)?,
            Section::Unit => self.units.push(unit_of(alloc, tree, at.table)?)?,
        }
        Ok(())
    }

    /// Adds the password of a queue at the top, and the flag of one without queues below it.
    fn add_queue(&mut self, alloc: Global, level: u32, at: &TableAt<'_>) -> Result<(), AllocError>
        requires level { at.now.section ≡ section.Queue level }
        requires password { has_password (seen at.now) ≡ true }
        ensures passwords { OnOk result (self.new.queue_passwords.items
            ≡ self.old.queue_passwords.items ++ passwords_of (seen at.now)) }
        ensures flags { OnOk result (self.new.leaf_on.items
            ≡ self.old.leaf_on.items ++ leaf_flags (seen at.now)) }
        ensures terminals { OnOk result (self.new.terminals ≡ self.old.terminals) }
        ensures units { OnOk result (self.new.units ≡ self.old.units) }
    {
        if level == 1 {
            let password = text_at(alloc, Key::Password, at.table)?;
            self.queue_passwords.push(password)?;
        }
        if !has(Key::Children, at.table) {
            self.leaf_on.push(flag_at(Key::Enabled, at.table))?;
        }
        Ok(())
    }
}

/// Returns the terminal that a table describes.
fn terminal_of(alloc: Global, tree: &Tree, table: &Table) -> Result<Terminal, AllocError>
    requires name { is_name (string_at key.Name (table_view table.now)) ≡ true }
    requires password { is_password (string_at key.Password (table_view table.now)) ≡ true }
    requires input { has_input_name (table_view table.now) ≡ true }
    requires route { has_path key.Input key.Route (table_view table.now) ≡ true }
    ensures { IfOk result (λ terminal. terminal ≡ terminal_of tree.now (table_view table.now)) }
{
    Ok(Terminal {
        name: name_at(Key::Name, table),
        password: text_at(alloc, Key::Password, table)?,
        feed: feed_of(alloc, tree, table)?,
        input_on: flag_at(Key::InputEnabled, table),
        output_on: flag_at(Key::OutputEnabled, table),
    })
}

/// Returns where a terminal's messages come from, where it has an input.
fn feed_of(alloc: Global, tree: &Tree, table: &Table) -> Result<Option<Feed>, AllocError>
    requires input { has_input_name (table_view table.now) ≡ true }
    requires route { has_path key.Input key.Route (table_view table.now) ≡ true }
    ensures { IfOk result (λ feed. feed ≡ feed_of tree.now (table_view table.now)) }
{
    if !has(Key::Input, table) {
        return Ok(None);
    }
    match leaf_with(tree, names_at(Key::Route, table)) {
        Some(leaf) => Ok(Some(Feed {
            file: text_at(alloc, Key::Input, table)?,
            framing: framing_of(table),
            leaf,
        })),
        None => Ok(None),
    }
}

fn framing_of(table: &Table) -> Framing
    ensures { result ≡ framing_of (table_view table.now) }
{
    if string_at(Key::Framing, table) == "lines" {
        Framing::Lines
    } else {
        Framing::Marks
    }
}

/// Returns the unit that a table describes.
fn unit_of(alloc: Global, tree: &Tree, table: &Table) -> Result<UnitRow, AllocError>
    requires name { is_name (string_at key.Name (table_view table.now)) ≡ true }
    requires source { is_file_name (string_at key.Source (table_view table.now)) ≡ true }
    requires schedule { has_path key.Schedule key.Schedule (table_view table.now) ≡ true }
    ensures { IfOk result (λ unit. unit ≡ unit_of tree.now (table_view table.now)) }
{
    Ok(UnitRow {
        name: name_at(Key::Name, table),
        source: text_at(alloc, Key::Source, table)?,
        schedule: schedule_of(tree, table),
    })
}

/// Returns the node that starts a unit, where it has a schedule.
fn schedule_of(tree: &Tree, table: &Table) -> Option<Node>
    requires { has_path key.Schedule key.Schedule (table_view table.now) ≡ true }
    ensures { result ≡ schedule_of tree.now (table_view table.now) }
{
    if has(Key::Schedule, table) {
        node_with(tree, names_at(Key::Schedule, table))
    } else {
        None
    }
}
