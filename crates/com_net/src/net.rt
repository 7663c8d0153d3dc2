//! Terminals, queues and run units, in the order in which they are written.
ghost use Rattle.std.specs.Prelude.{◌≡◌, ◌<◌, ◌≤◌, length, IsTrue, IfOk, IfSome};
ghost use Rattle.std.specs.List.{position};
ghost use Rattle.std.specs.Str.{bytes_eq};
ghost use Rattle.com_net.specs.Network.{IsNet, are_distinct, names_of_terminals, names_of_units};
ghost use Rattle.com_net.specs.Numbers.{terminal_number, unit_number};

use com_msg::Framing;
use com_text::{Name, Rows, Text};
use com_tree::{Leaf, Node, Tree};
use indexmap::IndexSet;
use std::alloc::{AllocError, Global};
use std::marker::Model;

/// How many terminals a network has at most.
pub const MAX_TERMINALS: usize = 32;

/// How many run units a network has at most.
pub const MAX_UNITS: usize = 16;

/// How many characters a password has at most.
pub const MAX_PASSWORD_LENGTH: usize = 10;

/// Where a terminal's messages come from and go to.
#[derive(Debug, Drop)]
pub struct Feed {
    /// The name of the file that holds what is typed.
    pub file: Text,
    pub framing: Framing,
    /// The leaf that its messages wait on.
    pub leaf: Leaf,
}

/// A terminal.
#[derive(Debug, Drop)]
pub struct Terminal {
    pub name: Name,
    /// The key of ENABLE and DISABLE: 1 to 10 characters, the last no space.
    pub password: Text,
    /// None where nothing is typed there.
    pub feed: Option<Feed>,
    /// Whether its input is enabled at the beginning.
    pub input_on: bool,
    /// Whether its output is enabled at the beginning.
    pub output_on: bool,
}

/// A run unit.
#[derive(Debug, Drop)]
pub struct UnitRow {
    pub name: Name,
    /// The name of the file that holds its program.
    pub source: Text,
    /// The node whose first message starts the unit; None where it starts by itself.
    pub schedule: Option<Node>,
}

/// A network. Contracts see a record of the public fields, of which `IsNet` holds.
#[derive(Debug, Drop)]
pub struct Net {
    pub terminals: Rows<Terminal>,
    pub tree: Tree,
    /// The key of ENABLE and DISABLE for each tree, in the order of their top nodes.
    pub queue_passwords: Rows<Text>,
    /// Whether each leaf is enabled at the beginning.
    pub leaf_on: Rows<bool>,
    pub units: Rows<UnitRow>,
    /// The names of the terminals, in their order.
    terminal_names: IndexSet<Name>,
    /// The names of the units, in their order.
    unit_names: IndexSet<Name>,
}

impl Model for Net {
    ghost use Rattle.std.specs.Prelude.{◌≡◌};
    ghost use Rattle.com_net.specs.Parts.{Parts};

    ghost Value = { Parts };

    ghost use Rattle.com_net.specs.Network.{IsNet, names_of_terminals, names_of_units};
    ghost use Rattle.com_net.specs.inner.Inside.{parts};

    ghost view = { parts };

    ghost invariant = { λ net. IsNet (parts net)
        × (net.terminal_names.keys ≡ names_of_terminals net.terminals)
        × (net.unit_names.keys ≡ names_of_units net.units) };
}

impl Net {
    /// Returns the network with these parts. Fails only if memory runs out.
    pub fn of(
        alloc: Global,
        terminals: Rows<Terminal>,
        tree: Tree,
        queue_passwords: Rows<Text>,
        leaf_on: Rows<bool>,
        units: Rows<UnitRow>,
    ) -> Result<Net, AllocError>
        requires net { IsNet (record {
          terminals = terminals;
          tree = tree;
          queue_passwords = queue_passwords;
          leaf_on = leaf_on;
          units = units;
        }) }
        ensures terminals { IfOk result (λ net. net.terminals ≡ terminals) }
        ensures tree { IfOk result (λ net. net.tree ≡ tree) }
        ensures passwords { IfOk result (λ net. net.queue_passwords ≡ queue_passwords) }
        ensures flags { IfOk result (λ net. net.leaf_on ≡ leaf_on) }
        ensures units { IfOk result (λ net. net.units ≡ units) }
    {
        let terminal_names = set_of(alloc, &names_of_terminals(alloc, terminals.as_slice())?)?;
        let unit_names = set_of(alloc, &names_of_units(alloc, units.as_slice())?)?;
        Ok(Net {
            terminals,
            tree,
            queue_passwords,
            leaf_on,
            units,
            terminal_names,
            unit_names,
        })
    }

    /// Returns a network with the same parts. Fails only if memory runs out.
    pub fn copy(&self) -> Result<Net, AllocError>
        ensures { IfOk result (λ copy. copy ≡ self.now) }
    {
        let alloc = self.terminals.allocator();
        let terminals = copies_of(alloc, self.terminals.as_slice())?;
        let tree = self.tree.copy()?;
        let queue_passwords = copies_of(alloc, self.queue_passwords.as_slice())?;
        let leaf_on = Rows::of_vec(Vec::from_slice(alloc, self.leaf_on.as_slice())?);
        let units = copies_of(alloc, self.units.as_slice())?;
        Net::of(alloc, terminals, tree, queue_passwords, leaf_on, units)
    }

    /// Returns the number of the terminal with a name: None exactly if there is no such one.
    pub fn terminal(&self, name: &Name) -> Option<u32>
        ensures number { result ≡ terminal_number self.now name.now }
        ensures within { IfSome result (λ number. number < length self.now.terminals) }
    {
        number_of(&self.terminal_names, name)
    }

    /// Returns the number of the unit with a name: None exactly if there is no such one.
    pub fn unit(&self, name: &Name) -> Option<u32>
        ensures number { result ≡ unit_number self.now name.now }
        ensures within { IfSome result (λ number. number < length self.now.units) }
    {
        number_of(&self.unit_names, name)
    }
}

/// Returns the place of a name in a set of a few names.
fn number_of(names: &IndexSet<Name>, name: &Name) -> Option<u32>
    requires few { length names.now.keys ≤ MAX_TERMINALS }
    ensures number { result ≡ position (λ other. bytes_eq other name.now) names.now.keys }
    ensures within { IfSome result (λ number. number < length names.now.keys) }
{
    match names.get_index_of(name) {
        Some(place) => Some(place as u32),
        None => None,
    }
}

/// Returns the names of terminals, in their order.
fn names_of_terminals(alloc: Global, terminals: &[Terminal]) -> Result<Vec<Name>, AllocError>
    ensures { IfOk result (λ names. names.items ≡ names_of_terminals terminals.now) }
{
    terminals
        .iter()
        .map(|terminal| terminal.name)
        .collect(alloc)
}

/// Returns the names of units, in their order.
fn names_of_units(alloc: Global, units: &[UnitRow]) -> Result<Vec<Name>, AllocError>
    ensures { IfOk result (λ names. names.items ≡ names_of_units units.now) }
{
    units.iter().map(|unit| unit.name).collect(alloc)
}

/// Returns the set of distinct names, in their order.
fn set_of(alloc: Global, names: &[Name]) -> Result<IndexSet<Name>, AllocError>
    requires { IsTrue (are_distinct names.now) }
    ensures { IfOk result (λ set. set.keys ≡ names.now) }
{
    let mut set = IndexSet::new(alloc);
    for name in names {
        set.insert(*name)?;
    }
    Ok(set)
}

/// What is copied where there is memory.
trait TryCopy: Drop {
    /// Returns an equal value. Fails only if memory runs out.
    fn try_copy(&self) -> Result<Self, AllocError>
        ensures { IfOk result (λ copy. copy ≡ self.now) };
}

impl TryCopy for Text {
    fn try_copy(&self) -> Result<Text, AllocError> {
        self.copy()
    }
}

impl TryCopy for Feed {
    fn try_copy(&self) -> Result<Feed, AllocError> {
        Ok(Feed {
            file: self.file.copy()?,
            framing: self.framing,
            leaf: self.leaf,
        })
    }
}

impl TryCopy for Terminal {
    fn try_copy(&self) -> Result<Terminal, AllocError> {
        Ok(Terminal {
            name: self.name,
            password: self.password.copy()?,
            feed: copy_of_feed(&self.feed)?,
            input_on: self.input_on,
            output_on: self.output_on,
        })
    }
}

impl TryCopy for UnitRow {
    fn try_copy(&self) -> Result<UnitRow, AllocError> {
        Ok(UnitRow {
            name: self.name,
            source: self.source.copy()?,
            schedule: self.schedule,
        })
    }
}

fn copy_of_feed(feed: &Option<Feed>) -> Result<Option<Feed>, AllocError>
    ensures { IfOk result (λ copy. copy ≡ feed.now) }
{
    match feed {
        Some(feed) => Ok(Some(feed.try_copy()?)),
        None => Ok(None),
    }
}

/// Equal items, in their order.
fn copies_of<T: TryCopy>(alloc: Global, items: &[T]) -> Result<Rows<T>, AllocError>
    ensures { IfOk result (λ copies. copies ≡ items.now) }
{
    let mut copies = Vec::new(alloc);
    for item in items {
        copies.push(item.try_copy()?)?;
    }
    Ok(Rows::of_vec(copies))
}
