//! A list that owns its items.
ghost use Rattle.std.specs.Prelude.{◌≡◌, ◌↔◌, List, [], ◌∷◌, ◌++◌, IsTrue, OnOk, OnErr, IfErr, take, length};

use std::alloc::{AllocError, AllocFailed, Global};
use std::marker::Model;

/// A list of items, which contracts see as a list. It grows at its end alone.
#[derive(Debug, Drop)]
pub struct Rows<T> {
    items: Vec<T>,
}

impl<T> Model for Rows<T> {
    ghost Value = { List T };

    ghost view = { λ rows. rows.items.items };
}

impl<T> Rows<T> {
    /// Returns an empty list, which takes no memory.
    pub fn new(alloc: Global) -> Self
        ensures { result ≡ [] }
    {
        Rows {
            items: Vec::new(alloc),
        }
    }

    /// Adds an item at the end. If memory runs out, nothing changes, and the item is handed back.
    pub fn push(&mut self, item: T) -> Result<(), (T, AllocError)>
        ensures ok { OnOk result (self.new ≡ self.old ++ item ∷ []) }
        ensures err { OnErr result (self.new ≡ self.old) }
        ensures handed_back { IfErr result (λ refused. refused.0 ≡ item) }
    {
        match self.items.push(item) {
            Ok(()) => Ok(()),
            Err(AllocFailed { value, .. }) => Err((value, AllocError)),
        }
    }

    /// Returns the items, in order.
    pub fn as_slice(&self) -> &[T]
        ensures { result.now ≡ self.now }
    {
        self.items.as_slice()
    }

    /// Returns how many items there are.
    pub fn len(&self) -> usize
        ensures { result ≡ length self.now }
    {
        self.items.len()
    }

    /// Returns whether the list is empty.
    pub fn is_empty(&self) -> bool
        ensures { IsTrue result ↔ (self.now ≡ []) }
    {
        self.items.is_empty()
    }

    /// Returns the allocator that the list grows by.
    pub fn allocator(&self) -> Global {
        *self.items.allocator()
    }

    /// Returns the list of a `Vec`'s items, with the room that it has reserved.
    pub fn of_vec(items: Vec<T>) -> Self
        ensures { result ≡ items.items }
    {
        Rows { items }
    }

    /// Returns the items as a `Vec`, with the room that it has reserved.
    pub fn into_vec(self) -> Vec<T>
        ensures { result.items ≡ self }
    {
        let Rows { items } = self;
        items
    }
}

impl<T: Drop> Rows<T> {
    /// Keeps the first items, so many of them, or all where there are fewer.
    pub fn truncate(&mut self, count: usize)
        ensures { self.new ≡ take count self.old }
    {
        self.items.truncate(count);
    }
}

impl Rows<u8> {
    /// Adds bytes at the end. If memory runs out, nothing changes.
    pub fn extend_from_slice(&mut self, bytes: &[u8]) -> Result<(), AllocError>
        ensures ok { OnOk result (self.new ≡ self.old ++ bytes.now) }
        ensures err { OnErr result (self.new ≡ self.old) }
    {
        self.items.extend_from_slice(bytes)
    }

    /// Adds three parts at the end. If memory runs out, nothing changes.
    pub(crate) fn extend_all(
        &mut self,
        first: &[u8],
        second: &[u8],
        third: &[u8],
    ) -> Result<(), AllocError>
        ensures ok { OnOk result (self.new ≡ self.old ++ (first.now ++ (second.now ++ third.now))) }
        ensures err { OnErr result (self.new ≡ self.old) }
    {
        let before = self.items.len();
        let added = add_parts(&mut self.items, first, second, third);
        if added.is_err() {
            self.items.truncate(before);
        }
        added
    }
}

/// Adds three parts at the end. If memory runs out, some of them may have been added.
fn add_parts(
    items: &mut Vec<u8>,
    first: &[u8],
    second: &[u8],
    third: &[u8],
) -> Result<(), AllocError>
    ensures ok { OnOk result (items.new.items
        ≡ items.old.items ++ (first.now ++ (second.now ++ third.now))) }
    ensures front { take (length items.old.items) items.new.items ≡ items.old.items }
{
    items.extend_from_slice(first)?;
    items.extend_from_slice(second)?;
    items.extend_from_slice(third)
}
