//! Lists by name.
ghost use Rattle.std.specs.Prelude.{◌≡◌, ◌++◌, [], option_map, unwrap_or, OnOk, OnErr, IfOk};
ghost use Rattle.std.specs.Option.{option_copied};
ghost use Rattle.std.specs.FinMap as finite;

use std::alloc::{AllocError, Global};
use std::collections::BTreeMap;
use std::marker::Model;

/// A list for each of some names.
#[derive(Debug, Drop)]
pub(crate) struct Named<T> {
    lists: BTreeMap<String, Vec<T>>,
}

impl<T> Model for Named<T> {
    ghost use Rattle.std.specs.Prelude.{List};
    ghost use Rattle.std.specs.Ordering.{nat_cmp};
    ghost use Rattle.std.specs.Cmp.Lexicographic.{slice_cmp};
    ghost use Rattle.std.specs.Coded.{coded_ℕ, coded_list};
    ghost use Rattle.std.specs.FinMap as finite;
    ghost use Rattle.com_io.specs.Named.{lists_by_name};

    ghost Value = { finite.FinMap (slice_cmp nat_cmp) (List T) };

    ghost coded = { finite.code (coded_list coded_ℕ) (coded_list T.code) };

    ghost view = { λ n. lists_by_name n.lists.entries };
}

impl<T: Copy> Named<T> {
    /// With no names.
    pub(crate) fn new(alloc: Global) -> Self
        ensures { result ≡ finite.empty }
    {
        Named {
            lists: BTreeMap::new(alloc),
        }
    }

    /// The list of a name.
    pub(crate) fn get(&self, name: &str) -> Option<&[T]>
        ensures { option_copied result ≡ finite.get self.now name.now }
    {
        Some(self.lists.get(name)?.as_slice())
    }

    /// A copy of the list of a name.
    pub(crate) fn copy_of(&self, alloc: Global, name: &str) -> Result<Option<Vec<T>>, AllocError>
        ensures { IfOk result (λ list.
            option_map (λ v. v.items) list ≡ finite.get self.now name.now) }
    {
        match self.get(name) {
            Some(list) => Ok(Some(Vec::from_slice(alloc, list)?)),
            None => Ok(None),
        }
    }

    /// Gives a name this list, in place of any that it has.
    pub(crate) fn insert(&mut self, alloc: Global, name: &str, list: &[T]) -> Result<(), AllocError>
        ensures ok { OnOk result (self.new ≡ finite.insert self.old name.now list.now) }
        ensures err { OnErr result (self.new ≡ self.old) }
    {
        let key = String::from_str(alloc, name)?;
        let value = Vec::from_slice(alloc, list)?;
        self.lists.insert(key, value)?;
        Ok(())
    }

    /// Adds to the end of a name's list, which is empty before the first.
    pub(crate) fn append(&mut self, alloc: Global, name: &str, more: &[T]) -> Result<(), AllocError>
        ensures ok { OnOk result (self.new ≡ finite.insert self.old name.now
            (unwrap_or (finite.get self.old name.now) [] ++ more.now)) }
        ensures err { OnErr result (self.new ≡ self.old) }
    {
        if let Some(list) = self.lists.get_mut(name) {
            list.extend_from_slice(more)?;
            return Ok(());
        }
        self.insert(alloc, name, more)
    }
}
