//! Paths of names through a queue tree.
ghost use Rattle.std.specs.Prelude.{◌≡◌, ◌↔◌, ◌≤◌, ℕ, List, [], ◌∷◌, ◌++◌, length, IsNone, IfSome, bytes_eq};
ghost use Rattle.std.specs.Cmp.Lexicographic.{pointwise};
ghost use Rattle.std.specs.Cmp.Rules.{comparing};
ghost use Rattle.std.proofs.Common.{rules};

use crate::Name;
use std::marker::Model;

/// How many names a path has at most.
pub const MAX_NAMES: usize = 4;

/// One to four names, from the top of a queue tree down. Contracts see the list of the names.
#[derive(Clone, Copy, Debug, Eq)]
pub struct NamePath {
    /// The names, and past them the first name again in each place.
    names: [Name; MAX_NAMES],
    /// How many names the path has, 1 to 4.
    count: usize,
}

impl Model for NamePath {
    ghost use Rattle.std.specs.Prelude.{◌≡◌, ◌≤◌, List, ℕ, length, take};
    ghost use Rattle.com_text.specs.Name.{filled_path};

    ghost Value = { List (List ℕ) };

    ghost view = { λ path. take path.count path.names };

    ghost invariant = { λ path. (1 ≤ path.count)
        × (path.count ≡ length (take path.count path.names))
        × (path.names ≡ filled_path (take path.count path.names))
        × (length path.names ≡ 4) };

    ghost inverse = { λ names. record { names = filled_path names; count = length names } };
}

impl PartialEq for NamePath {
    ghost eq = { pointwise bytes_eq };

    ghost laws = { Prim.search (comparing, rules) };

    fn eq(&self, other: &NamePath) -> bool {
        self.names() == other.names()
    }
}

impl NamePath {
    /// Returns the path of one name.
    pub fn new(first: Name) -> NamePath
        ensures { result ≡ first ∷ [] }
    {
        NamePath {
            names: [first; MAX_NAMES],
            count: 1,
        }
    }

    /// Returns the path with one more name below: None exactly at four names.
    pub fn then(&self, next: Name) -> Option<NamePath>
        ensures none { IsNone result ↔ (length self.now ≡ MAX_NAMES) }
        ensures longer { IfSome result (λ path. path ≡ self.now ++ next ∷ []) }
    {
        if self.count == MAX_NAMES {
            return None;
        }
        let mut path = *self;
        path.names[path.count] = next;
        path.count += 1;
        Some(path)
    }

    /// Returns its names, one to four, from the top down.
    pub fn names(&self) -> &[Name]
        ensures names { result.now ≡ self.now }
        ensures not_empty { 1 ≤ length self.now }
        ensures few { length self.now ≤ MAX_NAMES }
    {
        &self.names[..self.count]
    }
}
