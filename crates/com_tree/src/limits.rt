//! The limits of this crate, each with its number.
ghost use Rattle.std.specs.Prelude.{◌≡◌};
ghost use Rattle.com_tree.specs.declared.tree.TheConstants.{MAX_DEPTH, MAX_LEAVES};

/// States the number of each public limit. It does nothing; its contract is the list.
pub fn limits_are_these()
    ensures depth { MAX_DEPTH ≡ 4 }
    ensures leaves { MAX_LEAVES ≡ 64 }
{}
