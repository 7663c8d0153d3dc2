//! What holds of every tree.
ghost use Rattle.std.specs.Prelude.{ℕ, ◌<◌, ◌↔◌, List, length, Option, IsSome, IfSome};
ghost use Rattle.com_tree.specs.declared.tree.TreeRow.{TreeRow};
ghost use Rattle.com_tree.specs.declared.tree.Node.{Node};
ghost use Rattle.com_tree.specs.Written.{IsWritten};
ghost use Rattle.com_tree.specs.NextLeaf.{next_leaf, WaitsUnder};

/// A node chooses a leaf exactly where a message waits on some leaf under it, whatever the arrival
/// numbers are. On the leaf that it chooses a message waits, and it stands under the node.
pub fn a_node_chooses_where_a_message_waits()
    ensures chooses { (rows : List TreeRow) (node : Node) (first : ℕ → Option ℕ)
        → IsWritten rows → node.row < length rows
        → (IsSome (next_leaf rows node first) ↔ ((leaf : ℕ) × WaitsUnder rows node first leaf)) }
    ensures chosen { (rows : List TreeRow) (node : Node) (first : ℕ → Option ℕ)
        → IsWritten rows → node.row < length rows
        → IfSome (next_leaf rows node first) (λ leaf. WaitsUnder rows node first leaf.number) }
{}
