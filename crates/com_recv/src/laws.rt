//! Laws of the definitions. A function here does nothing; its contract is the law.
ghost use Rattle.std.specs.Prelude.{◌≡◌, ◌<◌, ◌↔◌, ◌||◌, ℕ, List, length, Some, is_some};
ghost use Rattle.com_cd.specs.Designation.{Designates};
ghost use Rattle.com_tree.specs.declared.tree.TreeRow.{TreeRow as TreeNode};
ghost use Rattle.com_tree.specs.declared.tree.Node.{Node as NodeOf};
ghost use Rattle.com_tree.specs.Written.{IsWritten};
ghost use Rattle.com_tree.specs.Places.{node_with};
ghost use Rattle.com_recv.specs.declared.lists.Waiting.{Waiting as WaitingMessage};
ghost use Rattle.com_recv.specs.Incoming.{Incoming, designated, chosen_leaf, has_message, has_rest};
ghost use Rattle.com_recv.specs.Receiving.{has_data};

/// An area designates a node exactly where it designates a path, and the node has this path.
pub fn an_area_designates_by_its_path()
    ensures { (tree : List TreeNode) (area : List ℕ) (node : NodeOf) → IsWritten tree →
        (designated tree area ≡ Some node)
        ↔ ((path : List (List ℕ)) × Designates area path × (node_with tree path ≡ Some node)) }
{}

/// Whether a node chooses a leaf is what `has_message` tells: that a message waits on a leaf under
/// it.
pub fn has_message_tells_whether_a_leaf_is_chosen()
    ensures { (tree : List TreeNode) (waiting : List WaitingMessage) (node : NodeOf) →
        IsWritten tree → node.row < length tree →
        is_some (chosen_leaf tree waiting node) ≡ has_message tree waiting node }
{}

/// A unit can go on with a RECEIVE under a node exactly where it holds a rest from a leaf there, or
/// a message waits there.
pub fn there_is_data_where_something_waits()
    ensures { (tree : List TreeNode) (incoming : Incoming) (unit : ℕ) (node : NodeOf) →
        IsWritten tree → node.row < length tree → has_data tree incoming unit node
        ≡ (has_rest tree incoming.held unit node || has_message tree incoming.waiting node) }
{}
