//! The queue trees of a network.
//!
//! [`Tree::build`] makes a tree of rows in preorder exactly where they have no fault, and otherwise
//! answers the first kind of fault that there is, at its first row. Every [`Tree`] has one node or
//! more, every inner node a child, at most four levels and 64 leaves, and siblings of different
//! names. `node` is the node with a path, `path` the path of a leaf, `leaf` the leaf that a node
//! is, `leaves_under` the leaves under a node, `top` the number of its tree, and `next` the leaf
//! that a node chooses, by the arrival number of the first message on each leaf. A node chooses a
//! leaf exactly where a message waits under it ([`a_node_chooses_where_a_message_waits`]).
//!
//! ```rust
//! use com_tree::{Choose, Tree, TreeRow};
//!
//! let rows = [
//!     TreeRow { depth: 1, name: orders, choose: Some(Choose::Oldest) },
//!     TreeRow { depth: 2, name: north, choose: None },
//!     TreeRow { depth: 2, name: south, choose: None },
//! ];
//! let tree = Tree::build(alloc, &rows)?;
//! let node = tree.node(&NamePath::new(orders)).ok_or("no such node")?;
//! let leaf = tree.next(node, &[Some(7), Some(3)]); // SOUTH: its first message came first
//! ```
#![tactic(auto)]

mod build;
mod counts;
mod heads;
mod index;
mod laws;
pub mod limits;
mod search;
mod tree;

pub use build::{TreeError, TreeFault, is_outline};
pub use counts::Counts;
pub use heads::Heads;
pub use laws::a_node_chooses_where_a_message_waits;
pub use tree::{Choose, Leaf, MAX_DEPTH, MAX_LEAVES, Node, Tree, TreeRow};
