//! The queues of a tree: what waits on its leaves, and what units hold of it.
ghost use Rattle.std.specs.Prelude.{◌≡◌, ◌<◌, ◌≤◌, ◌++◌, ◌∷◌, ◌||◌, [], List, length, OnOk, OnErr, IfOk, IfErr, IfSome, is_some, option_map, option_and_then, slice_get};
ghost use Rattle.std.specs.List.{All};
ghost use Rattle.com_tree.specs.declared.tree.TreeRow.{TreeRow as TreeNode};
ghost use Rattle.com_tree.specs.Written.{IsWritten, leaf_count};
ghost use Rattle.com_recv.specs.Incoming.{IsTreeOf, nothing, designated, chosen_leaf, held_under, has_message, has_rest, without_unit};
ghost use Rattle.com_recv.specs.Receiving.{receive, has_data, count};

use crate::areas::{counted_area, no_data_area, refused_area};
use crate::giving::{Request, give_held, give_waiting};
use crate::leaf_queues::LeafQueues;
use crate::lists::{Held, drop_unit, held_between};
use com_cd::{Designation, InArea};
use com_msg::{Kind, MAX_SIZE, Message};
use com_text::Text;
use com_tree::{Leaf, Node, Tree};
use std::alloc::{AllocError, Global};
use std::marker::Model;

/// What a RECEIVE is given.
#[derive(Debug, Drop)]
pub enum Taken {
    /// The text of a portion.
    Given(Text),
    /// The unit holds nothing under the node, and no message waits there.
    NoData,
    /// The area designates no node.
    Unknown,
}

/// What waits on the leaves of a tree, and what units hold of it. Contracts see a record of two
/// lists. Each call is made with the tree that the queues were made for.
#[derive(Debug, Drop)]
pub struct Queues {
    waiting: LeafQueues,
    held: Vec<Held>,
}

impl Model for Queues {
    ghost use Rattle.com_recv.specs.Incoming.{Incoming, IsSound};

    ghost Value = { Incoming };

    ghost view = { λ queues. record {
      waiting = queues.waiting;
      held = queues.held.items;
    } };

    ghost invariant = { λ queues. IsSound (record {
      waiting = queues.waiting;
      held = queues.held.items;
    }) };
}

impl Queues {
    /// Queues where nothing waits and nothing is held, with room for a message on each leaf of the
    /// tree and a rest of each of so many units.
    pub fn new(alloc: Global, tree: &Tree, units: u32) -> Result<Queues, AllocError>
        ensures empty { IfOk result (λ queues. queues ≡ nothing) }
        ensures tree { IfOk result (IsTreeOf tree.now) }
    {
        // What a tree promises of its rows is promised of the tree here.
        let _rows = tree.rows();
        Ok(Queues {
            waiting: LeafQueues::new(alloc, tree)?,
            held: Vec::with_capacity(alloc, units as usize)?,
        })
    }

    /// A message comes to wait on a leaf of the tree, behind all others. It has a greater arrival
    /// number than those. Without memory nothing changes, and the message is handed back. The tree
    /// says which leaves there are, and is there for the contract alone.
    pub fn put(
        &mut self,
        _tree: &Tree,
        leaf: Leaf,
        message: Message,
    ) -> Result<(), (Message, AllocError)>
        requires tree { IsTreeOf _tree.now self.old }
        requires leaf { leaf.number < leaf_count _tree.now }
        requires segments { 1 ≤ length message.segments }
        requires later { All (λ w. w.message.arrival < message.arrival) self.old.waiting }
        ensures ok { OnOk result (self.new ≡ record self.old {
          waiting = self.old.waiting ++ record { leaf = leaf; message = message } ∷ [];
        }) }
        ensures tree { IsTreeOf _tree.now self.new }
        ensures err { OnErr result (self.new ≡ self.old) }
        ensures handed_back { IfErr result (λ refused. refused.0 ≡ message) }
    {
        match self.waiting.push(leaf, message) {
            Ok(()) => Ok(()),
            Err(refused) => Err((refused, AllocError)),
        }
    }

    /// RECEIVE of a unit: a portion of at most `size` characters of what the unit holds under the
    /// designated node, or else of the message that the node chooses. The area tells of it. What is
    /// left of the message is held by the unit. Without memory nothing changes.
    pub fn receive(
        &mut self,
        tree: &Tree,
        unit: u32,
        area: &mut InArea,
        kind: Kind,
        size: u32,
    ) -> Result<Taken, AllocError>
        requires tree { IsTreeOf tree.now self.old }
        requires size { (1 ≤ size) × (size ≤ MAX_SIZE) }
        ensures received { IfOk result (λ taken. (taken, area.new, self.new)
            ≡ receive tree.now self.old unit area.old kind size) }
        ensures tree { IsTreeOf tree.now self.new }
        ensures err { OnErr result (self.new ≡ self.old) }
        ensures area_err { OnErr result (area.new ≡ area.old) }
    {
        let Some(node) = designated(tree, area) else {
            *area = refused_area(*area);
            return Ok(Taken::Unknown);
        };
        let request = Request { unit, kind, size };
        if let Some(at) = self.held_under(tree, unit, node) {
            let text = give_held(tree, &mut self.held, at, area, request)?;
            return Ok(Taken::Given(text));
        }
        match self.waiting.choice(tree, node) {
            Some(leaf) => {
                let text = give_waiting(
                    tree,
                    &mut self.waiting,
                    leaf,
                    &mut self.held,
                    area,
                    request,
                )?;
                Ok(Taken::Given(text))
            }
            None => {
                *area = no_data_area(*area);
                Ok(Taken::NoData)
            }
        }
    }

    /// Whether a RECEIVE of the unit that designates a node has something to go on with: a rest that
    /// it holds from a leaf there, or a message that waits on one.
    pub fn has_data(&self, tree: &Tree, unit: u32, node: Node) -> bool
        requires tree { IsTreeOf tree.now self.now }
        requires node { node.row < length tree.now }
        ensures data { result ≡ has_data tree.now self.now unit node }
        ensures exact { result ≡ (has_rest tree.now self.now.held unit node
            || has_message tree.now self.now.waiting node) }
    {
        self.held_under(tree, unit, node).is_some() || self.choice(tree, node).is_some()
    }

    /// Whether a message waits on a leaf under a node.
    pub fn has_message(&self, tree: &Tree, node: Node) -> bool
        requires tree { IsTreeOf tree.now self.now }
        requires node { node.row < length tree.now }
        ensures message { result ≡ has_message tree.now self.now.waiting node }
        ensures choice { result ≡ is_some (chosen_leaf tree.now self.now.waiting node) }
    {
        self.choice(tree, node).is_some()
    }

    /// The leaf that a node chooses, by the first message that waits on each leaf: None exactly
    /// where no message waits under the node.
    pub fn choice(&self, tree: &Tree, node: Node) -> Option<Leaf>
        requires tree { IsTreeOf tree.now self.now }
        requires node { node.row < length tree.now }
        ensures leaf { option_map (λ leaf. leaf.number) result
            ≡ chosen_leaf tree.now self.now.waiting node }
        ensures message { is_some result ≡ has_message tree.now self.now.waiting node }
        ensures within { IfSome result (λ leaf. leaf.number < leaf_count tree.now) }
    {
        self.waiting.choice(tree, node)
    }

    /// ACCEPT MESSAGE COUNT: the area tells how many messages wait under the designated node.
    pub fn count(&self, tree: &Tree, area: &mut InArea)
        requires tree { IsTreeOf tree.now self.now }
        ensures { area.new ≡ count tree.now self.now area.old }
    {
        *area = match designated(tree, area) {
            Some(node) => { counted_area(self.waiting.count(tree, node), *area) }
            None => refused_area(*area),
        };
    }

    /// What a unit holds is gone.
    pub fn drop_unit(&mut self, unit: u32)
        ensures held { self.new ≡ record self.old { held = without_unit unit self.old.held } }
        ensures tree { (tree : List TreeNode) → IsTreeOf tree self.old → IsTreeOf tree self.new }
    {
        drop_unit(&mut self.held, unit);
    }

    /// The place of what the unit holds on the first leaf under a node that it holds something
    /// from.
    fn held_under(&self, tree: &Tree, unit: u32, node: Node) -> Option<usize>
        requires node { node.row < length tree.now }
        ensures held { option_and_then (slice_get self.now.held) result
            ≡ held_under tree.now self.now.held unit node }
        ensures within { IfSome result (λ at. at < length self.now.held) }
    {
        let (first, past) = tree.leaves_under(node);
        held_between(&self.held, unit, first, past)
    }
}

/// The node that the names of an area designate.
pub fn designated(tree: &Tree, area: &InArea) -> Option<Node>
    requires { IsWritten tree.now }
    ensures node { result ≡ designated tree.now area.now }
    ensures within { IfSome result (λ node. node.row < length tree.now) }
{
    match area.designation() {
        Designation::Path(path) => tree.node(&path),
        Designation::Malformed => None,
    }
}
