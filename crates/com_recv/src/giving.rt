//! Giving portions of what is held and of what waits.
ghost use Rattle.std.specs.Prelude.{◌≡◌, ◌<◌, ◌≤◌, Some, length, slice_get, IfOk, OnOk, OnErr};
ghost use Rattle.com_msg.specs.declared.message.Message.{Message as MessageOf};
ghost use Rattle.com_msg.specs.Portion.{IsEndKey};
ghost use Rattle.com_tree.specs.Written.{leaf_count};
ghost use Rattle.com_recv.specs.declared.lists.Held.{Held as HeldRest};
ghost use Rattle.com_recv.specs.Incoming.{first_on, without_first};
ghost use Rattle.com_recv.specs.Areas.{given_area};
ghost use Rattle.com_recv.specs.Giving.{IsOnTree, Gives};

use crate::areas::portion_area;
use crate::leaf_queues::LeafQueues;
use crate::lists::{Held, hold};
use com_cd::InArea;
use com_msg::{Kind, MAX_SIZE, Portion, Rest};
use com_text::Text;
use com_tree::{Leaf, MAX_LEAVES, Tree};
use std::alloc::AllocError;

/// What a RECEIVE of a unit asks for.
#[derive(Clone, Copy, Debug)]
pub struct Request {
    pub unit: u32,
    pub kind: Kind,
    /// How many characters at most, from 1 to [`MAX_SIZE`].
    pub size: u32,
}

/// Gives a portion of the rest at a place, which the unit holds. It goes on to hold what is left.
pub fn give_held(
    tree: &Tree,
    held: &mut Vec<Held>,
    at: usize,
    area: &mut InArea,
    request: Request,
) -> Result<Text, AllocError>
    requires at { at < length held.old.items }
    requires owner { (h : HeldRest) → slice_get held.old.items at ≡ Some h
        → h.unit ≡ request.unit }
    requires leaf { (h : HeldRest) → slice_get held.old.items at ≡ Some h
        → IsOnTree tree.now h.leaf.number h.rest }
    requires size { (1 ≤ request.size) × (request.size ≤ MAX_SIZE) }
    ensures given { (h : HeldRest) → slice_get held.old.items at ≡ Some h → IfOk result
        (Gives tree.now request h.leaf.number h.rest held.old.items area.old area.new
        held.new.items) }
    ensures err { OnErr result ((held.new.items ≡ held.old.items) × (area.new ≡ area.old)) }
{
    let portion = held[at].rest.take(request.kind, request.size)?;
    let Held { unit, leaf, rest } = held.remove(at);
    *area = given_area(tree, leaf, &rest, &portion, *area);
    hold(held, unit, leaf, rest);
    Ok(portion.text)
}

/// Gives a portion of the first message on a leaf, which leaves the queue. The unit holds what is
/// left.
pub fn give_waiting(
    tree: &Tree,
    waiting: &mut LeafQueues,
    leaf: Leaf,
    held: &mut Vec<Held>,
    area: &mut InArea,
    request: Request,
) -> Result<Text, AllocError>
    requires leaf { leaf.number < leaf_count tree.now }
    requires few { leaf_count tree.now ≤ MAX_LEAVES }
    requires some { (message : MessageOf) × (first_on waiting.old leaf.number ≡ Some message)
        × (1 ≤ length message.segments) }
    requires size { (1 ≤ request.size) × (request.size ≤ MAX_SIZE) }
    ensures given { (message : MessageOf) → first_on waiting.old leaf.number ≡ Some message
        → IfOk result (Gives tree.now request leaf.number message held.old.items area.old area.new
        held.new.items) }
    ensures taken { OnOk result (waiting.new ≡ without_first leaf.number waiting.old) }
    ensures err { OnErr result ((waiting.new ≡ waiting.old)
        × (held.new.items ≡ held.old.items) × (area.new ≡ area.old)) }
{
    held.try_reserve(1)?;
    let (message, portion) = waiting.take_first(leaf, request.kind, request.size)?;
    *area = given_area(tree, leaf, &message, &portion, *area);
    hold(held, request.unit, leaf, message);
    Ok(portion.text)
}

/// The area that tells of a portion of a message from a leaf.
fn given_area(tree: &Tree, leaf: Leaf, rest: &Rest, portion: &Portion, area: InArea) -> InArea
    requires leaf { leaf.number < leaf_count tree.now }
    requires short { length portion.now.text ≤ MAX_SIZE }
    requires end_key { IsEndKey portion.now.end_key }
    ensures { result ≡ given_area tree.now leaf.number rest.now portion.now area }
{
    portion_area(&tree.path(leaf), rest, portion, area)
}
