//! The lists of messages that wait and of rests that are held.
ghost use Rattle.std.specs.Prelude.{◌≡◌, ◌<◌, ◌≤◌, ◌-◌, ℕ, Some, IfSome, length, slice_get, option_and_then, ◌==◌, ◌&&◌, nat_le, nat_lt, count_by};
ghost use Rattle.std.specs.List.{find, position, range_with_len, All};
ghost use Rattle.std.specs.Vec.{vec_len, vec_capacity};
ghost use Rattle.com_recv.specs.Incoming.{first_number, is_on, is_held_on, held_on, held_in, without_held, without_unit, holding};

use com_msg::Rest;
use com_tree::Leaf;

/// A message that waits on a leaf.
#[derive(Debug, Drop)]
pub struct Waiting {
    pub leaf: Leaf,
    pub message: Rest,
}

/// What is left of a message that a unit has begun to receive.
#[derive(Debug, Drop)]
pub struct Held {
    pub unit: u32,
    /// The leaf that the message came from.
    pub leaf: Leaf,
    pub rest: Rest,
}

/// The place of what a unit holds from a leaf.
fn held_on(held: &[Held], unit: u32, leaf: Leaf) -> Option<usize>
    ensures { result ≡ position (is_held_on unit leaf.number) held.now }
{
    held.iter()
        .position(|rest| rest.unit == unit && rest.leaf == leaf)
}

/// The place of what a unit holds from the first of some leaves that it holds something from.
pub fn held_between(held: &[Held], unit: u32, first: u32, past: u32) -> Option<usize>
    ensures held { option_and_then (slice_get held.now) result
        ≡ held_in held.now unit (range_with_len first (past - first)) }
    ensures within { IfSome result (λ at. at < length held.now) }
{
    for number in first..past {
        if let Some(at) = held_on(held, unit, Leaf { number }) {
            return Some(at);
        }
    }
    None
}

/// The unit holds the rest of a message from a leaf, in the place of what it held from there. A
/// spent rest is dropped.
pub fn hold(held: &mut Vec<Held>, unit: u32, leaf: Leaf, rest: Rest)
    requires room { vec_len held.old < vec_capacity held.old }
    ensures { held.new.items ≡ holding unit leaf.number rest held.old.items }
{
    release(held, unit, leaf);
    if !rest.is_spent() {
        // In front, as `holding` has it. No answer tells the place: a unit holds one rest from a leaf.
        held.insert(0, Held { unit, leaf, rest }).unwrap();
    }
}

/// What a unit holds from a leaf is gone.
fn release(held: &mut Vec<Held>, unit: u32, leaf: Leaf)
    ensures held { held.new.items ≡ without_held unit leaf.number held.old.items }
    ensures room { vec_len held.new ≤ vec_len held.old }
    ensures capacity { vec_capacity held.new ≡ vec_capacity held.old }
{
    held.retain(|other| !(other.unit == unit && other.leaf == leaf));
}

/// What a unit holds is gone.
pub fn drop_unit(held: &mut Vec<Held>, unit: u32)
    ensures { held.new.items ≡ without_unit unit held.old.items }
{
    held.retain(|rest| rest.unit != unit);
}
