//! The messages that wait, in a queue for each leaf.
ghost use Rattle.std.specs.Prelude.{◌≡◌, ◌<◌, ◌≤◌, ◌++◌, ◌∷◌, [], ◌^◌, ◌-◌, ℕ, List, length, get_or, map, not, drop, slice_get, count_by, nat_le, nat_lt, ◌&&◌, option_map, is_some, true, Some, OnOk, OnErr, IfOk, IfErr, IfSome};
ghost use Rattle.std.specs.List.{All};
ghost use Rattle.com_msg.specs.declared.message.Message.{Message as MessageOf};
ghost use Rattle.com_msg.specs.Portion.{IsEndKey, take_portion};
ghost use Rattle.com_tree.specs.Written.{IsWritten, leaf_count};
ghost use Rattle.com_tree.specs.CachedHeads.{IsHeadsOf};
ghost use Rattle.com_tree.specs.UnderNodes.{is_over};
ghost use Rattle.com_recv.specs.declared.lists.Waiting.{Waiting as WaitingMessage};
ghost use Rattle.com_recv.specs.Incoming.{first_on, first_number, without_first, chosen_leaf, waiting_under};
ghost use Rattle.com_recv.specs.inner.Queued.{AreKeptOf, AreQueuesOf};

use crate::lists::Waiting;
use com_msg::{Kind, Message, Portion, Rest};
use com_tree::{Counts, Heads, Leaf, MAX_LEAVES, Node, Tree};
use std::alloc::{AllocError, Global};
use std::collections::VecDeque;
use std::marker::Model;

/// The messages that wait on the leaves of a tree. Contracts see the list of all, in order of
/// arrival.
#[derive(Debug, Drop)]
pub struct LeafQueues {
    /// The tree that the heads and the counts are of.
    tree: Tree,
    /// A queue for each leaf that a tree may have.
    queues: Vec<VecDeque<Waiting>>,
    heads: Heads,
    /// How many messages wait under each node.
    counts: Counts,
    /// How many messages wait.
    total: usize,
}

impl Model for LeafQueues {
    ghost use Rattle.std.specs.Prelude.{List, map};
    ghost use Rattle.com_recv.specs.declared.lists.Waiting.{Waiting as WaitingMessage};
    ghost use Rattle.com_recv.specs.inner.Queued.{all_of, by_arrival, AreQueued};

    ghost Value = { List WaitingMessage };

    ghost view = { λ leaves. by_arrival (all_of (map (λ queue. queue.items) leaves.queues.items)) };

    ghost invariant = { λ leaves. AreQueued leaves.tree
        (map (λ queue. queue.items) leaves.queues.items) leaves.heads leaves.counts leaves.total };
}

impl LeafQueues {
    /// Makes queues for a tree, on whose leaves no message waits.
    pub fn new(alloc: Global, tree: &Tree) -> Result<LeafQueues, AllocError>
        ensures { IfOk result (λ leaves. leaves ≡ []) }
    {
        Ok(LeafQueues {
            tree: tree.copy()?,
            queues: empty_queues(alloc)?,
            heads: Heads::new(alloc, tree)?,
            counts: Counts::new(alloc, tree)?,
            total: 0,
        })
    }

    /// Adds a message after all others. Without memory nothing changes, and it is handed back.
    pub fn push(&mut self, leaf: Leaf, message: Message) -> Result<(), Message>
        requires leaf { leaf.number < MAX_LEAVES }
        requires segments { 1 ≤ length message.segments }
        requires later { All (λ w. w.message.arrival < message.arrival) self.old }
        ensures ok { OnOk result
            (self.new ≡ self.old ++ record { leaf = leaf; message = message } ∷ []) }
        ensures err { OnErr result (self.new ≡ self.old) }
        ensures handed_back { IfErr result (λ refused. refused ≡ message) }
    {
        if self.total >= usize::MAX {
            return Err(message);
        }
        let number = leaf.number as usize;
        let is_first = is_empty(&self.queues[number]);
        let arrival = message.arrival;
        push_back(&mut self.queues[number], leaf, message)?;
        self.total += 1;
        note_come(
            &self.tree,
            &mut self.heads,
            &mut self.counts,
            leaf,
            arrival,
            is_first,
        );
        Ok(())
    }

    /// Takes a portion of the first message on a leaf, which leaves its queue. Without memory
    /// nothing changes.
    pub fn take_first(
        &mut self,
        leaf: Leaf,
        kind: Kind,
        size: u32,
    ) -> Result<(Rest, Portion), AllocError>
        requires leaf { leaf.number < MAX_LEAVES }
        requires some { (message : MessageOf) × (first_on self.old leaf.number ≡ Some message)
            × (1 ≤ length message.segments) }
        requires size { 1 ≤ size }
        ensures taken { (message : MessageOf) → first_on self.old leaf.number ≡ Some message
            → IfOk result (λ taken. (taken.1, taken.0) ≡ take_portion kind size message) }
        ensures short { IfOk result (λ taken. length taken.1.text ≤ size) }
        ensures end_key { IfOk result (λ taken. IsEndKey taken.1.end_key) }
        ensures gone { OnOk result (self.new ≡ without_first leaf.number self.old) }
        ensures err { OnErr result (self.new ≡ self.old) }
    {
        let number = leaf.number as usize;
        let taken = take_of_first(&mut self.queues[number], kind, size)?;
        self.total -= 1;
        let first = first_of(&self.queues[number]);
        note_gone(&self.tree, &mut self.heads, &mut self.counts, leaf, first);
        Ok(taken)
    }

    /// The leaf that a node of a tree chooses.
    pub fn choice(&self, tree: &Tree, node: Node) -> Option<Leaf>
        requires node { node.row < length tree.now }
        requires written { IsWritten tree.now }
        requires on { All (λ w. w.leaf.number < leaf_count tree.now) self.now }
        ensures leaf { option_map (λ leaf. leaf.number) result
            ≡ chosen_leaf tree.now self.now node }
        ensures within { IfSome result (λ leaf. leaf.number < leaf_count tree.now) }
    {
        if self.tree.is_alike(tree) {
            self.heads.choice(&self.tree, node)
        } else {
            let heads = heads_of(&self.queues);
            tree.next(node, &heads[..tree.leaves() as usize])
        }
    }

    /// How many messages wait under a node of a tree.
    pub fn count(&self, tree: &Tree, node: Node) -> usize
        requires node { node.row < length tree.now }
        requires written { IsWritten tree.now }
        ensures { result ≡ waiting_under tree.now self.now node }
    {
        if self.tree.is_alike(tree) {
            self.counts.under(node)
        } else {
            let (first, past) = tree.leaves_under(node);
            count_between(&self.queues, first, past, self.total)
        }
    }
}

/// An empty queue for each leaf that a tree may have.
fn empty_queues(alloc: Global) -> Result<Vec<VecDeque<Waiting>>, AllocError>
    ensures size { IfOk result (λ queues. length queues.items ≡ MAX_LEAVES) }
    ensures empty { IfOk result (λ queues. All (λ queue. queue.items ≡ []) queues.items) }
{
    let mut queues = Vec::with_capacity(alloc, MAX_LEAVES as usize)?;
    for _number in 0..MAX_LEAVES {
        queues.push(VecDeque::new(alloc))?;
    }
    Ok(queues)
}

/// Adds a message at the end of a queue. Without memory it is handed back.
fn push_back(queue: &mut VecDeque<Waiting>, leaf: Leaf, message: Message) -> Result<(), Message>
    requires { 1 ≤ length message.segments }
    ensures ok { OnOk result (queue.new.items
        ≡ queue.old.items ++ record { leaf = leaf; message = message } ∷ []) }
    ensures err { OnErr result (queue.new.items ≡ queue.old.items) }
    ensures handed_back { IfErr result (λ refused. refused ≡ message) }
{
    if queue.try_reserve(1).is_err() {
        return Err(message);
    }
    let message = Rest::of(message);
    // There is room for one more.
    queue.push_back(Waiting { leaf, message }).unwrap();
    Ok(())
}

/// Takes a portion of the first message of a queue, which leaves it.
fn take_of_first(
    queue: &mut VecDeque<Waiting>,
    kind: Kind,
    size: u32,
) -> Result<(Rest, Portion), AllocError>
    requires some { (w : WaitingMessage) × (slice_get queue.old.items 0 ≡ Some w)
        × (1 ≤ length w.message.segments) }
    requires size { 1 ≤ size }
    ensures taken { (w : WaitingMessage) → slice_get queue.old.items 0 ≡ Some w
        → IfOk result (λ taken. (taken.1, taken.0) ≡ take_portion kind size w.message) }
    ensures short { IfOk result (λ taken. length taken.1.text ≤ size) }
    ensures end_key { IfOk result (λ taken. IsEndKey taken.1.end_key) }
    ensures left { OnOk result (queue.new.items ≡ drop 1 queue.old.items) }
    ensures err { OnErr result (queue.new.items ≡ queue.old.items) }
{
    let portion = queue[0].message.take(kind, size)?;
    // There is a first message, so one comes out.
    let Waiting { message, .. } = queue.pop_front().unwrap();
    Ok((message, portion))
}

/// Whether a queue has no message.
fn is_empty(queue: &VecDeque<Waiting>) -> bool
    ensures { is_some (slice_get queue.now.items 0) ≡ not result }
{
    match queue.front() {
        Some(_) => false,
        None => true,
    }
}

/// How many messages a queue has.
fn len(queue: &VecDeque<Waiting>) -> usize
    ensures { result ≡ length queue.now.items }
{
    queue.len()
}

/// The arrival number of the first message of a queue.
fn first_of(queue: &VecDeque<Waiting>) -> Option<u64>
    ensures { result ≡ option_map (λ w. w.message.arrival) (slice_get queue.now.items 0) }
{
    match queue.front() {
        Some(message) => Some(message.message.arrival()),
        None => None,
    }
}

/// Counts a message that comes to a leaf, and sets its number if it is the first there.
fn note_come(
    tree: &Tree,
    heads: &mut Heads,
    counts: &mut Counts,
    leaf: Leaf,
    arrival: u64,
    is_first: bool,
)
    requires heads { IsHeadsOf tree.now heads.old }
    requires size { length counts.old ≡ length tree.now }
    requires room { All (λ number. number < 2 ^ 64 - 1) counts.old }
    ensures { (waiting : List WaitingMessage) (w : WaitingMessage) → w.leaf ≡ leaf
        → w.message.arrival ≡ arrival
        → is_some (first_number waiting leaf.number) ≡ not is_first
        → AreKeptOf tree.now heads.old counts.old waiting
        → AreKeptOf tree.now heads.new counts.new (waiting ++ w ∷ []) }
{
    if leaf.number >= tree.leaves() {
        return;
    }
    counts.add(tree, leaf);
    if is_first {
        heads.set(tree, leaf, Some(arrival));
    }
}

/// Counts a message that leaves a leaf, and sets the number of the next one there.
fn note_gone(tree: &Tree, heads: &mut Heads, counts: &mut Counts, leaf: Leaf, next: Option<u64>)
    requires heads { IsHeadsOf tree.now heads.old }
    requires size { length counts.old ≡ length tree.now }
    requires some { (row : ℕ) → row < length tree.now → is_over tree.now leaf.number row ≡ true
        → 1 ≤ get_or counts.old row 0 }
    ensures { (waiting : List WaitingMessage)
        → next ≡ first_number (without_first leaf.number waiting) leaf.number
        → is_some (first_on waiting leaf.number) ≡ true
        → AreKeptOf tree.now heads.old counts.old waiting
        → AreKeptOf tree.now heads.new counts.new (without_first leaf.number waiting) }
{
    if leaf.number >= tree.leaves() {
        return;
    }
    counts.take(tree, leaf);
    heads.set(tree, leaf, next);
}

/// The arrival number of the first message on each leaf.
fn heads_of(queues: &[VecDeque<Waiting>]) -> [Option<u64>; MAX_LEAVES as usize]
    requires { length queues.now ≡ MAX_LEAVES }
    ensures { (leaf : ℕ) → leaf < MAX_LEAVES → slice_get result leaf
        ≡ Some (option_map (λ w. w.message.arrival)
        (slice_get (get_or (map (λ queue. queue.items) queues.now) leaf []) 0)) }
{
    let mut heads = [None; MAX_LEAVES as usize];
    for leaf in 0..MAX_LEAVES as usize {
        heads[leaf] = first_of(&queues[leaf]);
    }
    heads
}

/// How many messages wait on the leaves from one number to before another.
fn count_between(queues: &[VecDeque<Waiting>], first: u32, past: u32, total: usize) -> usize
    requires order { (first ≤ past) × (past ≤ MAX_LEAVES) }
    requires few { (waiting : List WaitingMessage) × (length waiting ≤ total)
        × AreQueuesOf (map (λ queue. queue.items) queues.now) waiting }
    ensures { (waiting : List WaitingMessage)
        → AreQueuesOf (map (λ queue. queue.items) queues.now) waiting → result
        ≡ count_by (λ w. nat_le first w.leaf.number && nat_lt w.leaf.number past) waiting }
{
    let mut count = 0;
    for leaf in first..past {
        count += len(&queues[leaf as usize]);
    }
    count
}
