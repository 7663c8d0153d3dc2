//! Messages of a terminal's input that comes piece by piece.
ghost use Rattle.std.specs.Prelude.{◌≡◌, ◌↔◌, ℕ, List, [], ◌++◌, Err, IsTrue, None, OnErr, OnOk, Some};
ghost use Rattle.com_msg.specs.declared.framing.Framing.{Framing};
ghost use Rattle.com_msg.specs.declared.framing.FrameFault.{FrameFault};
ghost use Rattle.com_msg.specs.declared.message.RawMessage.{RawMessage};
ghost use Rattle.com_lines.specs.Frames.{Frames, IsSettledFault};
ghost use Rattle.com_lines.specs.Framers.{HasFaulted, IsGoing, IsMemory, IsUnfinished, StandsFor, WantsMemory, state_after, state_at_end};
ghost use Rattle.com_lines.specs.inner.Readings.{IsContinued, IsCutOff, IsSafe};

use crate::FeedError;
use crate::reading::Reading;
use com_msg::{FrameFault, Framing, RawMessage};
use com_text::Rows;
use std::alloc::{AllocError, Global};
use std::marker::Model;

/// Finds the messages of a terminal's input, which comes piece by piece. It keeps no bytes but
/// those of the message that has not ended.
#[derive(Debug, Drop)]
pub struct Framer {
    state: State,
    reading: Reading,
}

/// How a framer stands.
#[derive(Clone, Copy, Debug)]
enum State {
    /// It goes on.
    Going,
    /// The bytes are at fault.
    Faulted(FrameFault),
    /// Memory ran out.
    NoMemory,
    /// The input has ended.
    Ended,
}

impl Model for Framer {
    ghost use Rattle.com_lines.specs.Framers.{Framed, IsSafeIn};

    ghost Value = { Framed };

    ghost view = { λ framer. record { state = framer.state; reading = framer.reading } };

    ghost invariant = { λ framer. IsSafeIn framer.state framer.reading };
}

impl Framer {
    /// Returns a framer that has had no bytes.
    pub fn new(alloc: Global, framing: Framing) -> Framer
        ensures stands { StandsFor framing result [] [] }
        ensures going { IsGoing result }
        ensures unfinished { IsUnfinished result }
    {
        Framer {
            state: State::Going,
            reading: Reading::new(alloc, framing),
        }
    }

    /// Takes the next piece, and adds the messages that the bytes so far finish and that were not
    /// given before. Fault where a fault is settled in the bytes so far, with the first; the
    /// messages before it have been added then, and every later call answers it and adds nothing.
    /// Memory: memory ran out; nothing is added then, and every later call answers it.
    pub fn feed(&mut self, piece: &[u8], into: &mut Rows<RawMessage>) -> Result<(), FeedError>
        requires unfinished { IsUnfinished self.old }

        // What the framer stands for then, and that it may be called again.
        ensures stands { (framing : Framing) (bytes : List ℕ) (given : List RawMessage)
            → StandsFor framing self.old bytes given
            → (added : List RawMessage) × (into.new ≡ into.old ++ added)
            × StandsFor framing self.new (bytes ++ piece.now) (given ++ added) }
        ensures going { OnOk result (IsGoing self.new) }
        ensures unfinished { IsUnfinished self.new }

        // A fault: when it is answered, and that it is answered again.
        ensures fault { (framing : Framing) (bytes : List ℕ) (given : List RawMessage)
            → StandsFor framing self.old bytes given
            → (fault : FrameFault) → ¬ IsMemory result
            → (result ≡ Err (FeedError.Fault fault)) ↔ IsSettledFault framing (bytes ++ piece.now) fault }
        ensures kept { (fault : FrameFault) → result ≡ Err (FeedError.Fault fault)
            → HasFaulted self.new fault }
        ensures again { (fault : FrameFault) → HasFaulted self.old fault
            → (result ≡ Err (FeedError.Fault fault)) × (into.new ≡ into.old) }

        // Out of memory: that nothing is added, and that it is answered again.
        ensures memory { IsMemory result → WantsMemory self.new × (into.new ≡ into.old) }
        ensures memory_again { WantsMemory self.old → IsMemory result }
    {
        match self.state {
            State::Going => {}
            State::Faulted(fault) => return Err(FeedError::Fault(fault)),
            State::NoMemory => return Err(FeedError::Memory(AllocError)),
            State::Ended => unreachable!(),
        }
        let result = feed_into(&mut self.reading, piece, into);
        self.state = state_after(&result);
        result
    }

    /// Ends the input, and adds the messages of all bytes that were not given before; no call may
    /// follow then. Fault where the input is at fault, with its first fault; nothing is added then,
    /// and every later call answers it. Memory: memory ran out; nothing is added then, and every
    /// later call answers it.
    pub fn finish(&mut self, into: &mut Rows<RawMessage>) -> Result<(), FeedError>
        requires unfinished { IsUnfinished self.old }

        // The messages and the verdict of the whole input.
        ensures whole { OnOk result ((framing : Framing) (bytes : List ℕ) (given : List RawMessage)
            → StandsFor framing self.old bytes given
            → (added : List RawMessage) × (into.new ≡ into.old ++ added)
            × Frames framing bytes (given ++ added) None) }
        ensures fault { (fault : FrameFault) → result ≡ Err (FeedError.Fault fault)
            → (framing : Framing) (bytes : List ℕ) (given : List RawMessage)
            → StandsFor framing self.old bytes given → Frames framing bytes given (Some fault) }

        // After an error nothing was added, the framer may be called again, and it answers the
        // same.
        ensures same { OnErr result (into.new ≡ into.old) }
        ensures unfinished { OnErr result (IsUnfinished self.new) }
        ensures kept { (fault : FrameFault) → result ≡ Err (FeedError.Fault fault)
            → HasFaulted self.new fault }
        ensures again { (fault : FrameFault) → HasFaulted self.old fault
            → result ≡ Err (FeedError.Fault fault) }
        ensures memory { IsMemory result → WantsMemory self.new }
        ensures memory_again { WantsMemory self.old → IsMemory result }
    {
        match self.state {
            State::Going => {}
            State::Faulted(fault) => return Err(FeedError::Fault(fault)),
            State::NoMemory => return Err(FeedError::Memory(AllocError)),
            State::Ended => unreachable!(),
        }
        let result = self.reading.finish(into);
        self.state = state_at_end(&result);
        result
    }
}

/// Returns how a framer stands after a piece.
fn state_after(answer: &Result<(), FeedError>) -> State
    ensures { result ≡ state_after answer.now }
{
    match answer {
        Ok(()) => State::Going,
        Err(FeedError::Fault(fault)) => State::Faulted(*fault),
        Err(FeedError::Memory(_)) => State::NoMemory,
    }
}

/// Returns how a framer stands after the end of its input.
fn state_at_end(answer: &Result<(), FeedError>) -> State
    ensures { result ≡ state_at_end answer.now }
{
    match answer {
        Ok(()) => State::Ended,
        Err(FeedError::Fault(fault)) => State::Faulted(*fault),
        Err(FeedError::Memory(_)) => State::NoMemory,
    }
}

/// Reads a piece, and adds the messages that it ends. If memory runs out, nothing is added.
fn feed_into(
    reading: &mut Reading,
    piece: &[u8],
    into: &mut Rows<RawMessage>,
) -> Result<(), FeedError>
    requires safe { IsSafe reading.old }
    ensures safe { OnOk result (IsSafe reading.new) }
    ensures framing { OnOk result (reading.new.framing ≡ reading.old.framing) }
    ensures continued { OnOk result (IsContinued reading.old piece.now into.old reading.new into.new) }
    ensures fault { (fault : FrameFault) → result ≡ Err (FeedError.Fault fault)
        → IsCutOff reading.old piece.now into.old into.new fault }
    ensures memory { IsMemory result → into.new ≡ into.old }
{
    let before = into.len();
    let result = reading.feed(piece, into);
    if is_memory(&result) {
        into.truncate(before);
    }
    result
}

/// Returns whether an answer is out of memory.
fn is_memory(answer: &Result<(), FeedError>) -> bool
    ensures { IsTrue result ↔ IsMemory answer.now }
{
    matches!(answer, Err(FeedError::Memory(_)))
}
