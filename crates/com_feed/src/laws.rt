//! Laws of the definitions. A function here does nothing; its contract is the law.
//!
//! A driver of a terminal keeps that it is being fed, from [`no_entry_is_fed`] on, over each
//! message that arrives ([`arrivals_are_fed`]) and each time that the terminal is held
//! ([`held_is_fed`]). At the end it has `Fed` by [`ends_are_fed`] or [`idle_is_fed`]. Which
//! messages come first in the input, and for which reason the input ends, it has from its framer
//! and its reads, by the laws from [`reads_are_looked_at`] on.
ghost use Rattle.std.specs.Prelude.{◌≡◌, ◌↔◌, ◌<◌, ◌≤◌, ℕ, List, [], ◌∷◌, ◌++◌, length, IsFalse, Option, None, Some};
ghost use Rattle.com_msg.specs.Stamp.{Moment};
ghost use Rattle.com_msg.specs.declared.framing.Framing.{Framing as FramingOf};
ghost use Rattle.com_msg.specs.declared.framing.FrameFault.{FrameFault as FaultOf};
ghost use Rattle.com_msg.specs.declared.message.RawMessage.{RawMessage as MessageOf};
ghost use Rattle.com_io.specs.Files.{file_limit};
ghost use Rattle.com_lines.specs.Framers.{Framed, HasFaulted, IsGoing, StandsFor};
ghost use Rattle.com_lines.specs.Frames.{Finished, Frames, IsStopped};
ghost use Rattle.com_events.specs.declared.call.Party.{Party as PartyOf};
ghost use Rattle.com_events.specs.declared.call.Call.TheVariants as call;
ghost use Rattle.com_events.specs.declared.call.EndReason.{EndReason as ReasonOf};
ghost use Rattle.com_events.specs.declared.call.EndReason.TheVariants as reason;
ghost use Rattle.com_events.specs.declared.entry.Entry.{Entry as EntryOf};
ghost use Rattle.com_events.specs.Fronts.{IsPrefixOf};
ghost use Rattle.com_feed.specs.Fed.{AreFirst, Fed, FedSoFar, Gives, HasNoEnd, IsBeingFed, IsUnsettled, arrivals_of, finished, held, looked_at};

/// What a terminal's entries tell once it has ended, they tell at any time.
pub fn fed_is_fed_so_far()
    ensures { (party : PartyOf) (framing : FramingOf) (bytes : List ℕ) (gone : Option (List ℕ))
        (entries : List EntryOf) → Fed party framing bytes gone entries →
        FedSoFar party framing bytes gone entries }
{}

/// Every input has an end: a reason, and messages.
pub fn inputs_have_an_end()
    ensures { (framing : FramingOf) (bytes : List ℕ) → (reason : ReasonOf)
        × (messages : List MessageOf) × Gives framing bytes None reason messages }
{}

/// An input whose source does not fail has one end: one reason, and one list of messages.
pub fn inputs_have_one_end()
    ensures { (framing : FramingOf) (bytes : List ℕ) (reason other : ReasonOf)
        (messages others : List MessageOf) → Gives framing bytes None reason messages →
        Gives framing bytes None other others → (reason ≡ other) × (messages ≡ others) }
{}

/// A terminal that is fed was fed at each time before: its entries up to any of them, before END,
/// show the first messages of its input, also if its source failed.
pub fn prefixes_are_fed_so_far()
    ensures { (party : PartyOf) (framing : FramingOf) (bytes : List ℕ) (gone : Option (List ℕ))
        (prefix rest : List EntryOf) → FedSoFar party framing bytes gone (prefix ++ rest) →
        HasNoEnd prefix → FedSoFar party framing bytes gone prefix }
{}

/// The messages that a prefix of an input has finished come first in it.
pub fn finished_come_first()
    ensures { (framing : FramingOf) (bytes got : List ℕ) (messages : List MessageOf) →
        IsPrefixOf got (looked_at bytes) → Finished framing got messages →
        AreFirst framing bytes messages }
{}

/// All messages that an input gives come first in it, also if its source failed.
pub fn given_come_first()
    ensures { (framing : FramingOf) (bytes : List ℕ) (gone : Option (List ℕ)) (reason : ReasonOf)
        (messages : List MessageOf) → Gives framing bytes gone reason messages →
        AreFirst framing bytes messages }
{}

/// A prefix of messages that come first comes first.
pub fn prefixes_come_first()
    ensures { (framing : FramingOf) (bytes : List ℕ) (messages more : List MessageOf) →
        AreFirst framing bytes (messages ++ more) → AreFirst framing bytes messages }
{}

/// A terminal that has not ended is fed so far exactly if it is being fed.
pub fn unended_is_being_fed()
    ensures { (party : PartyOf) (framing : FramingOf) (bytes : List ℕ) (gone : Option (List ℕ))
        (entries : List EntryOf) → HasNoEnd entries →
        FedSoFar party framing bytes gone entries ↔ IsBeingFed framing bytes entries }
{}

/// A terminal without an entry is being fed.
pub fn no_entry_is_fed()
    ensures { (framing : FramingOf) (bytes : List ℕ) → IsBeingFed framing bytes [] }
{}

/// A terminal that is being fed is so after the next message of its input has arrived.
pub fn arrivals_are_fed()
    ensures { (framing : FramingOf) (bytes : List ℕ) (entries : List EntryOf) (entry : EntryOf)
        (stamp : Moment) (message : MessageOf) → IsBeingFed framing bytes entries →
        entry.call ≡ call.Arrive stamp message →
        AreFirst framing bytes (arrivals_of entries ++ message ∷ []) →
        IsBeingFed framing bytes (entries ++ entry ∷ []) }
{}

/// A terminal that is being fed is so after it is held.
pub fn held_is_fed()
    ensures { (party : PartyOf) (framing : FramingOf) (bytes : List ℕ) (entries : List EntryOf) →
        IsBeingFed framing bytes entries → IsBeingFed framing bytes (entries ++ held party ∷ []) }
{}

/// A terminal is fed if it ends after all messages that its input gives, for the reason for which
/// the input ends.
pub fn ends_are_fed()
    ensures { (party : PartyOf) (framing : FramingOf) (bytes : List ℕ) (gone : Option (List ℕ))
        (reason : ReasonOf) (entries : List EntryOf) →
        Gives framing bytes gone reason (arrivals_of entries) →
        Fed party framing bytes gone (entries ++ finished party reason ∷ []) }
{}

/// A terminal is fed if it is held before the next message of its input, and then ends with IDLE.
pub fn idle_is_fed()
    ensures { (party : PartyOf) (framing : FramingOf) (bytes : List ℕ) (gone : Option (List ℕ))
        (entries : List EntryOf) (message : MessageOf) →
        AreFirst framing bytes (arrivals_of entries ++ message ∷ []) →
        Fed party framing bytes gone
        ((entries ++ held party ∷ []) ++ finished party reason.Idle ∷ []) }
{}

/// What was read of an input, within the limit, is a prefix of what is looked at.
pub fn reads_are_looked_at()
    ensures { (got left : List ℕ) → length got ≤ file_limit →
        IsPrefixOf got (looked_at (got ++ left)) }
{}

/// What was read up to the limit is all that is looked at.
pub fn full_reads_are_all()
    ensures { (got left : List ℕ) → length got ≡ file_limit → looked_at (got ++ left) ≡ got }
{}

/// A framer that goes on has given the messages that its bytes finish, and no fault is settled in
/// them.
pub fn going_framers_have_finished()
    ensures { (framing : FramingOf) (framer : Framed) (got : List ℕ) (given : List MessageOf) →
        StandsFor framing framer got given → IsGoing framer →
        Finished framing got given × IsUnsettled framing got }
{}

/// A framer that has answered a fault has given the messages before it, and the fault is settled.
pub fn faulted_framers_have_stopped()
    ensures { (framing : FramingOf) (framer : Framed) (got : List ℕ) (given : List MessageOf)
        (fault : FaultOf) → StandsFor framing framer got given → HasFaulted framer fault →
        IsStopped framing got given fault }
{}

/// An input within the limit ends with END if its bytes are sound, and else with FRAME.
pub fn whole_inputs_end()
    ensures sound { (framing : FramingOf) (bytes : List ℕ) (gone : Option (List ℕ))
        (messages : List MessageOf) → length bytes ≤ file_limit →
        Frames framing bytes messages None → Gives framing bytes gone reason.End messages }
    ensures fault { (framing : FramingOf) (bytes : List ℕ) (gone : Option (List ℕ))
        (messages : List MessageOf) (fault : FaultOf) → length bytes ≤ file_limit →
        Frames framing bytes messages (Some fault) →
        Gives framing bytes gone (reason.Frame fault) messages }
{}

/// An input ends with FRAME if a fault is settled in what was read of it, whatever follows.
pub fn settled_faults_end_inputs()
    ensures { (framing : FramingOf) (bytes : List ℕ) (gone : Option (List ℕ)) (got : List ℕ)
        (messages : List MessageOf) (fault : FaultOf) → IsPrefixOf got (looked_at bytes) →
        IsStopped framing got messages fault →
        Gives framing bytes gone (reason.Frame fault) messages }
{}

/// An input that is longer than the limit ends with LONG if no fault is settled in what is looked
/// at.
pub fn long_inputs_are_cut()
    ensures { (framing : FramingOf) (bytes : List ℕ) (gone : Option (List ℕ))
        (messages : List MessageOf) → file_limit < length bytes →
        Finished framing (looked_at bytes) messages → IsUnsettled framing (looked_at bytes) →
        Gives framing bytes gone reason.Long messages }
{}

/// An input ends with FAULT if its source failed and no fault is settled in what it gave before.
pub fn failed_sources_end_inputs()
    ensures { (framing : FramingOf) (bytes got : List ℕ) (messages : List MessageOf) →
        IsPrefixOf got (looked_at bytes) → Finished framing got messages →
        IsUnsettled framing got → Gives framing bytes (Some got) reason.Fault messages }
{}

/// A terminal without an input is fed exactly if it has ended with END and nothing has arrived. So
/// it never ends with IDLE.
pub fn without_input_is_end()
    ensures { (party : PartyOf) (framing : FramingOf) (entries : List EntryOf) →
        Fed party framing [] None entries ↔ ((before : List EntryOf)
        × (entries ≡ before ++ finished party reason.End ∷ []) × (arrivals_of before ≡ [])) }
{}

/// Nothing arrives at a terminal without an input.
pub fn without_input_nothing_arrives()
    ensures { (party : PartyOf) (framing : FramingOf) (entries : List EntryOf) →
        FedSoFar party framing [] None entries → arrivals_of entries ≡ [] }
{}
