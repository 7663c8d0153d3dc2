//! Laws of frames, of units and of their entries. A function here does nothing; its contract is the
//! law.
ghost use Rattle.std.specs.Prelude.{◌≡◌, ◌<◌, ℕ, Bool, List, [], ◌∷◌, ◌++◌, length, Option, true, false};
ghost use Rattle.com_events.specs.declared.call.Call.{Call as CallOf};
ghost use Rattle.com_events.specs.declared.call.Party.{Party as PartyOf};
ghost use Rattle.com_events.specs.declared.call.StopReason.{StopReason as ReasonOf};
ghost use Rattle.com_events.specs.declared.call.StopReason.TheVariants as reason;
ghost use Rattle.com_events.specs.declared.entry.Entry.{Entry as EntryOf};
ghost use Rattle.com_events.specs.declared.reply.Reply.{Reply as ReplyOf};
ghost use Rattle.cob_proc.specs.Trees.{Block, ParagraphTree};
ghost use Rattle.cob_meaning.specs.Layouts.{Layout};
ghost use Rattle.cob_meaning.specs.Storage.{Storage};
ghost use Rattle.cob_meaning.specs.Verbs.{Request};
ghost use Rattle.cob_meaning.specs.Meaning.{
  Jump,
  Normal,
  Program,
  Run,
  Stopped,
  Wants,
  begun,
  beginning,
  choice,
  from_to,
  in_order,
  meaning,
  meaning_of,
  paragraphs_do,
  range,
  then_do,
  unit_limits,
  until,
};
ghost use Rattle.cob_meaning.specs.Follows.{
  Follows,
  SoFar,
  is_receive,
  is_verb,
  is_waiting,
  started,
  stopped,
  waits,
};
ghost use Rattle.cob_frames.specs.Frames.{Frame, frames_after_go, frames_do, program_does, whole_text};
ghost use Rattle.cob_frames.specs.Units.{
  HasStopped,
  Progress,
  Runs,
  Waits,
  opening_progress,
  progress_after_reply,
};
ghost use Rattle.cob_frames.specs.Entries.{AreOwnEntries, answered_entry};

use cob_meaning::laws::{calls_are_within_limits, each_call_takes_a_reply, more_replies_go_on};

/// A range does its paragraphs one after another. Its parts have the bound of the whole, if the
/// bound exceeds the statements and turns that may still be begun.
pub fn ranges_go_on()
    ensures { (bound : ℕ) (layout : Layout) (text : List ParagraphTree) (begin last : ℕ)
        (run : Run) → run.left < bound → range bound layout text begin last run ≡
        paragraphs_do (λ paragraph. in_order layout text bound (range bound layout text)
        paragraph.sentences) (λ to. range bound layout text to last) (from_to text begin last) run }
{}

/// An UNTIL tests its condition, and begins a turn if it does not hold. The turns after that one
/// have the bound of the whole, if the bound exceeds what may still be begun.
pub fn untils_go_on()
    ensures { (bound : ℕ) (layout : Layout) (text : List ParagraphTree)
        (test : Storage → Option Bool) (first last : ℕ) (run : Run) → run.left < bound →
        until bound test (range bound layout text first last) run ≡ choice (test run.storage) Normal
        (begun (λ r. then_do (range bound layout text first last r)
        (until bound test (range bound layout text first last)))) run }
{}

/// The frames of the whole text do what the program means.
pub fn whole_text_is_the_program()
    ensures { (program : Program) (names : Option (List ℕ)) (replies : List ReplyOf) →
        meaning program names replies ≡ meaning_of (program_does program (whole_text program)
        (beginning unit_limits program.layout names replies)) }
{}

/// A GO drops all frames before the range that runs, which goes on at the paragraph of the GO.
pub fn gos_stay_in_their_range()
    ensures { (bound : ℕ) (layout : Layout) (text : List ParagraphTree) (frames : List Frame)
        (to : ℕ) (run : Run) → run.left < bound →
        meaning_of (frames_do bound layout text frames (Jump to run)) ≡
        meaning_of (frames_do bound layout text (frames_after_go to frames) (Normal run)) }
{}

/// A unit that has just begun stands for its program and names, with no reply.
pub fn units_begin()
    ensures { (program : Program) (names : Option (List ℕ)) →
        Runs program names [] (opening_progress program names) }
{}

/// A unit that waits for a reply has made the calls that its program makes, and waits with the call
/// that its program wants.
pub fn units_want_calls()
    ensures { (program : Program) (names : Option (List ℕ)) (replies : List ReplyOf)
        (request : Request) (no_data : Block) (progress : Progress) →
        Waits program names replies request no_data progress → meaning program names replies ≡
        record { calls = progress.calls; ending = Wants request.call } }
{}

/// A unit that gets the reply to its verb runs, and stands for one reply more.
pub fn units_take_replies()
    ensures { (program : Program) (names : Option (List ℕ)) (replies : List ReplyOf)
        (request : Request) (no_data : Block) (progress : Progress) (reply : ReplyOf) →
        Waits program names replies request no_data progress → Runs program names
        (replies ++ reply ∷ []) (progress_after_reply request no_data reply progress) }
{}

/// A unit that has stopped has made the calls of its program, and stopped for the program's reason.
pub fn units_stop()
    ensures { (program : Program) (names : Option (List ℕ)) (replies : List ReplyOf)
        (reason : ReasonOf) (calls : List CallOf) →
        HasStopped program names replies reason calls → meaning program names replies ≡
        record { calls = calls; ending = Stopped reason } }
{}

/// If a program wants a verb, fewer verbs were answered than a unit may have answered.
pub fn wants_leave_room()
    ensures { (program : Program) (names : Option (List ℕ)) (replies : List ReplyOf)
        (call : CallOf) → (meaning program names replies).ending ≡ Wants call →
        length (meaning program names replies).calls < unit_limits.verbs }
{
    more_replies_go_on();
    each_call_takes_a_reply();
    calls_are_within_limits();
}

/// START is the first entry of a unit.
pub fn starts_are_own_entries()
    ensures { (party : PartyOf) (program : Program) (names : Option (List ℕ)) →
        AreOwnEntries party program names [] (started party names ∷ []) }
{
    each_call_takes_a_reply();
}

/// The verb that the program wants may wait.
pub fn waits_are_own_entries()
    ensures { (party : PartyOf) (program : Program) (names : Option (List ℕ))
        (replies : List ReplyOf) (entries : List EntryOf) (call : CallOf) →
        AreOwnEntries party program names replies entries → is_verb call ≡ true →
        (meaning program names replies).ending ≡ Wants call →
        AreOwnEntries party program names replies (entries ++ waits party call ∷ []) }
{}

/// The verb that the program wants may be answered. The unit then has one reply more.
pub fn answers_are_own_entries()
    ensures { (party : PartyOf) (program : Program) (names : Option (List ℕ))
        (replies : List ReplyOf) (entries : List EntryOf) (call : CallOf) (reply : ReplyOf) →
        AreOwnEntries party program names replies entries → is_verb call ≡ true →
        is_waiting reply ≡ false → (meaning program names replies).ending ≡ Wants call →
        AreOwnEntries party program names (replies ++ reply ∷ [])
        (entries ++ answered_entry party call reply ∷ []) }
{
    more_replies_go_on();
    each_call_takes_a_reply();
}

/// The entries of a unit that has not stopped are those of its program so far.
pub fn own_entries_are_so_far()
    ensures { (party : PartyOf) (program : Program) (names : Option (List ℕ))
        (replies : List ReplyOf) (entries : List EntryOf) →
        AreOwnEntries party program names replies entries → SoFar party program entries }
{}

/// If the program stops, STOP with its reason ends the unit's entries.
pub fn stops_follow()
    ensures { (party : PartyOf) (program : Program) (names : Option (List ℕ))
        (replies : List ReplyOf) (entries : List EntryOf) (why : ReasonOf) →
        AreOwnEntries party program names replies entries →
        (meaning program names replies).ending ≡ Stopped why →
        Follows party program (entries ++ stopped party why ∷ []) }
{}

/// STOP IDLE may end the entries of a unit that waits.
pub fn idle_stops_follow()
    ensures { (party : PartyOf) (program : Program) (names : Option (List ℕ))
        (replies : List ReplyOf) (entries before : List EntryOf) (call : CallOf) →
        AreOwnEntries party program names replies entries → is_receive call ≡ true →
        entries ≡ started party names ∷ before ++ waits party call ∷ [] →
        Follows party program (entries ++ stopped party reason.Idle ∷ []) }
{}

/// STOP IDLE is the only entry of a unit that was never started.
pub fn lone_idle_stops_follow()
    ensures { (party : PartyOf) (program : Program) →
        Follows party program (stopped party reason.Idle ∷ []) }
{}
