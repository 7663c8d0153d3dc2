//! Laws of the definitions. A function here does nothing; its contract is the law.
ghost use Rattle.std.specs.Prelude.{◌≡◌, ◌⊎◌, ◌<◌, ◌≤◌, ◌+◌, ℕ, List, ◌∷◌, ◌++◌, length, drop, Option, None, Result, IfSome};
ghost use Rattle.cob_lex.specs.declared.token.Token.{Token as TokenOf};
ghost use Rattle.cob_forms.specs.Faults.{first};
ghost use Rattle.cob_data.specs.Divisions.{IsDivisionOf};
ghost use Rattle.cob_data.specs.declared.tree.DataDivision.{DataDivision as DivisionOf};
ghost use Rattle.com_events.specs.Calls.{AreNames};
ghost use Rattle.com_events.specs.declared.entry.Entry.{Entry as EntryOf};
ghost use Rattle.com_events.specs.declared.call.StopReason.TheVariants as reason;
ghost use Rattle.com_events.specs.declared.call.Party.{Party as PartyOf};
ghost use Rattle.com_events.specs.declared.reply.Reply.{Reply as ReplyOf};
ghost use Rattle.cob_meaning.specs.Follows.{
  AsksAgain,
  Follows,
  Makes,
  SoFar,
  calls_of,
  replies_of,
};
ghost use Rattle.com_events.specs.Fronts.{IsPrefixOf};
ghost use Rattle.cob_meaning.specs.Laws.{GoesOn, Takes};
ghost use Rattle.cob_proc.specs.Trees.{ParagraphTree};
ghost use Rattle.cob_meaning.specs.Checked.{IsCheckedText};
ghost use Rattle.cob_meaning.specs.Layouts.{Layout};
ghost use Rattle.cob_meaning.specs.Names.{names_faults};
ghost use Rattle.cob_meaning.specs.Sound.{AreFit, AreWellFormed, IsSound};
ghost use Rattle.cob_lex.specs.declared.fault.SourceFault.{SourceFault as FaultOf};
ghost use Rattle.cob_meaning.specs.Ranges.{IsFirstOf, IsRangesFault};
ghost use Rattle.cob_meaning.specs.Sources.{IsProgramOf, IsReadAs, IsSourceFaultOf, from_procedure};
ghost use Rattle.cob_meaning.specs.Meaning.{
  Ending,
  Limits,
  Program,
  Run,
  Stopped,
  meaning,
  meaning_within,
  range,
  unit_limits,
};

/// What a program has done with some replies it has done with more of them: a unit that has stopped
/// takes no more, and the call that was wanted is the next to be answered.
pub fn more_replies_go_on()
    ensures { (program : Program) (names : Option (List ℕ)) (replies more : List ReplyOf)
        (reply : ReplyOf) → GoesOn (meaning program names replies)
        (meaning program names (replies ++ reply ∷ more)) }
{}

/// So the calls that were answered stay, before those that more replies bring.
pub fn answered_calls_stay()
    ensures { (program : Program) (names : Option (List ℕ)) (replies more : List ReplyOf) →
        IsPrefixOf (meaning program names replies).calls
        (meaning program names (replies ++ more)).calls }
{}

/// Each call that was answered took one reply, and another is wanted only if none is left.
pub fn each_call_takes_a_reply()
    ensures { (program : Program) (names : Option (List ℕ)) (replies : List ReplyOf) →
        Takes (meaning program names replies) replies }
{}

/// A program makes as many calls as it may, and no more.
pub fn calls_are_within_limits()
    ensures { (limits : Limits) (program : Program) (names : Option (List ℕ))
        (replies : List ReplyOf) →
        length (meaning_within limits program names replies).calls ≤ limits.verbs }
{}

/// What the entries of a unit say once it has stopped, they say at any time.
pub fn follows_so_far()
    ensures { (party : PartyOf) (program : Program) (entries : List EntryOf) →
        Follows party program entries → SoFar party program entries }
{}

/// The replies of its verbs decide a unit's calls, and what it comes to.
pub fn replies_decide_calls()
    ensures { (program : Program) (names : Option (List ℕ)) (verbs others : List EntryOf)
        (end other : Ending) → Makes program names verbs end → Makes program names others other →
        replies_of verbs ≡ replies_of others → (calls_of verbs ≡ calls_of others) × (end ≡ other) }
{}

/// A unit that does what its program does has done so at any time before.
pub fn fronts_are_of_the_program()
    ensures { (program : Program) (names : Option (List ℕ)) (verbs more : List EntryOf)
        (end : Ending) → Makes program names (verbs ++ more) end →
        (meaning program names (replies_of verbs)).calls ≡ calls_of verbs }
{}

/// The bound of a range is above what may still be begun, so one more changes nothing.
pub fn more_bound_changes_nothing()
    ensures { (bound : ℕ) (layout : Layout) (text : List ParagraphTree) (begin last : ℕ)
        (run : Run) →
        run.left < bound →
        range bound layout text begin last run ≡ range (bound + 1) layout text begin last run }
{}

/// The Procedure Division begins at the last token of the divisions before it, and nothing is left
/// out.
pub fn procedure_begins_where_divisions_end()
    ensures { (tokens : List TokenOf) (place : ℕ) (division : DivisionOf) →
        IsDivisionOf tokens place division → from_procedure tokens ≡ drop place tokens }
{}

/// A program stops at its end, at a limit or for a fault, and never for want of anything to happen.
pub fn programs_never_stop_idle()
    ensures { (program : Program) (names : Option (List ℕ)) (replies : List ReplyOf) →
        (meaning program names replies).ending ≡ Stopped reason.Idle → ⊥ }
{}

/// What the entries of a unit say so far, they said at any time before, if a call that waits comes
/// again until it is answered.
pub fn fronts_are_so_far()
    ensures { (party : PartyOf) (program : Program) (front rest : List EntryOf) →
        AsksAgain (front ++ rest) → SoFar party program (front ++ rest) →
        SoFar party program front }
{}

/// The calls of a program without a fault are well formed, those that were answered and the one
/// that wants a reply, if its layout is sound, its text is checked and the replies fit the calls.
pub fn calls_are_well_formed()
    ensures { (program : Program) (names : Option (List ℕ)) (replies : List ReplyOf) →
        IsSound program.layout → IsCheckedText program.layout program.text →
        first (names_faults program) ≡ None → IfSome names AreNames → AreFit (meaning program names replies).calls replies →
        AreWellFormed (meaning program names replies) }
{}

/// Each source is a program or has a fault.
pub fn sources_are_programs_or_have_a_fault()
    ensures { (source : List ℕ) → ((program : Program) × IsProgramOf source program)
        ⊎ ((fault : FaultOf) × IsSourceFaultOf source fault) }
{}

/// And not both.
pub fn programs_have_no_fault()
    ensures { (source : List ℕ) (program : Program) (fault : FaultOf) →
        IsProgramOf source program → IsSourceFaultOf source fault → ⊥ }
{}

/// A source is one program.
pub fn sources_are_one_program()
    ensures { (source : List ℕ) (program other : Program) → IsProgramOf source program →
        IsProgramOf source other → program ≡ other }
{}

/// So what a source means is one.
pub fn sources_have_one_meaning()
    ensures { (source : List ℕ) (program other : Program) (names : Option (List ℕ))
        (replies : List ReplyOf) → IsProgramOf source program → IsProgramOf source other →
        meaning program names replies ≡ meaning other names replies }
{}

/// Or a source has one fault, whatever the pass that reports it.
pub fn sources_have_one_fault()
    ensures { (source : List ℕ) (fault other : FaultOf) → IsSourceFaultOf source fault →
        IsSourceFaultOf source other → fault ≡ other }
{}

/// The passes together are one function of the source.
pub fn passes_are_one_function()
    ensures { (source : List ℕ) → (read : Result Program FaultOf) × IsReadAs source read
        × ((other : Result Program FaultOf) → IsReadAs source other → read ≡ other) }
{}

/// Each text has a first fault of ranges, or none.
pub fn ranges_have_a_first_fault_or_none()
    ensures { (text : List ParagraphTree) →
        ((fault : FaultOf) × IsFirstOf (IsRangesFault text) fault)
        ⊎ ((fault : FaultOf) → IsRangesFault text fault → ⊥) }
{}

/// The names of a program of a source stand for what its statements ask for, and its numbers and
/// literals have their sizes.
pub fn programs_are_checked()
    ensures { (source : List ℕ) (program : Program) → IsProgramOf source program →
        IsCheckedText program.layout program.text }
{}

/// The layout of each program of a source is sound: an item has 1 to 2,000 characters, a numeric one
/// at most 18, and all of its occurrences are in its area; the area of a CD is an input or output
/// area, and each area begins as a text.
pub fn sources_have_sound_layouts()
    ensures { (source : List ℕ) (program : Program) → IsProgramOf source program →
        IsSound program.layout }
{}

/// So the calls of such a program are well formed, if the replies fit them.
pub fn calls_of_sources_are_well_formed()
    ensures { (source : List ℕ) (program : Program) (names : Option (List ℕ))
        (replies : List ReplyOf) → IsProgramOf source program → IfSome names AreNames →
        AreFit (meaning program names replies).calls replies →
        AreWellFormed (meaning program names replies) }
{}

/// A unit begins at most a million statements and turns, and has at most 10,000 verbs answered.
pub fn units_have_limits()
    ensures statements { unit_limits.statements ≡ 1000000 }
    ensures verbs { unit_limits.verbs ≡ 10000 }
{}
