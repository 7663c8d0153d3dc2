//! Laws of calls and replies. A function here does nothing; its contract is the law.
ghost use Rattle.std.specs.Prelude.{◌≡◌, ◌≢◌, ℕ, Bool, true, false, not, ◌&&◌, nat_lt, List, Option, Some, is_some, is_none, slice_get};
ghost use Rattle.com_msg.specs.Stamp.{Moment as MomentOf};
ghost use Rattle.com_msg.specs.declared.message.RawMessage.{RawMessage as MessageOf};
ghost use Rattle.com_msg.specs.declared.rest.Kind.{Kind as KindOf};
ghost use Rattle.com_net.specs.declared.net.Net.{Net as NetOf};
ghost use Rattle.com_net.specs.Numbers.{unit_number, terminal_number};
ghost use Rattle.com_events.specs.declared.call.Party.{Party as PartyOf};
ghost use Rattle.com_events.specs.declared.call.Party.TheVariants as party;
ghost use Rattle.com_events.specs.declared.call.Call.{Call as CallOf};
ghost use Rattle.com_events.specs.declared.call.Call.TheVariants as made;
ghost use Rattle.com_events.specs.declared.call.StopReason.TheVariants as stop;
ghost use Rattle.com_events.specs.declared.call.EndReason.TheVariants as finish;
ghost use Rattle.com_events.specs.declared.reply.Reply.{Reply as ReplyOf};
ghost use Rattle.com_events.specs.declared.reply.Reply.TheVariants as reply;
ghost use Rattle.com_events.specs.declared.entry.Entry.{Entry as EntryOf};
ghost use Rattle.com_recv.specs.Incoming.{designated};
ghost use Rattle.com_state.specs.declared.parties.TheConstants.{MAX_VERBS as VERBS, MAX_ARRIVALS as ARRIVALS};
ghost use Rattle.com_state.specs.declared.parties.UnitMode.TheVariants.{Dormant, WaitingFor};
ghost use Rattle.com_state.specs.declared.parties.TerminalMode.TheVariants.{Feeding};
ghost use Rattle.com_state.specs.State.{State as SystemState, opening, unit_mode};
ghost use Rattle.com_state.specs.Answers.{is_ready};
ghost use Rattle.com_state.specs.Histories.{LeadsTo};
ghost use Rattle.com_state.specs.Parties.{entries_of, unit_by, terminal_by};
ghost use Rattle.com_state.specs.Steps.{step, schedule_of, feed_of, is_running, is_holding, is_feeding_or_holding, is_idle, is_path_open, waits_or_sleeps};
ghost use Rattle.com_state.specs.Waits.{has_start, is_of_kind};

/// At its party's mode and below its count, START is allowed exactly where a message waits for its
/// schedule, a RECEIVE that waits exactly where it has something to go on with, ARRIVE exactly where
/// the path is open, and HELD exactly where it is not.
pub fn a_call_is_refused_where_it_has_to_wait()
    ensures start { (net : NetOf) (history : List EntryOf) (last : SystemState) (name : List ℕ)
        (unit : ℕ) → LeadsTo (opening net) history last → unit_number net name ≡ Some unit →
        (unit_by (entries_of (party.Unit name) history)).mode ≡ Dormant →
        is_some (step last (party.Unit name) made.Start) ≡ has_start last unit }
    ensures receive { (net : NetOf) (history : List EntryOf) (last : SystemState) (name : List ℕ)
        (unit : ℕ) (area : List ℕ) (kind : KindOf) (size : ℕ) →
        LeadsTo (opening net) history last → unit_number net name ≡ Some unit →
        (unit_by (entries_of (party.Unit name) history)).mode ≡ WaitingFor area kind size →
        nat_lt (unit_by (entries_of (party.Unit name) history)).verbs VERBS ≡ true →
        is_some (step last (party.Unit name) (made.Receive area kind size false))
        ≡ is_ready last unit area }
    ensures arrive { (net : NetOf) (history : List EntryOf) (last : SystemState) (name : List ℕ)
        (terminal : ℕ) (stamp : MomentOf) (message : MessageOf) →
        LeadsTo (opening net) history last → terminal_number net name ≡ Some terminal →
        is_feeding_or_holding
        (Some (terminal_by (entries_of (party.Terminal name) history)).mode) ≡ true →
        nat_lt (terminal_by (entries_of (party.Terminal name) history)).arrivals ARRIVALS ≡ true →
        is_some (step last (party.Terminal name) (made.Arrive stamp message))
        ≡ is_path_open last terminal }
    ensures held { (net : NetOf) (history : List EntryOf) (last : SystemState) (name : List ℕ)
        (terminal : ℕ) → LeadsTo (opening net) history last →
        terminal_number net name ≡ Some terminal →
        (terminal_by (entries_of (party.Terminal name) history)).mode ≡ Feeding →
        nat_lt (terminal_by (entries_of (party.Terminal name) history)).arrivals ARRIVALS ≡ true →
        is_some (feed_of last.net terminal) ≡ true →
        is_some (step last (party.Terminal name) made.Held) ≡ not (is_path_open last terminal) }
{}

/// STOP IDLE is allowed exactly where the system is idle and the unit waits or has not started, and
/// END IDLE exactly where the system is idle and the terminal holds a message.
pub fn idle_calls_need_an_idle_system()
    ensures stop { (net : NetOf) (history : List EntryOf) (last : SystemState) (name : List ℕ)
        (unit : ℕ) → LeadsTo (opening net) history last → unit_number net name ≡ Some unit →
        is_some (step last (party.Unit name) (made.Stop stop.Idle))
        ≡ (is_idle last
        && waits_or_sleeps (Some (unit_by (entries_of (party.Unit name) history)).mode)) }
    ensures finish { (net : NetOf) (history : List EntryOf) (last : SystemState) (name : List ℕ)
        (terminal : ℕ) → LeadsTo (opening net) history last →
        terminal_number net name ≡ Some terminal →
        is_some (step last (party.Terminal name) (made.Finish finish.Idle))
        ≡ (is_idle last
        && is_holding (Some (terminal_by (entries_of (party.Terminal name) history)).mode)) }
{}

/// Each call is answered by its own kind of reply. WAITS comes only to a unit that runs, whose
/// RECEIVE has no NO DATA, designates a queue and has nothing to go on with; that there is no data
/// comes only with NO DATA; and START hands over names exactly where the unit has a schedule.
pub fn a_reply_is_of_its_call()
    ensures kind { (S next : SystemState) (who : PartyOf) (call : CallOf) (reply : ReplyOf) →
        step S who call ≡ Some (reply, next) → is_of_kind call reply ≡ true }
    ensures waits { (S next : SystemState) (name : List ℕ) (unit : ℕ) (area : List ℕ)
        (kind : KindOf) (size : ℕ) (no_data : Bool) → unit_number S.net name ≡ Some unit →
        step S (party.Unit name) (made.Receive area kind size no_data)
        ≡ Some (reply.Waits, next) →
        (is_running (unit_mode S unit) ≡ true) × (no_data ≡ false)
        × (is_none (designated S.net.tree area) ≡ false) × (is_ready S unit area ≡ false) }
    ensures no_data { (S next : SystemState) (name : List ℕ) (unit : ℕ) (area after : List ℕ)
        (kind : KindOf) (size : ℕ) (no_data : Bool) → unit_number S.net name ≡ Some unit →
        step S (party.Unit name) (made.Receive area kind size no_data)
        ≡ Some (reply.NoData after, next) → no_data ≡ true }
    ensures names { (S next : SystemState) (name : List ℕ) (unit : ℕ) (names : Option (List ℕ)) →
        unit_number S.net name ≡ Some unit →
        step S (party.Unit name) made.Start ≡ Some (reply.Started names, next) →
        is_some names ≡ is_some (schedule_of S.net unit) }
{}

/// A call of one party leaves the modes and the counts of all others.
pub fn a_call_leaves_the_other_parties()
    ensures unit { (S next : SystemState) (name : List ℕ) (unit other : ℕ) (call : CallOf)
        (reply : ReplyOf) → unit_number S.net name ≡ Some unit → other ≢ unit →
        step S (party.Unit name) call ≡ Some (reply, next) →
        (slice_get next.units other ≡ slice_get S.units other) × (next.terminals ≡ S.terminals) }
    ensures terminal { (S next : SystemState) (name : List ℕ) (terminal other : ℕ) (call : CallOf)
        (reply : ReplyOf) → terminal_number S.net name ≡ Some terminal → other ≢ terminal →
        step S (party.Terminal name) call ≡ Some (reply, next) →
        (slice_get next.terminals other ≡ slice_get S.terminals other)
        × (next.units ≡ S.units) }
{}
