//! Laws of the definitions. A function here does nothing; its contract is the law.
ghost use Rattle.std.specs.Prelude.{
  ◌≡◌,
  ◌≢◌,
  ◌≤◌,
  ℕ,
  Bool,
  true,
  List,
  [],
  ◌∷◌,
  ◌++◌,
  length,
  map,
  Option,
  Some,
  None,
  is_some,
  option_map,
  IsTrue,
};
ghost use Rattle.std.specs.List.{All};
ghost use Rattle.com_msg.specs.declared.rest.Kind.{Kind as KindOf};
ghost use Rattle.com_events.specs.declared.call.Party.{Party as PartyOf};
ghost use Rattle.com_events.specs.declared.call.Party.TheVariants as party;
ghost use Rattle.com_events.specs.declared.call.Call.{Call as CallOf};
ghost use Rattle.com_events.specs.declared.call.Call.TheVariants as made;
ghost use Rattle.com_events.specs.declared.call.StopReason.{StopReason as ReasonOf};
ghost use Rattle.com_events.specs.declared.reply.Reply.{Reply as ReplyOf};
ghost use Rattle.com_events.specs.declared.reply.Reply.TheVariants as reply;
ghost use Rattle.com_events.specs.Calls.{IsWellFormed};
ghost use Rattle.com_cd.specs.declared.status.Status.{Status as StatusOf};
ghost use Rattle.com_msg.specs.Begun.{Begun as BegunOf, nothing_begun};
ghost use Rattle.com_send.specs.Outgoing.{begun_for};
ghost use Rattle.com_state.specs.declared.parties.UnitMode.TheVariants.{Stopped};
ghost use Rattle.com_state.specs.declared.parties.TerminalMode.TheVariants.{Ended};
ghost use Rattle.com_state.specs.State.{State as SystemState, opening, unit_mode, terminal_mode};
ghost use Rattle.com_net.specs.declared.net.Net.{Net as NetOf};
ghost use Rattle.com_events.specs.declared.entry.Entry.{Entry as EntryOf};
ghost use Rattle.com_net.specs.Network.{IsNet};
ghost use Rattle.com_net.specs.Numbers.{unit_number, terminal_number};
ghost use Rattle.com_state.specs.Histories.{LeadsTo, Legal, IsRun, run, call_made, state_after};
ghost use Rattle.com_state.specs.Parties.{
  entries_of,
  unit_by,
  terminal_by,
  may_by_unit,
  may_by_terminal,
};
ghost use Rattle.com_state.specs.Reached.{IsConsistent, KeepsLimits, IsToldBy};
ghost use Rattle.com_state.specs.Steps.{step, is_idle};
ghost use Rattle.com_state.specs.Wholeness.{EveryHistoryIsWhole};
ghost use Rattle.com_state.specs.Laws.{Keeps, rests_of, is_refusal, is_idle_call, Tells, ChangesStatusAlone};

/// Every step leaves the network; only ARRIVE makes more messages wait; and what is queued for a
/// terminal is still queued after it, except ENABLE OUTPUT.
pub fn step_keeps()
    ensures { (S next : SystemState) (party : PartyOf) (call : CallOf) (reply : ReplyOf) →
        step S party call ≡ Some (reply, next) → Keeps S call next }
{}

/// A RECEIVE of one unit leaves what the others hold.
pub fn others_keep_their_rests()
    ensures { (S next : SystemState) (name : List ℕ) (unit other : ℕ) (area : List ℕ)
        (kind : KindOf) (size : ℕ) (no_data : Bool) (reply : ReplyOf) →
        unit_number S.net name ≡ Some unit → other ≢ unit →
        step S (party.Unit name) (made.Receive area kind size no_data) ≡ Some (reply, next) →
        rests_of next other ≡ rests_of S other }
{}

/// A unit that stops holds nothing any more, and what it had begun to send is gone.
pub fn nothing_is_left_of_a_stopped_unit()
    ensures { (S next : SystemState) (name : List ℕ) (unit : ℕ) (reason : ReasonOf)
        (reply : ReplyOf) → unit_number S.net name ≡ Some unit →
        step S (party.Unit name) (made.Stop reason) ≡ Some (reply, next) →
        (rests_of next unit ≡ [])
        × ((terminal : ℕ) (begun : BegunOf) → begun_for next.outgoing unit terminal ≡ Some begun →
        begun ≡ nothing_begun) }
{}

/// A call that is refused changes the status key of its area, and nothing else there: RECEIVE and
/// COUNT with 20, SEND with 30, 50 and 60, ENABLE and DISABLE with 20 and 40 for input and with 30
/// and 40 for output. The system stays as it was, but that the unit has done one verb more.
pub fn a_refusal_changes_the_status_alone()
    ensures { (S next : SystemState) (party : PartyOf) (call : CallOf) (reply : ReplyOf)
        (status : StatusOf) → IsWellFormed call → IsTrue (is_refusal call status) →
        step S party call ≡ Some (reply, next) → Tells reply status →
        ChangesStatusAlone S call status reply next }
{}

/// RECEIVE gives no more characters than it asks for.
pub fn a_portion_is_no_longer_than_asked()
    ensures { (S next : SystemState) (name area given text : List ℕ) (kind : KindOf) (size : ℕ)
        (no_data : Bool) →
        step S (party.Unit name) (made.Receive area kind size no_data)
        ≡ Some (reply.Given given text, next) →
        length text ≤ size }
{}

/// A unit that stops leaves what the others hold and have begun to send.
pub fn others_are_left_by_a_stop()
    ensures { (S next : SystemState) (name : List ℕ) (unit other : ℕ) (reason : ReasonOf)
        (reply : ReplyOf) → unit_number S.net name ≡ Some unit → other ≢ unit →
        step S (party.Unit name) (made.Stop reason) ≡ Some (reply, next) →
        (rests_of next other ≡ rests_of S other) × ((terminal : ℕ) →
        begun_for next.outgoing other terminal ≡ begun_for S.outgoing other terminal) }
{}

/// In every legal history a message goes to one unit, from its front and with nothing left out;
/// what is missing at the end that unit still holds, or it has stopped. On each leaf messages are
/// taken up in the order of arrival.
pub fn every_history_is_whole()
    ensures { EveryHistoryIsWhole }
{}

/// A history is legal exactly if its calls get its replies.
pub fn shown_is_legal()
    ensures legal { (net : NetOf) (history : List EntryOf) → IsRun net history → Legal net history }
    ensures shown { (net : NetOf) (history : List EntryOf) → Legal net history → IsRun net history }
{}

/// One call in one state has one reply, and leaves one state.
pub fn a_step_is_determined()
    ensures { (S next another : SystemState) (who : PartyOf) (call : CallOf)
        (reply other : ReplyOf) → step S who call ≡ Some (reply, next) →
        step S who call ≡ Some (other, another) → (reply ≡ other) × (next ≡ another) }
{}

/// The front of a legal history is legal.
pub fn a_front_is_legal()
    ensures { (net : NetOf) (front behind : List EntryOf) → Legal net (front ++ behind) →
        Legal net front }
{}

/// A step makes a history longer by its own entry.
pub fn a_step_is_one_entry_more()
    ensures { (first S next : SystemState) (history : List EntryOf) (entry : EntryOf) →
        LeadsTo first history S → step S entry.party entry.call ≡ Some (entry.reply, next) →
        LeadsTo first (history ++ entry ∷ []) next }
{}

/// A legal history leaves the state that `state_after` gives, and no other.
pub fn a_legal_history_leaves_one_state()
    ensures left { (net : NetOf) (history : List EntryOf) (last : SystemState) →
        LeadsTo (opening net) history last → state_after net history ≡ Some last }
    ensures alone { (net : NetOf) (history : List EntryOf) (last : SystemState) →
        Legal net history → state_after net history ≡ Some last →
        LeadsTo (opening net) history last }
{}

/// The run of a list of calls is legal, and makes just these calls.
pub fn a_run_is_legal()
    ensures { (net : NetOf) (calls : List (PartyOf × CallOf)) (history : List EntryOf)
        (last : SystemState) → run net calls ≡ Some (history, last) →
        (map call_made history ≡ calls) × LeadsTo (opening net) history last }
{}

/// One call more at the end of a run is one step more, from the state that the run leaves: the
/// entry goes after the history. Where it has no step, the calls have no run.
pub fn a_run_goes_on_by_a_step()
    ensures { (net : NetOf) (calls : List (PartyOf × CallOf)) (who : PartyOf) (call : CallOf)
        (history : List EntryOf) (last : SystemState) → run net calls ≡ Some (history, last) →
        run net (calls ++ (who, call) ∷ []) ≡ option_map (λ next. (
          history ++ record { party = who; call = call; reply = next.0 } ∷ [],
          next.1,
        )) (step last who call) }
{}

/// Calls have no run where those at their front have none.
pub fn no_calls_run_behind_such_as_do_not()
    ensures { (net : NetOf) (front behind : List (PartyOf × CallOf)) → run net front ≡ None →
        run net (front ++ behind) ≡ None }
{}

/// An idle system allows no call but STOP IDLE and END IDLE.
pub fn an_idle_system_only_stops_and_ends()
    ensures { (S next : SystemState) (who : PartyOf) (call : CallOf) (reply : ReplyOf) →
        is_idle S ≡ true → step S who call ≡ Some (reply, next) → is_idle_call call ≡ true }
{}

/// A unit that has stopped has no call, and neither has a terminal that has ended.
pub fn no_call_is_left_at_the_end()
    ensures stopped { (S : SystemState) (name : List ℕ) (unit : ℕ) (call : CallOf) →
        unit_number S.net name ≡ Some unit → unit_mode S unit ≡ Some Stopped →
        step S (party.Unit name) call ≡ None }
    ensures ended { (S : SystemState) (name : List ℕ) (terminal : ℕ) (call : CallOf) →
        terminal_number S.net name ≡ Some terminal → terminal_mode S terminal ≡ Some Ended →
        step S (party.Terminal name) call ≡ None }
{}

/// What a legal history of well-formed calls leaves is consistent: its lists have the lengths that
/// the network says, no count is beyond its limit, no rest is spent, no unit holds two rests from
/// one leaf, and what waits stands in the order of arrival.
pub fn every_state_reached_is_consistent()
    ensures { (net : NetOf) (history : List EntryOf) (last : SystemState) → IsNet net →
        All (λ entry. IsWellFormed entry.call) history → LeadsTo (opening net) history last →
        IsConsistent last }
{}

/// Whatever its calls are, no legal history passes the limit of a unit's verbs or of a terminal's
/// arrivals.
pub fn no_count_passes_its_limit()
    ensures { (net : NetOf) (history : List EntryOf) (last : SystemState) →
        LeadsTo (opening net) history last → KeepsLimits last }
{}

/// The entries of a party alone tell its mode and its count.
pub fn entries_tell_of_their_party()
    ensures { (net : NetOf) (history : List EntryOf) (last : SystemState) →
        LeadsTo (opening net) history last → IsToldBy net history last }
{}

/// So they tell what the party may do next, where its mode and its count alone settle that.
pub fn entries_tell_what_their_party_may_do()
    ensures unit { (net : NetOf) (history : List EntryOf) (last : SystemState) (name : List ℕ)
        (unit : ℕ) (call : CallOf) (may : Bool) → LeadsTo (opening net) history last →
        unit_number net name ≡ Some unit →
        may_by_unit call (unit_by (entries_of (party.Unit name) history)).mode
        (unit_by (entries_of (party.Unit name) history)).verbs ≡ Some may →
        is_some (step last (party.Unit name) call) ≡ may }
    ensures terminal { (net : NetOf) (history : List EntryOf) (last : SystemState)
        (name : List ℕ) (terminal : ℕ) (call : CallOf) (may : Bool) →
        LeadsTo (opening net) history last → terminal_number net name ≡ Some terminal →
        may_by_terminal call (terminal_by (entries_of (party.Terminal name) history)).mode
        (terminal_by (entries_of (party.Terminal name) history)).arrivals ≡ Some may →
        is_some (step last (party.Terminal name) call) ≡ may }
{}
