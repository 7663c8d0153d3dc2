//! Laws of the definitions. A function here does nothing; its contract is the law.
ghost use Rattle.std.specs.Prelude.{◌≡◌, ◌≢◌, ◌<◌, ℕ, Bool, false, List, Option, Some, IsTrue, length, slice_get};
ghost use Rattle.com_msg.specs.declared.sending.Part.{Part as PartOf};
ghost use Rattle.com_cd.specs.OutputArea.{IsOutputArea, out_field};
ghost use Rattle.com_cd.specs.Status.{status_bytes, with_output_status};
ghost use Rattle.com_cd.specs.declared.status.Status.{Status as StatusOf};
ghost use Rattle.com_cd.specs.declared.output_area.OutField.TheVariants as field;
ghost use Rattle.com_send.specs.declared.destination.Destination.{Destination};
ghost use Rattle.com_send.specs.Outgoing.{DestinationState, Outgoing, begun_for, opening};
ghost use Rattle.com_send.specs.Sending.{send};
ghost use Rattle.com_send.specs.Switching.{switch_output};
ghost use Rattle.com_send.specs.Laws.{Verb, IsInOrder, after_all, finished_by_all, is_named, is_send_refusal, is_switch_refusal};

/// A SEND leaves all of a destination that it does not name.
pub fn a_send_leaves_other_destinations()
    ensures { (destinations : List Destination) (outgoing : Outgoing) (unit : ℕ) (area : List ℕ)
        (part : PartOf) (item : Option (List ℕ)) (at : ℕ) →
        is_named destinations area at ≡ false →
        slice_get (send destinations outgoing unit area part item).1 at ≡ slice_get outgoing at }
{}

/// A SEND leaves what other units have begun, at every destination.
pub fn a_send_leaves_what_others_have_begun()
    ensures { (destinations : List Destination) (outgoing : Outgoing) (unit other : ℕ)
        (area : List ℕ) (part : PartOf) (item : Option (List ℕ)) (at : ℕ) → other ≢ unit →
        begun_for (send destinations outgoing unit area part item).1 other at
        ≡ begun_for outgoing other at }
{}

/// ENABLE and DISABLE OUTPUT leave all of a destination that they do not name.
pub fn a_switch_leaves_other_destinations()
    ensures { (destinations : List Destination) (outgoing : Outgoing) (on : Bool)
        (area key : List ℕ) (at : ℕ) → is_named destinations area at ≡ false →
        slice_get (switch_output destinations outgoing on area key).1 at
        ≡ slice_get outgoing at }
{}

/// With 30, 50 and 60 a SEND changes the status key, and nothing else.
pub fn a_refused_send_changes_the_status_alone()
    ensures { (destinations : List Destination) (outgoing : Outgoing) (unit : ℕ) (area : List ℕ)
        (part : PartOf) (item : Option (List ℕ)) (status : StatusOf) → IsOutputArea area →
        IsTrue (is_send_refusal status) →
        out_field field.Status (send destinations outgoing unit area part item).0
        ≡ status_bytes status →
        send destinations outgoing unit area part item ≡ (with_output_status status area, outgoing) }
{}

/// With 30 and 40 ENABLE and DISABLE OUTPUT change the status key, and nothing else.
pub fn a_refused_switch_changes_the_status_alone()
    ensures { (destinations : List Destination) (outgoing : Outgoing) (on : Bool)
        (area key : List ℕ) (status : StatusOf) → IsOutputArea area →
        IsTrue (is_switch_refusal status) →
        out_field field.Status (switch_output destinations outgoing on area key).0
        ≡ status_bytes status →
        switch_output destinations outgoing on area key ≡ (with_output_status status area, outgoing) }
{}

/// After any calls, what was transmitted to a destination and then what is queued for it are the
/// messages that the calls finished for it, whole and in order; and nothing is queued where it is
/// enabled. So ENABLE OUTPUT transmits all that is queued, before anything that is finished later.
pub fn everything_is_transmitted_in_order()
    ensures { (destinations : List Destination) (units : ℕ) (verbs : List Verb) (at : ℕ) →
        at < length destinations →
        let begin = opening destinations units in
        (state : DestinationState)
        × (slice_get (after_all destinations begin verbs) at ≡ Some state)
        × IsInOrder (finished_by_all destinations begin verbs at) state }
{}
