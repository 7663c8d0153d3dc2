//! Laws of journals. A function here does nothing; its contract is the law.
ghost use Rattle.std.specs.Prelude.{◌≡◌, ◌∷◌, ◌++◌, ◌<◌, ◌^◌, [], ℕ, List, length};
ghost use Rattle.com_events.specs.declared.call.Party.{Party};
ghost use Rattle.com_events.specs.declared.call.Call.{Call};
ghost use Rattle.com_events.specs.declared.entry.Entry.{Entry};
ghost use Rattle.com_events.specs.Calls.{HasText};
ghost use Rattle.com_journal.specs.declared.fault.JournalFault.{JournalFault};
ghost use Rattle.com_journal.specs.Lines.{IsCallText, IsLine};
ghost use Rattle.com_journal.specs.Journals.{IsJournal};
ghost use Rattle.com_journal.specs.Faults.{IsJournalFault};

/// An entry that has a text has a line.
pub fn each_entry_has_a_line()
    ensures { (entry : Entry) → HasText entry → (line : List ℕ) × IsLine entry line }
{}

/// It has no other line.
pub fn an_entry_has_one_line()
    ensures { (entry : Entry) (line other : List ℕ)
        → IsLine entry line → IsLine entry other → line ≡ other }
{}

/// A line is of one entry.
pub fn a_line_is_of_one_entry()
    ensures { (entry other : Entry) (line : List ℕ)
        → IsLine entry line → IsLine other line → entry ≡ other }
{}

/// A line's length can be written in four bytes.
pub fn a_line_is_short()
    ensures { (entry : Entry) (line : List ℕ) → IsLine entry line → length line < 2 ^ 32 }
{}

/// The text of a call is of one party and one call.
pub fn a_text_is_of_one_call()
    ensures { (party other_party : Party) (call other_call : Call) (text : List ℕ)
        → IsCallText party call text → IsCallText other_party other_call text
        → (party ≡ other_party) × (call ≡ other_call) }
{}

/// No line with its line feed is a prefix of another's.
pub fn no_line_begins_another()
    ensures { (entry other : Entry) (line longer more : List ℕ)
        → IsLine entry line → IsLine other longer
        → longer ++ 10 ∷ [] ≡ (line ++ 10 ∷ []) ++ more
        → (line ≡ longer) × (more ≡ []) }
{}

/// Bytes are the journal of one history at most.
pub fn a_journal_is_of_one_history()
    ensures { (history other : List Entry) (bytes : List ℕ)
        → IsJournal history bytes → IsJournal other bytes → history ≡ other }
{}

/// Bytes that are a journal have no fault.
pub fn a_journal_has_no_fault()
    ensures { (history : List Entry) (bytes : List ℕ) (fault : JournalFault)
        → IsJournal history bytes → IsJournalFault bytes fault → ⊥ }
{}

/// Bytes have one fault at most.
pub fn one_fault_is_told()
    ensures { (bytes : List ℕ) (fault other : JournalFault)
        → IsJournalFault bytes fault → IsJournalFault bytes other → fault ≡ other }
{}
