//! Whole lines.
ghost use Rattle.std.specs.Prelude.{◌≡◌, ◌++◌, ◌∷◌, [], IfOk, OnOk, MatchResult};
ghost use Rattle.com_events.specs.declared.call.Party.{Party as AParty};
ghost use Rattle.com_events.specs.declared.call.Call.{Call as ACall};
ghost use Rattle.com_events.specs.declared.entry.Entry.{Entry as AnEntry};
ghost use Rattle.com_events.specs.Calls.{HasText};
ghost use Rattle.com_journal.specs.Lines.{IsCallText, IsLine};
ghost use Rattle.com_journal.specs.inner.Outcomes.{Is, IsOutOfMemory};
ghost use Rattle.com_journal.specs.inner.Writing.{written, with_entry, party_sort, party_name};
ghost use Rattle.com_journal.specs.inner.Outcomes.{Gives};
ghost use Rattle.com_journal.specs.inner.Reading.{call_of, entry_of};

use crate::line::{Line, Unread};
use crate::put::put_word;
use crate::{call, reply};
use com_events::{Call, Entry, Party};
use com_text::Rows;
use std::alloc::{AllocError, Global};

/// Returns the call whose text the bytes are.
pub(crate) fn call_of(alloc: Global, bytes: &[u8]) -> Result<(Party, Call), Unread>
    ensures found { IfOk result (λ found. IsCallText found.0 found.1 bytes.now) }
    ensures each_text { (party : AParty) (call : ACall) → IsCallText party call bytes.now
        → MatchResult result (Is (party, call)) IsOutOfMemory }
{
    read_call(alloc, bytes)
}

/// Returns the entry whose line the bytes are.
pub(crate) fn entry_of(alloc: Global, bytes: &[u8]) -> Result<Entry, Unread>
    ensures found { IfOk result (λ entry. IsLine entry bytes.now) }
    ensures each_line { (entry : AnEntry) → IsLine entry bytes.now
        → MatchResult result (Is entry) IsOutOfMemory }
{
    read_entry(alloc, bytes)
}

#[tactic(auto, unfolding(crate::specs::inner::Reading::call_of))]
fn read_call(alloc: Global, bytes: &[u8]) -> Result<(Party, Call), Unread>
    ensures { Gives (λ found. found) result (call_of bytes.now) }
{
    let mut line = Line::new(bytes);
    let found = call::read(alloc, &mut line)?;
    line.end()?;
    Ok(found)
}

#[tactic(auto, unfolding(crate::specs::inner::Reading::entry_of))]
fn read_entry(alloc: Global, bytes: &[u8]) -> Result<Entry, Unread>
    ensures { Gives (λ entry. entry) result (entry_of bytes.now) }
{
    let mut line = Line::new(bytes);
    let (party, call) = call::read(alloc, &mut line)?;
    line.expect(b"=")?;
    let reply = reply::read(alloc, &call, &mut line)?;
    line.end()?;
    Ok(Entry { party, call, reply })
}

/// Adds the line of an entry, without its end.
pub(crate) fn put(out: &mut Rows<u8>, entry: &Entry) -> Result<(), AllocError>
    requires { HasText entry.now }
    ensures { OnOk result (out.new ≡ with_entry out.old entry.now) }
{
    put_party(out, &entry.party)?;
    call::put(out, &entry.call)?;
    put_word(out, b"=")?;
    reply::put(out, &entry.reply)
}

/// Adds the line of an entry after the text of its call, without the line's end.
pub(crate) fn put_behind(out: &mut Rows<u8>, call: &[u8], entry: &Entry) -> Result<(), AllocError>
    requires text { HasText entry.now }
    requires call { IsCallText entry.now.party entry.now.call call.now }
    ensures { OnOk result (out.new ≡ with_entry out.old entry.now) }
{
    out.extend_from_slice(call)?;
    put_word(out, b"=")?;
    reply::put(out, &entry.reply)
}

fn put_party(out: &mut Rows<u8>, party: &Party) -> Result<(), AllocError>
    ensures { OnOk result (out.new
        ≡ written (out.old ++ party_sort party.now ∷ []) (party_name party.now ∷ [])) }
{
    match party {
        Party::Unit(name) => {
            out.extend_from_slice(b"U")?;
            put_word(out, name.as_bytes())
        }
        Party::Terminal(name) => {
            out.extend_from_slice(b"T")?;
            put_word(out, name.as_bytes())
        }
    }
}
