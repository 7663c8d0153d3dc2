//! SEND.
ghost use Rattle.std.specs.Prelude.{◌≡◌, ◌∷◌, [], IfSome, OnOk};
ghost use Rattle.com_text.specs.Counted.{IsCountable};
ghost use Rattle.com_journal.specs.Lines.{advance_field, part_fields, item_field, call_fields};
ghost use Rattle.com_journal.specs.inner.Writing.{written};
ghost use Rattle.com_journal.specs.inner.Outcomes.{Gives};
ghost use Rattle.com_journal.specs.inner.Reading.{advance_by, advance_of, indicated, indicator_at, part_at, item_at, send_at};

use crate::line::{Line, Unread, number_in};
use crate::put::{put_field, put_word};
use com_cd::OutArea;
use com_events::Call;
use com_msg::{Advance, MAX_ITEM_LENGTH, MAX_LINES, Part};
use com_text::{Rows, Text, put_number};
use std::alloc::{AllocError, Global};

/// Takes a SEND, after its verb.
#[tactic(auto, unfolding(crate::specs::inner::Reading::send_at))]
pub(crate) fn read_call(alloc: Global, line: &mut Line<'_>) -> Result<Call, Unread>
    ensures { Gives (λ call. (call, line.new)) result (send_at line.old) }
{
    let part = part(line)?;
    let from = item(alloc, line)?;
    let area = line.out_area()?;
    Ok(Call::Send { area, part, from })
}

#[tactic(auto, unfolding(crate::specs::inner::Reading::part_at))]
fn part(line: &mut Line<'_>) -> Result<Part, Unread>
    ensures { Gives (λ part. (part, line.new)) result (part_at line.old) }
{
    let word = line.word()?;
    if word == b"PART".as_slice() {
        return Ok(Part::Portion);
    }
    indicator(word, line)
}

/// Takes an indicator with its advance, after its word.
#[tactic(auto, unfolding(crate::specs::inner::Reading::indicator_at))]
fn indicator(word: &[u8], line: &mut Line<'_>) -> Result<Part, Unread>
    ensures { Gives (λ part. (part, line.new)) result (indicator_at word.now line.old) }
{
    let advance = advance_of(line.word()?)?;
    indicated(word, advance)
}

#[tactic(auto, unfolding(crate::specs::inner::Reading::indicated))]
fn indicated(word: &[u8], advance: Advance) -> Result<Part, Unread>
    ensures { Gives (λ part. part) result (indicated word.now advance) }
{
    if word == b"ESI".as_slice() {
        Ok(Part::Esi(advance))
    } else if word == b"EMI".as_slice() {
        Ok(Part::Emi(advance))
    } else if word == b"EGI".as_slice() {
        Ok(Part::Egi(advance))
    } else {
        Err(Unread::Refused)
    }
}

#[tactic(auto, unfolding(crate::specs::inner::Reading::advance_of, crate::specs::inner::Reading::advance_by))]
fn advance_of(word: &[u8]) -> Result<Advance, Unread>
    ensures { Gives (λ advance. advance) result (advance_of word.now) }
{
    let Some((side, how)) = word.split_first() else {
        return Err(Unread::Refused);
    };
    match *side {
        b'B' => before(how),
        b'A' => after(how),
        _ => Err(Unread::Refused),
    }
}

/// Returns how far the terminal advances after the text.
#[tactic(auto, unfolding(crate::specs::inner::Reading::advance_by))]
fn before(how: &[u8]) -> Result<Advance, Unread>
    ensures { Gives (λ advance. advance) result
        (advance_by Advance.BeforePage Advance.Before how.now) }
{
    if how == b"P".as_slice() {
        return Ok(Advance::BeforePage);
    }
    match number_in(0, u64::from(MAX_LINES), how) {
        Some(lines) => Ok(Advance::Before(lines as u8)),
        None => Err(Unread::Refused),
    }
}

/// Returns how far the terminal advances before the text.
#[tactic(auto, unfolding(crate::specs::inner::Reading::advance_by))]
fn after(how: &[u8]) -> Result<Advance, Unread>
    ensures { Gives (λ advance. advance) result
        (advance_by Advance.AfterPage Advance.After how.now) }
{
    if how == b"P".as_slice() {
        return Ok(Advance::AfterPage);
    }
    match number_in(0, u64::from(MAX_LINES), how) {
        Some(lines) => Ok(Advance::After(lines as u8)),
        None => Err(Unread::Refused),
    }
}

#[tactic(auto, unfolding(crate::specs::inner::Reading::item_at))]
fn item(alloc: Global, line: &mut Line<'_>) -> Result<Option<Text>, Unread>
    ensures { Gives (λ item. (item, line.new)) result (item_at line.old) }
{
    if line.skips_hyphen() {
        return Ok(None);
    }
    let text = line.text(alloc, 1, MAX_ITEM_LENGTH)?;
    Ok(Some(text))
}

/// Adds a SEND.
pub(crate) fn put_call(
    out: &mut Rows<u8>,
    area: &OutArea,
    part: Part,
    from: &Option<Text>,
) -> Result<(), AllocError>
    requires { IfSome from.now IsCountable }
    ensures { OnOk result
        (out.new ≡ written out.old (call_fields (Call.Send area.now part from.now))) }
{
    put_word(out, b"SEND")?;
    put_part(out, part)?;
    put_item(out, from)?;
    put_field(out, area.as_bytes())
}

/// Adds an item, or a hyphen.
fn put_item(out: &mut Rows<u8>, item: &Option<Text>) -> Result<(), AllocError>
    requires { IfSome item.now IsCountable }
    ensures { OnOk result (out.new ≡ written out.old (item_field item.now ∷ [])) }
{
    match item {
        Some(text) => put_field(out, text.as_bytes()),
        None => put_word(out, b"-"),
    }
}

fn put_part(out: &mut Rows<u8>, part: Part) -> Result<(), AllocError>
    ensures { OnOk result (out.new ≡ written out.old (part_fields part)) }
{
    match part {
        Part::Portion => put_word(out, b"PART"),
        Part::Esi(advance) => {
            put_word(out, b"ESI")?;
            put_advance(out, advance)
        }
        Part::Emi(advance) => {
            put_word(out, b"EMI")?;
            put_advance(out, advance)
        }
        Part::Egi(advance) => {
            put_word(out, b"EGI")?;
            put_advance(out, advance)
        }
    }
}

fn put_advance(out: &mut Rows<u8>, advance: Advance) -> Result<(), AllocError>
    ensures { OnOk result (out.new ≡ written out.old (advance_field advance ∷ [])) }
{
    match advance {
        Advance::Before(lines) => {
            put_word(out, b"B")?;
            put_number(out, u64::from(lines))
        }
        Advance::After(lines) => {
            put_word(out, b"A")?;
            put_number(out, u64::from(lines))
        }
        Advance::BeforePage => put_word(out, b"BP"),
        Advance::AfterPage => put_word(out, b"AP"),
    }
}
