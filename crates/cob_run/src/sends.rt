//! What a SEND sends and ends. None is a stop for DATA.
ghost use Rattle.std.specs.Prelude.{◌≡◌, Some, None, MatchOption, IfSome, option_map, bytes_eq};
ghost use Rattle.cob_meaning.specs.Verbs.{indicated};
ghost use Rattle.cob_flat.specs.Effects.{
  advance_with,
  advanced_by,
  ended_by,
  ends_by,
  ends_with,
  text_by,
};
ghost use Rattle.cob_run.specs.Within.{AreLinesIn, IsEndIn, IsIndicatorIn, IsSpotIn, sizes};
ghost use Rattle.cob_run.specs.inner.Requests.{ends};

use crate::area::Area;
use crate::operands::{amount, held, item};
use cob_flat::{Advancement, EndSource, LinesSource, SendEnd, Spot};
use com_msg::{Advance, MAX_LINES, Part};

/// What an indicator ends.
#[derive(Clone, Copy, Debug, PartialEq, Eq)]
pub enum Ended {
    Segment,
    Message,
    Group,
}

/// Whether characters are these.
fn are_characters(characters: &[u8], others: &[u8]) -> bool
    ensures { result ≡ bytes_eq characters.now others.now }
{
    characters == others
}

/// What the characters of an item indicate.
fn indicated(characters: &[u8]) -> Option<Ended>
    ensures { option_map ends result ≡ indicated characters.now }
{
    if are_characters(characters, b"1") {
        return Some(Ended::Segment);
    }
    if are_characters(characters, b"2") {
        return Some(Ended::Message);
    }
    if are_characters(characters, b"3") {
        return Some(Ended::Group);
    }
    None
}

/// The text that is sent, if there is one.
pub(crate) fn sent_text<'a>(areas: &'a [Area], from: Option<Spot>) -> Option<Option<&'a [u8]>>
    requires { IfSome from (IsSpotIn (sizes areas.now)) }
    ensures { let sent = text_by from areas.now in
        MatchOption result (sent ≡ None) (λ text. sent ≡ Some (option_map (λ x. x.now) text)) }
{
    match from {
        Some(spot) => Some(Some(held(areas, item(areas, spot)?))),
        None => Some(None),
    }
}

/// How a text is advanced by lines or to a page.
fn advanced(areas: &[Area], after: bool, lines: LinesSource) -> Option<Advance>
    requires { AreLinesIn (sizes areas.now) lines }
    ensures { result ≡ advanced_by after lines areas.now }
{
    match lines {
        LinesSource::Count(counted) => {
            let number = amount(areas, counted)?;
            if number > u64::from(MAX_LINES) {
                return None;
            }
            let lines = number as u8;
            Some(if after {
                Advance::After(lines)
            } else {
                Advance::Before(lines)
            })
        }
        LinesSource::Page => Some(if after {
            Advance::AfterPage
        } else {
            Advance::BeforePage
        }),
    }
}

/// How a text is advanced.
fn advance_of(areas: &[Area], advancement: Option<Advancement>) -> Option<Advance>
    requires { IfSome advancement (λ advancement. AreLinesIn (sizes areas.now) advancement.lines) }
    ensures { result ≡ advance_with advancement areas.now }
{
    match advancement {
        Some(advancement) => advanced(areas, advancement.after, advancement.lines),
        None => Some(Advance::After(1)),
    }
}

/// What a SEND ends. ADVANCING is read only where a segment ends.
fn part_of(areas: &[Area], end: Option<Ended>, advancement: Option<Advancement>) -> Option<Part>
    requires { IfSome advancement (λ advancement. AreLinesIn (sizes areas.now) advancement.lines) }
    ensures { result ≡ ends_by (option_map ends end) advancement areas.now }
{
    match end {
        Some(Ended::Segment) => Some(Part::Esi(advance_of(areas, advancement)?)),
        Some(Ended::Message) => Some(Part::Emi(advance_of(areas, advancement)?)),
        Some(Ended::Group) => Some(Part::Egi(advance_of(areas, advancement)?)),
        None => Some(Part::Portion),
    }
}

/// What a SEND ends with an indicator.
fn part_with(areas: &[Area], end: EndSource, advancement: Option<Advancement>) -> Option<Part>
    requires end { IsIndicatorIn (sizes areas.now) end }
    requires lines { IfSome advancement (λ advancement.
        AreLinesIn (sizes areas.now) advancement.lines) }
    ensures { result ≡ ends_with end advancement areas.now }
{
    match end {
        EndSource::Item(spot) => {
            let item = item(areas, spot)?;
            part_of(areas, indicated(held(areas, item)), advancement)
        }
        EndSource::Esi => part_of(areas, Some(Ended::Segment), advancement),
        EndSource::Emi => part_of(areas, Some(Ended::Message), advancement),
        EndSource::Egi => part_of(areas, Some(Ended::Group), advancement),
    }
}

/// What a SEND ends: nothing if no end is written.
pub(crate) fn sent_part(areas: &[Area], ending: Option<SendEnd>) -> Option<Part>
    requires { IfSome ending (IsEndIn (sizes areas.now)) }
    ensures { result ≡ ended_by ending areas.now }
{
    match ending {
        Some(ending) => part_with(areas, ending.end, ending.advancement),
        None => Some(Part::Portion),
    }
}
