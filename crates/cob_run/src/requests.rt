//! The calls that verbs make. None is a stop for DATA.
ghost use Rattle.std.specs.Prelude.{
  ◌≡◌,
  ◌<◌,
  Some,
  None,
  IfOk,
  IfSome,
  is_some,
  length,
  option_map,
};
ghost use Rattle.com_text.specs.Text.{IsText};
ghost use Rattle.com_cd.specs.InputArea.{IsInputArea};
ghost use Rattle.com_cd.specs.OutputArea.{IsOutputArea};
ghost use Rattle.cob_meaning.specs.Storage.{area_in};
ghost use Rattle.cob_flat.specs.Effects.{key_by, request_by};
ghost use Rattle.cob_flat.specs.declared.code.Verb.TheVariants as verbs;
ghost use Rattle.cob_run.specs.Within.{IsEndIn, IsInputAreaIn, IsKeyIn, IsSpotIn, IsVerbIn, sizes};
ghost use Rattle.cob_run.specs.inner.Requests.{IsCallOf};

use crate::area::Area;
use crate::operands::{held, item};
use crate::sends::{sent_part, sent_text};
use cob_flat::{KeySource, SendEnd, Spot, Verb};
use com_cd::{InArea, OutArea};
use com_events::Call;
use com_msg::Kind;
use com_text::{Text, is_text};
use std::alloc::{AllocError, Global};

/// The area of an input CD.
fn input_area(areas: &[Area], area: u32) -> InArea
    requires { area < length (sizes areas.now) }
    ensures { IsInputArea (area_in areas.now area) → result ≡ area_in areas.now area }
{
    // A program with characters outside 20 to 7E in the area is none that was checked.
    InArea::read(areas[area as usize].as_bytes()).unwrap_or(InArea::opening())
}

/// The area of an output CD.
fn output_area(areas: &[Area], area: u32) -> OutArea
    requires { area < length (sizes areas.now) }
    ensures { IsOutputArea (area_in areas.now area) → result ≡ area_in areas.now area }
{
    // A program with characters outside 20 to 7E in the area is none that was checked.
    OutArea::read(areas[area as usize].as_bytes()).unwrap_or(OutArea::opening(1))
}

/// Characters as a text.
fn text_of(alloc: Global, characters: &[u8]) -> Result<Text, AllocError>
    ensures { IfOk result (λ text. IsText characters.now → text ≡ characters.now) }
{
    if !is_text(characters) {
        return Ok(Text::of_vec(Vec::new(alloc)));
    }
    Ok(Text::of_vec(Vec::from_slice(alloc, characters)?))
}

/// The characters of a key.
fn key<'a>(areas: &'a [Area], source: &'a KeySource) -> Option<&'a [u8]>
    requires { IsKeyIn (sizes areas.now) source.now }
    ensures { option_map (λ x. x.now) result ≡ key_by source.now areas.now }
{
    match source {
        KeySource::Item(spot) => Some(held(areas, item(areas, *spot)?)),
        KeySource::Literal(characters) => Some(characters.as_bytes()),
    }
}

/// The call of a RECEIVE.
fn receive_call(areas: &[Area], area: u32, segment: bool, into: Spot, no_data: bool) -> Option<Call>
    requires area { IsInputAreaIn (sizes areas.now) area }
    requires into { IsSpotIn (sizes areas.now) into }
    ensures { IsCallOf (request_by (verbs.Receive area segment into no_data) areas.now) result }
{
    let item = item(areas, into)?;
    Some(Call::Receive {
        area: input_area(areas, area),
        kind: if segment {
            Kind::Segment
        } else {
            Kind::Message
        },
        size: item.length,
        no_data,
    })
}

/// The call of a SEND.
fn send_call(
    alloc: Global,
    areas: &[Area],
    area: u32,
    from: Option<Spot>,
    ending: Option<SendEnd>,
) -> Result<Option<Call>, AllocError>
    requires area { area < length (sizes areas.now) }
    requires from { IfSome from (IsSpotIn (sizes areas.now)) }
    requires ending { IfSome ending (IsEndIn (sizes areas.now)) }
    ensures { IfOk result (IsCallOf (request_by (verbs.Send area from ending) areas.now)) }
{
    let Some(text) = sent_text(areas, from) else {
        return Ok(None);
    };
    let Some(part) = sent_part(areas, ending) else {
        return Ok(None);
    };
    let from = match text {
        Some(characters) => Some(text_of(alloc, characters)?),
        None => None,
    };
    Ok(Some(Call::Send {
        area: output_area(areas, area),
        part,
        from,
    }))
}

/// The call of an ENABLE or a DISABLE of INPUT.
fn switch_input_call(
    alloc: Global,
    areas: &[Area],
    on: bool,
    terminal: bool,
    area: u32,
    source: &KeySource,
) -> Result<Option<Call>, AllocError>
    requires area { area < length (sizes areas.now) }
    requires key { IsKeyIn (sizes areas.now) source.now }
    ensures { IfOk result (IsCallOf (request_by (verbs.SwitchInput on terminal area source.now)
        areas.now)) }
{
    match key(areas, source) {
        Some(characters) => Ok(Some(Call::SwitchInput {
            on,
            terminal,
            area: input_area(areas, area),
            key: text_of(alloc, characters)?,
        })),
        None => Ok(None),
    }
}

/// The call of an ENABLE or a DISABLE of OUTPUT.
fn switch_output_call(
    alloc: Global,
    areas: &[Area],
    on: bool,
    area: u32,
    source: &KeySource,
) -> Result<Option<Call>, AllocError>
    requires area { area < length (sizes areas.now) }
    requires key { IsKeyIn (sizes areas.now) source.now }
    ensures { IfOk result (IsCallOf (request_by (verbs.SwitchOutput on area source.now)
        areas.now)) }
{
    match key(areas, source) {
        Some(characters) => Ok(Some(Call::SwitchOutput {
            on,
            area: output_area(areas, area),
            key: text_of(alloc, characters)?,
        })),
        None => Ok(None),
    }
}

/// The call of a verb.
pub(crate) fn call(alloc: Global, areas: &[Area], verb: &Verb) -> Result<Option<Call>, AllocError>
    requires { IsVerbIn (sizes areas.now) verb.now }
    ensures { IfOk result (IsCallOf (request_by verb.now areas.now)) }
{
    match verb {
        Verb::Receive {
            area,
            segment,
            into,
            no_data,
        } => Ok(receive_call(areas, *area, *segment, *into, *no_data)),
        Verb::Send { area, from, ending } => send_call(alloc, areas, *area, *from, *ending),
        Verb::SwitchInput {
            on,
            terminal,
            area,
            key,
        } => switch_input_call(alloc, areas, *on, *terminal, *area, key),
        Verb::SwitchOutput { on, area, key } => switch_output_call(alloc, areas, *on, *area, key),
        Verb::Accept { area } => Ok(Some(Call::Count {
            area: input_area(areas, *area),
        })),
    }
}

/// Whether a verb makes a call.
pub(crate) fn makes_call(areas: &[Area], verb: &Verb) -> bool
    requires { IsVerbIn (sizes areas.now) verb.now }
    ensures { result ≡ is_some (request_by verb.now areas.now) }
{
    match verb {
        Verb::Receive { into, .. } => item(areas, *into).is_some(),
        Verb::Send { from, ending, .. } => {
            sent_text(areas, *from).is_some() && sent_part(areas, *ending).is_some()
        }
        Verb::SwitchInput { key: source, .. } | Verb::SwitchOutput { key: source, .. } => {
            key(areas, source).is_some()
        }
        Verb::Accept { .. } => true,
    }
}
