//! What the replies to verbs leave in the storage.
ghost use Rattle.std.specs.Prelude.{◌≡◌, ◌<◌, ◌≤◌, Some, length, slice_index};
ghost use Rattle.cob_meaning.specs.Storage.{with_area, with_prefix};
ghost use Rattle.cob_meaning.specs.Verbs.{area_after, with_reply_area, with_text};
ghost use Rattle.cob_flat.specs.Effects.{request_by};
ghost use Rattle.cob_run.specs.Machine.{stored_by};
ghost use Rattle.cob_run.specs.Within.{IsItemIn, IsVerbIn, sizes};
ghost use Rattle.cob_run.specs.inner.Requests.{IsFitFor, IsLongFor, IsTextFor};

use crate::area::Area;
use crate::operands::item;
use cob_data::ItemPlace;
use cob_flat::Verb;
use com_events::Reply;

/// Stores an area.
fn put_area(areas: &mut [Area], area: u32, characters: &[u8])
    requires area { area < length (sizes areas.old) }
    requires long { length characters.now ≡ slice_index (sizes areas.old) area }
    ensures put { areas.new ≡ with_area area characters.now areas.old }
    ensures sizes { sizes areas.new ≡ sizes areas.old }
{
    let area = &mut areas[area as usize];
    area.write(0, characters);
}

/// Stores a text from the left end of an item on.
fn put_text(areas: &mut [Area], item: ItemPlace, characters: &[u8])
    requires item { IsItemIn (sizes areas.old) item }
    requires short { length characters.now ≤ item.length }
    ensures put { areas.new ≡ with_prefix item characters.now areas.old }
    ensures sizes { sizes areas.new ≡ sizes areas.old }
{
    let area = &mut areas[item.area as usize];
    area.write(item.start as usize, characters);
}

/// Stores the area of a reply, if it has one that is as long.
fn put_reply_area(areas: &mut [Area], area: u32, reply: &Reply)
    requires area { area < length (sizes areas.old) }
    requires long { IsLongFor (slice_index (sizes areas.old) area) (area_after reply.now) }
    ensures put { areas.new ≡ with_reply_area area (area_after reply.now) areas.old }
    ensures sizes { sizes areas.new ≡ sizes areas.old }
{
    match reply {
        Reply::Given { area: after, .. }
        | Reply::NoData { area: after }
        | Reply::Refused { area: after }
        | Reply::AreaIn { area: after } => put_area(areas, area, after.as_bytes()),
        Reply::AreaOut { area: after } => put_area(areas, area, after.as_bytes()),
        Reply::Started { .. } | Reply::Waits | Reply::Arrived { .. } | Reply::Done => {}
    }
}

/// Stores the text of a reply, if it has one.
fn put_reply_text(areas: &mut [Area], item: ItemPlace, reply: &Reply)
    requires item { IsItemIn (sizes areas.old) item }
    requires short { IsTextFor item.length reply.now }
    ensures put { areas.new ≡ with_text (Some item) reply.now areas.old }
    ensures sizes { sizes areas.new ≡ sizes areas.old }
{
    match reply {
        Reply::Given { text, .. } => put_text(areas, item, text.as_bytes()),
        Reply::Started { .. }
        | Reply::NoData { .. }
        | Reply::Refused { .. }
        | Reply::Waits
        | Reply::AreaIn { .. }
        | Reply::AreaOut { .. }
        | Reply::Arrived { .. }
        | Reply::Done => {}
    }
}

/// Stores the reply to a verb: first its area, and then its text. The item of INTO is found before
/// the area is stored.
pub(crate) fn put_reply(areas: &mut [Area], verb: &Verb, reply: &Reply)
    requires verb { IsVerbIn (sizes areas.old) verb.now }
    requires fit { IsFitFor (request_by verb.now areas.old) reply.now }
    ensures put { areas.new ≡ stored_by (request_by verb.now areas.old) reply.now areas.old }
    ensures sizes { sizes areas.new ≡ sizes areas.old }
{
    match verb {
        Verb::Receive { area, into, .. } => {
            if let Some(item) = item(areas, *into) {
                put_reply_area(areas, *area, reply);
                put_reply_text(areas, item, reply);
            }
        }
        Verb::Send { area, .. } => put_reply_area(areas, *area, reply),
        Verb::SwitchInput { area, .. } => put_reply_area(areas, *area, reply),
        Verb::SwitchOutput { area, .. } => put_reply_area(areas, *area, reply),
        Verb::Accept { area } => put_reply_area(areas, *area, reply),
    }
}
