//! What RECEIVE and ACCEPT MESSAGE COUNT write into an area.
ghost use Rattle.std.specs.Prelude.{◌≡◌, ◌≤◌, length};
ghost use Rattle.com_text.specs.Text.{IsText};
ghost use Rattle.com_msg.specs.Portion.{IsEndKey};
ghost use Rattle.com_cd.specs.declared.status.Status.TheVariants.{S20};
ghost use Rattle.com_recv.specs.Areas.{with_origin, with_portion, no_data_area, counted_area, portion_area};
ghost use Rattle.com_cd.specs.Status.{with_input_status};

use com_cd::{InArea, InField, Status};
use com_msg::{MAX_SIZE, Portion, Rest};
use com_text::{NamePath, digits_of};

/// The largest number that MESSAGE COUNT tells.
pub const MAX_COUNT: usize = 999_999;

/// The area that tells of a portion of a message that came from the leaf with this path.
pub fn portion_area(path: &NamePath, rest: &Rest, portion: &Portion, mut area: InArea) -> InArea
    requires short { length portion.now.text ≤ MAX_SIZE }
    requires end_key { IsEndKey portion.now.end_key }
    ensures { result ≡ portion_area path.now rest.now portion.now area }
{
    area.set_path(path);
    let area = with_origin(rest, area);
    let length = digits_of::<4>(portion.text.as_bytes().len() as u64);
    with_portion(&length, &[portion.end_key], area)
}

/// The area after a RECEIVE that found nothing.
pub fn no_data_area(area: InArea) -> InArea
    ensures { result ≡ no_data_area area }
{
    with_portion(b"0000", b"0", area)
}

/// The area where no node is designated.
pub fn refused_area(mut area: InArea) -> InArea
    ensures { result ≡ with_input_status S20 area }
{
    area.set_status(Status::S20);
    area
}

/// The area that tells how many messages wait, and [`MAX_COUNT`] where more do.
pub fn counted_area(count: usize, mut area: InArea) -> InArea
    ensures { result ≡ counted_area count area }
{
    let number = digits_of::<6>(count.min(MAX_COUNT) as u64);
    area.set(InField::Count, &number);
    area.set_status(Status::S00);
    area
}

/// The area with the date, the time and the source of a message.
fn with_origin(rest: &Rest, mut area: InArea) -> InArea
    ensures { result ≡ with_origin rest.now area }
{
    let stamp = rest.stamp();
    area.set(InField::Date, stamp.date());
    area.set(InField::Time, stamp.time());
    area.set(InField::Source, &rest.source().field());
    area
}

/// The area with the length and the end key of a portion, and the status key 00.
fn with_portion(length: &[u8; 4], end_key: &[u8; 1], mut area: InArea) -> InArea
    requires length { IsText length.now }
    requires end_key { IsText end_key.now }
    ensures { result ≡ with_portion length.now end_key.now area }
{
    area.set(InField::Length, length);
    area.set(InField::EndKey, end_key);
    area.set_status(Status::S00);
    area
}
