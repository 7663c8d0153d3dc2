//! The sizes of records.
ghost use Rattle.std.specs.Prelude.{◌≡◌, ◌≤◌, ◌<◌, ◌&&◌, ◌^◌, [], None, if◌then◌else◌, length, not};
ghost use Rattle.std.specs.List.{list_any};
ghost use Rattle.cob_forms.specs.Faults.{first};
ghost use Rattle.cob_data.specs.Clauses.{area_length, occurrences, or_one};
ghost use Rattle.cob_data.specs.Entries.{picture_in, run};
ghost use Rattle.cob_data.specs.Faults.{counting_items, cover_behind, extent_length, first_item, is_bad, is_covered, is_record_right, over, rank_if_elementary, record_faults, record_size, size_faults};
ghost use Rattle.cob_data.specs.Levels.{below, own_size};

use crate::cds::{is_input, number_in};
use crate::entries::is_cd;
use crate::entry::{Entry, numeral, picture_in};
use crate::pictures::size_of;
use crate::unless::unless;
use crate::wholes::is_group;
use cob_forms::first_of;
use cob_lex::{MAX_SOURCE, SourceFault, SourceKind, Token};
use com_cd::IN_AREA_LENGTH;

/// How many characters a record may have.
const MAX_RECORD: u32 = 2_000;

/// How many characters the area of an input CD has.
const INPUT_LENGTH: u64 = IN_AREA_LENGTH as u64;

/// Whether an item has a picture that is not formed as one.
fn is_bad(item: &[Token]) -> bool
    ensures { result ≡ is_bad (picture_in item.now) }
{
    match picture_in(item) {
        Some(picture) => size_of(picture.text.as_bytes()).is_none(),
        None => false,
    }
}

/// Whether an item stands below an elementary one, which has this rank if there is one.
fn is_covered(cover: Option<u64>, item: &Entry) -> bool
    ensures { result ≡ is_covered cover item.now }
{
    match cover {
        Some(rank) => rank < item.rank(),
        None => false,
    }
}

/// The rank of an item that is elementary.
fn rank_if_elementary(item: &Entry) -> Option<u64>
    ensures { result ≡ rank_if_elementary item.now }
{
    if is_group(item.tokens()) {
        None
    } else {
        Some(item.rank())
    }
}

/// The rank of the elementary item below which the item behind another may stand.
fn cover_behind(cover: Option<u64>, item: &Entry) -> Option<u64>
    ensures { result ≡ cover_behind cover item.now }
{
    if is_covered(cover, item) {
        cover
    } else {
        rank_if_elementary(item)
    }
}

/// Whether an item counts and has a picture that is not formed as one.
fn is_bad_counted(cover: Option<u64>, item: &Entry) -> bool
    ensures { result ≡ (not (is_covered cover item.now) && is_bad (picture_in item.now)) }
{
    !is_covered(cover, item) && is_bad(item.tokens())
}

/// Whether a picture of the items that count is not formed as one.
fn has_bad(items: &[Entry]) -> bool
    ensures { result ≡ list_any (λ item. is_bad (picture_in item)) (counting_items None items.now) }
{
    let mut cover = None;
    for item in items {
        if is_bad_counted(cover, item) {
            return true;
        }
        cover = cover_behind(cover, item);
    }
    false
}

/// How many characters an item has by its own picture, and none where it does not count.
fn counted_size(cover: Option<u64>, item: &Entry) -> u32
    ensures size { result ≡ (if is_covered cover item.now then 0 else own_size item.now) }
    ensures most { result ≤ 2000 }
{
    if is_covered(cover, item) {
        0
    } else {
        item.size()
    }
}

/// How many characters the items that count have together.
fn record_size(items: &[Entry]) -> u32
    requires { length items.now ≤ MAX_SOURCE }
    ensures { result ≡ record_size (counting_items None items.now) }
{
    let mut size = 0;
    let mut cover = None;
    for item in items {
        size += counted_size(cover, item);
        cover = cover_behind(cover, item);
    }
    size
}

/// The tokens of the first of some items, which always counts.
#[tactic(auto, using(crate::proofs::CountedLaws::first_counted))]
fn first_item<'a>(items: &[Entry<'a>]) -> &'a [Token]
    ensures { result.now ≡ first_item (counting_items None items.now) }
{
    match items.first() {
        Some(item) => item.tokens(),
        None => &[],
    }
}

/// How often the destinations of an output CD occur.
fn occurrences(entry: &[Token]) -> u64
    ensures occurrences { result ≡ or_one (occurrences entry.now) }
    ensures most { result < 10 ^ 18 }
{
    match number_in(entry) {
        Some(number) => numeral(number.text.as_bytes()),
        None => 1,
    }
}

/// How many characters the area of a CD has.
fn area_length(entry: &[Token]) -> u64
    ensures { result ≡ area_length entry.now }
{
    if is_input(entry) {
        INPUT_LENGTH
    } else {
        10 + 13 * occurrences(entry)
    }
}

/// How many characters each record behind a header or a CD entry has to have: behind a CD entry, as
/// many as its area.
pub(crate) fn over(head: &[Token]) -> Option<u64>
    ensures { result ≡ over (run head.now []) }
{
    if is_cd(head) {
        Some(area_length(head))
    } else {
        None
    }
}

/// Whether a record has as many characters as the area that it is over.
fn is_record_right(area: Option<u64>, size: u32) -> bool
    ensures { result ≡ is_record_right area size }
{
    match area {
        Some(length) => u64::from(size) == length,
        None => true,
    }
}

/// How many items at the front are below an item of a rank.
fn below_length(rank: u64, items: &[Entry]) -> usize
    ensures length { result ≡ length (below rank items.now) }
    ensures within { result ≤ length items.now }
{
    items.iter().take_while(|item| rank < item.rank()).count()
}

/// How many items the first one of a record is made of: a group of itself and all below it.
pub(crate) fn extent_length(items: &[Entry]) -> usize
    ensures length { result ≡ extent_length items.now }
    ensures within { result ≤ length items.now }
{
    let Some((item, others)) = items.split_first() else {
        return 0;
    };
    if is_group(item.tokens()) {
        1 + below_length(item.rank(), others)
    } else {
        1
    }
}

/// The first fault of the size of the item that begins a record, by how many characters the area
/// has that it is over.
pub(crate) fn first_record_fault(area: Option<u64>, items: &[Entry]) -> Option<SourceFault>
    requires { length items.now ≤ MAX_SOURCE }
    ensures { result ≡ first (record_faults area items.now) }
{
    let (these, _) = items.split_at(extent_length(items));
    first_size_fault(area, these)
}

/// The first fault of the size of the items that count together. Where a picture of them is not
/// formed as one, no more is said.
fn first_size_fault(area: Option<u64>, items: &[Entry]) -> Option<SourceFault>
    requires { length items.now ≤ MAX_SOURCE }
    ensures { result ≡ first (size_faults area (counting_items None items.now)) }
{
    let is_bad = has_bad(items);
    let size = record_size(items);
    let first = first_item(items);
    let within = is_bad || size <= MAX_RECORD;
    let as_long = is_bad || is_record_right(area, size);
    first_of(
        unless(within, SourceKind::OverLimit, first.first()),
        unless(as_long, SourceKind::WrongLength, first.get(1)),
    )
}
