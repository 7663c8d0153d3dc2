//! What SEND, ENABLE OUTPUT and DISABLE OUTPUT read in an output area, and write there.
ghost use Rattle.std.specs.Prelude.{◌≡◌, ◌<◌, ◌≤◌, ◌^◌, ◌||◌, ℕ, Bool, length, take, drop, slice_index_or, IfSome, option_map, bytes_eq};
ghost use Rattle.std.specs.Int.{from_le_bytes, to_le_bytes, w32, w64};
ghost use Rattle.std.specs.Option.{option_copied};
ghost use Rattle.arrayvec.specs.ArrayVec.{array_vec_len};
ghost use Rattle.com_text.specs.Text.{IsText};
ghost use Rattle.com_cd.specs.OutputArea.{occurrences_of, out_field};
ghost use Rattle.com_cd.specs.declared.output_area.OutField.TheVariants as out;
ghost use Rattle.com_send.specs.Found.{destination_with, find_destinations, error_key, is_among, names, has_unknown, with_keys};
ghost use Rattle.com_send.specs.Sending.{sent_text};
ghost use Rattle.com_cd.specs.Status.{with_output_status};

use crate::Destination;
use arrayvec::ArrayVec;
use com_cd::{MAX_OCCURRENCES, OutArea, OutField, Status};
use com_text::{FIELD_LENGTH, Text, number_of};
use std::marker::Model;

/// How many destinations an area names at most.
const MAX_FOUND: usize = MAX_OCCURRENCES as usize;

/// How many destinations are marked where they are named.
const MARKS: usize = 64;

/// For each occurrence that DESTINATION COUNT counts, the number of the destination that it names,
/// from 0: None where it is unknown.
pub type Found = ArrayVec<Option<usize>, MAX_FOUND>;

/// Returns the destinations that an area names: None where DESTINATION COUNT is not valid.
pub fn find_destinations(destinations: &[Destination], area: &OutArea) -> Option<Found>
    ensures destinations { option_map (λ found. found.items) result
        ≡ find_destinations destinations.now area.now }
    ensures within { IfSome result (λ found. length found.items ≤ occurrences_of area.now) }
{
    let count = area.count()?;
    let mut found = Found::new();
    for at in 0..count {
        let name = name_field(area, at);
        found.push(find_destination(destinations, name));
    }
    Some(found)
}

/// SYMBOLIC DESTINATION of an occurrence.
fn name_field(area: &OutArea, at: u32) -> &[u8; FIELD_LENGTH]
    requires { at < occurrences_of area.now }
    ensures { result.now ≡ out_field (out.Destination at) area.now }
{
    area.get(OutField::Destination(at)).try_into().unwrap()
}

/// Returns the number of the destination whose name a field holds: None exactly if none has it.
pub fn find_destination(destinations: &[Destination], field: &[u8; FIELD_LENGTH]) -> Option<usize>
    ensures place { result ≡ destination_with destinations.now field.now }
    ensures within { IfSome result (λ place. place < length destinations.now) }
{
    destinations
        .iter()
        .position(|destination| is_same(&destination.name.field(), field))
}

/// Returns whether two fields are the same. They are compared as numbers, which takes two steps.
#[tactic(auto, using(crate::proofs::SameFields::same_by_words))]
fn is_same(field: &[u8; FIELD_LENGTH], other: &[u8; FIELD_LENGTH]) -> bool
    ensures { result ≡ bytes_eq field.now other.now }
{
    let (first, last) = parts(field);
    let (other_first, other_last) = parts(other);
    first_word(first) == first_word(other_first) && last_word(last) == last_word(other_last)
}

/// Returns the first eight bytes of a field, and the last four.
fn parts(field: &[u8; FIELD_LENGTH]) -> (&[u8; 8], &[u8; 4])
    ensures first { result.0.now ≡ take 8 field.now }
    ensures last { result.1.now ≡ drop 8 field.now }
{
    let Some((first, _)) = field.split_first_chunk::<8>() else {
        unreachable!()
    };
    let Some((_, last)) = field.split_last_chunk::<4>() else {
        unreachable!()
    };
    (first, last)
}

/// Returns eight bytes as a number, one to one.
fn first_word(bytes: &[u8; 8]) -> u64
    ensures number { result ≡ from_le_bytes w64 bytes.now }
    ensures bytes { to_le_bytes w64 result ≡ bytes.now }
{
    u64::from_le_bytes(*bytes)
}

/// Returns four bytes as a number, one to one.
fn last_word(bytes: &[u8; 4]) -> u32
    ensures number { result ≡ from_le_bytes w32 bytes.now }
    ensures bytes { to_le_bytes w32 result ≡ bytes.now }
{
    u32::from_le_bytes(*bytes)
}

/// Returns whether an occurrence names a destination.
pub fn is_among(found: &[Option<usize>], destination: usize) -> bool
    ensures { result ≡ is_among found.now destination }
{
    found.iter().any(|other| matches!(other, Some(number) if *number == destination))
}

/// Which destinations the occurrences name. Contracts see the occurrences.
#[derive(Drop)]
pub struct Named<'a> {
    found: &'a [Option<usize>],
    /// Whether each of the first destinations is named, so that it need not be looked for.
    marks: [bool; MARKS],
}

impl<'a> Model for Named<'a> {
    ghost use Rattle.com_send.specs.Found.{Found};
    ghost use Rattle.com_send.specs.Kept.{AreMarks};

    ghost Value = { Found };

    ghost view = { λ named. named.found.now };

    ghost invariant = { λ named. AreMarks named.found.now named.marks };
}

impl<'a> Named<'a> {
    /// Those that these occurrences name.
    pub fn new(found: &'a [Option<usize>]) -> Named<'a>
        ensures { result ≡ found.now }
    {
        let mut marks = [false; MARKS];
        for destination in found {
            mark(&mut marks, *destination);
        }
        Named { found, marks }
    }

    /// Returns whether an occurrence names a destination.
    pub fn has(&self, destination: usize) -> bool
        ensures { result ≡ is_among self.now destination }
    {
        if destination < MARKS {
            self.marks[destination]
        } else {
            is_among(self.found, destination)
        }
    }
}

/// Marks a destination that is named.
fn mark(marks: &mut [bool; MARKS], destination: Option<usize>)
    ensures { (at : ℕ) (d : Bool) → at < 64 → slice_index_or marks.new at d
        ≡ (slice_index_or marks.old at d || names at destination) }
{
    if let Some(number) = destination {
        if number < MARKS {
            marks[number] = true;
        }
    }
}

/// Returns whether a destination is unknown.
pub fn has_unknown(found: &[Option<usize>]) -> bool
    ensures { result ≡ has_unknown found.now }
{
    found.iter().any(|destination| destination.is_none())
}

/// Writes the status key.
pub fn write_status(area: &mut OutArea, status: Status)
    ensures area { area.new ≡ with_output_status status area.old }
{
    area.set_status(status);
}

/// ERROR KEY: 1 where the destination is unknown.
fn error_key(destination: Option<usize>) -> &'static [u8]
    ensures key { result.now ≡ error_key destination }
    ensures width { length result.now ≡ 1 }
    ensures text { IsText result.now }
{
    match destination {
        Some(_) => b"0",
        None => b"1",
    }
}

/// Writes the error key of each occurrence that was looked at, and the status key.
pub fn write_keys(area: &mut OutArea, found: &[Option<usize>], status: Status)
    requires within { length found.now ≤ occurrences_of area.old }
    requires few { length found.now ≤ MAX_OCCURRENCES }
    ensures { area.new ≡ with_keys found.now status area.old }
{
    for (at, destination) in found.iter().enumerate() {
        area.set(OutField::Error(at as u32), error_key(*destination));
    }
    write_status(area, status);
}

/// Returns the leftmost TEXT LENGTH characters of the item, and none without an item: None where
/// TEXT LENGTH is not a number, or more than the item has.
pub fn sent_text<'a>(area: &OutArea, item: Option<&'a Text>) -> Option<&'a [u8]>
    ensures characters { option_copied result ≡ sent_text area.now (option_copied item.entry) }
    ensures text { IfSome result (λ text. IsText text.now) }
{
    let Some(item) = item else {
        return Some(&[]);
    };
    let length = number_of(area.get(OutField::Length))?;
    let characters = item.as_bytes();
    if length > characters.len() as u64 {
        return None;
    }
    Some(&characters[..length as usize])
}
