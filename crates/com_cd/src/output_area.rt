//! The area of an output CD.
ghost use Rattle.std.specs.Prelude.{◌≡◌, ◌↔◌, ◌+◌, ◌*◌, ◌<◌, ◌≤◌, ℕ, List, length, Some, IsSome, IfSome};
ghost use Rattle.com_text.specs.Text.{IsText};
ghost use Rattle.com_cd.specs.Status.{with_output_status};
ghost use Rattle.com_cd.specs.OutputArea.{IsFieldOf, IsOutputArea, destination_count, occurrences_of, opening_output, out_field, out_start, out_width, set_out};

use crate::parts::write_part;
use crate::{STATUS_LENGTH, Status};
use com_text::{FIELD_LENGTH, is_text, number_of};
use std::marker::Model;

/// How many occurrences of ERROR KEY and SYMBOLIC DESTINATION an output area has at most.
pub const MAX_OCCURRENCES: u32 = 8;

/// How many characters DESTINATION COUNT, TEXT LENGTH and STATUS KEY have together.
const HEAD_LENGTH: usize = 10;

/// How many characters ERROR KEY and SYMBOLIC DESTINATION have together.
const OCCURRENCE_LENGTH: usize = 1 + FIELD_LENGTH;

/// How many characters an output area has at most.
pub const MAX_OUT_AREA_LENGTH: usize = HEAD_LENGTH + OCCURRENCE_LENGTH * MAX_OCCURRENCES as usize;

/// The fields of an output area, in their order. Occurrences are counted from 0.
#[derive(Clone, Copy, Debug, PartialEq, Eq)]
pub enum OutField {
    /// DESTINATION COUNT, four digits.
    Count,
    /// TEXT LENGTH, four digits.
    Length,
    /// STATUS KEY, two characters.
    Status,
    /// ERROR KEY of an occurrence, one character.
    Error(u32),
    /// SYMBOLIC DESTINATION of an occurrence, 12 characters.
    Destination(u32),
}

impl OutField {
    /// Returns where the field begins, counted from 0.
    const fn start(self) -> usize
        ensures { result ≡ out_start self }
    {
        match self {
            OutField::Count => 0,
            OutField::Length => 4,
            OutField::Status => 8,
            OutField::Error(at) => HEAD_LENGTH + OCCURRENCE_LENGTH * at as usize,
            OutField::Destination(at) => HEAD_LENGTH + OCCURRENCE_LENGTH * at as usize + 1,
        }
    }

    /// Returns how many characters the field has.
    pub const fn width(self) -> usize
        ensures { result ≡ out_width self }
    {
        match self {
            OutField::Count | OutField::Length => 4,
            OutField::Status => STATUS_LENGTH,
            OutField::Error(_) => 1,
            OutField::Destination(_) => FIELD_LENGTH,
        }
    }
}

/// The characters of an output area of 1 to 8 occurrences: 10, and 13 for each occurrence.
/// Contracts see the list of them.
#[derive(Clone, Copy, Debug, PartialEq, Eq)]
pub struct OutArea {
    /// The characters, and past them spaces.
    bytes: [u8; MAX_OUT_AREA_LENGTH],
    /// How many occurrences the area has, 1 to 8.
    occurrences: u32,
}

impl Model for OutArea {
    ghost use Rattle.std.specs.Prelude.{◌≡◌, ◌+◌, ◌*◌, List, ℕ, length, take};
    ghost use Rattle.com_cd.specs.OutputArea.{IsOutputArea, occurrences_of, padded_area};

    ghost Value = { List ℕ };

    ghost view = { λ area. take (10 + 13 * area.occurrences) area.bytes };

    ghost invariant = { λ area. IsOutputArea (take (10 + 13 * area.occurrences) area.bytes)
        × (area.occurrences ≡ occurrences_of (take (10 + 13 * area.occurrences) area.bytes))
        × (area.bytes ≡ padded_area (take (10 + 13 * area.occurrences) area.bytes))
        × (length area.bytes ≡ 114) };

    ghost inverse = { λ area. record {
      bytes = padded_area area;
      occurrences = occurrences_of area;
    } };
}

impl OutArea {
    /// Spaces in the destinations, and zeros elsewhere.
    pub fn opening(occurrences: u32) -> OutArea
        requires at_least_one { 1 ≤ occurrences }
        requires few { occurrences ≤ MAX_OCCURRENCES }
        ensures { result ≡ opening_output occurrences }
    {
        let mut bytes = [b' '; MAX_OUT_AREA_LENGTH];
        bytes[..HEAD_LENGTH].fill(b'0');
        for at in 0..occurrences {
            bytes[OutField::Error(at).start()] = b'0';
        }
        OutArea { bytes, occurrences }
    }

    /// Returns the area with these characters: None exactly if there are not 10 bytes and 13 for
    /// each of 1 to 8 occurrences, or one is outside 20 to 7E hexadecimal.
    pub fn read(bytes: &[u8]) -> Option<OutArea>
        ensures some { IsSome result ↔ IsOutputArea bytes.now }
        ensures area { IfSome result (λ area. area ≡ bytes.now) }
    {
        let occurrences = occurrences_in(bytes.len())?;
        if !is_text(bytes) {
            return None;
        }
        let mut area = [b' '; MAX_OUT_AREA_LENGTH];
        area[..bytes.len()].copy_from_slice(bytes);
        Some(OutArea {
            bytes: area,
            occurrences,
        })
    }

    /// Returns how many occurrences the area has, 1 to 8.
    pub fn occurrences(&self) -> u32
        ensures occurrences { result ≡ occurrences_of self.now }
        ensures valid { IsOutputArea self.now }
    {
        self.occurrences
    }

    /// Returns the characters: 10, and 13 for each occurrence.
    pub fn as_bytes(&self) -> &[u8]
        ensures characters { result.now ≡ self.now }
        ensures valid { IsOutputArea self.now }
    {
        &self.bytes[..HEAD_LENGTH + OCCURRENCE_LENGTH * self.occurrences as usize]
    }

    /// Returns the characters of one field.
    pub fn get(&self, field: OutField) -> &[u8]
        requires { IsFieldOf (occurrences_of self.now) field }
        ensures characters { result.now ≡ out_field field self.now }
        ensures width { length result.now ≡ out_width field }
    {
        let start = field.start();
        &self.as_bytes()[start..start + field.width()]
    }

    /// Writes one field, and leaves all other characters as they were.
    pub fn set(&mut self, field: OutField, value: &[u8])
        requires within { IsFieldOf (occurrences_of self.old) field }
        requires width { length value.now ≡ out_width field }
        requires text { IsText value.now }
        ensures area { self.new ≡ set_out field self.old value.now }
        ensures valid { IsOutputArea self.new }
        ensures occurrences { occurrences_of self.new ≡ occurrences_of self.old }
    {
        write_part(&mut self.bytes, field.start(), value);
    }

    /// Writes STATUS KEY, and leaves all other characters as they were.
    pub fn set_status(&mut self, status: Status)
        ensures area { self.new ≡ with_output_status status self.old }
        ensures valid { IsOutputArea self.new }
        ensures occurrences { occurrences_of self.new ≡ occurrences_of self.old }
    {
        self.set(OutField::Status, &status.bytes());
    }

    /// Returns the number of DESTINATION COUNT: None exactly if it is not four digits, or its
    /// number is 0 or above the occurrences of the area.
    pub fn count(&self) -> Option<u32>
        ensures count { result ≡ destination_count self.now }
        ensures positive { IfSome result (λ n. 1 ≤ n) }
        ensures few { IfSome result (λ n. n ≤ occurrences_of self.now) }
        ensures most { IfSome result (λ n. n ≤ MAX_OCCURRENCES) }
    {
        let number = number_of(self.get(OutField::Count))?;
        if number == 0 || number > u64::from(self.occurrences) {
            return None;
        }
        Some(number as u32)
    }
}

/// Returns how many occurrences an area of so many characters has: None exactly if no area is so
/// long.
fn occurrences_in(characters: usize) -> Option<u32>
    ensures found { IfSome result (λ n.
        (1 ≤ n) × (n ≤ MAX_OCCURRENCES) × (characters ≡ 10 + 13 * n)) }
    ensures all { (n : ℕ) → 1 ≤ n → n ≤ MAX_OCCURRENCES → characters ≡ 10 + 13 * n → result ≡ Some n }
{
    let behind = characters.checked_sub(HEAD_LENGTH)?;
    let occurrences = behind / OCCURRENCE_LENGTH;
    let whole = behind % OCCURRENCE_LENGTH == 0;
    if whole && occurrences > 0 && occurrences <= MAX_OCCURRENCES as usize {
        Some(occurrences as u32)
    } else {
        None
    }
}
