//! The area of an input CD.
ghost use Rattle.std.specs.Prelude.{◌≡◌, ◌↔◌, ℕ, List, length, IsSome, IfSome};
ghost use Rattle.com_text.specs.Text.{IsText};
ghost use Rattle.com_cd.specs.InputArea.{IsInputArea, in_field, set_in, width_of, start_of, opening_area};
ghost use Rattle.com_cd.specs.Designation.{Designates, with_path};
ghost use Rattle.com_cd.specs.Status.{with_input_status};

use crate::designation::{NAMES_LENGTH, path_fields, path_in};
use crate::parts::write_part;
use crate::{Designation, STATUS_LENGTH, Status};
use com_text::{FIELD_LENGTH, NamePath, is_text};
use std::marker::Model;

/// How many characters an input area has.
pub const IN_AREA_LENGTH: usize = 87;

/// The fields of an input area, in their order.
#[derive(Clone, Copy, Debug, PartialEq, Eq)]
pub enum InField {
    /// SYMBOLIC QUEUE, 12 characters.
    Queue,
    /// SYMBOLIC SUB-QUEUE-1, 12 characters.
    Sub1,
    /// SYMBOLIC SUB-QUEUE-2, 12 characters.
    Sub2,
    /// SYMBOLIC SUB-QUEUE-3, 12 characters.
    Sub3,
    /// MESSAGE DATE, YYMMDD.
    Date,
    /// MESSAGE TIME, HHMMSSTT.
    Time,
    /// SYMBOLIC SOURCE, 12 characters.
    Source,
    /// TEXT LENGTH, four digits.
    Length,
    /// END KEY, one character.
    EndKey,
    /// STATUS KEY, two characters.
    Status,
    /// MESSAGE COUNT, six digits.
    Count,
}

impl InField {
    /// Returns where the field begins, counted from 0.
    const fn start(self) -> usize
        ensures { result ≡ start_of self }
    {
        match self {
            InField::Queue => 0,
            InField::Sub1 => 12,
            InField::Sub2 => 24,
            InField::Sub3 => 36,
            InField::Date => 48,
            InField::Time => 54,
            InField::Source => 62,
            InField::Length => 74,
            InField::EndKey => 78,
            InField::Status => 79,
            InField::Count => 81,
        }
    }

    /// Returns how many characters the field has.
    pub const fn width(self) -> usize
        ensures { result ≡ width_of self }
    {
        match self {
            InField::Queue | InField::Sub1 | InField::Sub2 | InField::Sub3 | InField::Source => {
                FIELD_LENGTH
            }
            InField::Date | InField::Count => 6,
            InField::Time => 8,
            InField::Length => 4,
            InField::EndKey => 1,
            InField::Status => STATUS_LENGTH,
        }
    }
}

/// The 87 characters of an input area. Contracts see the list of them.
#[derive(Clone, Copy, Debug, PartialEq, Eq)]
pub struct InArea {
    bytes: [u8; IN_AREA_LENGTH],
}

impl Model for InArea {
    ghost use Rattle.std.specs.Prelude.{List, ℕ};
    ghost use Rattle.com_cd.specs.InputArea.{IsInputArea};

    ghost Value = { List ℕ };

    ghost view = { λ area. area.bytes };

    ghost invariant = { λ area. IsInputArea area.bytes };

    ghost inverse = { λ bytes. record { bytes = bytes } };
}

impl InArea {
    /// Spaces in the four names and the source, and zeros elsewhere.
    pub fn opening() -> InArea
        ensures { result ≡ opening_area }
    {
        let mut bytes = [b'0'; IN_AREA_LENGTH];
        bytes[..NAMES_LENGTH].fill(b' ');
        let source = InField::Source.start();
        bytes[source..source + FIELD_LENGTH].fill(b' ');
        InArea { bytes }
    }

    /// Returns the area with these characters: None exactly if there are not 87 bytes, or one is
    /// outside 20 to 7E hexadecimal.
    pub fn read(bytes: &[u8]) -> Option<InArea>
        ensures some { IsSome result ↔ IsInputArea bytes.now }
        ensures area { IfSome result (λ area. area ≡ bytes.now) }
    {
        if bytes.len() != IN_AREA_LENGTH || !is_text(bytes) {
            return None;
        }
        let mut area = [b' '; IN_AREA_LENGTH];
        area.copy_from_slice(bytes);
        Some(InArea { bytes: area })
    }

    /// Returns the 87 characters.
    pub fn as_bytes(&self) -> &[u8]
        ensures characters { result.now ≡ self.now }
        ensures valid { IsInputArea self.now }
    {
        &self.bytes
    }

    /// Returns the characters of one field.
    pub fn get(&self, field: InField) -> &[u8]
        ensures characters { result.now ≡ in_field field self.now }
        ensures width { length result.now ≡ width_of field }
    {
        let start = field.start();
        &self.bytes[start..start + field.width()]
    }

    /// Returns the path that the four name fields designate. They are malformed exactly if SYMBOLIC
    /// QUEUE holds no name, a level below it holds neither spaces nor a name, or a name follows a
    /// level of spaces.
    pub fn designation(&self) -> Designation
        ensures path { (path : List (List ℕ)) → (result ≡ Designation.Path path)
            ↔ Designates self.now path }
        ensures malformed { (result ≡ Designation.Malformed)
            ↔ ((path : List (List ℕ)) → Designates self.now path → ⊥) }
    {
        match path_in(&self.bytes) {
            Some(path) => Designation::Path(path),
            None => Designation::Malformed,
        }
    }

    /// Writes one field, and leaves all other characters as they were.
    pub fn set(&mut self, field: InField, value: &[u8])
        requires width { length value.now ≡ width_of field }
        requires text { IsText value.now }
        ensures area { self.new ≡ set_in field self.old value.now }
        ensures valid { IsInputArea self.new }
    {
        write_part(&mut self.bytes, field.start(), value);
    }

    /// Writes STATUS KEY, and leaves all other characters as they were.
    pub fn set_status(&mut self, status: Status)
        ensures area { self.new ≡ with_input_status status self.old }
        ensures valid { IsInputArea self.new }
    {
        self.set(InField::Status, &status.bytes());
    }

    /// Writes the names of a path, with spaces in the levels below them, and leaves all other
    /// characters as they were.
    pub fn set_path(&mut self, path: &NamePath)
        ensures area { self.new ≡ with_path path.now self.old }
        ensures valid { IsInputArea self.new }
    {
        write_part(&mut self.bytes, 0, &path_fields(path));
    }
}
