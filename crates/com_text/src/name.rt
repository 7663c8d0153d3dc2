//! Names of queues, terminals and units.
ghost use Rattle.std.specs.Prelude.{◌≡◌, ◌↔◌, ◌≤◌, ℕ, List, IsTrue, IsSome, IfSome, bytes_eq};
ghost use Rattle.std.specs.List.{list_all, list_any, prefix_len};
ghost use Rattle.com_text.specs.Text.{IsText};
ghost use Rattle.com_text.specs.Name.{IsName, field_of, spaces, is_name, is_name_byte, is_letter, is_character};
ghost use Rattle.std.specs.Cmp.Rules.{comparing};
ghost use Rattle.std.proofs.Common.{rules};

use std::marker::Model;
use std::str;

/// How many characters a name's field has.
pub const FIELD_LENGTH: usize = 12;

/// A name: 1 to 12 letters A to Z, digits and hyphens, with at least one letter and no hyphen at
/// either end. Contracts see its characters.
#[derive(Clone, Copy, Debug, Eq, Hash)]
pub struct Name {
    /// The characters, followed by spaces.
    field: [u8; FIELD_LENGTH],
}

impl Model for Name {
    ghost use Rattle.std.specs.Prelude.{◌≡◌, List, ℕ};
    ghost use Rattle.com_text.specs.Name.{IsName, field_of, before_space};

    ghost Value = { List ℕ };

    ghost view = { λ name. before_space name.field };

    ghost invariant = { λ name. IsName (before_space name.field)
        × (name.field ≡ field_of (before_space name.field)) };

    ghost inverse = { λ bytes. record { field = field_of bytes } };
}

impl PartialEq for Name {
    ghost eq = { bytes_eq };

    ghost laws = { Prim.search (comparing, rules) };

    fn eq(&self, other: &Name) -> bool {
        self.field == other.field
    }
}

/// What a field of 12 characters holds.
#[derive(Clone, Copy, Debug, PartialEq, Eq)]
pub enum Field {
    /// Twelve spaces.
    Spaces,
    /// A name followed by spaces.
    Named(Name),
    /// Neither of them.
    Bad,
}

impl Name {
    /// Returns the name with these characters: None exactly if they are not a name.
    pub fn new(bytes: &[u8]) -> Option<Name>
        ensures some { IsSome result ↔ IsName bytes.now }
        ensures name { IfSome result (λ name. name ≡ bytes.now) }
    {
        if !is_name(bytes) {
            return None;
        }
        let mut field = [b' '; FIELD_LENGTH];
        field[..bytes.len()].copy_from_slice(bytes);
        Some(Name { field })
    }

    /// Returns the name followed by spaces, 12 characters.
    pub fn field(&self) -> [u8; FIELD_LENGTH]
        ensures field { result ≡ field_of self.now }
        ensures valid { IsName self.now }
        ensures text { IsText result }
    {
        self.field
    }

    /// Returns the characters of the name alone.
    pub fn as_bytes(&self) -> &[u8]
        ensures characters { result.now ≡ self.now }
        ensures valid { IsName self.now }
    {
        let (characters, _) = self.field.split_at(length_before_space(&self.field));
        characters
    }

    /// Returns the characters of the name alone, as a `&str`.
    pub fn as_str(&self) -> &str
        ensures characters { result.now ≡ self.now }
        ensures valid { IsName self.now }
    {
        str::from_utf8(self.as_bytes()).unwrap()
    }

    /// Returns what a field holds. A name that begins later than the field's first character, or
    /// that anything but spaces follows, is `Bad`.
    pub fn of_field(field: &[u8; FIELD_LENGTH]) -> Field
        ensures spaces { (result ≡ Field.Spaces) ↔ (field.now ≡ spaces 12) }
        ensures named { (name : List ℕ) → (result ≡ Field.Named name)
            ↔ (IsName name × (field.now ≡ field_of name)) }
    {
        let (characters, rest) = field.split_at(length_before_space(field));
        if has_character(rest) {
            return Field::Bad;
        }
        if characters.is_empty() {
            return Field::Spaces;
        }
        match Name::new(characters) {
            Some(name) => Field::Named(name),
            None => Field::Bad,
        }
    }
}

/// Returns how many characters stand before the first space.
fn length_before_space(field: &[u8; FIELD_LENGTH]) -> usize
    ensures length { result ≡ prefix_len is_character field.now }
    ensures within { result ≤ 12 }
{
    field
        .iter()
        .position(|byte| *byte == b' ')
        .unwrap_or(FIELD_LENGTH)
}

/// Returns whether a byte is not a space.
pub fn has_character(bytes: &[u8]) -> bool
    ensures { result ≡ list_any is_character bytes.now }
{
    bytes.iter().any(|byte| *byte != b' ')
}

/// Returns whether the bytes are a name.
fn is_name(bytes: &[u8]) -> bool
    ensures { result ≡ is_name bytes.now }
{
    if bytes.is_empty() || bytes.len() > FIELD_LENGTH {
        return false;
    }
    has_name_bytes(bytes) && has_letter(bytes) && bytes[0] != b'-' && bytes[bytes.len() - 1] != b'-'
}

/// Returns whether each byte may occur in a name.
fn has_name_bytes(bytes: &[u8]) -> bool
    ensures { result ≡ list_all is_name_byte bytes.now }
{
    bytes.iter().all(|byte| is_name_byte(*byte))
}

/// Returns whether there is a letter among the bytes.
fn has_letter(bytes: &[u8]) -> bool
    ensures { result ≡ list_any is_letter bytes.now }
{
    bytes.iter().any(|byte| byte.is_ascii_uppercase())
}

/// Returns whether a byte may occur in a name: a letter A to Z, a digit or a hyphen.
fn is_name_byte(byte: u8) -> bool
    ensures { result ≡ is_name_byte byte }
{
    matches!(byte, b'A'..=b'Z' | b'0'..=b'9' | b'-')
}
