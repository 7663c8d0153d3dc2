//! What the names of an input area designate.
ghost use Rattle.std.specs.Prelude.{◌≡◌, ◌↔◌, ℕ, List, Some, length};
ghost use Rattle.com_text.specs.Text.{IsText};
ghost use Rattle.com_text.specs.Name.{IsName, field_of};
ghost use Rattle.com_cd.specs.Designation.{Designates, names_length, path_fields};

use crate::IN_AREA_LENGTH;
use com_text::{FIELD_LENGTH, Field, MAX_NAMES, Name, NamePath, has_character};

/// How many characters the name fields of an area have together.
pub const NAMES_LENGTH: usize = MAX_NAMES * FIELD_LENGTH;

/// What the four name fields of an input area designate.
#[derive(Clone, Copy, Debug, PartialEq, Eq)]
pub enum Designation {
    /// The names from SYMBOLIC QUEUE down, as far as there are names.
    Path(NamePath),
    /// SYMBOLIC QUEUE holds no name, a level below it holds neither spaces nor a name, or a name
    /// follows a level of spaces.
    Malformed,
}

/// Returns the path that the name fields at the beginning of an area hold: None exactly if they
/// hold none.
pub(crate) fn path_in(area: &[u8; IN_AREA_LENGTH]) -> Option<NamePath>
    ensures { (path : List (List ℕ)) → (result ≡ Some path) ↔ Designates area.now path }
{
    let (queue, mut below) = area[..NAMES_LENGTH].split_first_chunk()?;
    let mut path = NamePath::new(name_in(queue)?);
    while has_character(below) {
        let (level, rest) = below.split_first_chunk()?;
        path = path.then(name_in(level)?)?;
        below = rest;
    }
    Some(path)
}

/// Returns the four name fields of a path: its names, and spaces in the levels below them.
pub fn path_fields(path: &NamePath) -> [u8; NAMES_LENGTH]
    ensures fields { result ≡ path_fields path.now }
    ensures width { length result ≡ names_length }
    ensures text { IsText result }
{
    let mut fields = [b' '; NAMES_LENGTH];
    for (level, name) in path.names().iter().enumerate() {
        let first = level * FIELD_LENGTH;
        fields[first..first + FIELD_LENGTH].copy_from_slice(&name.field());
    }
    fields
}

/// Returns the name that a field holds, followed by spaces.
fn name_in(field: &[u8; FIELD_LENGTH]) -> Option<Name>
    ensures { (name : List ℕ) → (result ≡ Some name)
        ↔ (IsName name × (field.now ≡ field_of name)) }
{
    match Name::of_field(field) {
        Field::Named(name) => Some(name),
        Field::Spaces | Field::Bad => None,
    }
}
