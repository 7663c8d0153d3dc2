//! Names, their fields and paths of names.
use case_lines::{Quoted, Words};
use com_text::{Field, Name, NamePath};
use std::alloc::{AllocError, Global};

/// Returns what a call on names answers: None for any other call.
pub fn answer(
    alloc: Global,
    call: &[u8],
    words: &mut Words<'_>,
) -> Result<Option<String>, AllocError> {
    let answer = match call {
        b"Name::new" => name(alloc, words.bytes())?,
        b"Name::field" => field(alloc, words.bytes())?,
        b"Name::of_field" => of_field(alloc, words.bytes())?,
        b"Name::eq" => are_equal(alloc, words)?,
        b"NamePath::then" => path(alloc, words.rest())?,
        _ => return Ok(None),
    };
    Ok(Some(answer))
}

fn name(alloc: Global, bytes: &[u8]) -> Result<String, AllocError> {
    match Name::new(bytes) {
        Some(name) => format!(in alloc; "{}", name.as_str()),
        None => String::from_str(alloc, "None"),
    }
}

fn field(alloc: Global, bytes: &[u8]) -> Result<String, AllocError> {
    match Name::new(bytes) {
        Some(name) => format!(in alloc; "{}", Quoted(&name.field())),
        None => String::from_str(alloc, "None"),
    }
}

fn of_field(alloc: Global, bytes: &[u8]) -> Result<String, AllocError> {
    let Some(field) = bytes.first_chunk() else {
        return String::from_str(alloc, "no field");
    };
    match Name::of_field(field) {
        Field::Spaces => String::from_str(alloc, "Spaces"),
        Field::Named(name) => format!(in alloc; "Named {}", name.as_str()),
        Field::Bad => String::from_str(alloc, "Bad"),
    }
}

fn are_equal(alloc: Global, words: &mut Words<'_>) -> Result<String, AllocError> {
    let first = Name::new(words.bytes());
    let second = Name::new(words.bytes());
    format!(in alloc; "{}", first == second)
}

/// Returns the path of these names, as far as it takes them.
fn path(alloc: Global, names: &[Vec<u8>]) -> Result<String, AllocError> {
    let mut path: Option<NamePath> = None;
    for bytes in names {
        let Some(name) = Name::new(bytes) else {
            return String::from_str(alloc, "no name");
        };
        path = match path {
            None => Some(NamePath::new(name)),
            Some(path) => match path.then(name) {
                Some(longer) => Some(longer),
                None => return String::from_str(alloc, "None"),
            },
        };
    }
    let mut answer = String::new(alloc);
    if let Some(path) = path {
        for name in path.names() {
            answer.push('/')?;
            answer.push_str(name.as_str())?;
        }
    }
    Ok(answer)
}
