//! The calls of `Outs`.
use crate::parts::part;
use case_lines::{Quoted, Words};
use com_cd::OutArea;
use com_lines::render;
use com_send::{Destination, Outs};
use com_text::{Name, Rows, Text, TextError};
use std::alloc::{AllocError, Global};

/// Outs with so many units, and with a destination for every three words that are left.
pub fn new(alloc: Global, words: &mut Words<'_>) -> Result<Outs, AllocError> {
    let units = words.number();
    let mut destinations = Rows::new(alloc);
    for row in words.rest().chunks(3) {
        if let Some(destination) = destination(alloc, row)? {
            destinations.push(destination).map_err(|(_, error)| error)?;
        }
    }
    Outs::new(alloc, destinations, u32::try_from(units).unwrap_or(0))
}

/// Returns a destination by its name, its password, and whether it is enabled.
fn destination(alloc: Global, row: &[Vec<u8>]) -> Result<Option<Destination>, AllocError> {
    let [name, password, flag] = row else {
        return Ok(None);
    };
    let Some(name) = Name::new(name) else {
        return Ok(None);
    };
    let Some(password) = text(alloc, password)? else {
        return Ok(None);
    };
    let on = matches!(flag.as_slice(), b"on");
    Ok(Some(Destination { name, password, on }))
}

/// Returns the text of these bytes: None where they are no text.
fn text(alloc: Global, bytes: &[u8]) -> Result<Option<Text>, AllocError> {
    match Text::read(alloc, bytes) {
        Ok(text) => Ok(Some(text)),
        Err(TextError::BadByte { .. }) => Ok(None),
        Err(TextError::Memory(error)) => Err(error),
    }
}

/// SEND of a unit: its number, the area, the part, and the item where there is one. It answers the
/// area.
pub fn send(alloc: Global, outs: &mut Outs, words: &mut Words<'_>) -> Result<String, AllocError> {
    let unit = words.number();
    let Some(mut area) = OutArea::read(words.bytes()) else {
        return String::from_str(alloc, "no area");
    };
    let Some(part) = part(words.bytes()) else {
        return String::from_str(alloc, "no part");
    };
    if unit >= u64::from(outs.units()) {
        return String::from_str(alloc, "no unit");
    }
    let item = match words.rest() {
        [item, ..] => text(alloc, item)?,
        [] => None,
    };
    outs.send(unit as u32, &mut area, part, item.as_ref())?;
    format!(in alloc; "{}", Quoted(area.as_bytes()))
}

/// ENABLE or DISABLE OUTPUT: the area and the key. It answers the area.
pub fn switch(
    alloc: Global,
    outs: &mut Outs,
    on: bool,
    words: &mut Words<'_>,
) -> Result<String, AllocError> {
    let Some(mut area) = OutArea::read(words.bytes()) else {
        return String::from_str(alloc, "no area");
    };
    let Some(key) = text(alloc, words.bytes())? else {
        return String::from_str(alloc, "no key");
    };
    outs.switch(on, &mut area, &key)?;
    format!(in alloc; "{}", Quoted(area.as_bytes()))
}

/// Stops a unit.
pub fn stop(alloc: Global, outs: &mut Outs, unit: u64) -> Result<String, AllocError> {
    if unit >= u64::from(outs.units()) {
        return String::from_str(alloc, "no unit");
    }
    outs.drop_unit(unit as u32);
    String::from_str(alloc, "stopped")
}

/// Returns the bytes that were transmitted to a destination.
pub fn transmitted(alloc: Global, outs: &Outs, destination: u64) -> Result<String, AllocError> {
    if destination >= outs.destinations().len() as u64 || destination > u64::from(u32::MAX) {
        return String::from_str(alloc, "no destination");
    }
    let mut bytes = Rows::new(alloc);
    for message in outs.transmitted(destination as u32) {
        render(message, &mut bytes)?;
    }
    format!(in alloc; "{}", Quoted(bytes.as_slice()))
}
