//! The faults that a table has by itself: keys, kinds, names and passwords.
ghost use Rattle.std.specs.Prelude.{◌≡◌, ◌++◌, true, map, not, option_map, IfOk, IfSome, if◌then◌else◌};
ghost use Rattle.std.specs.List.{find};
ghost use Rattle.com_text.specs.Text.{IsText, is_text_byte};
ghost use Rattle.toml.specs.View.{view, items_view, table_view};
ghost use Rattle.com_text.specs.Name.{is_name};
ghost use Rattle.com_net.specs.Network.{is_password, is_file_name};
ghost use Rattle.com_net.specs.Keys.{keys_of};
ghost use Rattle.com_net.specs.Values.{strings_of};
ghost use Rattle.com_net.specs.Places.{key_path};
ghost use Rattle.com_net.specs.inner.Seen.{seen};
ghost use Rattle.com_net.specs.KeyFaults.{is_allowed, is_needed_key, is_missing, has_wrong_kind, is_known, names_in, shown, first_of, bad_part, bad_text, unless, bad_value_at, bad_name_in, bad_password_in, unknown_key, bad_name, bad_password};
ghost use Rattle.com_net.specs.inner.Checks.{fault_at};

use crate::keys::{Key, Section, key_text, keys_of};
use crate::paths::{below, element, joined};
use crate::places::TableAt;
use crate::texts::{is_file_name, is_password};
use crate::values::{has, is_of_kind, strings_in, value_at};
use com_text::{Name, Text, is_text_byte};
use std::alloc::{AllocError, Global};
use toml::{Table, Value};

/// A kind of fault that a table has by itself.
#[derive(Clone, Copy, Debug, PartialEq, Eq)]
pub enum Check {
    MissingKey,
    WrongKind,
    UnknownKey,
    BadName,
    BadPassword,
}

/// Returns the path of a key of a table.
pub fn key_path(alloc: Global, at: &TableAt<'_>, key: Key) -> Result<Text, AllocError>
    ensures { IfOk result (λ text. text ≡ key_path (seen at.now) key) }
{
    below(alloc, at.path.as_bytes(), key_text(key).as_bytes())
}

/// Returns whether a table may have a key, by what else it has.
fn is_allowed(key: Key, table: &Table) -> bool
    ensures { result ≡ is_allowed (table_view table.now) key }
{
    match key {
        Key::Framing | Key::Route => has(Key::Input, table),
        Key::Choose => has(Key::Children, table),
        Key::Enabled => !has(Key::Children, table),
        _ => true,
    }
}

/// Returns whether a key is needed wherever it may stand.
fn is_needed_key(key: Key) -> bool
    ensures { result ≡ is_needed_key key }
{
    match key {
        Key::InputEnabled
        | Key::OutputEnabled
        | Key::Input
        | Key::Children
        | Key::Enabled
        | Key::Schedule => false,
        _ => true,
    }
}

/// Returns whether a key is needed in a table, and absent.
fn is_missing(key: Key, table: &Table) -> bool
    ensures { result ≡ is_missing (table_view table.now) key }
{
    is_needed_key(key) && is_allowed(key, table) && !has(key, table)
}

/// Returns whether a table may have a key, and has a value of another kind there.
fn has_wrong_kind(key: Key, table: &Table) -> bool
    ensures { result ≡ has_wrong_kind (table_view table.now) key }
{
    if !is_allowed(key, table) {
        return false;
    }
    match value_at(key, table) {
        Some(value) => !is_of_kind(key, value),
        None => false,
    }
}

/// Returns the first key that is missing.
fn missing_key(section: Section, table: &Table) -> Option<Key>
    ensures { result ≡ find (is_missing (table_view table.now)) (keys_of section) }
{
    keys_of(section)
        .iter()
        .copied()
        .find(|key| is_missing(*key, table))
}

/// Returns the first key whose value is of another kind.
fn wrong_kind(section: Section, table: &Table) -> Option<Key>
    ensures { result ≡ find (has_wrong_kind (table_view table.now)) (keys_of section) }
{
    keys_of(section)
        .iter()
        .copied()
        .find(|key| has_wrong_kind(*key, table))
}

/// Returns whether this is one of the keys, as it is written, and allowed in the table.
fn is_known(keys: &[Key], table: &Table, name: &str) -> bool
    ensures { result ≡ is_known keys.now (table_view table.now) name.now }
{
    for key in keys {
        if key_text(*key) == name && is_allowed(*key, table) {
            return true;
        }
    }
    false
}

/// Returns the least key that the table does not have here.
fn unknown_key<'a>(section: Section, table: &'a Table) -> Option<&'a str>
    ensures { option_map (λ name. name.now) result ≡ find
        (λ name. not (is_known (keys_of section) (table_view table.now) name))
        (names_in (table_view table.now)) }
{
    for name in table.keys() {
        if !is_known(keys_of(section), table, name.as_str()) {
            return Some(name.as_str());
        }
    }
    None
}

/// Returns a key as it is shown.
fn shown(alloc: Global, name: &[u8]) -> Result<Text, AllocError>
    ensures { IfOk result (λ text. text ≡ shown name.now) }
{
    let mut bytes = Vec::with_capacity(alloc, name.len())?;
    for byte in name {
        bytes.push(shown_byte(*byte))?;
    }
    Ok(Text::of_vec(bytes))
}

/// Returns a byte as it is shown: itself, or a question mark.
fn shown_byte(byte: u8) -> u8
    ensures shown { result ≡ if is_text_byte byte then byte else 63 }
    ensures text { is_text_byte result ≡ true }
{
    if is_text_byte(byte) { byte } else { b'?' }
}

/// Returns the first fault of a kind in a table.
fn fault_at(alloc: Global, check: Check, at: &TableAt<'_>) -> Result<Option<Text>, AllocError>
    ensures { IfOk result (λ found. found ≡ fault_at check (seen at.now)) }
{
    match check {
        Check::MissingKey => path_of_key(alloc, at, missing_key(at.section, at.table)),
        Check::WrongKind => path_of_key(alloc, at, wrong_kind(at.section, at.table)),
        Check::UnknownKey => unknown_path(alloc, at),
        Check::BadName => bad_name(alloc, at),
        Check::BadPassword => bad_password(alloc, at),
    }
}

/// Returns the path of a key, where there is one.
pub fn path_of_key(
    alloc: Global,
    at: &TableAt<'_>,
    key: Option<Key>,
) -> Result<Option<Text>, AllocError>
    ensures { IfOk result (λ found. found ≡ option_map (key_path (seen at.now)) key) }
{
    match key {
        Some(key) => Ok(Some(key_path(alloc, at, key)?)),
        None => Ok(None),
    }
}

/// Returns the path of the least key that the table does not have here.
fn unknown_path(alloc: Global, at: &TableAt<'_>) -> Result<Option<Text>, AllocError>
    ensures { IfOk result (λ found. found ≡ unknown_key (seen at.now)) }
{
    match unknown_key(at.section, at.table) {
        Some(name) => {
            let shown = shown(alloc, name.as_bytes())?;
            Ok(Some(below(alloc, at.path.as_bytes(), shown.as_bytes())?))
        }
        None => Ok(None),
    }
}

/// Returns the first name, part of a path or file name of a table that is malformed.
fn bad_name(alloc: Global, at: &TableAt<'_>) -> Result<Option<Text>, AllocError>
    ensures { IfOk result (λ found. found ≡ bad_name (seen at.now)) }
{
    for key in keys_of(at.section) {
        if let Some(path) = bad_name_at(alloc, at, *key)? {
            return Ok(Some(path));
        }
    }
    Ok(None)
}

/// Returns the password of a table, if it is malformed.
fn bad_password(alloc: Global, at: &TableAt<'_>) -> Result<Option<Text>, AllocError>
    ensures { IfOk result (λ found. found ≡ bad_password (seen at.now)) }
{
    for key in keys_of(at.section) {
        if let Some(path) = bad_password_at(alloc, at, *key)? {
            return Ok(Some(path));
        }
    }
    Ok(None)
}

/// Returns the path of a bad name in the value at a key.
fn bad_name_at(alloc: Global, at: &TableAt<'_>, key: Key) -> Result<Option<Text>, AllocError>
    ensures { IfOk result (λ found. found ≡ bad_value_at bad_name_in (seen at.now) key) }
{
    match value_at(key, at.table) {
        Some(value) => with_suffix(alloc, at, key, bad_name_in(alloc, key, value)?),
        None => Ok(None),
    }
}

/// Returns the path of a bad password at a key.
fn bad_password_at(alloc: Global, at: &TableAt<'_>, key: Key) -> Result<Option<Text>, AllocError>
    ensures { IfOk result (λ found. found ≡ bad_value_at bad_password_in (seen at.now) key) }
{
    match value_at(key, at.table) {
        Some(value) => with_suffix(alloc, at, key, bad_password_in(alloc, key, value)?),
        None => Ok(None),
    }
}

/// Returns the path of a key with what follows it, where there is something.
fn with_suffix(
    alloc: Global,
    at: &TableAt<'_>,
    key: Key,
    suffix: Option<Text>,
) -> Result<Option<Text>, AllocError>
    ensures { IfOk result (λ found. found
        ≡ option_map (λ part. key_path (seen at.now) key ++ part) suffix) }
{
    match suffix {
        Some(suffix) => {
            let path = key_path(alloc, at, key)?;
            Ok(Some(joined(alloc, path.as_bytes(), suffix.as_bytes())?))
        }
        None => Ok(None),
    }
}

/// Returns where a value has a bad name: at the value itself, or at a part of it.
fn bad_name_in(alloc: Global, key: Key, value: &Value) -> Result<Option<Text>, AllocError>
    ensures { IfOk result (λ found. found ≡ bad_name_in key (view value.now)) }
{
    match key {
        Key::Name => unless(alloc, is_name_or_none(value)),
        Key::Input | Key::Source => unless(alloc, is_file_name_or_none(value)),
        Key::Route | Key::Schedule => bad_part(alloc, strings_in(value)),
        _ => Ok(None),
    }
}

/// Returns where a value is a bad password.
fn bad_password_in(alloc: Global, key: Key, value: &Value) -> Result<Option<Text>, AllocError>
    ensures { IfOk result (λ found. found ≡ bad_password_in key (view value.now)) }
{
    match key {
        Key::Password => unless(alloc, is_password_or_none(value)),
        _ => Ok(None),
    }
}

/// Nothing, where a value passes a test.
fn unless(alloc: Global, passes: bool) -> Result<Option<Text>, AllocError>
    ensures { IfOk result (λ found. found ≡ unless passes) }
{
    if passes {
        return Ok(None);
    }
    Ok(Some(Text::of_vec(Vec::new(alloc))))
}

/// Returns whether a value is a name, if it is a string.
fn is_name_or_none(value: &Value) -> bool
    ensures { unless result ≡ bad_text is_name (view value.now) }
{
    match value.as_str() {
        Some(text) => Name::new(text.as_bytes()).is_some(),
        None => true,
    }
}

/// Returns whether a value is a file name, if it is a string.
fn is_file_name_or_none(value: &Value) -> bool
    ensures { unless result ≡ bad_text is_file_name (view value.now) }
{
    match value.as_str() {
        Some(text) => is_file_name(text.as_bytes()),
        None => true,
    }
}

/// Returns whether a value is a password, if it is a string.
fn is_password_or_none(value: &Value) -> bool
    ensures { unless result ≡ bad_text is_password (view value.now) }
{
    match value.as_str() {
        Some(text) => is_password(text.as_bytes()),
        None => true,
    }
}

/// Returns the number of the first string that is not a name, after a period.
fn bad_part(alloc: Global, values: &[Value]) -> Result<Option<Text>, AllocError>
    ensures { IfOk result (λ found. found ≡ bad_part 1 (strings_of (items_view values.now))) }
{
    let mut number = 1u64;
    for value in values {
        if let Some(text) = value.as_str() {
            if Name::new(text.as_bytes()).is_none() {
                return Ok(Some(element(alloc, b"", number)?));
            }
            number += 1;
        }
    }
    Ok(None)
}

/// Returns the first fault of a kind in the tables of a document.
pub fn first_fault(
    alloc: Global,
    check: Check,
    places: &[TableAt<'_>],
) -> Result<Option<Text>, AllocError>
    ensures { IfOk result (λ found. found ≡ first_of (fault_at check) (map seen places.now)) }
{
    for at in places {
        if let Some(path) = fault_at(alloc, check, at)? {
            return Ok(Some(path));
        }
    }
    Ok(None)
}
