//! The values of a description's tables.
ghost use Rattle.std.specs.Prelude.{◌≡◌, true, length, option_map, option_and_then, codes, IfOk};
ghost use Rattle.toml.specs.View.{view, items_view, table_view};
ghost use Rattle.com_text.specs.Name.{is_name};
ghost use Rattle.com_text.specs.Text.{IsText};
ghost use Rattle.com_net.specs.inner.Sound.{is_name_path};
ghost use Rattle.com_net.specs.inner.Seen.{texts_in};
ghost use Rattle.com_net.specs.Values.{value_at, has, text_in, string_at, flag_at, are_tables, tables_of, tables_in, tables_at, are_strings, strings_of, strings_in, strings_at, is_table_array, are_steps, is_path, is_word, is_string, is_boolean, is_one, is_of_kind};

use crate::keys::{Key, key_text};
use com_text::{MAX_NAMES, Name, NamePath, Text};
use std::alloc::{AllocError, Global};
use toml::{Table, Value};

/// Returns the value at a key.
pub fn value_at<'a>(key: Key, table: &'a Table) -> Option<&'a Value>
    ensures { option_map (λ value. view value.now) result ≡ value_at key (table_view table.now) }
{
    table.get(key_text(key))
}

/// Returns whether a table has a key, whatever its value is.
pub fn has(key: Key, table: &Table) -> bool
    ensures { result ≡ has key (table_view table.now) }
{
    value_at(key, table).is_some()
}

/// Returns a string; another value is not a text.
fn text_in(value: &Value) -> &str
    ensures { result.now ≡ text_in (view value.now) }
{
    match value.as_str() {
        Some(text) => text,
        None => "",
    }
}

/// Returns the string at a key; another value is not a text.
pub fn string_at<'a>(key: Key, table: &'a Table) -> &'a str
    ensures { result.now ≡ string_at key (table_view table.now) }
{
    match value_at(key, table) {
        Some(value) => text_in(value),
        None => "",
    }
}

/// Returns the name at a key.
pub fn name_at(key: Key, table: &Table) -> Name
    requires { is_name (string_at key (table_view table.now)) ≡ true }
    ensures { result ≡ string_at key (table_view table.now) }
{
    Name::new(string_at(key, table).as_bytes()).unwrap()
}

/// Returns the text at a key.
pub fn text_at(alloc: Global, key: Key, table: &Table) -> Result<Text, AllocError>
    requires { IsText (string_at key (table_view table.now)) }
    ensures { IfOk result (λ text. text ≡ string_at key (table_view table.now)) }
{
    Ok(Text::of_vec(Vec::from_slice(alloc, string_at(key, table).as_bytes())?))
}

/// Returns the path that one to four strings name.
pub fn path_of(names: &[Value]) -> NamePath
    requires { is_name_path (texts_in names.now) ≡ true }
    ensures { result ≡ texts_in names.now }
{
    let mut path = NamePath::new(name_in(&names[0]));
    for name in &names[1..] {
        path = path.then(name_in(name)).unwrap();
    }
    path
}

/// Returns a string that is a name.
fn name_in(value: &Value) -> Name
    requires { is_name (text_in (view value.now)) ≡ true }
    ensures { result ≡ text_in (view value.now) }
{
    Name::new(text_in(value).as_bytes()).unwrap()
}

/// Returns the flag at a key, which is true by default.
pub fn flag_at(key: Key, table: &Table) -> bool
    ensures { result ≡ flag_at key (table_view table.now) }
{
    match value_at(key, table) {
        Some(value) => value.as_bool().unwrap_or(true),
        None => true,
    }
}

/// Returns the elements of an array of tables; another value has none.
fn tables_in(value: &Value) -> &[Value]
    ensures tables { tables_of (items_view result.now) ≡ tables_in (view value.now) }
    ensures all { are_tables (items_view result.now) ≡ true }
{
    match value.as_array() {
        Some(values) => if are_tables(values.as_slice()) {
            values.as_slice()
        } else {
            &[]
        },
        None => &[],
    }
}

/// Returns the elements of the array of tables at a key.
pub fn tables_at<'a>(key: Key, table: &'a Table) -> &'a [Value]
    ensures tables { tables_of (items_view result.now) ≡ tables_at key (table_view table.now) }
    ensures all { are_tables (items_view result.now) ≡ true }
{
    match value_at(key, table) {
        Some(value) => tables_in(value),
        None => &[],
    }
}

/// Returns how many tables the array of tables at a key has.
pub fn count_at(key: Key, table: &Table) -> usize
    ensures { result ≡ length (tables_at key (table_view table.now)) }
{
    tables_at(key, table).len()
}

/// Returns the elements of an array of strings; another value has none.
pub fn strings_in(value: &Value) -> &[Value]
    ensures strings { strings_of (items_view result.now) ≡ strings_in (view value.now) }
    ensures all { are_strings (items_view result.now) ≡ true }
{
    match value.as_array() {
        Some(values) => if are_strings(values.as_slice()) {
            values.as_slice()
        } else {
            &[]
        },
        None => &[],
    }
}

/// Returns the elements of the array of strings at a key.
fn strings_at<'a>(key: Key, table: &'a Table) -> &'a [Value]
    ensures strings { strings_of (items_view result.now) ≡ strings_at key (table_view table.now) }
    ensures all { are_strings (items_view result.now) ≡ true }
{
    match value_at(key, table) {
        Some(value) => strings_in(value),
        None => &[],
    }
}

/// Returns the names of the path at a key.
pub fn names_at<'a>(key: Key, table: &'a Table) -> &'a [Value]
    ensures { texts_in result.now ≡ strings_at key (table_view table.now) }
{
    strings_at(key, table)
}

/// Returns whether a value is one that a key may have.
pub fn is_of_kind(key: Key, value: &Value) -> bool
    ensures { result ≡ is_of_kind key (view value.now) }
{
    match key {
        Key::Version => is_one(value),
        Key::Terminals | Key::Queues | Key::Units | Key::Children => is_table_array(value),
        Key::Name | Key::Password | Key::Input | Key::Source => value.is_str(),
        Key::Framing => is_word("marks", "lines", value),
        Key::Choose => is_word("ordered", "oldest", value),
        Key::Route | Key::Schedule => is_path(value),
        Key::InputEnabled | Key::OutputEnabled | Key::Enabled => value.is_bool(),
    }
}

fn are_tables(values: &[Value]) -> bool
    ensures { result ≡ are_tables (items_view values.now) }
{
    values.iter().all(|value| value.is_table())
}

fn are_strings(values: &[Value]) -> bool
    ensures { result ≡ are_strings (items_view values.now) }
{
    values.iter().all(|value| value.is_str())
}

fn is_one(value: &Value) -> bool
    ensures { result ≡ is_one (view value.now) }
{
    matches!(value.as_integer(), Some(1))
}

fn is_table_array(value: &Value) -> bool
    ensures { result ≡ is_table_array (view value.now) }
{
    match value.as_array() {
        Some(values) => are_tables(values.as_slice()),
        None => false,
    }
}

fn is_word(first: &str, second: &str, value: &Value) -> bool
    ensures { result ≡ is_word first.now second.now (view value.now) }
{
    match value.as_str() {
        Some(text) => text == first || text == second,
        None => false,
    }
}

fn is_path(value: &Value) -> bool
    ensures { result ≡ is_path (view value.now) }
{
    match value.as_array() {
        Some(values) => are_steps(values.as_slice()),
        None => false,
    }
}

fn are_steps(values: &[Value]) -> bool
    ensures { result ≡ are_steps (items_view values.now) }
{
    if !are_strings(values) {
        return false;
    }
    1 <= values.len() && values.len() <= MAX_NAMES
}
