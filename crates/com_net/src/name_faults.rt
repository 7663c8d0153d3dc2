//! Names that may not stand twice, and how many tables there may be.
ghost use Rattle.std.specs.Prelude.{◌≡◌, ◌++◌, [], ◌∷◌, false, map, option_map, IfOk, IfSome, if◌then◌else◌};
ghost use Rattle.std.specs.List.{list_any};
ghost use Rattle.std.specs.Str.{bytes_eq};
ghost use Rattle.com_text.specs.Text.{IsText};
ghost use Rattle.toml.specs.View.{table_view};
ghost use Rattle.com_net.specs.declared.keys.Key.TheVariants as key;
ghost use Rattle.com_net.specs.Values.{string_at};
ghost use Rattle.com_net.specs.inner.Seen.{seen};
ghost use Rattle.com_net.specs.NameFaults.{is_terminal, is_unit, taken, twice_named, is_over, over_limit};

use crate::key_faults::key_path;
use crate::keys::{Key, Section};
use crate::net::{MAX_TERMINALS, MAX_UNITS};
use crate::places::TableAt;
use crate::values::{count_at, string_at};
use com_text::Text;
use indexmap::IndexSet;
use std::alloc::{AllocError, Global};
use toml::Table;

/// Returns the path of the first table with the name of one before it.
pub fn twice_named(alloc: Global, places: &[TableAt<'_>]) -> Result<Option<Text>, AllocError>
    ensures { IfOk result (λ found. found ≡ twice_named (map seen places.now)) }
{
    let mut terminals = IndexSet::new(alloc);
    let mut units = IndexSet::new(alloc);
    for at in places {
        if clashes(
            at.section,
            string_at(Key::Name, at.table),
            &mut terminals,
            &mut units,
        )? {
            return Ok(Some(key_path(alloc, at, Key::Name)?));
        }
    }
    Ok(None)
}

/// Returns whether a name was taken before; otherwise it is taken from now on.
fn clashes<'a>(
    section: Section,
    name: &'a str,
    terminals: &mut IndexSet<&'a str>,
    units: &mut IndexSet<&'a str>,
) -> Result<bool, AllocError>
    ensures clash { IfOk result (λ clash. clash ≡ list_any (bytes_eq name.now) (taken section
        (map (λ known. known.now) terminals.old.keys) (map (λ known. known.now) units.old.keys))) }
    ensures terminals { IfOk result (λ clash. clash ≡ false
        → map (λ known. known.now) terminals.new.keys ≡ map (λ known. known.now) terminals.old.keys
        ++ (if is_terminal section then name.now ∷ [] else [])) }
    ensures units { IfOk result (λ clash. clash ≡ false
        → map (λ known. known.now) units.new.keys ≡ map (λ known. known.now) units.old.keys
        ++ (if is_unit section then name.now ∷ [] else [])) }
{
    match section {
        Section::Top => Ok(false),
        Section::Terminal => Ok(!terminals.insert(name)?),
        Section::Queue(level) => Ok(level == 1 && terminals.contains(name)),
        Section::Unit => Ok(!units.insert(name)?),
    }
}

/// Returns where there are too many terminals or units, or none.
pub fn over_limit(document: &Table) -> Option<&'static str>
    ensures path { option_map (λ path. path.now) result ≡ over_limit (table_view document.now) }
    ensures text { IfSome result (λ path. IsText path.now) }
{
    if is_over(MAX_TERMINALS, count_at(Key::Terminals, document)) {
        Some("terminal")
    } else if is_over(MAX_UNITS, count_at(Key::Units, document)) {
        Some("unit")
    } else {
        None
    }
}

/// Returns whether a number is not from 1 to a limit.
fn is_over(limit: usize, number: usize) -> bool
    ensures { result ≡ is_over limit number }
{
    number < 1 || limit < number
}
