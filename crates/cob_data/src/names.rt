//! Names that stand twice, and more names of data than there may be.
ghost use Rattle.std.specs.Prelude.{◌≡◌, ◌++◌, [], IfOk, OnOk, drop, filter, map, if◌then◌else◌};
ghost use Rattle.cob_forms.specs.Faults.{first};
ghost use Rattle.cob_forms.specs.Sorts.{is, name};
ghost use Rattle.cob_data.specs.Entries.{is_cd};
ghost use Rattle.cob_data.specs.Faults.{data_names, limits, name_faults, name_past, names_in};

use crate::entries::is_cd;
use crate::entry::Entry;
use crate::seen::add_text;
use crate::unless::unless;
use cob_forms::{fault_at, first_of, is_name};
use cob_lex::{SourceFault, SourceKind, Token};
use indexmap::IndexSet;
use std::alloc::{AllocError, Global};

/// How many data names a program may have.
pub const MAX_DATA_NAMES: usize = 2_000;

/// Adds the names among some tokens.
fn push_names<'a>(tokens: &'a [Token], names: &mut Vec<&'a Token>) -> Result<(), AllocError>
    ensures { OnOk result (map (λ t. t.now) names.new.items ≡ map (λ t. t.now) names.old.items
        ++ filter (is name) tokens.now) }
{
    'tokens: for token in tokens {
        if is_name(token) {
            names.push(token)?;
        }
    }
    Ok(())
}

/// The names of data and CDs.
pub(crate) fn names_in<'a>(
    alloc: Global,
    entries: &[Entry<'a>],
) -> Result<Vec<&'a Token>, AllocError>
    ensures { IfOk result (λ names. map (λ t. t.now) names.items ≡ names_in entries.now) }
{
    let mut names = Vec::new(alloc);
    'entries: for entry in entries {
        push_names(entry.tokens(), &mut names)?;
    }
    Ok(names)
}

/// The tokens of an entry, and of a CD those behind its name.
fn data_tokens<'a>(entry: &Entry<'a>) -> &'a [Token]
    ensures { result.now ≡ (if is_cd entry.now then drop 2 entry.now else entry.now) }
{
    let tokens = entry.tokens();
    if !is_cd(tokens) {
        return tokens;
    }
    match tokens {
        [_, _, behind @ ..] => behind,
        _ => &[],
    }
}

/// The names of data.
pub(crate) fn data_names<'a>(
    alloc: Global,
    entries: &[Entry<'a>],
) -> Result<Vec<&'a Token>, AllocError>
    ensures { IfOk result (λ names. map (λ t. t.now) names.items ≡ data_names entries.now) }
{
    let mut names = Vec::new(alloc);
    'entries: for entry in entries {
        push_names(data_tokens(entry), &mut names)?;
    }
    Ok(names)
}

/// The first name that an earlier one has already.
pub(crate) fn first_named_again(
    alloc: Global,
    names: &[&Token],
) -> Result<Option<SourceFault>, AllocError>
    ensures { IfOk result (λ found. found ≡ first (name_faults [] (map (λ t. t.now) names.now))) }
{
    let mut texts = IndexSet::new(alloc);
    let mut found = None;
    let mut at = 0;
    'names: while at < names.len() {
        let name = names[at];
        let is_new = add_text(name.text.as_bytes(), &mut texts)?;
        found = first_of(found, unless(is_new, SourceKind::TwiceDeclared, Some(name)));
        at += 1;
    }
    Ok(found)
}

/// The first name of data past the limit.
#[tactic(auto, using(crate::proofs::NamePasses::past_first, crate::proofs::NamePasses::past_none))]
pub(crate) fn first_name_past(names: &[&Token]) -> Option<SourceFault>
    ensures { result ≡ first (name_past limits.names (map (λ t. t.now) names.now)) }
{
    if MAX_DATA_NAMES < names.len() {
        return Some(fault_at(names[MAX_DATA_NAMES], SourceKind::OverLimit));
    }
    None
}
