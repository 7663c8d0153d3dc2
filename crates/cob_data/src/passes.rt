//! The faults of the divisions, family by family, beside where another token is wanted.
ghost use Rattle.std.specs.Prelude.{◌≡◌, ◌≤◌, ◌++◌, [], IfOk, filter, length};
ghost use Rattle.cob_forms.specs.Faults.{first};
ghost use Rattle.cob_data.specs.Entries.{is_item, split_runs};
ghost use Rattle.cob_data.specs.Faults.{bad_columns, bad_pictures, bad_tables, characters_past, clauses_twice, data_names, limits, name_faults, name_past, names_in, other_faults, runs_faults, second_initials, whole_entries};

use crate::cd_faults::{first_bad_table, first_clause_twice, first_second_initial};
use crate::characters::first_character_past;
use crate::columns::first_bad_column;
use crate::entry::Entry;
use crate::faults::first_bad_picture;
use crate::names::{data_names, first_name_past, first_named_again, names_in};
use crate::run_faults::first_run_fault;
use crate::runs::described;
use cob_forms::first_of;
use cob_lex::{MAX_SOURCE, SourceFault, Token};
use std::alloc::{AllocError, Global};

/// The first fault of the tokens by themselves.
#[tactic(auto, using(crate::proofs::Joined::of_two))]
fn first_token_fault(lined: &[Token], tokens: &[Token]) -> Option<SourceFault>
    ensures { result ≡ first (bad_columns lined.now ++ bad_pictures tokens.now) }
{
    first_of(first_bad_column(lined), first_bad_picture(tokens))
}

/// The first fault of names.
#[tactic(auto, using(crate::proofs::Joined::of_two))]
fn first_name_fault(alloc: Global, entries: &[Entry]) -> Result<Option<SourceFault>, AllocError>
    ensures { IfOk result
        (λ found. found
        ≡ first (name_faults [] (names_in entries.now)
        ++ name_past limits.names (data_names entries.now))) }
{
    let again = first_named_again(alloc, &names_in(alloc, entries)?)?;
    let past = first_name_past(&data_names(alloc, entries)?);
    Ok(first_of(again, past))
}

/// The first fault of CD entries.
#[tactic(auto, using(crate::proofs::Joined::of_three))]
fn first_cd_fault(alloc: Global, entries: &[Entry]) -> Result<Option<SourceFault>, AllocError>
    ensures { IfOk result
        (λ found. found
        ≡ first (second_initials entries.now ++ bad_tables entries.now
        ++ clauses_twice entries.now)) }
{
    let initial = first_second_initial(entries);
    let table = first_bad_table(entries);
    let clause = first_clause_twice(alloc, entries)?;
    Ok(first_of(first_of(initial, table), clause))
}

/// The first fault of items.
#[tactic(auto, using(crate::proofs::Joined::of_two))]
fn first_item_fault(
    alloc: Global,
    is_followed: bool,
    entries: &[Entry],
) -> Result<Option<SourceFault>, AllocError>
    requires { length entries.now ≤ MAX_SOURCE }
    ensures { IfOk result
        (λ found. found
        ≡ first (runs_faults is_followed (split_runs entries.now).1
        ++ characters_past limits.characters 0 (filter is_item (whole_entries is_followed entries.now)))) }
{
    let run = first_run_fault(alloc, is_followed, entries)?;
    let character = first_character_past(is_followed, entries);
    Ok(first_of(run, character))
}

/// The first fault that tokens have apart from where another one is wanted, by the tokens whose
/// columns count, by those whose entries count, and by whether further tokens stand behind these.
pub(crate) fn first_other_fault(
    alloc: Global,
    is_followed: bool,
    lined: &[Token],
    tokens: &[Token],
) -> Result<Option<SourceFault>, AllocError>
    requires { length tokens.now ≤ MAX_SOURCE }
    ensures { IfOk result
        (λ found. found ≡ first (other_faults limits is_followed lined.now tokens.now)) }
{
    let entries = described(alloc, tokens)?;
    let token = first_token_fault(lined, tokens);
    let name = first_name_fault(alloc, &entries)?;
    let cd = first_cd_fault(alloc, &entries)?;
    let item = first_item_fault(alloc, is_followed, &entries)?;
    Ok(first_of(first_of(first_of(token, name), cd), item))
}
