//! Faults of CD entries: numbers of occurrences, INITIAL more than once, and clauses that stand
//! twice.
ghost use Rattle.std.specs.Prelude.{◌≡◌, ◌&&◌, ◌||◌, [], IfOk, codes, filter, nat_le, not, if◌then◌else◌};
ghost use Rattle.cob_forms.specs.Faults.{first};
ghost use Rattle.cob_forms.specs.Sorts.{is, of_kind, reserved};
ghost use Rattle.cob_lex.specs.declared.fault.SourceKind.TheVariants as faults;
ghost use Rattle.cob_lex.specs.declared.token.TokenKind.TheVariants as kinds;
ghost use Rattle.cob_data.specs.Clauses.{clauses_of, is_input};
ghost use Rattle.cob_data.specs.Entries.{behind, has, is_cd};
ghost use Rattle.cob_data.specs.Faults.{at_any, bad_tables, clause_faults, clauses_twice, second_initials};
ghost use Rattle.cob_data.specs.Numerals.{numeral};

use crate::cds::{clause_word, clauses_of, has, is_input};
use crate::entries::{behind_word, is_cd};
use crate::entry::{Entry, numeral};
use crate::seen::add_text;
use crate::unless::unless;
use cob_forms::{first_of, is_kind, is_word, noted};
use cob_lex::{SourceFault, SourceKind, Token, TokenKind};
use com_cd::MAX_OCCURRENCES;
use indexmap::IndexSet;
use std::alloc::{AllocError, Global};

/// The tokens of the entry of a CD, and none of another entry.
fn cd_tokens<'a>(entry: &Entry<'a>) -> &'a [Token]
    ensures { result.now ≡ (if is_cd entry.now then entry.now else []) }
{
    let tokens = entry.tokens();
    if is_cd(tokens) {
        return tokens;
    }
    &[]
}

/// Whether a number of occurrences may not be.
fn is_out_of_range(number: u64) -> bool
    ensures { result ≡ not (nat_le 1 number && nat_le number MAX_OCCURRENCES) }
{
    number < 1 || u64::from(MAX_OCCURRENCES) < number
}

/// Whether a token is a number of occurrences that may not be.
fn is_bad_number(token: &Token) -> bool
    ensures { result ≡ (is (of_kind kinds.Number) token.now
        && not (nat_le 1 (numeral token.now.text)
        && nat_le (numeral token.now.text) MAX_OCCURRENCES)) }
{
    is_kind(token, TokenKind::Number) && is_out_of_range(numeral(token.text.as_bytes()))
}

/// The first number of occurrences that may not be, in the entry of a CD.
fn first_bad_number(tokens: &[Token]) -> Option<SourceFault>
    ensures { result ≡ first (at_any faults.OverLimit (filter
        (λ t. is (of_kind kinds.Number) t
        && not (nat_le 1 (numeral t.text)
        && nat_le (numeral t.text) MAX_OCCURRENCES)) tokens.now)) }
{
    let mut found = None;
    'tokens: for token in tokens {
        let is_bad = is_bad_number(token);
        found = first_of(found, noted(is_bad, SourceKind::OverLimit, token));
    }
    found
}

/// The first number of occurrences that may not be.
pub(crate) fn first_bad_table(entries: &[Entry]) -> Option<SourceFault>
    ensures { result ≡ first (bad_tables entries.now) }
{
    let mut found = None;
    'entries: for entry in entries {
        found = first_of(found, first_bad_number(cd_tokens(entry)));
    }
    found
}

/// The first INITIAL.
fn first_initial(tokens: &[Token]) -> Option<SourceFault>
    ensures { result ≡ first (at_any faults.TwoInitial (filter (is (reserved (codes "INITIAL"))) tokens.now)) }
{
    let mut found = None;
    'tokens: for token in tokens {
        let is_initial = is_word(token, b"INITIAL");
        found = first_of(found, noted(is_initial, SourceKind::TwoInitial, token));
    }
    found
}

/// The first INITIAL that is not the program's first one.
fn first_initial_past(had_initial: bool, tokens: &[Token]) -> Option<SourceFault>
    ensures { result ≡ first (at_any faults.TwoInitial (filter (is (reserved (codes "INITIAL"))) (if had_initial then tokens.now else behind (is (reserved (codes "INITIAL"))) tokens.now))) }
{
    if had_initial {
        return first_initial(tokens);
    }
    first_initial(behind_word(tokens, b"INITIAL"))
}

/// Whether an INITIAL stands in some tokens or stood before them.
fn has_initial_by(had_initial: bool, tokens: &[Token]) -> bool
    ensures { result ≡ (had_initial || has (codes "INITIAL") tokens.now) }
{
    had_initial || has(tokens, b"INITIAL")
}

/// The first INITIAL behind the program's first one.
pub(crate) fn first_second_initial(entries: &[Entry]) -> Option<SourceFault>
    ensures { result ≡ first (second_initials entries.now) }
{
    let mut found = None;
    let mut had_initial = false;
    'entries: for entry in entries {
        let tokens = cd_tokens(entry);
        found = first_of(found, first_initial_past(had_initial, tokens));
        had_initial = has_initial_by(had_initial, tokens);
    }
    found
}

/// The first clause that stands twice in the entry of a CD, told at its first word.
fn first_clause_again(alloc: Global, entry: &[Token]) -> Result<Option<SourceFault>, AllocError>
    ensures { IfOk result
        (λ found. found ≡ first (clause_faults (is_input entry.now) [] (clauses_of entry.now))) }
{
    let is_input = is_input(entry);
    let mut words = IndexSet::new(alloc);
    let mut found = None;
    let mut clauses = clauses_of(entry);
    'clauses: while let Some(clause) = clauses.next() {
        let is_new = add_text(clause_word(is_input, clause), &mut words)?;
        found = first_of(
            found,
            unless(is_new, SourceKind::TwiceDeclared, clause.first()),
        );
    }
    Ok(found)
}

/// The first clause that stands twice in the entry of its CD.
pub(crate) fn first_clause_twice(
    alloc: Global,
    entries: &[Entry],
) -> Result<Option<SourceFault>, AllocError>
    ensures { IfOk result (λ found. found ≡ first (clauses_twice entries.now)) }
{
    let mut found = None;
    'entries: for entry in entries {
        found = first_of(found, first_clause_again(alloc, cd_tokens(entry))?);
    }
    Ok(found)
}
