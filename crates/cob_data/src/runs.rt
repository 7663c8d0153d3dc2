//! Runs, each a header or a CD entry with the items behind it; and records, each an item of level
//! 01 or 77 with the items behind it.
ghost use Rattle.std.specs.Prelude.{◌≡◌, ◌≤◌, ◌<◌, ◌+◌, [], ◌∷◌, IfOk, IfSome, MatchOption, drop, length, not, take_while};
ghost use Rattle.cob_data.specs.Entries.{described, is_item, split_runs, run};
ghost use Rattle.cob_data.specs.Levels.{is_record, records_of};

use crate::entries::{Entries, is_item};
use crate::entry::Entry;
use cob_lex::Token;
use std::alloc::{AllocError, Global};

/// The headers, items and CD entries of some tokens, without the words that the program chooses.
pub(crate) fn described(alloc: Global, tokens: &[Token]) -> Result<Vec<Entry>, AllocError>
    ensures list { IfOk result (λ list. list.items ≡ described tokens.now) }
    ensures few { IfOk result (λ list. length list.items ≤ length tokens.now) }
{
    let mut list = Vec::new(alloc);
    let mut entries = Entries::of(tokens);
    'entries: while let Some((is_chosen, entry)) = entries.next() {
        if !is_chosen {
            list.push(Entry::new(entry))?;
        }
    }
    Ok(list)
}

/// The first header or CD entry from a place on, the items behind it, and the place behind these.
pub(crate) fn next_run<'b, 'a>(
    entries: &'b [Entry<'a>],
    from: usize,
) -> Option<(&'b Entry<'a>, &'b [Entry<'a>], usize)>
    requires { from ≤ length entries.now }
    ensures run { MatchOption result ((split_runs (drop from entries.now)).1 ≡ [])
        (λ x. (split_runs (drop from entries.now)).1
        ≡ run x.0.now x.1.now ∷ (split_runs (drop x.2 entries.now)).1) }
    ensures past { IfSome result (λ x. (from < x.2) × (x.2 ≤ length entries.now)) }
    ensures items { IfSome result (λ x. from + length x.1.now < x.2) }
{
    let (_, left) = entries.split_at(from);
    let skipped = item_count(left);
    let (_, rest) = left.split_at(skipped);
    let Some((head, behind)) = rest.split_first() else {
        return None;
    };
    let count = item_count(behind);
    let (items, _) = behind.split_at(count);
    Some((head, items, from + skipped + 1 + count))
}

/// How many items stand before the first entry that is none.
fn item_count(entries: &[Entry]) -> usize
    ensures count { result ≡ length (take_while is_item entries.now) }
    ensures within { result ≤ length entries.now }
{
    entries
        .iter()
        .take_while(|entry| is_item(entry.tokens()))
        .count()
}

/// The first record from a place on, with the items below it, and the place behind these.
pub(crate) fn next_record<'b, 'a>(
    items: &'b [Entry<'a>],
    from: usize,
) -> Option<(&'b [Entry<'a>], usize)>
    requires { from ≤ length items.now }
    ensures items { MatchOption result (records_of (drop from items.now) ≡ [])
        (λ x. records_of (drop from items.now) ≡ x.0.now ∷ records_of (drop x.1 items.now)) }
    ensures past { IfSome result (λ x. (from < x.1) × (x.1 ≤ length items.now)) }
    ensures within { IfSome result (λ x. length x.0.now ≤ length items.now) }
{
    let (_, left) = items.split_at(from);
    let skipped = count_before_record(left);
    let (_, rest) = left.split_at(skipped);
    let Some((_, behind)) = rest.split_first() else {
        return None;
    };
    let count = 1 + count_before_record(behind);
    let (these, _) = rest.split_at(count);
    Some((these, from + skipped + count))
}

/// How many items stand before the first one that begins a record.
fn count_before_record(items: &[Entry]) -> usize
    ensures count { result ≡ length (take_while (λ item. not (is_record item)) items.now) }
    ensures within { result ≤ length items.now }
{
    items.iter().take_while(|item| item.rank() != 1).count()
}
