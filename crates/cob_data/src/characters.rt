//! How many characters the items of a program have together.
ghost use Rattle.std.specs.Prelude.{◌≡◌, false, filter};
ghost use Rattle.cob_forms.specs.Faults.{first};
ghost use Rattle.cob_data.specs.Entries.{all_but_last, first_token, is_item};
ghost use Rattle.cob_data.specs.Faults.{characters_past, limits, unless, whole_entries};

use crate::entries::is_item;
use crate::entry::Entry;
use cob_forms::fault_at;
use cob_lex::{SourceFault, SourceKind};

/// How many characters the items of a program may have together.
pub const MAX_CHARACTERS: u32 = 65_536;

/// All entries but the last one.
fn all_but_last<'b, 'a>(entries: &'b [Entry<'a>]) -> &'b [Entry<'a>]
    ensures { result.now ≡ all_but_last entries.now }
{
    let (whole, _) = entries.split_at(entries.len().saturating_sub(1));
    whole
}

/// The entries behind which a further token stands.
fn whole_entries<'b, 'a>(is_followed: bool, entries: &'b [Entry<'a>]) -> &'b [Entry<'a>]
    ensures { result.now ≡ whole_entries is_followed entries.now }
{
    if is_followed {
        return entries;
    }
    all_but_last(entries)
}

/// The item with which the items have too many characters, of the entries behind which a further
/// token stands.
pub(crate) fn first_character_past(is_followed: bool, entries: &[Entry]) -> Option<SourceFault>
    ensures { result ≡ first (characters_past limits.characters 0 (filter is_item (whole_entries is_followed entries.now))) }
{
    first_past(whole_entries(is_followed, entries))
}

/// The item with which the items have too many characters.
fn first_past(entries: &[Entry]) -> Option<SourceFault>
    ensures { result ≡ first (characters_past MAX_CHARACTERS 0 (filter is_item entries.now)) }
{
    let mut total = 0;
    'entries: for entry in entries {
        if !is_item(entry.tokens()) {
            continue;
        }
        total += entry.size();
        if total > MAX_CHARACTERS {
            return too_many(entry);
        }
    }
    None
}

/// The fault of the item with which there are too many characters.
fn too_many(item: &Entry) -> Option<SourceFault>
    ensures { result ≡ first (unless false SourceKind.OverLimit (first_token item.now)) }
{
    let token = item.tokens().first()?;
    Some(fault_at(token, SourceKind::OverLimit))
}
