//! The levels of items.
ghost use Rattle.std.specs.Prelude.{◌≡◌, [], IfOk};
ghost use Rattle.cob_forms.specs.Faults.{first};
ghost use Rattle.cob_data.specs.Entries.{first_token};
ghost use Rattle.cob_data.specs.Faults.{level_faults, unless};
ghost use Rattle.cob_data.specs.OpenLevels.{is_level_under};

use crate::entry::{Entry, is_level};
use crate::open_levels::OpenLevels;
use crate::unless::unless;
use crate::wholes::{first_text, level_of};
use cob_forms::first_of;
use cob_lex::{SourceFault, SourceKind};
use std::alloc::{AllocError, Global};

/// Whether a level is right, by whether the item stands under a group whose first item has this
/// level.
fn is_level_under(over_cd: bool, under: bool, item: &Entry) -> bool
    ensures { result ≡ is_level_under over_cd under item.now }
{
    if !is_level(first_text(item.tokens())) {
        return false;
    }
    if over_cd && level_of(item.tokens()) == 77 {
        return false;
    }
    item.rank() == 1 || under
}

/// The fault of the level of an item, where it has one.
fn level_fault(over_cd: bool, under: bool, item: &Entry) -> Option<SourceFault>
    ensures { result ≡ first (unless (is_level_under over_cd under item.now) SourceKind.WrongKind (first_token item.now)) }
{
    let is_right = is_level_under(over_cd, under, item);
    unless(is_right, SourceKind::WrongKind, item.tokens().first())
}

/// The first fault of the levels of some items.
pub(crate) fn first_level_fault(
    alloc: Global,
    over_cd: bool,
    items: &[Entry],
) -> Result<Option<SourceFault>, AllocError>
    ensures { IfOk result (λ found. found ≡ first (level_faults over_cd [] items.now)) }
{
    let mut levels = OpenLevels::new(alloc);
    let mut found = None;
    'items: for item in items {
        let under = levels.pass(item)?;
        found = first_of(found, level_fault(over_cd, under, item));
    }
    Ok(found)
}
