//! The pass ranges.
ghost use Rattle.std.specs.Prelude.{◌≡◌, flat_map};
ghost use Rattle.cob_forms.specs.Faults.{first};
ghost use Rattle.cob_code.specs.inner.Bounds.{keeps};
ghost use Rattle.cob_code.specs.inner.RangeFaults.{backward, circling, leaving_by};
ghost use Rattle.cob_code.specs.inner.Sets.{any_between, set_at};

use crate::bounds::Bounds;
use crate::kinds::fault_unless;
use crate::ranges::{Jump, Range};
use crate::sets::Set;
use cob_forms::first_of;
use cob_lex::{SourceFault, SourceKind};

/// The fault of a THRU that ends before it begins.
fn backward_fault(range: Range) -> Option<SourceFault>
    ensures { result ≡ first (backward range) }
{
    fault_unless(
        range.first <= range.last,
        range.end,
        SourceKind::LeavesRange,
    )
}

/// The first THRU that ends before it begins.
pub(crate) fn first_backward(ranges: &[Range]) -> Option<SourceFault>
    ensures { result ≡ first (flat_map backward ranges.now) }
{
    let mut found = None;
    'performs: for range in ranges {
        found = first_of(found, backward_fault(*range));
    }
    found
}

/// Whether a GO stays within the bounds of its paragraph.
fn stays(bounds: &[Bounds], jump: Jump) -> bool
    ensures { result ≡ keeps bounds.now jump.from jump.to }
{
    match bounds.get(jump.from) {
        Some(bound) => bound.first <= jump.to && jump.to <= bound.last,
        None => jump.to == 0,
    }
}

/// The fault of a GO out of a range that its paragraph is in.
fn leaving_fault(bounds: &[Bounds], jump: Jump) -> Option<SourceFault>
    ensures { result ≡ first (leaving_by bounds.now jump) }
{
    fault_unless(stays(bounds, jump), jump.place, SourceKind::LeavesRange)
}

/// The first GO out of a range that its paragraph is in.
pub(crate) fn first_leaving(bounds: &[Bounds], jumps: &[Jump]) -> Option<SourceFault>
    ensures { result ≡ first (flat_map (leaving_by bounds.now) jumps.now) }
{
    let mut found = None;
    'jumps: for jump in jumps {
        found = first_of(found, leaving_fault(bounds, *jump));
    }
    found
}

/// Whether a paragraph of a range leads to the paragraph of its PERFORM.
fn circles(table: &[Set], range: Range) -> bool
    ensures { result ≡ any_between (set_at table.now range.from) range.first range.last }
{
    match table.get(range.from) {
        Some(set) => set.has_any(range.first, range.last),
        None => false,
    }
}

/// The fault of a PERFORM of a range that leads to its own paragraph.
fn circle_fault(table: &[Set], range: Range) -> Option<SourceFault>
    ensures { result ≡ first (circling table.now range) }
{
    let clear = !circles(table, range);
    fault_unless(clear, range.begin, SourceKind::PerformsItself)
}

/// The first PERFORM of a range that leads to its own paragraph.
pub(crate) fn first_circle(table: &[Set], ranges: &[Range]) -> Option<SourceFault>
    ensures { result ≡ first (flat_map (circling table.now) ranges.now) }
{
    let mut found = None;
    'performs: for range in ranges {
        found = first_of(found, circle_fault(table, *range));
    }
    found
}
