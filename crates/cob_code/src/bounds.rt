//! Where the GOs of each paragraph may lead: into each range that the paragraph is in.
ghost use Rattle.std.specs.Prelude.{◌≡◌, ◌<◌, ◌≤◌, ◌&&◌, IfOk, length, nat_le, slice_index_or, ℕ};
ghost use Rattle.std.specs.List.{list_all};
ghost use Rattle.cob_code.specs.inner.Bounds.{holds, is_in, keeps, stays_in};

use crate::ranges::Range;
use std::alloc::{AllocError, Global};

/// The first and the last paragraph of some in a row.
#[derive(Clone, Copy)]
pub(crate) struct Bounds {
    pub(crate) first: usize,
    pub(crate) last: usize,
}

/// What is both within bounds and in a range.
fn narrowed(bounds: Bounds, range: Range) -> Bounds
    ensures { (to : ℕ) → holds result to ≡ (holds bounds to && is_in range to) }
{
    Bounds {
        first: bounds.first.max(range.first),
        last: bounds.last.min(range.last),
    }
}

/// Narrows the bounds of each paragraph in a range to the range.
fn narrow(bounds: &mut [Bounds], range: Range)
    ensures same { length bounds.new ≡ length bounds.old }
    ensures each { (from to : ℕ) → from < length bounds.old → keeps bounds.new from to ≡ (keeps bounds.old from to && stays_in from to range) }
{
    let past = range.last.saturating_add(1).min(bounds.len());
    'paragraphs: for from in range.first..past {
        bounds[from] = narrowed(bounds[from], range);
    }
}

/// The bounds of each paragraph, of so many.
pub(crate) fn bounds_of(
    alloc: Global,
    limit: usize,
    ranges: &[Range],
) -> Result<Vec<Bounds>, AllocError>
    ensures same { IfOk result (λ bounds. length bounds.items ≡ limit) }
    ensures each { IfOk result (λ bounds. (from to : ℕ) → from < limit → to ≤ limit → keeps bounds.items from to ≡ list_all (stays_in from to) ranges.now) }
{
    let whole = Bounds {
        first: 0,
        last: limit,
    };
    let mut bounds = vec![in alloc; whole; limit]?;
    'performs: for range in ranges {
        narrow(&mut bounds, *range);
    }
    Ok(bounds)
}
