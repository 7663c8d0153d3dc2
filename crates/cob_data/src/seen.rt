//! Texts that stood before.
ghost use Rattle.std.specs.Prelude.{◌≡◌, ◌∷◌, IfOk, List, OnOk, bytes_eq, map, not, ℕ};
ghost use Rattle.std.specs.List.{list_any};

use indexmap::IndexSet;
use std::alloc::AllocError;

/// Adds a text to those before, and says whether it is new.
pub(crate) fn add_text<'a>(
    text: &'a [u8],
    texts: &mut IndexSet<&'a [u8]>,
) -> Result<bool, AllocError>
    ensures is_new { IfOk result
        (λ is_new. is_new ≡ not (list_any (bytes_eq text.now) (map (λ k. k.now) texts.old.keys))) }
    ensures texts { OnOk result ((other : List ℕ)
        → list_any (bytes_eq other) (map (λ k. k.now) texts.new.keys)
        ≡ list_any (bytes_eq other) (text.now ∷ map (λ k. k.now) texts.old.keys)) }
{
    Ok(texts.insert(text)?)
}
