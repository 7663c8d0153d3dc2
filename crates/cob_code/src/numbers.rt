//! Names with the numbers of their first places in a list.
ghost use Rattle.std.specs.Prelude.{◌≡◌, ◌∷◌, ◌++◌, IfOk, List, OnOk, [], length, map, ℕ};
ghost use Rattle.cob_code.specs.inner.Numbers.{AreNumbered, number_in};

use indexmap::IndexMap;
use std::alloc::{AllocError, Global};

/// Gives a name a number, unless it has one.

fn add_number<'a>(
    name: &'a [u8],
    number: usize,
    numbers: &mut IndexMap<&'a [u8], usize>,
) -> Result<(), AllocError>
    ensures { OnOk result ((names : List (List ℕ)) → length names ≡ number → AreNumbered numbers.old names → AreNumbered numbers.new (names ++ name.now ∷ [])) }
{
    match numbers.get(&name) {
        Some(_) => Ok(()),
        None => {
            numbers.insert(name, number)?;
            Ok(())
        }
    }
}

/// The numbers of names. Of names that are equal the first counts.
pub(crate) fn numbers_of<'a>(
    alloc: Global,
    names: &[&'a [u8]],
) -> Result<IndexMap<&'a [u8], usize>, AllocError>
    ensures { IfOk result (λ numbers. AreNumbered numbers (map (λ name. name.now) names.now)) }
{
    let mut numbers = IndexMap::new(alloc);
    let mut at = 0;
    'names: while at < names.len() {
        let name = names[at];
        add_number(name, at, &mut numbers)?;
        at += 1;
    }
    Ok(numbers)
}

/// The number of a name.
pub(crate) fn number_in(name: &[u8], numbers: &IndexMap<&[u8], usize>) -> Option<usize>
    ensures { (names : List (List ℕ)) → AreNumbered numbers.now names → result ≡ number_in names name.now }
{
    match numbers.get(&name) {
        Some(number) => Some(*number),
        None => None,
    }
}
