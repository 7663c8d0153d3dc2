//! The storage with which a unit begins.
ghost use Rattle.std.specs.Prelude.{◌≡◌, Some, IfOk, IfSome, option_map};
ghost use Rattle.cob_meaning.specs.Meaning.{with_names};
ghost use Rattle.cob_run.specs.Within.{IsInitialIn, sizes};

use crate::area::Area;
use com_cd::NAMES_LENGTH;
use com_text::Rows;
use std::alloc::{AllocError, Global};

/// Makes the areas of these characters.
pub(crate) fn areas_of(alloc: Global, opening: Rows<Rows<u8>>) -> Result<Vec<Area>, AllocError>
    ensures { IfOk result (λ areas. areas.items ≡ opening) }
{
    let mut areas = Vec::new(alloc);
    'opening: for characters in opening.into_vec() {
        areas.push(Area::of_vec(characters.into_vec()))?;
    }
    Ok(areas)
}

/// Writes the names of START into an area.
fn put_names_in(areas: &mut [Area], area: u32, names: &[u8; NAMES_LENGTH])
    requires { IsInitialIn (sizes areas.old) area }
    ensures put { areas.new ≡ with_names (Some area) (Some names.now) areas.old }
    ensures sizes { sizes areas.new ≡ sizes areas.old }
{
    let area = &mut areas[area as usize];
    area.write(0, names);
}

/// Writes the names of START into the area of INITIAL, if both are there.
pub(crate) fn put_names(
    areas: &mut [Area],
    initial: Option<u32>,
    names: Option<&[u8; NAMES_LENGTH]>,
)
    requires { IfSome initial (IsInitialIn (sizes areas.old)) }
    ensures put { areas.new ≡ with_names initial (option_map (λ x. x.now) names.entry) areas.old }
    ensures sizes { sizes areas.new ≡ sizes areas.old }
{
    let Some(area) = initial else {
        return;
    };
    let Some(names) = names else {
        return;
    };
    put_names_in(areas, area, names);
}
