//! Parts of an area.
ghost use Rattle.std.specs.Prelude.{◌≡◌, ◌+◌, ◌≤◌, length};
ghost use Rattle.com_cd.specs.Parts.{with_part};

/// Writes characters over as many from a place on, and leaves all others as they were.
pub(crate) fn write_part(area: &mut [u8], start: usize, value: &[u8])
    requires { start + length value.now ≤ length area.old }
    ensures { area.new ≡ with_part start (length value.now) area.old value.now }
{
    area[start..start + value.len()].copy_from_slice(value);
}
