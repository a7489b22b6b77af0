//! The regions of the marks, as bits of one number.

ghost use Rattle.std.specs.Prelude.{◌≡◌, ◌<◌};
ghost use Rattle.ceiling_checked.specs.AtSite as said;

/// Whether the region of the mark with this index is among these.
pub fn is_in(regions: u64, index: usize) -> bool
    requires { index < 64 }
    ensures { result ≡ said.is_in regions index }
{
    (regions >> index) % 2 == 1
}
