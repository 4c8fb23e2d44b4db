//! Where the fields of fixups lie, and in which order fixups stand.

ghost use Rattle.std.specs.Prelude.{◌≡◌, ◌<◌, ◌^◌};
ghost use Rattle.wl_run.specs.Sites.{place_number, is_at, rank, site_rank, fixup_rank};

use wl_output::Fixup;
use wl_symbols::FixupPlace;

/// A function or a segment of an object.
#[derive(Clone, Copy)]
pub struct Site {
    /// The number of the object.
    pub object: usize,
    /// Whether it is a function or a segment.
    pub place: FixupPlace,
    /// Its number in the object.
    pub unit: u32,
}

/// Functions come before segments.
fn place_number(place: FixupPlace) -> u8
    ensures { result ≡ place_number place }
{
    match place {
        FixupPlace::Code => 0,
        FixupPlace::Segment => 1,
    }
}

/// Whether the field of the fixup lies there.
pub(crate) fn is_at(site: Site, fixup: &Fixup) -> bool
    ensures { result ≡ is_at site fixup.now }
{
    fixup.object == site.object
        && place_number(fixup.place) == place_number(site.place)
        && fixup.unit == site.unit
}

/// A number by which these stand in order.
fn rank(object: usize, place: FixupPlace, unit: u32) -> u128
    ensures { result ≡ rank object place unit }
{
    let units = 1 << 32;
    (2 * object as u128 + u128::from(place_number(place))) * units + u128::from(unit)
}

/// That of a function or a segment.
pub(crate) fn site_rank(site: Site) -> u128
    ensures { result ≡ site_rank site }
{
    rank(site.object, site.place, site.unit)
}

/// That of the function or the segment in which the field of a fixup lies.
pub(crate) fn fixup_rank(fixup: &Fixup) -> u128
    ensures { result ≡ fixup_rank fixup.now }
{
    rank(fixup.object, fixup.place, fixup.unit)
}
