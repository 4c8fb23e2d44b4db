//! Which segments can be placed.

ghost use Rattle.std.specs.Prelude.{IsTrue, ◌↔◌};
ghost use Rattle.std.specs.List.{AllByRecursion};
ghost use Rattle.wl_data.specs.Layouts.{CanBePlaced};
ghost use Rattle.wl_data.specs.DataPlaces.{AllCanBePlaced};

use crate::segments::KeptSegment;
use wl_lists::ItemList;

/// Whether all these segments can be placed.
pub fn all_can_be_placed(segments: &[KeptSegment<'_>]) -> bool
    ensures { IsTrue result ↔ AllByRecursion CanBePlaced segments.now }
{
    for segment in segments {
        if !segment.can_be_placed() {
            return false;
        }
    }
    true
}

/// Whether all segments of these objects can be placed.
pub fn objects_can_be_placed(objects: &[ItemList<KeptSegment<'_>>]) -> bool
    ensures { IsTrue result ↔ AllByRecursion AllCanBePlaced objects.now }
{
    for object in objects {
        if !all_can_be_placed(object.as_slice()) {
            return false;
        }
    }
    true
}
