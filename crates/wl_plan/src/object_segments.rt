//! The segments of the output in one row, each with the number of its object.

ghost use Rattle.std.specs.Prelude.{◌≡◌, ◌++◌, map, IfOk, OnOk};
ghost use Rattle.wl_plan.specs.ObjectSegments.{of_object, segments_of_objects};

use std::alloc::{AllocError, Global};
use std::marker::Model;
use wl_data::{SegmentLayouts, WasmDataSegmentLayout};

/// A segment of the output, of the object of that number.
#[derive(Drop)]
pub struct ObjectSegment<'l, 'a> {
    /// The number of its object.
    pub object: usize,
    /// What the output makes of it.
    pub layout: &'l WasmDataSegmentLayout<'a>,
}

impl<'l, 'a> Model for ObjectSegment<'l, 'a> {
    ghost use Rattle.wl_plan.specs.ObjectSegments.{ObjectSegment as Row};

    ghost Value = { Row };

    ghost view = { λ s. record { object = s.object; layout = s.layout.now } };
}

/// Adds the segments of an object.
fn push_object_segments<'l, 'a>(
    segments: &mut Vec<ObjectSegment<'l, 'a>>,
    object: usize,
    layouts: &'l [WasmDataSegmentLayout<'a>],
) -> Result<(), AllocError>
    ensures { OnOk result
        (segments.new.items ≡ segments.old.items ++ map (of_object object) layouts.now) }
{
    for layout in layouts {
        segments.push(ObjectSegment { object, layout })?;
    }
    Ok(())
}

/// How many segments the output has: so much room is taken for them.
pub(crate) fn segment_count(objects: &[SegmentLayouts<'_>]) -> usize {
    let mut count: usize = 0;
    for layouts in objects {
        count = count.saturating_add(layouts.as_slice().len());
    }
    count
}

/// The segments of all objects in a row.
///
/// # Errors
/// `AllocError` where memory runs out.
pub fn output_segments<'l, 'a>(
    alloc: Global,
    objects: &'l [SegmentLayouts<'a>],
) -> Result<Vec<ObjectSegment<'l, 'a>>, AllocError>
    ensures { IfOk result (λ segments. segments.items ≡ segments_of_objects 0 objects.now) }
{
    let mut segments = Vec::with_capacity(alloc, segment_count(objects))?;
    for (object, layouts) in objects.iter().enumerate() {
        push_object_segments(&mut segments, object, layouts.as_slice())?;
    }
    Ok(segments)
}
