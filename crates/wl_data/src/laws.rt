//! What callers may count on: functions with an empty body, each of which states a law of places.

ghost use Rattle.std.specs.Prelude.{◌≡◌, ◌++◌, ℕ, List, Some, true, slice_get};
ghost use Rattle.std.specs.List.{AllZip};
ghost use Rattle.wl_data.specs.Segments.{KeptData, SegmentLayout};
ghost use Rattle.wl_data.specs.Spans.{Span, AreInRow, IsApart};
ghost use Rattle.wl_data.specs.Layouts.{PlacedData, ArePlaced, AreLaidOut, memory_spans, block_spans};
ghost use Rattle.wl_data.specs.DataPlaces.{AreObjectsLaid, in_one_row, DataInput, ArePlaces, IsDataPlaces, HaveLayouts, memory_ranges, block_ranges, flag_of, data_end, ComeInOrder, StandApart, ShareNothing, AddressRange, lies_in_memory, is_template, AreSeparate, EndBy, IsLastWord};
ghost use Rattle.wl_data.specs.declared.pass.Frontier.{Frontier as SpecFrontier};
ghost use Rattle.wl_data.specs.declared.pass.Pass.{Pass as SpecPass};
ghost use Rattle.wl_data.specs.declared.places.DataPlaces.{DataPlaces as SpecPlaces};

use wl_bytes::shortest_form_is_one;

/// Stretches in a row stand at multiples of their alignments, between start and end, and no two
/// share a byte.
pub fn spans_are_apart()
    ensures { (start end : ℕ) (row : List Span) → AreInRow start row end → IsApart start row end }
{}

/// So do the segments that a pass places in the memory, and those that it places in the block.
pub fn segments_are_apart()
    ensures memory { (pass : SpecPass) (segments : List KeptData) (start end : SpecFrontier)
        (placed : List PlacedData) → ArePlaced pass segments start end placed
        → IsApart start.memory (memory_spans pass placed) end.memory }
    ensures block { (pass : SpecPass) (segments : List KeptData) (start end : SpecFrontier)
        (placed : List PlacedData) → ArePlaced pass segments start end placed
        → IsApart start.block (block_spans pass placed) end.block }
{}

/// A pass lays segments out in one way, and comes to one end.
pub fn layout_is_one()
    ensures layouts { (pass : SpecPass) (segments : List KeptData) (start end other : SpecFrontier)
        (layouts more : List SegmentLayout) → AreLaidOut pass segments start end layouts
        → AreLaidOut pass segments start other more → layouts ≡ more }
    ensures end { (pass : SpecPass) (segments : List KeptData) (start end other : SpecFrontier)
        (layouts more : List SegmentLayout) → AreLaidOut pass segments start end layouts
        → AreLaidOut pass segments start other more → end ≡ other }
{
    shortest_form_is_one();
}

/// The layouts of objects, each from the frontier that the one before left, are the layout of all
/// their segments as one list; and the layout of that list is made of layouts of the objects.
pub fn objects_are_laid_as_one()
    ensures joins { (pass : SpecPass) (objects : List (List KeptData)) (start end : SpecFrontier)
        (layouts : List (List SegmentLayout)) → AreObjectsLaid pass objects start end layouts
        → AreLaidOut pass (in_one_row objects) start end (in_one_row layouts) }
    ensures splits { (pass : SpecPass) (objects : List (List KeptData)) (start end : SpecFrontier)
        (row : List SegmentLayout) → AreLaidOut pass (in_one_row objects) start end row
        → (layouts : List (List SegmentLayout)) × (in_one_row layouts ≡ row)
        × AreObjectsLaid pass objects start end layouts }
{}

/// The data of all objects lies in one way.
pub fn places_are_one()
    ensures { (d : DataInput) (places other : SpecPlaces) → IsDataPlaces d places
        → IsDataPlaces d other → places ≡ other }
{
    shortest_form_is_one();
}

/// Each segment of each object has its layout: those that all threads have in common come first,
/// and each stands at a multiple of its alignment, but an empty one of a block.
pub fn segments_have_layouts()
    ensures { (d : DataInput) (places : SpecPlaces) → IsDataPlaces d places
        → AllZip (HaveLayouts d.options) d.objects places.layouts }
{}

/// The stack that stands first, the data that threads have in common, that of one thread, the flag
/// and the stack after the data stand one after the other in the memory, and the segments of a
/// block do there. What stands so shares no byte.
pub fn places_stand_apart()
    ensures order { (d : DataInput) (common own : List (List SegmentLayout))
        (middle end : SpecFrontier) → ArePlaces d common own middle end
        → (top : ℕ) × ComeInOrder 0 (memory_ranges d.options
        (in_one_row common ++ in_one_row own) (flag_of d end.memory)
        (data_end d end.memory)) top }
    ensures memory { (d : DataInput) (places : SpecPlaces) → IsDataPlaces d places
        → StandApart (memory_ranges d.options (in_one_row places.layouts) places.flag
        places.data_end) }
    ensures block { (d : DataInput) (places : SpecPlaces) → IsDataPlaces d places
        → StandApart (block_ranges (in_one_row places.layouts)) }
    ensures nothing { (start end : ℕ) (ranges : List AddressRange)
        → ComeInOrder start ranges end → ShareNothing ranges }
{}

/// The segments in the memory end before the flag, or where the data ends, and those of a block
/// where the block does; the flag is the last word of the data. Whichever two segments there are,
/// they lie apart.
pub fn places_end_in_time()
    ensures memory { (d : DataInput) (places : SpecPlaces) → IsDataPlaces d places
        → EndBy lies_in_memory places.data_end (in_one_row places.layouts) }
    ensures before_flag { (d : DataInput) (places : SpecPlaces) (flag : ℕ) → IsDataPlaces d places
        → places.flag ≡ Some flag → EndBy lies_in_memory flag (in_one_row places.layouts) }
    ensures flag { (d : DataInput) (places : SpecPlaces) (flag : ℕ) → IsDataPlaces d places
        → places.flag ≡ Some flag → IsLastWord flag places.data_end }
    ensures block { (d : DataInput) (places : SpecPlaces) → IsDataPlaces d places
        → EndBy is_template places.tls_size (in_one_row places.layouts) }
    ensures apart { (d : DataInput) (places : SpecPlaces) → IsDataPlaces d places
        → AreSeparate lies_in_memory (in_one_row places.layouts) }
    ensures block_apart { (d : DataInput) (places : SpecPlaces) → IsDataPlaces d places
        → AreSeparate is_template (in_one_row places.layouts) }
{}

/// What someone copies is passive: what the first thread copies has bytes and lies in the memory,
/// and what each thread copies lies in its block, which there is.
pub fn copied_segments_are_passive()
    ensures shared { (d : DataInput) (places : SpecPlaces) (i : ℕ) (l : SegmentLayout)
        → IsDataPlaces d places → slice_get (in_one_row places.layouts) i ≡ Some l
        → l.shared_init ≡ true → (l.passive ≡ true) × (lies_in_memory l ≡ true) }
    ensures own { (d : DataInput) (places : SpecPlaces) (i : ℕ) (l : SegmentLayout)
        → IsDataPlaces d places → slice_get (in_one_row places.layouts) i ≡ Some l
        → l.tls_template ≡ true → (l.passive ≡ true) × (d.options.shared_tls ≡ true) }
{}
