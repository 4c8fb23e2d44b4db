//! What callers may count on: functions with an empty body, each of which states a law of where
//! things lie.

ghost use Rattle.std.specs.Prelude.{◌≡◌, ◌≤◌, ℕ, length, Contains};
ghost use Rattle.std.specs.List.{AllByRecursion};
ghost use Rattle.wl_linking.specs.Fitting.{IsWhole};
ghost use Rattle.wl_linking.specs.Steps.{Clear};
ghost use Rattle.wl_index.specs.declared.index.TheConstants.{MAX_ENTRIES};
ghost use Rattle.wl_linking.specs.Object.{Object as SpecObject};
ghost use Rattle.wl_symbols.specs.Input.{Input};
ghost use Rattle.wl_data.specs.Segments.{KeptData};
ghost use Rattle.wl_data.specs.DataPlaces.{AllCanBePlaced, has_init, has_tls, is_thread_local};
ghost use Rattle.wl_bind.specs.Made.{has_init_memory, is_kept_thread_data, keeps_thread_data};
ghost use Rattle.wl_bind.specs.Parts.{any_object};
ghost use Rattle.wl_places.specs.Addresses.{segment_space};
ghost use Rattle.wl_places.specs.Copies.{AreSmallLayouts};
ghost use Rattle.wl_places.specs.KeptData.{all_segments, kept_segments};
ghost use Rattle.wl_places.specs.Placing.{data_input, AreTooManySegments, IsPlacing};
ghost use Rattle.wl_places.specs.declared.placing.Placing.{Placing as SpecPlacing};

use wl_data::{places_are_one, segments_have_layouts};
use wl_linking::segments_keep_bounds;

/// Things lie in one way.
pub fn placings_are_one()
    ensures { (input : Input) (a b : SpecPlacing) → IsPlacing input a → IsPlacing input b → a ≡ b }
{
    places_are_one();
}

/// Each kept segment of whole objects can be placed, and as it is laid out its bytes have a number
/// of 32 bits. The output has no more segments than a space may have, where that isn't refused.
pub fn segments_are_small()
    ensures placed { (input : Input) → AllByRecursion IsWhole input.link.objects
        → AllByRecursion AllCanBePlaced (all_segments input) }
    ensures small { (input : Input) (g : SpecPlacing) → AllByRecursion IsWhole input.link.objects
        → IsPlacing input g → AllByRecursion AreSmallLayouts g.places.layouts }
    ensures few { (input : Input) (g : SpecPlacing) → Clear (AreTooManySegments input)
        → IsPlacing input g → length (segment_space g) ≤ MAX_ENTRIES }
{
    segments_keep_bounds();
    segments_have_layouts();
}

/// The memory has the word that says whether segments are copied exactly where the output has the
/// function that copies them.
pub fn flag_is_where_memory_is_filled()
    ensures { (input : Input) → has_init (data_input input) ≡ has_init_memory input }
{}

/// A segment that is laid out is a thread's exactly where it is kept and each thread has its own of
/// it, and there is one among all that are laid out exactly where some object keeps one.
pub fn kept_thread_data_is_laid()
    ensures some { (input : Input) → has_tls (data_input input)
        ≡ any_object (keeps_thread_data input) 0 input.link.objects }
    ensures each { (input : Input) (object : ℕ) (o : SpecObject) (s : KeptData)
        → Contains (kept_segments input object o) s
        → is_thread_local s ≡ is_kept_thread_data input object o s.original }
{}
