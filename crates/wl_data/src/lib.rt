//! Where the output's data lies: the places of segments, the stack, the heap and the size of the
//! memory, and how many bytes data and code take in the output.
//!
//! [`layout_object_data`] places the segments of an object, one after the other, from where the
//! one before it left off; [`place_all`] does so for all objects, and adds the word that says
//! whether shared segments were copied. [`stack_pointer_init`] and its like say where the stack and
//! the heap lie after the data, and [`ensure_memory_covers`] makes the memory large enough for all
//! of it. [`places_stand_apart`] says that no two things share a byte.
#![tactic(auto)]

mod align;
mod laws;
mod layout;
mod memory;
mod options;
mod pass;
mod placeable;
mod places;
mod placing;
mod segments;
mod sizes;
mod stack;

pub use align::{align_up, least_multiple_is_one, past_last_address};
pub use laws::{
    copied_segments_are_passive, layout_is_one, objects_are_laid_as_one, places_are_one,
    places_end_in_time, places_stand_apart, segments_are_apart, segments_have_layouts,
    spans_are_apart,
};
pub use layout::layout_object_data;
pub use memory::ensure_memory_covers;
pub use options::DataOptions;
pub use placeable::{all_can_be_placed, objects_can_be_placed};
pub use places::DataPlaces;
pub use placing::place_all;
pub use segments::{KeptSegment, SegmentLayouts, WasmDataSegmentLayout};
pub use sizes::{
    code_can_be_measured, compute_code_section_size, compute_data_section_size,
    data_can_be_measured, output_data_has_passive, output_data_segment_count,
    output_data_segment_encoded_size, segments_can_be_numbered,
};
pub use stack::{
    ensure_stack_size_aligned, heap_base_address, heap_base_after_data,
    heap_end_from_initial_pages, stack_high_after_data, stack_pointer_init,
};
pub use wl_index::WasmDataAddress;
