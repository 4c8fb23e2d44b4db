//! Where the data of a link lies, the stack and the heap, where it is known what is kept and what
//! references are bound to: the segments of the output with their addresses and numbers, the size of
//! the memory, the address of each symbol of data, and the maps of objects with these.
#![tactic(auto)]

mod addresses;
mod copies;
mod index_maps;
mod kept_data;
mod laws;
mod placing;
mod segment_numbers;

pub use addresses::{AddressBook, all_starts, check_exported, linker_address};
pub use copies::{Copied, all_copies};
pub use index_maps::whole_maps;
pub use laws::{
    flag_is_where_memory_is_filled, kept_thread_data_is_laid, placings_are_one, segments_are_small,
};
pub use placing::{Placing, place_data};
pub use segment_numbers::all_segment_numbers;
