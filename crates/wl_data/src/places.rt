//! Where the data of all objects lies.

use crate::segments::SegmentLayouts;
use wl_lists::ItemList;

/// Where the data of all objects lies.
#[derive(Drop)]
pub struct DataPlaces<'a> {
    /// The segments of each object as the output has them: first those that all threads have in
    /// common, then those of which each has its own.
    pub layouts: ItemList<SegmentLayouts<'a>>,
    /// The address at which all of it begins.
    pub data_start: u32,
    /// The address from which that of data counts of which each thread has its own.
    pub tls_base: u32,
    /// The bytes of the block that each thread has of its own; 0 where there is none.
    pub tls_size: u32,
    /// The alignment of that block in bytes; 0 where there is none.
    pub tls_align: u32,
    /// The address of the word that says whether segments were copied, where the first thread
    /// copies any.
    pub flag: Option<u32>,
    /// The address after all of it.
    pub data_end: u32,
}
