//! The listing of a plan as a list of lines: each line with its fields, how it is written, and how
//! a listing is read.
//!
//! A [`Line`] is written by [`push_line`], and [`read_listing`] reads a text of lines. What has the
//! things of a line writes it by a call for its kind, with no copy of them. The text of
//! a line is `line_text` of `specs/Texts`, a row for each kind of line, and `specs/Ranges` says
//! which numbers its fields may have. No line's text begins that of another, so that lists of
//! lines with the same text are one list ([`listings_differ`]).
#![tactic(auto)]

// Lines, and words that stand for one of a few things.
mod case;
mod line;

// A line as text, and back.
mod kinds;
mod pieces;
mod reading;
mod rows;
mod writing;

// Listings.
mod difference;
mod laws;
mod listing;

pub use difference::{Difference, differences_are_one, first_difference};
pub use laws::{
    listing_or_bad_line, listings_differ, names_are_bounded, spellings_are_apart,
    spellings_are_stretches,
};
pub use line::{FunctionSource, Line, MadeFunction, SegmentState};
pub use listing::{ListingError, check_lines, read_listing};
pub use rows::{
    push_body_line, push_debug_line, push_end_line, push_export_line, push_feature_line,
    push_fixup_line, push_global_line, push_import_line, push_made_function_line, push_memory_line,
    push_object_function_line, push_segment_line, push_slot_line, push_start_line, push_stub_line,
    push_table_line, push_type_line, push_version_line, push_wrapper_line,
};
pub use wl_output::{Fixup, FixupTo, GlobalOrigin, MadeGlobal, OutputImportEntity};
pub use wl_symbols::FixupPlace;
pub use writing::push_line;
