//! What an image of a plan is made of, and how the end of its run is reported.
//!
//! Fields of bodies and segments take their numbers, segments stand in memory, globals and the
//! table have their first values. A run of a function comes after that of the function at the
//! start, and one line says how it ended.
#![tactic(auto)]

// Parts of an image.
mod data;
mod filling;
mod sites;
mod tables;
mod types;
mod values;

// Runs, and their ends.
mod lines;
mod turns;

pub use data::{FirstData, first_data};
pub use filling::FixupList;
pub use lines::{end_line, load_line};
pub use sites::Site;
pub use tables::first_table;
pub use turns::{FUEL, run_in_turn};
pub use types::copy_types;
pub use values::{I32_CONST, I64_CONST, first_value};
