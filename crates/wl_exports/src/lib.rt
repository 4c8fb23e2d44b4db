//! What the output exports, and by which indices; and which exports are wrapped, so that the
//! constructors run before each call.
//!
//! [`output_interface`] lists the exports, and the wrappers that some of them lead to;
//! [`check_exports`] says why there can't be these exports.
#![tactic(auto)]

mod adding;
mod checking;
mod data_places;
mod dynamic;
mod entries;
mod indexed;
mod inherited;
mod interface;
mod laws;
mod made;
mod named;
mod names;
mod sources;
mod wrappers;

pub use checking::check_exports;
pub use interface::{OutputInterface, output_interface};
pub use laws::{exports_are_one, wrappers_call_functions};
pub use sources::ExportSources;
pub use wrappers::Wrapper;
