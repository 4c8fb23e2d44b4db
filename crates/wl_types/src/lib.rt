//! The types of the output.
//!
//! Objects have types of their own, many of them the same. A [`TypeMerger`] takes them one by one,
//! keeps each once, and returns the index that each has in the output.
#![tactic(auto)]

mod laws;
mod types;

pub use laws::{same_types_are_one, types_stand_once};
pub use types::{TypeMerger, copy_type};
