//! Objects for trials of a linker: a chain of functions over as many objects as are asked for.
//!
//! Each object defines two functions. The first one calls that of the next object, by a relocation;
//! nothing names the second one. The objects are relocatable objects of the tool conventions, with
//! the sections of the core specification 1.0.
#![tactic(auto)]

mod object;
mod sections;

pub use object::{LONGEST_OBJECT, generated_object};
