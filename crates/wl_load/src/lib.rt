//! A machine that runs the functions of a linked module.
//!
//! An [`Image`] is made of [`ImageParts`], the parts of a module as they stand after linking, and
//! [`Image::run`] runs one of its functions. What a run does says one definition, step by step,
//! over calls with blocks that have operands of their own; the code keeps all operands in one list.
#![tactic(auto)]

// Images, what they are made of, and how runs end.
mod error;
mod image;
mod parts;
mod results;
mod run_end;

// Fields of bodies and segments, which take numbers.
mod fields;

// How an image is made: functions, and the operators of each as they are run.
mod block_type;
mod blocks;
mod code;
mod functions;
mod immediates;
mod instruction;
mod labels;
mod locals;
mod operation;
mod resolving;
mod table;

// What a run looks up, and what it changes.
mod cells;
mod memory;
mod program;
mod store;
mod types;
mod values;

// The steps of a run, and what operators do.
mod calling;
mod computing;
mod control;
mod running;
mod stack;
mod stepping;
mod stop;
mod threads;

// What runs of the functions do that the linker makes.
mod agreement;

pub use agreement::{
    bodies_with_calls_agree, bodies_without_calls_agree, calls_are_runs,
    init_functions_run_in_turn, loaded_functions_can_be_run, results_have_their_types,
    runs_end_with_more_fuel, shared_memory_is_laid_once, thread_blocks_are_made,
    wrappers_run_two_functions,
};
pub use error::LoadError;
pub use fields::{fields_are_read, lay_bytes, put_field};
pub use image::Image;
pub use memory::MAX_IMAGE_PAGES;
pub use parts::{ImageFunction, ImageParts};
pub use results::Results;
pub use run_end::RunEnd;
pub use wl_numeric::{TrapKind, Value};
