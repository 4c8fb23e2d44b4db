//! The bodies of functions that the linker makes.
//!
//! Each `encode_..` call gives one body, whose operators a definition lists by their names in the
//! text format; each number is written in its shortest form. What the bodies do is stated on a
//! machine that runs any body by its operators, and proved by the laws of this crate.
#![tactic(auto)]

mod builder;
mod calls;
mod error;
mod laws;
mod memory;
mod operator;
mod parts;
mod spelling;
mod thread_local;

pub use calls::{
    EMPTY_FUNCTION_BODY, UNREACHABLE_FUNCTION_BODY, encode_call_sequence_body,
    encode_command_export_wrapper_body,
};
pub use error::SynthError;
pub use laws::{
    body_or_fault, call_sequence_makes_its_calls, machine_runs_other_bodies,
    machine_runs_planned_bodies, runs_have_one_outcome, segments_are_laid_once, short_bodies_run,
    thread_block_is_made, wrapper_makes_two_calls,
};
pub use memory::encode_init_memory_body;
pub use parts::{PassiveSegmentCopy, TlsGotFixup, TlsPointerFixup};
pub use thread_local::encode_init_tls_body;
