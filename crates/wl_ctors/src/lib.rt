//! The functions that run at the start (object file linking, version 2, "Linking Metadata
//! Section"): [`init_calls`] says what `__wasm_call_ctors` calls, in which order.
#![tactic(auto)]

mod calls;
mod laws;

pub use calls::{InitCall, init_calls};
pub use laws::init_calls_are_one;
