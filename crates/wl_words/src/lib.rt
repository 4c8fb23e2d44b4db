//! The words of the command line.
//!
//! [`WasmArgs::parse`] reads the words; [`args_or_fault`] says that words are options and names of
//! objects, or have a first fault.
#![tactic(auto)]

mod args;
mod error;
mod modes;
mod options;
mod replacing;
mod texts;
mod values;

pub use args::{DEFAULT_STACK_SIZE, WasmArgs, args_or_fault};
pub use error::ArgError;
pub use modes::{Mode, ModeName, ValuePlace};
pub use options::{Flag, MemoryOption, OptionKind, Setting};
pub use replacing::ObjectReplacement;
pub use texts::Texts;
pub use values::{MAX_GENERATED, MemoryName};
