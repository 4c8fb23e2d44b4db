//! Files that are read and streams that are written, as a program sees them whose contract says
//! what comes of them.
//!
//! [`Files`] and [`Sink`] say what calls on them mean. [`MemFiles`] and [`MemSink`] hold bytes in
//! memory and fail where they are asked to; [`StdFiles`] and [`StdSink`] are the files and streams
//! of the system. [`read_object`] reads a whole file, and [`write_all`] writes all of some bytes.
#![tactic(auto)]

// What calls mean.
mod files;
mod sink;

// A whole file, and all of some bytes.
mod read;
mod write;

// In memory.
mod mem_files;

// Of the system.
mod std_files;

pub use files::{Failed, Files};
pub use mem_files::MemFiles;
pub use read::{ReadObject, new_piece, read_object, read_with};
pub use sink::{MemSink, Sink};
pub use std_files::{StdFiles, StdSink};
pub use write::{WriteFault, write_all};
