//! What both a plan and its listing speak of: what the output imports, where its globals are from,
//! and what a kept relocation becomes.
//!
//! `wl_plan` makes these values, and `wl_check` writes and reads them as text.
#![tactic(auto)]

mod entities;
mod fixups;

pub use entities::{GlobalOrigin, MadeGlobal, OutputImportEntity};
pub use fixups::{Fixup, FixupTo};
