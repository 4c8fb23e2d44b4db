//! Which units of the objects are kept: functions, globals, segments and imports, each kept or left
//! out by itself.
//!
//! [`collect_live`] keeps what a chain of references leads to from what is kept by itself, and the
//! [`LiveSet`] holds it. [`facts`] gathers what an object says of its units, whatever names stand
//! for; [`collect_live_from`] goes on from there. [`unit_graph`] hands out what the search goes by,
//! [`roots_of`] and [`references_of`] parts of it, for those that say why a unit is kept.
#![tactic(auto)]

mod collecting;
mod definitions;
mod entry;
mod faults;
mod graphing;
mod laws;
mod marking;
mod mentions;
mod numbering;
mod object_facts;
mod references;
mod refusals;
mod roots;
mod table;

pub use collecting::{collect_live, collect_live_counted, collect_live_from};
pub use entry::check_entry;
pub use graphing::{UnitGraph, references_of, roots_of, unit_graph};
pub use laws::{facts_exist, references_are_listed};
pub use object_facts::{ObjectFacts, all_facts, facts};
pub use wl_symbols::{
    LinkUnit, LiveSet, UnitNumbers, WasmGcUnit, sibling_of, unit_index, wasm_gc_unit_for_symbol,
};
