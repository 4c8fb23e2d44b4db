//! The custom sections by which objects are linked (object file linking, version 2): symbols, what
//! is said of segments, init functions, relocations, target features and debug data.
//!
//! Each is read from the payload of its section alone. `wl_linking` puts them together, and hands
//! these names on.
#![tactic(auto)]

// What the linking section holds.
mod base;
mod flags;
mod infos;
mod linking;
mod symbols;

// Relocation sections.
mod relocation_type;
mod relocations;
mod takings;

// The other custom sections that are kept.
mod debug;
mod features;

pub use debug::DebugSectionInput;
pub use features::{
    TARGET_FEATURE_PREFIX_DISALLOWED, TARGET_FEATURE_PREFIX_USED, WasmTargetFeature,
    features_or_fault, parse_target_features_payload,
};
pub use flags::SymbolFlags;
pub use infos::{WasmInitFunc, WasmSegmentInfo};
pub use linking::{Linking, SeenSubsections, Subsection, SubsectionKind, read_linking};
pub use relocation_type::{FieldForm, RelocationType, relocation_type_to_string};
pub use relocations::{
    RelocHeld, RelocationList, Target, WasmRelocSection, WasmRelocation, read_held_entries,
};
pub use symbols::{WasmSymbol, WasmSymbolKind, range_of};
pub use takings::{AddressBase, Taking};
