//! What a relocatable object holds: the sections of the core format, and those by which objects
//! are linked (object file linking, version 2).
//!
//! [`parse_wasm_module`] reads an object, and its [`File`] says what it holds. [`LinkError`] says
//! why objects can't be linked.
#![tactic(auto)]

// The steps.
mod object;

// Sections.
mod kinds;
mod section;

// What all sections hold, put together.
mod parts;
mod plain;

// What joins sections.
mod sites;
mod slots;
mod spaces;

// An object as crates above see it.
mod contents;
mod file;
mod file_list;
mod lists;

// Refusals.
mod error;
mod raw_name;

// What is known of objects beside what their reader says.
mod laws;

pub use error::{LinkError, MemoryBound, Quantity, SharedMemoryNeed, UndefinedSymbol};
pub use file::File;
pub use file_list::FileList;
pub use kinds::{LINKING_SECTION_NAME, RELOC_SECTION_PREFIX, TARGET_FEATURES_SECTION_NAME};
pub use laws::{
    addends_are_words, init_functions_have_symbols, memories_are_small, segments_keep_bounds,
    types_are_short,
};
pub use object::{
    names_stand, object_lists_are_few, object_or_fault, parse_wasm_module, parts_of_objects_stand,
    whole_objects,
};
pub use raw_name::{RawSymbolName, wasm_symbol_name_str};
pub use sites::Site;
pub use wl_custom::{
    DebugSectionInput, FieldForm, RelocationList, RelocationType, SymbolFlags,
    TARGET_FEATURE_PREFIX_DISALLOWED, TARGET_FEATURE_PREFIX_USED, WasmInitFunc, WasmRelocSection,
    WasmRelocation, WasmSegmentInfo, WasmSymbol, WasmSymbolKind, WasmTargetFeature,
    features_or_fault, parse_target_features_payload, relocation_type_to_string,
};
pub use wl_lists::{ItemList, Text};
