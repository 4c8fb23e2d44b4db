//! The sections of a WebAssembly module, as the core specification's binary format has them.
//!
//! [`split_sections`] finds where each section stands. The other calls read the payload of one
//! section each: [`read_types`], [`read_imports`], [`read_functions`], [`read_memories`],
//! [`read_globals`], [`read_exports`], [`read_data_count`], [`read_bodies`] and [`read_segments`].
//! Names, bodies and payloads are slices of the module's bytes.
#![tactic(auto)]

mod code;
mod constants;
mod exports;
mod functions;
mod globals;
mod imports;
mod laws;
mod limits;
mod memories;
pub mod section_id;
mod section_kind;
mod sections;
mod segments;
mod slices;
mod types;

pub use code::{WasmFunctionBody, bodies_or_fault, read_bodies};
pub use constants::ConstOperator;
pub use exports::{OutputExport, exports_or_fault, read_exports};
pub use functions::{functions_or_fault, read_functions};
pub use globals::{GlobalType, OutputGlobal, globals_or_fault, read_globals};
pub use imports::{
    ExternalKind, Import, ImportEntity, PlacedImport, WasmFunctionImport, WasmGlobalImport,
    imports_or_fault, placed_imports_or_fault, read_imports, read_placed_imports,
};
pub use laws::{lists_are_few, parts_stand};
pub use limits::{Limits, MAX_PAGES, MemoryType, TableType, WASM_PAGE_SIZE};
pub use memories::{data_count_or_fault, memories_or_fault, read_data_count, read_memories};
pub use section_kind::SectionKind;
pub use sections::{
    FramedSection, STANDARD_SECTION_LOOKUP_LEN, SectionAttributes, SectionFlags, SectionHeader,
    SectionType, WASM_MAGIC, WASM_VERSION, ranges_lie_within, read_sections, section_headers,
    sections_or_fault, sections_stand, split_sections,
};
pub use segments::{
    DataKind, TargetedSegment, WasmDataSegment, read_segments, read_targeted_segments,
    segments_or_fault, targeted_segments_or_fault,
};
pub use slices::copy_bytes;
pub use types::{FuncType, ValType, read_types, types_or_fault};
pub use wl_bytes::{Form, ReadError, Why};
