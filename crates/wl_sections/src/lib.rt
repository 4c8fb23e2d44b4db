//! The sections of the output, as tables: which there are, in which order, and which part of the
//! file each stands in; what becomes of a section of an object, by its name; and what linkers ask
//! of other formats, of which WebAssembly has nothing.
#![tactic(auto)]

mod absent;
mod laws;
mod outcome;
mod output_section;
mod segment;

pub use absent::{
    DynamicTagValues, NonAddressableIndexes, Relaxation, VerneedTable, high_part_relocations,
    merge_eflags, new_relaxation, tp_offset_start,
};
pub use laws::{parts_stand_once, tables_are_as_listed};
pub use outcome::{SectionRuleOutcome, section_outcome};
pub use output_section::{
    BUILT_IN_SECTIONS, BuiltInSectionDetails, OUTPUT_SECTION_ORDER, OutputSection,
    built_in_sections,
};
pub use segment::{PROGRAM_SEGMENT_DEFS, ProgramSegmentDef, SegmentType};
