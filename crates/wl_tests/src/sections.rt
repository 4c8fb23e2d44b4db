//! The tables of sections.

use std::alloc::Global;
use wl_sections::{
    DynamicTagValues, NonAddressableIndexes, OUTPUT_SECTION_ORDER, OutputSection,
    PROGRAM_SEGMENT_DEFS, ProgramSegmentDef, Relaxation, SectionRuleOutcome, SegmentType,
    VerneedTable, built_in_sections, high_part_relocations, merge_eflags, new_relaxation,
    section_outcome, tp_offset_start,
};

/// Names of sections of objects that have no copy in the output.
const DISCARDED: [&str; 17] = [
    "type",
    "import",
    "function",
    "table",
    "memory",
    "global",
    "export",
    "start",
    "element",
    "data_count",
    "code",
    "data",
    "linking",
    "name",
    "target_features",
    "reloc.",
    "reloc.CODE",
];

/// Names of sections whose data is debug data.
const DEBUG: [&str; 2] = [".debug_", ".debug_info"];

/// Names of which there is no rule.
const OTHERS: [&str; 6] = ["", ".debug", "reloc", "datacount", "types", "producers"];

/// The first of these names that doesn't lead to that outcome.
fn led_astray(names: &[&'static str], want: Option<SectionRuleOutcome>) -> Option<&'static str> {
    for name in names {
        if section_outcome(name.as_bytes()) != want {
            return Some(*name);
        }
    }
    None
}

#[test]
fn names_lead_to_outcomes(rt: HostRuntime) {
    let discarded = Some(SectionRuleOutcome::Discard);
    assert_eq!(rt; led_astray(&DISCARDED, discarded), None);
    let debug = Some(SectionRuleOutcome::Debug);
    assert_eq!(rt; led_astray(&DEBUG, debug), None);
    assert_eq!(rt; led_astray(&OTHERS, None), None);
}

/// The parts of the output with their names, in the order of their numbers.
const PARTS: [(OutputSection, &str); 15] = [
    (OutputSection::Type, "type"),
    (OutputSection::Import, "import"),
    (OutputSection::Function, "function"),
    (OutputSection::Table, "table"),
    (OutputSection::Memory, "memory"),
    (OutputSection::Global, "global"),
    (OutputSection::Export, "export"),
    (OutputSection::Start, "start"),
    (OutputSection::Element, "element"),
    (OutputSection::DataCount, "data_count"),
    (OutputSection::Code, "code"),
    (OutputSection::Data, "data"),
    (OutputSection::Name, "name"),
    (OutputSection::TargetFeatures, "target_features"),
    (OutputSection::Debug, ".debug"),
];

/// Whether the part has that number and that name.
fn is_part(number: usize, section: OutputSection, name: &str) -> bool {
    section.part_ordinal() == Some(number)
        && built_in_sections()
            .get(number)
            .is_some_and(|row| row.section == section && row.name == name)
}

#[test]
fn parts_have_numbers_and_names(rt: HostRuntime) {
    assert_eq!(rt; built_in_sections().len(), PARTS.len());
    for (number, (section, name)) in PARTS.iter().enumerate() {
        assert!(rt; is_part(number, *section, *name));
    }
    assert_eq!(rt; OutputSection::FileHeader.part_ordinal(), None);
}

/// Whether the three kinds of segments have these names.
fn are_segments_named(alloc: Global) -> bool {
    let [header, module] = PROGRAM_SEGMENT_DEFS;
    let unused = ProgramSegmentDef {
        segment_type: SegmentType::Unused,
    };
    match format!(in alloc; "{header} {module} {unused}") {
        Ok(text) => text.as_str() == "HEADER MODULE UNUSED",
        Err(_) => false,
    }
}

#[test]
fn sections_stand_in_segments(rt: HostRuntime) {
    let [header, module] = PROGRAM_SEGMENT_DEFS;
    for (place, section) in OUTPUT_SECTION_ORDER.iter().enumerate() {
        assert!(rt; header.should_include(*section) == (place == 0));
        assert!(rt; module.should_include(*section) == (place != 0));
    }
    assert!(rt; are_segments_named(rt.alloc()));
}

#[test]
fn what_the_format_lacks_is_0_or_none(rt: HostRuntime) {
    assert!(rt; VerneedTable::default().version_name(1).is_none());
    assert!(rt; NonAddressableIndexes::default() == NonAddressableIndexes {});
    assert!(rt; DynamicTagValues::default() == DynamicTagValues {});
    assert!(rt; (tp_offset_start(), merge_eflags()) == (0, 0));
    assert!(rt; high_part_relocations().is_empty());
    assert!(rt; new_relaxation().is_none());
    assert!(rt; !Relaxation {}.is_mandatory());
}
