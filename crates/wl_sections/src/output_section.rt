//! The sections of the output: their order, their numbers and their names.

ghost use Rattle.std.specs.Prelude.{◌≡◌, map};
ghost use Rattle.wl_sections.specs.BuiltIn.{built_in_sections};
ghost use Rattle.wl_sections.specs.OutputSections.{IsOrdinal, segment_type};

use crate::segment::SegmentType;
use wl_linking::TARGET_FEATURES_SECTION_NAME;

/// A section of the output, or what stands before all of them (core specification, "Modules").
#[derive(Clone, Copy, PartialEq, Eq)]
pub enum OutputSection {
    /// The magic bytes and the version.
    FileHeader,
    /// The types of functions.
    Type,
    /// What the host has to give.
    Import,
    /// The type of each function.
    Function,
    /// The table of functions.
    Table,
    /// The memory.
    Memory,
    /// Global variables.
    Global,
    /// What the host may use.
    Export,
    /// The function that runs when a module is loaded.
    Start,
    /// What the table holds at first.
    Element,
    /// How many segments the data section has.
    DataCount,
    /// The bodies of functions.
    Code,
    /// What the memory holds at first.
    Data,
    /// All debug sections.
    Debug,
    /// The names of functions, for tools.
    Name,
    /// What the module asks of the machine that runs it.
    TargetFeatures,
}

/// What stands in the output, in the order in which it is written.
pub const OUTPUT_SECTION_ORDER: [OutputSection; 16] = [
    OutputSection::FileHeader,
    OutputSection::Type,
    OutputSection::Import,
    OutputSection::Function,
    OutputSection::Table,
    OutputSection::Memory,
    OutputSection::Global,
    OutputSection::Export,
    OutputSection::Start,
    OutputSection::Element,
    OutputSection::DataCount,
    OutputSection::Code,
    OutputSection::Data,
    OutputSection::Debug,
    OutputSection::Name,
    OutputSection::TargetFeatures,
];

impl OutputSection {
    /// Its number among the parts of the output, from 0; the header of the file is none.
    pub fn part_ordinal(self) -> Option<usize>
        ensures { IsOrdinal self result }
    {
        match self {
            Self::FileHeader => None,
            Self::Type => Some(0),
            Self::Import => Some(1),
            Self::Function => Some(2),
            Self::Table => Some(3),
            Self::Memory => Some(4),
            Self::Global => Some(5),
            Self::Export => Some(6),
            Self::Start => Some(7),
            Self::Element => Some(8),
            Self::DataCount => Some(9),
            Self::Code => Some(10),
            Self::Data => Some(11),
            Self::Name => Some(12),
            Self::TargetFeatures => Some(13),
            Self::Debug => Some(14),
        }
    }

    /// The segment that it stands in.
    pub fn segment_type(self) -> SegmentType
        ensures { result ≡ segment_type self }
    {
        match self {
            Self::FileHeader => SegmentType::Header,
            Self::Type
            | Self::Import
            | Self::Function
            | Self::Table
            | Self::Memory
            | Self::Global
            | Self::Export
            | Self::Start
            | Self::Element
            | Self::DataCount
            | Self::Code
            | Self::Data
            | Self::Debug
            | Self::Name
            | Self::TargetFeatures => SegmentType::Module,
        }
    }
}

/// A part of the output and its name.
#[derive(Clone, Copy)]
pub struct BuiltInSectionDetails {
    /// What it is.
    pub section: OutputSection,
    /// The name of a section; that of debug data stands for all sections whose names begin with it.
    pub name: &'static str,
}

/// The parts of the output, by their numbers, and the name of each.
pub static BUILT_IN_SECTIONS: [BuiltInSectionDetails; 15] = [
    BuiltInSectionDetails {
        section: OutputSection::Type,
        name: "type",
    },
    BuiltInSectionDetails {
        section: OutputSection::Import,
        name: "import",
    },
    BuiltInSectionDetails {
        section: OutputSection::Function,
        name: "function",
    },
    BuiltInSectionDetails {
        section: OutputSection::Table,
        name: "table",
    },
    BuiltInSectionDetails {
        section: OutputSection::Memory,
        name: "memory",
    },
    BuiltInSectionDetails {
        section: OutputSection::Global,
        name: "global",
    },
    BuiltInSectionDetails {
        section: OutputSection::Export,
        name: "export",
    },
    BuiltInSectionDetails {
        section: OutputSection::Start,
        name: "start",
    },
    BuiltInSectionDetails {
        section: OutputSection::Element,
        name: "element",
    },
    BuiltInSectionDetails {
        section: OutputSection::DataCount,
        name: "data_count",
    },
    BuiltInSectionDetails {
        section: OutputSection::Code,
        name: "code",
    },
    BuiltInSectionDetails {
        section: OutputSection::Data,
        name: "data",
    },
    BuiltInSectionDetails {
        section: OutputSection::Name,
        name: "name",
    },
    BuiltInSectionDetails {
        section: OutputSection::TargetFeatures,
        name: TARGET_FEATURES_SECTION_NAME,
    },
    BuiltInSectionDetails {
        section: OutputSection::Debug,
        name: ".debug",
    },
];

/// The table of the parts of the output, as clauses see it.
pub fn built_in_sections() -> &'static [BuiltInSectionDetails]
    ensures { map (λ d. (d.section, d.name.now)) result.now ≡ built_in_sections }
{
    &BUILT_IN_SECTIONS
}
