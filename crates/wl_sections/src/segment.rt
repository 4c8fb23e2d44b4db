//! The segments of the output file: its header, and the module.

ghost use Rattle.std.specs.Prelude.{◌≡◌, ◌↔◌, IsTrue};
ghost use Rattle.wl_sections.specs.OutputSections.{segment_type};
ghost use Rattle.wl_sections.specs.Segments.{segment_name};

use crate::output_section::OutputSection;
use std::fmt;

/// What a part of the output file is.
#[derive(Clone, Copy, PartialEq, Eq)]
pub enum SegmentType {
    /// The magic bytes and the version.
    Header,
    /// All sections.
    Module,
    /// No part of the file.
    Unused,
}

impl SegmentType {
    /// Its name.
    fn name(self) -> &'static str
        ensures { result.now ≡ segment_name self }
    {
        match self {
            Self::Header => "HEADER",
            Self::Module => "MODULE",
            Self::Unused => "UNUSED",
        }
    }
}

/// The definition of a segment.
#[derive(Clone, Copy, PartialEq, Eq)]
pub struct ProgramSegmentDef {
    /// What it is.
    pub segment_type: SegmentType,
}

impl ProgramSegmentDef {
    /// Whether the section stands in a segment of that definition.
    pub fn should_include(self, section: OutputSection) -> bool
        ensures { IsTrue result ↔ (segment_type section ≡ self.segment_type) }
    {
        section.segment_type() == self.segment_type
    }
}

impl fmt::Display for ProgramSegmentDef {
    ghost use Rattle.std.specs.Prelude.{Some};
    ghost use Rattle.wl_sections.specs.Segments.{segment_name};

    ghost output = { λ d. Some (segment_name d.segment_type) };

    fn fmt<W: fmt::Write>(&self, f: &mut fmt::Formatter<W>) -> fmt::Result {
        f.write_str(self.segment_type.name())
    }
}

/// The segments of the output file, in their order.
pub const PROGRAM_SEGMENT_DEFS: [ProgramSegmentDef; 2] = [
    ProgramSegmentDef {
        segment_type: SegmentType::Header,
    },
    ProgramSegmentDef {
        segment_type: SegmentType::Module,
    },
];
