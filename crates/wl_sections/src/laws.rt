//! What callers may count on: functions with an empty body, each of which states a law of the
//! tables.

ghost use Rattle.std.specs.Prelude.{◌≡◌, ℕ, Some, slice_get, map};
ghost use Rattle.wl_sections.specs.OutputSections.{output_order, part_order};
ghost use Rattle.wl_sections.specs.Segments.{program_segments};
ghost use Rattle.wl_sections.specs.BuiltIn.{built_in_sections};
ghost use Rattle.wl_sections.specs.declared.output_section.OutputSection.{OutputSection as SpecSection};

use crate::output_section::OUTPUT_SECTION_ORDER;
use crate::segment::PROGRAM_SEGMENT_DEFS;

/// The tables are those of the definitions.
pub fn tables_are_as_listed()
    ensures order { OUTPUT_SECTION_ORDER ≡ output_order }
    ensures segments { PROGRAM_SEGMENT_DEFS ≡ program_segments }
    ensures parts { map (λ d. d.0) built_in_sections ≡ part_order }
{}

/// No part of the output has two numbers.
pub fn parts_stand_once()
    ensures { (m n : ℕ) (section : SpecSection)
        → slice_get part_order m ≡ Some section → slice_get part_order n ≡ Some section → m ≡ n }
{}
