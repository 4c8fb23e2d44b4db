//! What all sections of an object hold.

ghost use Rattle.std.specs.Prelude.{◌≡◌, ◌≤◌, length, map, OnOk, MatchResult};
ghost use Rattle.wl_bytes.specs.declared.reader.TheConstants.{MAX_LEN};
ghost use Rattle.std.specs.List.{AllByRecursion};
ghost use Rattle.wl_linking.specs.Parts.{no_parts, join, imports_part, reloc_part, part_of, AreNamedWithin};
ghost use Rattle.wl_linking.specs.declared.section.SectionItems.TheVariants.{Imports, Data, Linking as LinkingSection};
ghost use Rattle.wl_linking.specs.Fitting.{AreSettled, SettlingFault};
ghost use Rattle.wl_linking.specs.Placing.{IsSpanned, Ascend};
ghost use Rattle.wl_linking.specs.Sections.{AreSound, AreFaulty, EndsWithin};
ghost use Rattle.wl_linking.specs.Sites.{body_piece, segment_piece};
ghost use Rattle.wl_bytes.specs.Outcome.{HasCause};

use crate::plain::{plain_imports, plain_segments, segment_memories_of};
use crate::section::{SectionItems, read_section_items};
use crate::sites::{Site, code_sites, data_sites, put_in_order};
use crate::slots::{SlotName, name_symbols, slots_of};
use std::alloc::{AllocError, Global};
use wl_bytes::ReadError;
use wl_custom::{
    DebugSectionInput, Linking, RelocHeld, Target, WasmInitFunc, WasmRelocSection, WasmRelocation,
    WasmSegmentInfo, WasmSymbol, WasmTargetFeature,
};
use wl_lists::ItemList;
use wl_module::{
    ExternalKind, FramedSection, FuncType, Import, MemoryType, OutputExport, OutputGlobal,
    PlacedImport, TargetedSegment, WasmDataSegment, WasmFunctionBody,
};

/// What the sections of an object hold, in file order.
pub(crate) struct Parts<'a> {
    pub types: ItemList<FuncType>,
    pub imports: ItemList<Import<'a>>,
    /// The field names of imported functions, which symbols may take.
    pub function_names: ItemList<SlotName<'a>>,
    /// Those of imported globals.
    pub global_names: ItemList<SlotName<'a>>,
    pub functions: ItemList<u32>,
    pub memories: ItemList<MemoryType>,
    pub globals: ItemList<OutputGlobal<'a>>,
    pub exports: ItemList<OutputExport<'a>>,
    pub data_counts: ItemList<u32>,
    pub bodies: ItemList<WasmFunctionBody<'a>>,
    pub segments: ItemList<WasmDataSegment<'a>>,
    /// Of each segment the memory that it goes into when the module starts, if it does.
    pub segment_memories: ItemList<Option<u32>>,
    pub segment_infos: ItemList<WasmSegmentInfo<'a>>,
    pub init_funcs: ItemList<WasmInitFunc>,
    pub symbols: ItemList<WasmSymbol<'a>>,
    pub reloc_sections: ItemList<WasmRelocSection>,
    pub code_relocations: ItemList<WasmRelocation>,
    pub data_relocations: ItemList<WasmRelocation>,
    pub features: ItemList<WasmTargetFeature<'a>>,
    pub debug_sections: ItemList<DebugSectionInput<'a>>,
    pub has_linking: bool,
    pub has_code_relocations: bool,
    pub has_data_relocations: bool,
}

impl<'a> Drop for Parts<'a> {
    fn drop(self) {
        let Self {
            types: _,
            imports: _,
            function_names: _,
            global_names: _,
            functions: _,
            memories: _,
            globals: _,
            exports: _,
            data_counts: _,
            bodies: _,
            segments: _,
            segment_memories: _,
            segment_infos: _,
            init_funcs: _,
            symbols: _,
            reloc_sections: _,
            code_relocations: _,
            data_relocations: _,
            features: _,
            debug_sections: _,
            has_linking: _,
            has_code_relocations: _,
            has_data_relocations: _,
        } = self;
    }
}

/// Where the fields of relocations lie, in order.
#[derive(Drop)]
pub(crate) struct FieldSites {
    pub code_sites: ItemList<Site>,
    pub data_sites: ItemList<Site>,
}

impl<'a> Parts<'a> {
    /// What no section holds.
    fn empty(alloc: Global) -> Self
        ensures { result ≡ no_parts }
    {
        Parts {
            types: ItemList::empty(alloc),
            imports: ItemList::empty(alloc),
            function_names: ItemList::empty(alloc),
            global_names: ItemList::empty(alloc),
            functions: ItemList::empty(alloc),
            memories: ItemList::empty(alloc),
            globals: ItemList::empty(alloc),
            exports: ItemList::empty(alloc),
            data_counts: ItemList::empty(alloc),
            bodies: ItemList::empty(alloc),
            segments: ItemList::empty(alloc),
            segment_memories: ItemList::empty(alloc),
            segment_infos: ItemList::empty(alloc),
            init_funcs: ItemList::empty(alloc),
            symbols: ItemList::empty(alloc),
            reloc_sections: ItemList::empty(alloc),
            code_relocations: ItemList::empty(alloc),
            data_relocations: ItemList::empty(alloc),
            features: ItemList::empty(alloc),
            debug_sections: ItemList::empty(alloc),
            has_linking: false,
            has_code_relocations: false,
            has_data_relocations: false,
        }
    }

    /// Takes in the imports of a section, where so many bytes of the object lie before its payload.
    fn add_imports(
        &mut self,
        alloc: Global,
        imports: ItemList<PlacedImport<'a>>,
        base: u32,
    ) -> Result<(), AllocError>
        requires { AreNamedWithin (Imports imports base) }
        ensures { OnOk result (self.new ≡ join self.old (imports_part imports.entry base)) }
    {
        let placed = imports.as_slice();
        let functions = slots_of(alloc, ExternalKind::Func, base, placed)?;
        let globals = slots_of(alloc, ExternalKind::Global, base, placed)?;
        self.function_names.append(functions)?;
        self.global_names.append(globals)?;
        self.imports.append(plain_imports(alloc, imports)?)
    }

    /// Takes in the segments of a section, each with its memory.
    fn add_segments(
        &mut self,
        alloc: Global,
        segments: ItemList<TargetedSegment<'a>>,
    ) -> Result<(), AllocError>
        ensures { OnOk result (self.new ≡ join self.old (part_of (Data segments.entry))) }
    {
        self.segment_memories
            .append(segment_memories_of(alloc, segments.as_slice())?)?;
        self.segments.append(plain_segments(alloc, segments)?)
    }

    /// Takes in what a linking section holds.
    fn add_linking(&mut self, linking: Linking<'a>) -> Result<(), AllocError>
        ensures { OnOk result (self.new ≡ join self.old (part_of (LinkingSection linking.entry))) }
    {
        self.has_linking = true;
        self.segment_infos.append(linking.segment_infos)?;
        self.init_funcs.append(linking.init_funcs)?;
        self.symbols.append(linking.symbols)
    }

    /// Takes in what a relocation section holds.
    fn add_reloc(&mut self, held: RelocHeld) -> Result<(), AllocError>
        ensures { OnOk result (self.new ≡ join self.old (reloc_part held)) }
    {
        let entries = held.section.relocations.as_slice();
        match held.target {
            Target::Code => {
                self.has_code_relocations = true;
                self.code_relocations.extend(entries)?;
            }
            Target::Data => {
                self.has_data_relocations = true;
                self.data_relocations.extend(entries)?;
            }
            Target::Debug => {}
        }
        self.reloc_sections.push(held.section)
    }

    /// Takes in what one more section holds.
    fn add(&mut self, alloc: Global, items: SectionItems<'a>) -> Result<(), AllocError>
        requires { AreNamedWithin items }
        ensures { OnOk result (self.new ≡ join self.old (part_of items.entry)) }
    {
        match items {
            SectionItems::Types(types) => self.types.append(types),
            SectionItems::Imports(imports, base) => self.add_imports(alloc, imports, base),
            SectionItems::Functions(functions) => self.functions.append(functions),
            SectionItems::Memories(memories) => self.memories.append(memories),
            SectionItems::Globals(globals) => self.globals.append(globals),
            SectionItems::Exports(exports) => self.exports.append(exports),
            SectionItems::DataCount(count) => self.data_counts.push(count),
            SectionItems::Code(bodies) => self.bodies.append(bodies),
            SectionItems::Data(segments) => self.add_segments(alloc, segments),
            SectionItems::Linking(linking) => self.add_linking(linking),
            SectionItems::Reloc(held) => self.add_reloc(held),
            SectionItems::Features(features) => self.features.append(features),
            SectionItems::Debug(section) => self.debug_sections.push(section),
            SectionItems::Nothing => Ok(()),
        }
    }

    /// Gives symbols the names that they take from imports, puts relocations in order of their
    /// fields, and answers where these lie, each by itself in a body or a segment.
    pub fn settle(&mut self, alloc: Global) -> Result<FieldSites, ReadError>
        requires bodies { Ascend 0 (map body_piece self.old.bodies) }
        requires spans { AllByRecursion IsSpanned self.old.segments }
        requires segments { Ascend 0 (map segment_piece self.old.segments) }
        requires few_bodies { length self.old.bodies ≤ MAX_LEN }
        requires few_segments { length self.old.segments ≤ MAX_LEN }
        ensures { MatchResult result (AreSettled self.old self.new)
            (HasCause (SettlingFault self.old)) }
    {
        let (functions, globals) = (&self.function_names, &self.global_names);
        let symbols = &mut self.symbols;
        name_symbols(alloc, functions.as_slice(), globals.as_slice(), symbols)?;
        put_in_order(alloc, &mut self.code_relocations)?;
        put_in_order(alloc, &mut self.data_relocations)?;
        let (code, data) = (&self.code_relocations, &self.data_relocations);
        Ok(FieldSites {
            code_sites: code_sites(alloc, self.bodies.as_slice(), code.as_slice())?,
            data_sites: data_sites(alloc, self.segments.as_slice(), data.as_slice())?,
        })
    }
}

/// Reads each section in turn, up to the first that isn't sound, and takes in what they hold.
fn add_sections<'a>(
    alloc: Global,
    sections: &[FramedSection<'a>],
    parts: &mut Parts<'a>,
) -> Result<(), ReadError>
    requires first { parts.old ≡ no_parts }
    requires sections { AllByRecursion EndsWithin sections.now }
    ensures { MatchResult result (λ _. AreSound sections.now no_parts sections.now parts.new)
        (HasCause (AreFaulty sections.now no_parts sections.now)) }
{
    for section in sections {
        let items = read_section_items(alloc, sections, parts, section)?;
        parts.add(alloc, items)?;
    }
    Ok(())
}

/// What the sections hold, up to the first that isn't sound.
pub(crate) fn read_parts<'a>(
    alloc: Global,
    sections: &[FramedSection<'a>],
) -> Result<Parts<'a>, ReadError>
    requires { AllByRecursion EndsWithin sections.now }
    ensures { MatchResult result (AreSound sections.now no_parts sections.now)
        (HasCause (AreFaulty sections.now no_parts sections.now)) }
{
    let mut parts = Parts::empty(alloc);
    add_sections(alloc, sections, &mut parts)?;
    Ok(parts)
}
