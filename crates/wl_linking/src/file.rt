//! What a relocatable object holds.

ghost use Rattle.std.specs.Prelude.{◌≡◌, length};
ghost use Rattle.wl_bytes.specs.declared.reader.TheConstants.{MAX_LEN};
ghost use Rattle.wl_module.specs.declared.imports.ExternalKind.TheVariants.{Func as FuncKind, Global as GlobalKind};
ghost use Rattle.wl_linking.specs.Spaces.{count_imports};
ghost use Rattle.wl_linking.specs.Targets.{is_debug_at};
ghost use Rattle.wl_linking.specs.Fitting.{HasFewItems, IsWhole};

use crate::contents::Contents;
use crate::kinds::is_debug;
use crate::sites::Site;
use crate::spaces::Counts;
use std::marker::Model;
use wl_custom::{
    DebugSectionInput, WasmInitFunc, WasmRelocSection, WasmRelocation, WasmSegmentInfo, WasmSymbol,
    WasmTargetFeature,
};
use wl_module::{
    FuncType, Import, MemoryType, OutputExport, OutputGlobal, SectionHeader, WasmDataSegment,
    WasmFunctionBody,
};

/// A relocatable object: what its sections hold, in file order (core specification, "Modules";
/// object file linking, version 2). Names, bodies and payloads are slices of the bytes that it was
/// read from. Clauses see it as an `Object`. Accessors that answer slices take no memory; those
/// that take an allocator answer a list of their own with the same things in it.
#[derive(Drop)]
pub struct File<'a> {
    pub(crate) contents: Contents<'a>,
    pub(crate) spaces: Counts,
}

impl<'a> Model for File<'a> {
    ghost use Rattle.wl_linking.specs.Object.{Object};

    ghost Value = { Object };

    ghost use Rattle.wl_linking.specs.Fitting.{IsFile};

    ghost view = { λ f. f.contents };

    ghost invariant = { λ f. IsFile f.contents f.spaces };
}

impl<'a> File<'a> {
    /// A file stands for one object: the one that its bytes are. Each of its lists has at most
    /// `MAX_LEN` items.
    pub fn stands_for_an_object(&self)
        ensures whole { IsWhole self.now }
        ensures few { HasFewItems MAX_LEN self.now }
    {
        let _ = &self.contents;
    }

    /// The bytes of the object.
    pub fn bytes(&self) -> &'a [u8]
        ensures { result.now ≡ self.now.bytes }
    {
        self.contents.bytes
    }

    /// Where each section stands in the bytes of the object, those that aren't read too.
    pub fn sections(&self) -> &[SectionHeader]
        ensures { result.now ≡ self.now.sections }
    {
        self.contents.sections.as_slice()
    }

    /// The types of the type section (core specification, "Type Section").
    pub fn types(&self) -> &[FuncType]
        ensures { result.now ≡ self.now.types }
    {
        self.contents.parts.types.as_slice()
    }

    /// The imports (core specification, "Import Section").
    pub fn imports(&self) -> &[Import<'a>]
        ensures { result.now ≡ self.now.imports }
    {
        self.contents.parts.imports.as_slice()
    }

    /// The type of each function that the object defines, as its number among the types (core
    /// specification, "Function Section").
    pub fn functions(&self) -> &[u32]
        ensures { result.now ≡ self.now.functions }
    {
        self.contents.parts.functions.as_slice()
    }

    /// The memories that the object defines: one at most, and none where one is imported (core
    /// specification, "Memory Section").
    pub fn memory_types(&self) -> &[MemoryType]
        ensures { result.now ≡ self.now.memories }
    {
        self.contents.parts.memories.as_slice()
    }

    /// The globals that the object defines (core specification, "Global Section").
    pub fn globals(&self) -> &[OutputGlobal<'a>]
        ensures { result.now ≡ self.now.globals }
    {
        self.contents.parts.globals.as_slice()
    }

    /// The exports (core specification, "Export Section").
    pub fn exports(&self) -> &[OutputExport<'a>]
        ensures { result.now ≡ self.now.exports }
    {
        self.contents.parts.exports.as_slice()
    }

    /// The body of each function that the object defines (core specification, "Code Section").
    pub fn bodies(&self) -> &[WasmFunctionBody<'a>]
        ensures { result.now ≡ self.now.bodies }
    {
        self.contents.parts.bodies.as_slice()
    }

    /// The segments (core specification, "Data Section").
    pub fn segments(&self) -> &[WasmDataSegment<'a>]
        ensures { result.now ≡ self.now.segments }
    {
        self.contents.parts.segments.as_slice()
    }

    /// What is said of segments, by their numbers (object file linking, version 2, "Segment Info
    /// Subsection"). There may be fewer than segments, or more.
    pub fn segment_infos(&self) -> &[WasmSegmentInfo<'a>]
        ensures { result.now ≡ self.now.segment_infos }
    {
        self.contents.parts.segment_infos.as_slice()
    }

    /// The functions that run at the start (object file linking, version 2, "Init Funcs
    /// Subsection").
    pub fn init_funcs(&self) -> &[WasmInitFunc]
        ensures { result.now ≡ self.now.init_funcs }
    {
        self.contents.parts.init_funcs.as_slice()
    }

    /// The symbols (object file linking, version 2, "Symbol Table Subsection"). An undefined
    /// function or global without a name of its own has that of its import.
    pub fn symbols(&self) -> &[WasmSymbol<'a>]
        ensures { result.now ≡ self.now.symbols }
    {
        self.contents.parts.symbols.as_slice()
    }

    /// The relocation sections (object file linking, version 2, "Relocation Sections"), with their
    /// entries in file order.
    pub fn reloc_sections(&self) -> &[WasmRelocSection]
        ensures { result.now ≡ self.now.reloc_sections }
    {
        self.contents.parts.reloc_sections.as_slice()
    }

    /// The features of all target features sections (tool conventions, "Target Features Section").
    pub fn target_features(&self) -> &[WasmTargetFeature<'a>]
        ensures { result.now ≡ self.now.features }
    {
        self.contents.parts.features.as_slice()
    }

    /// The debug sections.
    pub fn debug_inputs(&self) -> &[DebugSectionInput<'a>]
        ensures { result.now ≡ self.now.debug_sections }
    {
        self.contents.parts.debug_sections.as_slice()
    }

    /// The relocations of the code section, in order of their fields, whatever their order in the
    /// object (object file linking, version 2, "Relocation Sections").
    pub fn code_relocations(&self) -> &[WasmRelocation]
        ensures { result.now ≡ self.now.code_relocations }
    {
        self.contents.parts.code_relocations.as_slice()
    }

    /// Where the field of each relocation of the code section lies, in the same order as these.
    pub fn code_sites(&self) -> &[Site]
        ensures { result.now ≡ self.now.code_sites }
    {
        self.contents.code_sites.as_slice()
    }

    /// The relocations of the data section, in order of their fields, whatever their order in the
    /// object (object file linking, version 2, "Relocation Sections").
    pub fn data_relocations(&self) -> &[WasmRelocation]
        ensures { result.now ≡ self.now.data_relocations }
    {
        self.contents.parts.data_relocations.as_slice()
    }

    /// Where the field of each relocation of the data section lies, in the same order as these.
    pub fn data_sites(&self) -> &[Site]
        ensures { result.now ≡ self.now.data_sites }
    {
        self.contents.data_sites.as_slice()
    }

    /// Whether the section of that number, among all sections, is a debug section; there may be no
    /// such section.
    pub fn section_is_debug(&self, section: usize) -> bool
        ensures { result ≡ is_debug_at self.now.bytes self.now.sections section }
    {
        match self.sections().get(section) {
            None => false,
            Some(header) => is_debug(self.bytes(), header),
        }
    }

    /// How many functions are imported.
    pub fn num_function_imports(&self) -> usize
        ensures { result ≡ count_imports FuncKind self.now.imports }
    {
        self.spaces.imported_functions
    }

    /// How many globals are imported.
    pub fn num_global_imports(&self) -> usize
        ensures { result ≡ count_imports GlobalKind self.now.imports }
    {
        self.spaces.imported_globals
    }

    /// How many functions the object defines.
    pub fn num_defined_functions(&self) -> usize
        ensures { result ≡ length self.now.functions }
    {
        self.functions().len()
    }

    /// How many globals the object defines.
    pub fn num_defined_globals(&self) -> usize
        ensures { result ≡ length self.now.globals }
    {
        self.globals().len()
    }

    /// How many segments there are.
    pub fn num_data_segments(&self) -> usize
        ensures { result ≡ length self.now.segments }
    {
        self.segments().len()
    }
}
