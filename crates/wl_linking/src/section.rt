//! One section of an object.

ghost use Rattle.std.specs.Prelude.{◌≡◌, ◌≤◌, length, MatchResult};
ghost use Rattle.wl_bytes.specs.declared.reader.TheConstants.{MAX_LEN};
ghost use Rattle.wl_bytes.specs.Outcome.{Gives, ReadsWhole, HasCause};
ghost use Rattle.wl_module.specs.Memories.{AreMemories, MemoriesFault};
ghost use Rattle.wl_custom.specs.Relocations.{reloc_section_of};
ghost use Rattle.wl_linking.specs.Sections.{IsSound, IsFaulty, IsSoundCustom, IsFaultyCustom, LinkingItems, LinkingItemsFault, EndsWithin, has_memory};
ghost use Rattle.wl_linking.specs.Targets.{numbered_verdict};

use crate::kinds::{CustomKind, custom_kind, target_of};
use crate::parts::Parts;
use std::alloc::Global;
use wl_bytes::{Form, ReadError, Reader, Why};
use wl_custom::{
    DebugSectionInput, Linking, RelocHeld, WasmRelocSection, WasmTargetFeature,
    parse_target_features_payload, read_held_entries, read_linking,
};
use wl_lists::ItemList;
use wl_module::{
    FramedSection, FuncType, Import, ImportEntity, MemoryType, OutputExport, OutputGlobal,
    PlacedImport, SectionKind, TargetedSegment, WasmFunctionBody, read_bodies, read_data_count,
    read_exports, read_functions, read_globals, read_memories, read_placed_imports,
    read_targeted_segments, read_types,
};

/// What a section holds.
#[derive(Drop)]
pub(crate) enum SectionItems<'a> {
    Types(ItemList<FuncType>),
    /// The imports, and how many bytes of the object lie before the section's payload.
    Imports(ItemList<PlacedImport<'a>>, u32),
    Functions(ItemList<u32>),
    Memories(ItemList<MemoryType>),
    Globals(ItemList<OutputGlobal<'a>>),
    Exports(ItemList<OutputExport<'a>>),
    DataCount(u32),
    Code(ItemList<WasmFunctionBody<'a>>),
    Data(ItemList<TargetedSegment<'a>>),
    Linking(Linking<'a>),
    Reloc(RelocHeld),
    Features(ItemList<WasmTargetFeature<'a>>),
    Debug(DebugSectionInput<'a>),
    Nothing,
}

/// What a linking section holds, unless one came before.
fn read_first_linking<'a>(
    alloc: Global,
    before: &Parts<'_>,
    section: &FramedSection<'a>,
) -> Result<Linking<'a>, ReadError>
    requires { EndsWithin section.now }
    ensures { let s = section.now in
        MatchResult result (λ linking. LinkingItems before.now s linking s.payload)
        (HasCause (λ e. LinkingItemsFault before.now s e s.payload)) }
{
    if before.has_linking {
        return Err(ReadError::Malformed(Why::Repeated));
    }
    read_linking(alloc, section.header.payload_range.0, section.payload)
}

/// What a relocation section holds, after the sections with these items. Apart from other sections,
/// so that its reader stays in registers.
#[inline(never)]
fn read_reloc_section(
    alloc: Global,
    sections: &[FramedSection<'_>],
    before: &Parts<'_>,
    payload: &[u8],
) -> Result<RelocHeld, ReadError>
    requires { length payload.now ≤ MAX_LEN }
    ensures { let verdict = numbered_verdict sections.now before.now in
        Gives (λ s. s) result (reloc_section_of verdict payload.now) }
{
    let mut reader = Reader::new(payload);
    let target_section = reader.read_u32()?;
    let target = target_of(sections, before, target_section)?;
    let relocations = read_held_entries(alloc, target, &mut reader)?;
    Ok(RelocHeld {
        target,
        section: WasmRelocSection {
            target_section,
            relocations,
        },
    })
}

/// Whether a memory is among the imports.
fn has_memory(imports: &[Import<'_>]) -> bool
    ensures { result ≡ has_memory imports.now }
{
    imports
        .iter()
        .any(|import| matches!(import.entity, ImportEntity::Memory(_)))
}

/// The memories of a section, where these are the imports.
fn read_own_memories(
    alloc: Global,
    imports: &[Import<'_>],
    payload: &[u8],
) -> Result<Vec<MemoryType>, ReadError>
    requires { length payload.now ≤ MAX_LEN }
    ensures { let imported = has_memory imports.now in
        ReadsWhole (λ v. v.items) (AreMemories imported) (MemoriesFault imported)
        payload.now result }
{
    read_memories(alloc, has_memory(imports), payload)
}

/// What a custom section holds, after the sections with these items.
fn read_custom<'a>(
    alloc: Global,
    sections: &[FramedSection<'a>],
    before: &Parts<'_>,
    section: &FramedSection<'a>,
) -> Result<SectionItems<'a>, ReadError>
    requires { EndsWithin section.now }
    ensures { MatchResult result (IsSoundCustom sections.now before.now section.now)
        (HasCause (IsFaultyCustom sections.now before.now section.now)) }
{
    let payload = section.payload;
    match custom_kind(section.name.as_bytes()) {
        CustomKind::Linking => Ok(SectionItems::Linking(read_first_linking(
            alloc, before, section,
        )?)),
        CustomKind::Reloc => Ok(SectionItems::Reloc(read_reloc_section(
            alloc, sections, before, payload,
        )?)),
        CustomKind::Features => Ok(SectionItems::Features(ItemList::new(
            parse_target_features_payload(alloc, payload)?,
        ))),
        CustomKind::Debug => Ok(SectionItems::Debug(DebugSectionInput {
            name: section.name,
            payload,
            object_index: 0,
        })),
        CustomKind::Other => Ok(SectionItems::Nothing),
    }
}

/// Reads a section, after the sections with these items.
pub(crate) fn read_section_items<'a>(
    alloc: Global,
    sections: &[FramedSection<'a>],
    before: &Parts<'_>,
    section: &FramedSection<'a>,
) -> Result<SectionItems<'a>, ReadError>
    requires { EndsWithin section.now }
    ensures { MatchResult result (IsSound sections.now before.now section.now)
        (HasCause (IsFaulty sections.now before.now section.now)) }
{
    let payload = section.payload;
    match section.kind {
        SectionKind::Custom => read_custom(alloc, sections, before, section),
        SectionKind::Type => Ok(SectionItems::Types(ItemList::new(read_types(alloc, payload)?))),
        SectionKind::Import => {
            let imports = read_placed_imports(alloc, payload)?;
            let base = section.header.payload_range.0;
            Ok(SectionItems::Imports(ItemList::new(imports), base))
        }
        SectionKind::Function => {
            Ok(SectionItems::Functions(ItemList::new(read_functions(alloc, payload)?)))
        }
        SectionKind::Table => Err(ReadError::Unsupported(Form::TableDef)),
        SectionKind::Memory => {
            let imports = before.imports.as_slice();
            Ok(SectionItems::Memories(ItemList::new(read_own_memories(alloc, imports, payload)?)))
        }
        SectionKind::Global => Ok(SectionItems::Globals(ItemList::new(read_globals(
            alloc, payload,
        )?))),
        SectionKind::Export => Ok(SectionItems::Exports(ItemList::new(read_exports(
            alloc, payload,
        )?))),
        SectionKind::Start => Err(ReadError::Unsupported(Form::Start)),
        SectionKind::Element => Ok(SectionItems::Nothing),
        SectionKind::Code => Ok(SectionItems::Code(ItemList::new(read_bodies(alloc, payload)?))),
        SectionKind::Data => {
            Ok(SectionItems::Data(ItemList::new(read_targeted_segments(alloc, payload)?)))
        }
        SectionKind::DataCount => Ok(SectionItems::DataCount(read_data_count(payload)?)),
        SectionKind::Tag => Err(ReadError::Unsupported(Form::Tag)),
    }
}
