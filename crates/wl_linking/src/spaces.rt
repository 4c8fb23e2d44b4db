//! How many things of each kind an object has, and that what it names is among them (core
//! specification, "Indices"; object file linking, version 2).

ghost use Rattle.std.specs.Prelude.{◌≡◌, ◌+◌, ◌==◌, nat_lt, MatchResult};
ghost use Rattle.std.specs.List.{list_all};
ghost use Rattle.wl_linking.specs.Spaces.{is_of_kind, count_imports, spaces_of, import_exists, export_exists, memory_exists, number_exists, thing_exists, symbol_exists, init_exists, relocation_exists, type_exists, counts_segments, core_names_exist, linked_names_exist, counts_hold, NamesExist, NamesFault};
ghost use Rattle.wl_custom.specs.Symbols.{is_undefined};
ghost use Rattle.wl_bytes.specs.Outcome.{HasCause};

use crate::contents::Contents;
use wl_bytes::{ReadError, Why};
use wl_custom::{WasmInitFunc, WasmRelocation, WasmSymbol, WasmSymbolKind};
use wl_module::{ExternalKind, Import, ImportEntity, OutputExport};

/// How many things of each kind an object has.
#[derive(Clone, Copy, PartialEq, Eq)]
pub(crate) struct Counts {
    pub types: usize,
    pub imported_functions: usize,
    pub functions: usize,
    pub imported_tables: usize,
    pub imported_memories: usize,
    pub memories: usize,
    pub imported_globals: usize,
    pub globals: usize,
    pub segments: usize,
    pub symbols: usize,
}

/// Whether something of that kind is imported.
pub(crate) fn is_of_kind(kind: ExternalKind, entity: &ImportEntity) -> bool
    ensures { result ≡ is_of_kind kind entity.now }
{
    match entity {
        ImportEntity::Func(_) => kind == ExternalKind::Func,
        ImportEntity::Table(_) => kind == ExternalKind::Table,
        ImportEntity::Memory(_) => kind == ExternalKind::Memory,
        ImportEntity::Global(_) => kind == ExternalKind::Global,
    }
}

/// How many of the imports are of that kind.
pub(crate) fn count_imports(kind: ExternalKind, imports: &[Import<'_>]) -> usize
    ensures { result ≡ count_imports kind imports.now }
{
    imports
        .iter()
        .filter(|import| is_of_kind(kind, &import.entity))
        .count()
}

/// How many things of each kind an object has.
pub(crate) fn spaces_of(contents: &Contents<'_>) -> Counts
    ensures { result ≡ spaces_of contents.now }
{
    let imports = contents.parts.imports.as_slice();
    Counts {
        types: contents.parts.types.as_slice().len(),
        imported_functions: count_imports(ExternalKind::Func, imports),
        functions: contents.parts.functions.as_slice().len(),
        imported_tables: count_imports(ExternalKind::Table, imports),
        imported_memories: count_imports(ExternalKind::Memory, imports),
        memories: contents.parts.memories.as_slice().len(),
        imported_globals: count_imports(ExternalKind::Global, imports),
        globals: contents.parts.globals.as_slice().len(),
        segments: contents.parts.segments.as_slice().len(),
        symbols: contents.parts.symbols.as_slice().len(),
    }
}

/// Whether a thing of that number is imported or defined, where these many are. Imported ones
/// come first.
fn is_in_space(imported: usize, defined: usize, index: u32) -> bool
    ensures { result ≡ nat_lt index (imported + defined) }
{
    let index = index as usize;
    index < imported || index - imported < defined
}

/// Whether the thing of that number is imported where the symbol is undefined, and else defined.
fn number_exists(undefined: bool, imported: usize, defined: usize, index: u32) -> bool
    ensures { result ≡ number_exists undefined imported defined index }
{
    let index = index as usize;
    if undefined {
        index < imported
    } else {
        index >= imported && index - imported < defined
    }
}

/// Whether an imported function's type is there.
fn import_exists(spaces: Counts, import: &Import<'_>) -> bool
    ensures { result ≡ import_exists spaces import.now }
{
    match import.entity {
        ImportEntity::Func(ty) => (ty as usize) < spaces.types,
        ImportEntity::Table(_) | ImportEntity::Memory(_) | ImportEntity::Global(_) => true,
    }
}

/// Whether what is exported is there.
fn export_exists(spaces: Counts, export: &OutputExport<'_>) -> bool
    ensures { result ≡ export_exists spaces export.now }
{
    let (imported, defined) = match export.kind {
        ExternalKind::Func => (spaces.imported_functions, spaces.functions),
        ExternalKind::Table => (spaces.imported_tables, 0),
        ExternalKind::Memory => (spaces.imported_memories, spaces.memories),
        ExternalKind::Global => (spaces.imported_globals, spaces.globals),
    };
    is_in_space(imported, defined, export.index)
}

/// Whether the memory that a segment goes to is there, if it goes to one when the module starts.
fn memory_exists(spaces: Counts, memory: Option<u32>) -> bool
    ensures { result ≡ memory_exists spaces memory }
{
    match memory {
        None => true,
        Some(memory) => is_in_space(spaces.imported_memories, spaces.memories, memory),
    }
}

/// Whether the thing of that number is there for a symbol of its kind. That of a section isn't
/// looked at.
fn thing_exists(spaces: Counts, symbol: &WasmSymbol<'_>) -> bool
    ensures { let s = symbol.now in result ≡ thing_exists spaces s.kind (is_undefined s) s.index }
{
    let undefined = symbol.is_undefined();
    match symbol.kind {
        WasmSymbolKind::Func => number_exists(
            undefined,
            spaces.imported_functions,
            spaces.functions,
            symbol.index,
        ),
        WasmSymbolKind::Global => number_exists(
            undefined,
            spaces.imported_globals,
            spaces.globals,
            symbol.index,
        ),
        WasmSymbolKind::Table => {
            number_exists(undefined, spaces.imported_tables, 0, symbol.index)
        }
        WasmSymbolKind::Data => undefined || (symbol.index as usize) < spaces.segments,
        WasmSymbolKind::Section | WasmSymbolKind::Event => true,
    }
}

/// Whether what a symbol stands for is there. Data at an absolute address lies in no segment.
fn symbol_exists(spaces: Counts, symbol: &WasmSymbol<'_>) -> bool
    ensures { result ≡ symbol_exists spaces symbol.now }
{
    symbol.is_absolute() || thing_exists(spaces, symbol)
}

/// Whether the type or the symbol of a relocation is there.
fn relocation_exists(spaces: Counts, relocation: &WasmRelocation) -> bool
    ensures { result ≡ relocation_exists spaces relocation.now }
{
    let count = if relocation.ty.names_a_type() {
        spaces.types
    } else {
        spaces.symbols
    };
    (relocation.index as usize) < count
}

/// Whether the symbol of a function that runs at the start is there.
fn init_exists(spaces: Counts, function: &WasmInitFunc) -> bool
    ensures { result ≡ init_exists spaces function.now }
{
    (function.symbol_index as usize) < spaces.symbols
}

/// Whether the type of each imported function is there.
fn imports_exist(spaces: Counts, imports: &[Import<'_>]) -> bool
    ensures { result ≡ list_all (import_exists spaces) imports.now }
{
    imports.iter().all(|import| import_exists(spaces, import))
}

/// Whether the type of each function that the object defines is there.
fn types_exist(spaces: Counts, functions: &[u32]) -> bool
    ensures { result ≡ list_all (type_exists spaces) functions.now }
{
    functions.iter().all(|ty| (*ty as usize) < spaces.types)
}

/// Whether all that is exported is there.
fn exports_exist(spaces: Counts, exports: &[OutputExport<'_>]) -> bool
    ensures { result ≡ list_all (export_exists spaces) exports.now }
{
    exports.iter().all(|export| export_exists(spaces, export))
}

/// Whether each memory that a segment goes to when the module starts is there.
fn memories_exist(spaces: Counts, memories: &[Option<u32>]) -> bool
    ensures { result ≡ list_all (memory_exists spaces) memories.now }
{
    memories.iter().all(|memory| memory_exists(spaces, *memory))
}

/// Whether what each symbol stands for is there.
fn symbols_exist(spaces: Counts, symbols: &[WasmSymbol<'_>]) -> bool
    ensures { result ≡ list_all (symbol_exists spaces) symbols.now }
{
    symbols.iter().all(|symbol| symbol_exists(spaces, symbol))
}

/// Whether the symbol of each function that runs at the start is there.
fn inits_exist(spaces: Counts, functions: &[WasmInitFunc]) -> bool
    ensures { result ≡ list_all (init_exists spaces) functions.now }
{
    functions
        .iter()
        .all(|function| init_exists(spaces, function))
}

/// Whether each type or symbol that a relocation names is there.
fn relocations_exist(spaces: Counts, relocations: &[WasmRelocation]) -> bool
    ensures { result ≡ list_all (relocation_exists spaces) relocations.now }
{
    relocations
        .iter()
        .all(|relocation| relocation_exists(spaces, relocation))
}

/// Whether all that the core sections name is there.
fn core_names_exist(spaces: Counts, contents: &Contents<'_>) -> bool
    ensures { result ≡ core_names_exist spaces contents.now }
{
    imports_exist(spaces, contents.parts.imports.as_slice())
        && types_exist(spaces, contents.parts.functions.as_slice())
        && exports_exist(spaces, contents.parts.exports.as_slice())
        && memories_exist(spaces, contents.parts.segment_memories.as_slice())
}

/// Whether all that the linking section and the relocations name is there.
fn linked_names_exist(spaces: Counts, contents: &Contents<'_>) -> bool
    ensures { result ≡ linked_names_exist spaces contents.now }
{
    symbols_exist(spaces, contents.parts.symbols.as_slice())
        && inits_exist(spaces, contents.parts.init_funcs.as_slice())
        && relocations_exist(spaces, contents.parts.code_relocations.as_slice())
        && relocations_exist(spaces, contents.parts.data_relocations.as_slice())
}

/// Whether each count is how many segments there are.
fn are_segments(spaces: Counts, counts: &[u32]) -> bool
    ensures { result ≡ list_all (counts_segments spaces) counts.now }
{
    counts
        .iter()
        .all(|count| *count as usize == spaces.segments)
}

/// Whether each function has its body, and the data count, where there is one, is how many
/// segments there are.
fn counts_hold(spaces: Counts, contents: &Contents<'_>) -> bool
    ensures { result ≡ counts_hold spaces contents.now }
{
    contents.parts.bodies.as_slice().len() == spaces.functions
        && are_segments(spaces, contents.parts.data_counts.as_slice())
}

/// Sees that each function has its body, that the data count is right, and that what is named
/// exists.
#[tactic(auto, using(crate::proofs::ExistLaws::names_exist))]
pub(crate) fn check_indices(contents: &Contents<'_>) -> Result<(), ReadError>
    ensures { MatchResult result (λ _. NamesExist contents.now)
        (HasCause (NamesFault contents.now)) }
{
    let spaces = spaces_of(contents);
    if !counts_hold(spaces, contents) {
        return Err(ReadError::Malformed(Why::Count));
    }
    if !core_names_exist(spaces, contents) || !linked_names_exist(spaces, contents) {
        return Err(ReadError::Malformed(Why::BadIndex));
    }
    Ok(())
}
