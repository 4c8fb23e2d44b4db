//! The plan of the output module: what it holds, and what each relocation becomes.

ghost use Rattle.std.specs.Prelude.{◌≡◌};
ghost use Rattle.std.specs.List.{count_by};
ghost use Rattle.wl_plan.specs.PlannedImports.{is_function_import, is_global_import};

use std::alloc::Global;
use std::marker::Model;
use wl_data::SegmentLayouts;
use wl_features::FeatureList;
use wl_index::WasmObjectIndexMap;
use wl_linking::DebugSectionInput;
use wl_lists::ItemList;
use wl_module::{
    FuncType, GlobalType, MemoryType, OutputExport, OutputGlobal, TableType, WasmFunctionBody,
};
use wl_output::{Fixup, GlobalOrigin, OutputImportEntity};
use wl_symbols::WasmLinkerSymbol;

/// What the output takes from another module. Clauses see it as a `PlannedImport`.
#[derive(Drop)]
pub struct OutputImport<'a> {
    /// The name of the module that it is from.
    pub module: &'a str,
    /// The name that it has there.
    pub name: &'a str,
    /// What it is.
    pub entity: OutputImportEntity,
}

impl<'a> Model for OutputImport<'a> {
    ghost use Rattle.wl_plan.specs.PlannedImports.{PlannedImport};

    ghost Value = { PlannedImport };

    ghost view = { λ i. record { origin = i.module.now; name = i.name.now; entity = i.entity } };
}

/// Where a function of the output is from.
#[derive(Clone, Copy, PartialEq, Eq)]
pub enum FunctionOrigin<'a> {
    /// A function that an object defines: the object's number, and the function's in it, where
    /// definitions alone are counted.
    Object { object: usize, unit: u32 },
    /// A function that the linker makes under a name.
    Made(WasmLinkerSymbol),
    /// What copies data for all threads.
    InitMemory,
    /// What stands in the place of a weak function of that name that nothing defines.
    Stub { name: &'a str },
    /// What runs the constructors around an export of that name.
    Wrap { name: &'a str },
}

/// A function of the output that isn't imported. Clauses see it as a `PlannedFunction`.
#[derive(Drop)]
pub struct OutputFunction<'a> {
    /// Its type among the output types.
    pub type_index: u32,
    /// Where it is from.
    pub origin: FunctionOrigin<'a>,
}

impl<'a> Model for OutputFunction<'a> {
    ghost use Rattle.wl_plan.specs.Origins.{PlannedFunction};
    ghost use Rattle.wl_plan.specs.OriginsSeen.{origin_seen};

    ghost Value = { PlannedFunction };

    ghost view = { λ f. record { type_index = f.type_index; origin = origin_seen f.origin } };
}

/// A global of the output that isn't imported.
#[derive(Drop)]
pub struct PlannedGlobal<'a> {
    /// Its type, and the value that it starts with.
    pub global: OutputGlobal<'a>,
    /// Where it is from.
    pub origin: GlobalOrigin,
}

/// What the output module holds, in the order of its spaces.
#[derive(Drop)]
pub struct WasmLayout<'a> {
    /// The types, each once.
    pub output_types: ItemList<FuncType>,
    /// What is imported: functions, globals, and then the memory.
    pub imports: ItemList<OutputImport<'a>>,
    /// The functions that aren't imported, with their types.
    pub function_type_indices: ItemList<OutputFunction<'a>>,
    /// Their bodies.
    pub function_bodies: ItemList<WasmFunctionBody<'a>>,
    /// The globals that aren't imported.
    pub globals: ItemList<PlannedGlobal<'a>>,
    /// The memory, where it isn't imported.
    pub memory: Option<MemoryType>,
    /// The table, where there is one.
    pub table: Option<TableType>,
    /// The functions of the table by their indices, from its second slot on.
    pub element_functions: ItemList<u32>,
    /// The slot of each function by its index: 0 for a stub, 4294967295 for what has none.
    pub function_table_slots: ItemList<u32>,
    /// The segments, object by object, where they lie.
    pub object_data_layouts: ItemList<SegmentLayouts<'a>>,
    /// What others may refer to.
    pub exports: ItemList<OutputExport<'a>>,
    /// The function that runs at the start, where there is one.
    pub start_function: Option<u32>,
    /// The address from which that of data counts.
    pub memory_base: u32,
    /// The address from which that of data counts of which each thread has its own.
    pub tls_base: u32,
    /// Whether that data goes into a block of each thread.
    pub shared_memory_tls: bool,
    /// The bytes of that block; 0 where there is none.
    pub tls_size: u32,
    /// The alignment of that block in bytes; 0 where there is none.
    pub tls_align: u32,
    /// The address after all data.
    pub data_end: u32,
    /// How many bytes the code section takes.
    pub code_section_size: u64,
    /// How many bytes the data section takes.
    pub data_section_size: u64,
    /// The features that the module is made for, unless the words leave them out.
    pub features: FeatureList<'a>,
    /// The debug sections of all objects, by object and place, unless the words leave them out.
    pub debug_sections: ItemList<DebugSectionInput<'a>>,
    /// Where the things of each object stand, by the object's number.
    pub object_index_maps: ItemList<WasmObjectIndexMap>,
}

/// The plan of one output module.
#[derive(Drop)]
pub struct LinkPlan<'a> {
    /// What the module holds.
    pub layout: WasmLayout<'a>,
    /// What each kept relocation becomes: object by object, those in code first, in order of the
    /// fields.
    pub fixups: ItemList<Fixup>,
}

/// How many functions and how many globals the output imports.
pub fn count_output_imports(layout: &WasmLayout<'_>) -> (usize, usize)
    ensures functions { result.0 ≡ count_by is_function_import layout.now.imports }
    ensures globals { result.1 ≡ count_by is_global_import layout.now.imports }
{
    let imports = layout.imports.as_slice();
    let functions = imports
        .iter()
        .filter(|import| is_function_import(import))
        .count();
    let globals = imports
        .iter()
        .filter(|import| is_global_import(import))
        .count();
    (functions, globals)
}

/// A function is imported.
fn is_function_import(import: &OutputImport<'_>) -> bool
    ensures { result ≡ is_function_import import.now }
{
    match import.entity {
        OutputImportEntity::Function { .. } => true,
        OutputImportEntity::Global(_) | OutputImportEntity::Memory(_) => false,
    }
}

/// A global is imported.
fn is_global_import(import: &OutputImport<'_>) -> bool
    ensures { result ≡ is_global_import import.now }
{
    match import.entity {
        OutputImportEntity::Global(_) => true,
        OutputImportEntity::Function { .. } | OutputImportEntity::Memory(_) => false,
    }
}
