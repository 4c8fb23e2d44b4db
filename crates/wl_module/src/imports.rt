//! The import section: what a module takes from others.

ghost use Rattle.std.specs.Prelude.{◌≡◌, IfOk, ◌≤◌, length};
ghost use Rattle.wl_bytes.specs.declared.reader.TheConstants.{MAX_LEN};
ghost use Rattle.wl_module.specs.Imports.{external_kind_at, entity_at, import_at, is_memory, plain_imports, ArePlacedImports, AreImports, ImportsFault, function_import, global_import};
ghost use Rattle.wl_bytes.specs.Outcome.{Yields, ReadsWhole, AreAlternatives};

use crate::globals::{GlobalType, read_global_type};
use crate::limits::{MemoryType, TableType, read_memory_type, read_table_type};
use std::alloc::{AllocError, Global};
use std::marker::Model;
use wl_bytes::{Form, Item, ReadError, Reader, Why, read_payload, read_placed_name};

/// What can be imported and exported.
#[derive(Clone, Copy, PartialEq, Eq)]
pub enum ExternalKind {
    /// A function.
    Func,
    /// A table.
    Table,
    /// A memory.
    Memory,
    /// A global.
    Global,
}

/// What is imported, with its type.
#[derive(Clone, Copy, PartialEq, Eq)]
pub enum ImportEntity {
    /// A function, with the index of its type.
    Func(u32),
    /// A table of references to functions.
    Table(TableType),
    /// A memory.
    Memory(MemoryType),
    /// A global.
    Global(GlobalType),
}

/// What a module takes from another one. Clauses see it as an `Imported`, a record with the names
/// as lists.
#[derive(Drop)]
pub struct Import<'a> {
    /// The name of the module that it is from.
    pub module: &'a str,
    /// The name that it has there.
    pub name: &'a str,
    /// What it is.
    pub entity: ImportEntity,
}

impl<'a> Model for Import<'a> {
    ghost use Rattle.wl_module.specs.Imports.{Imported};

    ghost Value = { Imported };

    ghost view = { λ i. record { origin = i.module.now; name = i.name.now; entity = i.entity } };
}

/// An import that says where its name stands. Clauses see it as a `PlacedImported`.
#[derive(Drop)]
pub struct PlacedImport<'a> {
    /// The import.
    pub import: Import<'a>,
    /// How many bytes of the section's payload lie before the name that it has in its module.
    pub name_offset: usize,
}

impl<'a> Model for PlacedImport<'a> {
    ghost use Rattle.wl_module.specs.Imports.{PlacedImported};

    ghost Value = { PlacedImported };

    ghost view = { λ p. record { import = p.import; name_offset = p.name_offset } };
}

/// An imported function. Clauses see it as an `ImportedFunction`.
#[derive(Drop)]
pub struct WasmFunctionImport<'a> {
    /// The name of the module that it is from.
    pub module: &'a str,
    /// The name that it has there.
    pub name: &'a str,
    /// The index of its type.
    pub type_index: u32,
}

impl<'a> Model for WasmFunctionImport<'a> {
    ghost use Rattle.wl_module.specs.Imports.{ImportedFunction};

    ghost Value = { ImportedFunction };

    ghost view = { λ i. record {
      origin = i.module.now;
      name = i.name.now;
      type_index = i.type_index;
    } };
}

/// An imported global. Clauses see it as an `ImportedGlobal`.
#[derive(Drop)]
pub struct WasmGlobalImport<'a> {
    /// The name of the module that it is from.
    pub module: &'a str,
    /// The name that it has there.
    pub name: &'a str,
    /// Its type.
    pub ty: GlobalType,
}

impl<'a> Model for WasmGlobalImport<'a> {
    ghost use Rattle.wl_module.specs.Imports.{ImportedGlobal};

    ghost Value = { ImportedGlobal };

    ghost view = { λ i. record { origin = i.module.now; name = i.name.now; ty = i.ty } };
}

impl<'a> Import<'a> {
    /// The import as one of a function, where it is one.
    pub fn as_function(&self) -> Option<WasmFunctionImport<'a>>
        ensures { result ≡ function_import self.now }
    {
        match self.entity {
            ImportEntity::Func(type_index) => Some(WasmFunctionImport {
                module: self.module,
                name: self.name,
                type_index,
            }),
            ImportEntity::Table(_) | ImportEntity::Memory(_) | ImportEntity::Global(_) => None,
        }
    }

    /// The import as one of a global, where it is one.
    pub fn as_global(&self) -> Option<WasmGlobalImport<'a>>
        ensures { result ≡ global_import self.now }
    {
        match self.entity {
            ImportEntity::Global(ty) => Some(WasmGlobalImport {
                module: self.module,
                name: self.name,
                ty,
            }),
            ImportEntity::Func(_) | ImportEntity::Table(_) | ImportEntity::Memory(_) => None,
        }
    }

    /// Whether a memory is imported.
    fn is_memory(&self) -> bool
        ensures { result ≡ is_memory self.now.entity }
    {
        match self.entity {
            ImportEntity::Memory(_) => true,
            ImportEntity::Func(_) | ImportEntity::Table(_) | ImportEntity::Global(_) => false,
        }
    }
}

/// The byte that gives the kind of what is imported or exported.
#[tactic(auto, unfolding(crate::specs::Imports::external_kind_at))]
pub(crate) fn read_external_kind(reader: &mut Reader<'_>) -> Result<ExternalKind, ReadError>
    ensures { Yields (λ k. k) result reader.new (external_kind_at reader.old) }
{
    match reader.read_u8()? {
        0 => Ok(ExternalKind::Func),
        1 => Ok(ExternalKind::Table),
        2 => Ok(ExternalKind::Memory),
        3 => Ok(ExternalKind::Global),
        4 => Err(ReadError::Unsupported(Form::Tag)),
        _ => Err(ReadError::Malformed(Why::BadByte)),
    }
}

/// What is imported, of a kind that is known.
#[tactic(auto, unfolding(crate::specs::Imports::entity_at))]
fn read_entity(kind: ExternalKind, reader: &mut Reader<'_>) -> Result<ImportEntity, ReadError>
    ensures { Yields (λ e. e) result reader.new (entity_at kind reader.old) }
{
    match kind {
        ExternalKind::Func => Ok(ImportEntity::Func(reader.read_u32()?)),
        ExternalKind::Table => Ok(ImportEntity::Table(read_table_type(reader)?)),
        ExternalKind::Memory => Ok(ImportEntity::Memory(read_memory_type(reader)?)),
        ExternalKind::Global => Ok(ImportEntity::Global(read_global_type(reader)?)),
    }
}

/// The next import, with the place of its name.
#[tactic(auto, unfolding(crate::specs::Imports::import_at))]
fn read_import<'a>(reader: &mut Reader<'a>) -> Result<PlacedImport<'a>, ReadError>
    ensures { Yields (λ i. i) result reader.new (import_at reader.old) }
{
    let module = reader.read_name()?;
    let (name, name_offset) = read_placed_name(reader)?;
    let kind = read_external_kind(reader)?;
    let entity = read_entity(kind, reader)?;
    let import = Import {
        module,
        name,
        entity,
    };
    Ok(PlacedImport {
        import,
        name_offset,
    })
}

impl<'a> Item<'a> for PlacedImport<'a> {
    ghost use Rattle.wl_bytes.specs.declared.read_error.Form.TheVariants.{ManyMemories};
    ghost use Rattle.wl_bytes.specs.declared.read_error.ReadError.TheVariants.{Unsupported};
    ghost use Rattle.wl_bytes.specs.Chains.{once_at, seen_then};
    ghost use Rattle.wl_module.specs.Imports.{import_at, imports_memory};

    /// Whether a memory is imported already.
    type Under = bool;

    ghost item_at = { once_at import_at imports_memory (Unsupported ManyMemories) };

    ghost after = { seen_then imports_memory };

    fn read(_alloc: Global, seen: &mut bool, reader: &mut Reader<'a>) -> Result<Self, ReadError> {
        let placed = read_import(reader)?;
        if *seen && placed.import.is_memory() {
            return Err(ReadError::Unsupported(Form::ManyMemories));
        }
        *seen = *seen || placed.import.is_memory();
        Ok(placed)
    }
}

/// The imports by themselves.
fn without_places<'a>(
    alloc: Global,
    placed: Vec<PlacedImport<'a>>,
) -> Result<Vec<Import<'a>>, AllocError>
    ensures { IfOk result (λ v. v.items ≡ plain_imports placed.entry.items) }
{
    let mut imports = Vec::with_capacity(alloc, placed.len())?;
    for placed in placed {
        imports.push(placed.import)?;
    }
    Ok(imports)
}

/// Reads the payload of an import section (core specification, "Import Section"): the imports in
/// order, their names slices of the payload. The indices of types aren't looked at.
///
/// # Errors
/// Of an import the names are judged first, then its kind (`Malformed(BadByte)`, and
/// `Unsupported(Tag)` for an exception tag), then its type. A table of other elements than
/// `funcref` is `Unsupported(TableType)`, a shared or 64-bit one `Unsupported(TableForm)`; a memory
/// with addresses of 64 bits `Unsupported(Memory64)`, with pages of another size
/// `Unsupported(PageSize)`; limits that can't be are `Malformed(BadLimits)`. A second memory is
/// `Unsupported(ManyMemories)`, once its limits are read. `OutOfMemory` comes where memory
/// runs out.
pub fn read_imports(alloc: Global, payload: &[u8]) -> Result<Vec<Import<'_>>, ReadError>
    requires { length payload.now ≤ MAX_LEN }
    ensures reads { ReadsWhole (λ v. v.items) AreImports ImportsFault payload.now result }
    ensures count { IfOk result (λ v. length v.items ≤ length payload.now) }
{
    let placed = read_payload(alloc, false, payload)?;
    Ok(without_places(alloc, placed)?)
}

/// Reads the same as [`read_imports`], and says for each import where its name stands in the
/// payload.
///
/// # Errors
/// Those of [`read_imports`].
pub fn read_placed_imports(
    alloc: Global,
    payload: &[u8],
) -> Result<Vec<PlacedImport<'_>>, ReadError>
    requires { length payload.now ≤ MAX_LEN }
    ensures reads { ReadsWhole (λ v. v.items) ArePlacedImports ImportsFault payload.now result }
    ensures count { IfOk result (λ v. length v.items ≤ length payload.now) }
{
    read_payload(alloc, false, payload)
}

/// Each payload spells one list of imports and places of names or has one fault, and never both.
pub fn placed_imports_or_fault()
    ensures { AreAlternatives ArePlacedImports ImportsFault }
{}

/// Each payload spells one list of imports or has one fault, and never both.
#[tactic(auto, using(wl_bytes::proofs::ListLaws::exact, crate::proofs::ImportLaws::imports_reading))]
pub fn imports_or_fault()
    ensures { AreAlternatives AreImports ImportsFault }
{}
