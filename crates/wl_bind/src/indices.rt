//! The indices of what the linker makes, and where the parts of the spaces begin.

ghost use Rattle.std.specs.Prelude.{◌≡◌, if◌then◌else◌, false, IfOk, IfErr, MatchOption, Some, slice_get, length, position};
ghost use Rattle.wl_symbols.specs.LinkerNames.{sort_of};
ghost use Rattle.wl_symbols.specs.declared.made_sort.MadeSort.TheVariants.{Data};
ghost use Rattle.wl_symbols.specs.Input.{Input as Linked};
ghost use Rattle.wl_bind.specs.FunctionBinding.{link_stubs};
ghost use Rattle.wl_bind.specs.FunctionTypes.{stub_types};
ghost use Rattle.wl_bind.specs.FunctionSpace.{InitMemory, stub_part, function_parts, function_space};
ghost use Rattle.wl_bind.specs.GlobalSpace.{GlobalOf, global_parts, global_space};
ghost use Rattle.wl_bind.specs.Made.{linker_needs, has_init_memory, is_made};
ghost use Rattle.wl_bind.specs.MadeIndices.{AreExported, AreMadeIndices, IsMadeIndex};
ghost use Rattle.wl_bind.specs.Parts.{total, lengths_of, AreStarts, HasEntry, IsOver};
ghost use Rattle.wl_bind.specs.Resolutions.{resolutions, by_all_rules};
ghost use Rattle.wl_bind.specs.Sameness.{same_made};
ghost use Rattle.wl_bind.specs.Scan.{scan_of};
ghost use Rattle.wl_bind.specs.Shared.{shared_of};
ghost use Rattle.wl_bind.specs.SpaceFaults.{ArePartsOver};
ghost use Rattle.wl_bind.specs.declared.binding.GlobalTarget.TheVariants as Globals;

use crate::exported::{ExportedData, exported_data};
use crate::needs::{LinkerImportAbsorption, LinkerNeeds, is_made, linker_needs};
use crate::parts::PartStarts;
use crate::resolution::ObjectImportResolutions;
use crate::scan::RelocScan;
use crate::shared::SharedUnresolvedImports;
use std::alloc::Global;
use wl_linking::{LinkError, whole_objects};
use wl_module::FuncType;
use wl_symbols::{LinkInput, MadeSort, NamedFunction, NamedGlobal, WasmLinkerSymbol};

/// The parts of the function space that come before the objects' functions, in order.
#[derive(Clone, Copy)]
enum FunctionPart {
    /// What the host is asked for.
    Hosts,
    /// What calls the constructors.
    CallCtors,
    /// What fills the block of a thread.
    InitTls,
    /// What copies data for all threads.
    InitMemory,
    /// The stubs.
    Stubs,
}

/// The parts of the global space that come before the objects' globals, in order.
#[derive(Clone, Copy)]
enum GlobalPart {
    /// What the host is asked for.
    Hosts,
    /// `__memory_base`.
    MemoryBase,
    /// `__table_base`.
    TableBase,
    /// The stack pointer.
    StackPointer,
    /// `__tls_base`.
    TlsBase,
    /// `__tls_size`.
    TlsSize,
    /// `__tls_align`.
    TlsAlign,
    /// The exported addresses of the linker's.
    Addresses,
    /// The GOT list of data.
    GotMem,
    /// The GOT list of functions.
    GotFunc,
    /// The data that `--export-dynamic` exports.
    Dynamic,
    /// The data whose names are to be exported.
    Forced,
}

/// Where the things that the linker makes stand in the spaces of the output.
pub struct LinkerDefinedIndices {
    needs: LinkerImportAbsorption,
    functions: PartStarts,
    globals: PartStarts,
    exported: ExportedData,
}

impl Drop for LinkerDefinedIndices {
    fn drop(self) {
        let Self {
            needs: _,
            functions: _,
            globals: _,
            exported: _,
        } = self;
    }
}

/// How many entries what the linker makes under a name has in the output.
fn count_made(
    input: &LinkInput<'_, '_>,
    needs: LinkerImportAbsorption,
    made: WasmLinkerSymbol,
) -> usize
    requires { needs ≡ linker_needs input.now }
    ensures { result ≡ (if is_made input.now made then 1 else 0) }
{
    usize::from(is_made(input, needs, made))
}

/// Each stub has a type, since objects are whole.
#[tactic(auto, using(crate::proofs::StubTypeLaws::stubs_typed))]
fn stubs_have_types(input: &LinkInput<'_, '_>)
    ensures { length (stub_types input.now) ≡ length (link_stubs input.now) }
{
    whole_objects();
    input.files().as_slice();
}

/// The place of a thing among these.
fn place_of(list: &[WasmLinkerSymbol], made: WasmLinkerSymbol) -> Option<usize>
    ensures { result ≡ position (λ a. same_made a made) list.now }
{
    list.iter().position(|other| *other == made)
}

/// Where the parts of the function space begin.
///
/// # Errors
/// `TooLarge` where more than 4294967294 entries come before the objects' functions.
fn function_starts(
    alloc: Global,
    input: &LinkInput<'_, '_>,
    needs: LinkerNeeds,
    shared: &SharedUnresolvedImports<'_>,
    stubs: &[FuncType],
) -> Result<PartStarts, LinkError>
    requires needs { needs.absorption ≡ linker_needs input.now }
    requires init_memory { needs.init_memory ≡ has_init_memory input.now }
    requires shared { shared.now ≡ shared_of input.now }
    requires stubs { stubs.now ≡ stub_types input.now }
    ensures ok { IfOk result (AreStarts (function_parts input.now)) }
    ensures err { IfErr result (IsOver (total (lengths_of (function_parts input.now)))) }
{
    stubs_have_types(input);
    let lengths = [
        shared.functions().len(),
        count_made(input, needs.absorption, WasmLinkerSymbol::CallCtors),
        count_made(input, needs.absorption, WasmLinkerSymbol::InitTls),
        usize::from(needs.init_memory),
        stubs.len(),
    ];
    PartStarts::new(alloc, &lengths)
}

/// Where the parts of the global space begin.
///
/// # Errors
/// `TooLarge` where more than 4294967294 entries come before the objects' globals.
fn global_starts(
    alloc: Global,
    input: &LinkInput<'_, '_>,
    needs: LinkerImportAbsorption,
    scan: &RelocScan<'_>,
    shared: &SharedUnresolvedImports<'_>,
    exported: &ExportedData,
) -> Result<PartStarts, LinkError>
    requires needs { needs ≡ linker_needs input.now }
    requires scan { scan.now ≡ scan_of input.now }
    requires shared { shared.now ≡ shared_of input.now }
    requires exported { AreExported input.now exported.now }
    ensures ok { IfOk result (AreStarts (global_parts input.now)) }
    ensures err { IfErr result (IsOver (total (lengths_of (global_parts input.now)))) }
{
    let lengths = [
        shared.globals().len(),
        count_made(input, needs, WasmLinkerSymbol::MemoryBase),
        count_made(input, needs, WasmLinkerSymbol::TableBase),
        count_made(input, needs, WasmLinkerSymbol::StackPointer),
        count_made(input, needs, WasmLinkerSymbol::TlsBase),
        count_made(input, needs, WasmLinkerSymbol::TlsSize),
        count_made(input, needs, WasmLinkerSymbol::TlsAlign),
        exported.addresses.as_slice().len(),
        scan.got_mem.len(),
        scan.got_func.len(),
        exported.dynamic.as_slice().len(),
        exported.forced.as_slice().len(),
    ];
    PartStarts::new(alloc, &lengths)
}

impl LinkerDefinedIndices {
    /// Where they stand, by what slots are resolved to, what kept relocations ask for, and what the
    /// host is asked for.
    ///
    /// # Errors
    /// `TooLarge` where more than 4294967294 entries come before the objects' functions, or before
    /// their globals.
    pub fn compute(
        alloc: Global,
        input: &LinkInput<'_, '_>,
        rows: &[ObjectImportResolutions],
        scan: &RelocScan<'_>,
        shared: &SharedUnresolvedImports<'_>,
        stubs: &[FuncType],
    ) -> Result<Self, LinkError>
        requires rows { rows.now ≡ resolutions input.now (by_all_rules input.now) }
        requires scan { scan.now ≡ scan_of input.now }
        requires shared { shared.now ≡ shared_of input.now }
        requires stubs { stubs.now ≡ stub_types input.now }
        ensures ok { IfOk result (AreMadeIndices input.now) }
        ensures err { IfErr result (ArePartsOver input.now) }
    {
        let needs = linker_needs(alloc, input, rows, scan)?;
        let functions = function_starts(alloc, input, needs, shared, stubs)?;
        let exported = exported_data(alloc, input, needs.absorption)?;
        let globals = global_starts(alloc, input, needs.absorption, scan, shared, &exported)?;
        Ok(LinkerDefinedIndices {
            needs: needs.absorption,
            functions,
            globals,
            exported,
        })
    }

    /// What kept slots and kept relocations ask for.
    pub fn needs(&self) -> LinkerImportAbsorption
        ensures { result ≡ self.now.needs }
    {
        self.needs
    }

    /// What is exported as globals with addresses.
    pub fn exported(&self) -> &ExportedData
        ensures { result.now ≡ self.now.exported }
    {
        &self.exported
    }

    /// The index after all functions that no object defines.
    pub fn functions_end(&self) -> u32
        ensures { result ≡ self.now.functions.end }
    {
        self.functions.end
    }

    /// The index after all globals that no object defines.
    pub fn globals_end(&self) -> u32
        ensures { result ≡ self.now.globals.end }
    {
        self.globals.end
    }

    /// The index of an address of the linker's that is exported.
    fn address(&self, made: WasmLinkerSymbol) -> Option<u32>
        ensures { (input : Linked) → AreMadeIndices input self.now
            → sort_of made ≡ Data → IsMadeIndex input made result }
    {
        let place = place_of(self.exported.addresses.as_slice(), made)?;
        self.globals.entry_at(GlobalPart::Addresses as usize, place)
    }

    /// The index of what the linker makes under a name, in the space of functions or of globals,
    /// where the output has it.
    pub fn index(&self, made: WasmLinkerSymbol) -> Option<u32>
        ensures { (input : Linked) → AreMadeIndices input self.now → IsMadeIndex input made result }
    {
        match made.sort() {
            MadeSort::Function(NamedFunction::CallCtors) => {
                self.functions.single(FunctionPart::CallCtors as usize)
            }
            MadeSort::Function(NamedFunction::InitTls) => {
                self.functions.single(FunctionPart::InitTls as usize)
            }
            MadeSort::Global(NamedGlobal::MemoryBase) => {
                self.globals.single(GlobalPart::MemoryBase as usize)
            }
            MadeSort::Global(NamedGlobal::TableBase) => {
                self.globals.single(GlobalPart::TableBase as usize)
            }
            MadeSort::Global(NamedGlobal::StackPointer) => {
                self.globals.single(GlobalPart::StackPointer as usize)
            }
            MadeSort::Global(NamedGlobal::TlsBase) => {
                self.globals.single(GlobalPart::TlsBase as usize)
            }
            MadeSort::Global(NamedGlobal::TlsSize) => {
                self.globals.single(GlobalPart::TlsSize as usize)
            }
            MadeSort::Global(NamedGlobal::TlsAlign) => {
                self.globals.single(GlobalPart::TlsAlign as usize)
            }
            MadeSort::Data => self.address(made),
        }
    }

    /// The index of the function that copies data for all threads, where there is one.
    pub fn init_memory(&self) -> Option<u32>
        ensures { (input : Linked) → AreMadeIndices input self.now → MatchOption result
            (has_init_memory input ≡ false)
            (λ index. slice_get (function_space input) index ≡ Some InitMemory) }
    {
        self.functions.single(FunctionPart::InitMemory as usize)
    }

    /// The index of the stub of that place in the list of stubs.
    pub fn stub(&self, place: usize) -> u32
        requires { HasEntry self.now.functions 4 place }
        ensures { (input : Linked) → AreMadeIndices input self.now
            → slice_get (function_space input) result ≡ slice_get (stub_part input) place }
    {
        self.functions.entry(FunctionPart::Stubs as usize, place)
    }

    /// The index of the global of that place in the GOT list of data.
    pub fn got_mem(&self, place: usize) -> u32
        requires { HasEntry self.now.globals 8 place }
        ensures { (input : Linked) → AreMadeIndices input self.now
            → slice_get (global_space input) result ≡ Some (GlobalOf (Globals.GotMem place)) }
    {
        self.globals.entry(GlobalPart::GotMem as usize, place)
    }

    /// The index of the global of that place in the GOT list of functions.
    pub fn got_func(&self, place: usize) -> u32
        requires { HasEntry self.now.globals 9 place }
        ensures { (input : Linked) → AreMadeIndices input self.now
            → slice_get (global_space input) result ≡ Some (GlobalOf (Globals.GotFunc place)) }
    {
        self.globals.entry(GlobalPart::GotFunc as usize, place)
    }
}
