//! The indices of functions and globals, by the numbers that objects give them.

ghost use Rattle.std.specs.Prelude.{◌≡◌, ◌<◌, ◌≤◌, ◌^◌, ◌++◌, ℕ, true, false, length, map, IfOk, IfErr, OnOk, Some, unwrap_or, slice_get};
ghost use Rattle.std.specs.List.{AllZip};
ghost use Rattle.wl_bytes.specs.declared.reader.TheConstants.{MAX_LEN};
ghost use Rattle.wl_linking.specs.Object.{Object as SpecObject};
ghost use Rattle.wl_symbols.specs.ImportSlots.{import_slots};
ghost use Rattle.wl_index.specs.declared.index.TheConstants.{WASM_DEAD_INDEX, MAX_ENTRIES};
ghost use Rattle.wl_symbols.specs.Input.{keeps_slot};
ghost use Rattle.wl_bind.specs.MadeIndices.{AreMadeIndices};
ghost use Rattle.wl_bind.specs.steps.Numbering.{IsNumbering};
ghost use Rattle.wl_bind.specs.steps.Numbered.{HasRoom, behind_first, FitsOwn, own_indices_of, FitsPlace, HasIndex, IsIndexOfMade, IsResolvedIndex, resolution_of, HaveSlotIndices, IsSlotIndex, row_part, firsts_of, AreObjectIndices};
ghost use Rattle.wl_bind.specs.steps.OwnIndices.{own_unit, own_index, own_firsts, space_length};
ghost use Rattle.wl_bind.specs.Parts.{AreRows};
ghost use Rattle.wl_bind.specs.Bound.{bound_of};
ghost use Rattle.wl_bind.specs.Shared.{place_at};
ghost use Rattle.wl_bind.specs.declared.resolution.ObjectImportResolutions.{ObjectImportResolutions as Row};
ghost use Rattle.wl_bind.specs.SpaceFaults.{IsSpaceOver};

use crate::bound::BoundReferences;
use crate::indices::LinkerDefinedIndices;
use crate::link_laws::link_laws;
use crate::own_indices::{Own, own_firsts};
use crate::resolution::{ImportResolution, ObjectImportResolutions};
use crate::scan::RelocScan;
use crate::shared::SharedUnresolvedImports;
use crate::targets::FunctionBindings;
use std::alloc::{AllocError, Global};
use wl_index::WASM_DEAD_INDEX;
use wl_linking::{LinkError, WasmSymbolKind};
use wl_lists::ItemList;
use wl_symbols::{LinkInput, WasmGcUnit, WasmLinkerSymbol};

/// What the things of objects are numbered by.
#[derive(Drop)]
pub(crate) struct Numbering<'n, 'i, 'a> {
    /// The link.
    pub(crate) input: &'n LinkInput<'i, 'a>,
    /// What import slots are resolved to.
    pub(crate) rows: &'n [ObjectImportResolutions],
    /// What kept relocations ask for.
    pub(crate) scan: &'n RelocScan<'a>,
    /// What the host is asked for.
    pub(crate) shared: &'n SharedUnresolvedImports<'a>,
    /// The functions that function slots are bound to.
    pub(crate) bindings: &'n FunctionBindings,
    /// Where the parts of the spaces begin.
    pub(crate) indices: &'n LinkerDefinedIndices,
    /// The first index of the functions of each object.
    pub(crate) function_firsts: Vec<u32>,
    /// The first index of the globals of each object.
    pub(crate) global_firsts: Vec<u32>,
}

/// The index so many past the first one of an object.
fn behind_first(firsts: &[u32], object: usize, number: u32) -> u32
    requires { HasRoom firsts.now object number }
    ensures { result ≡ behind_first firsts.now object number }
{
    firsts[object] + number
}

/// The index of what an object defines; 4294967295 where it isn't kept.
fn own_index(input: &LinkInput<'_, '_>, firsts: &[u32], object: usize, unit: WasmGcUnit) -> u32
    requires { FitsOwn input.now firsts.now object unit }
    ensures { result ≡ own_index input.now firsts.now object unit }
{
    match input.live().live_ordinal(object, unit) {
        None => WASM_DEAD_INDEX,
        Some(number) => behind_first(firsts, object, number),
    }
}

/// Adds the indices of so many things that an object defines.
fn push_own(
    indices: &mut ItemList<u32>,
    input: &LinkInput<'_, '_>,
    own: Own,
    firsts: &[u32],
    object: usize,
    count: usize,
) -> Result<(), AllocError>
    requires few { count ≤ MAX_LEN }
    requires fits { (k : ℕ) → FitsOwn input.now firsts.now object (own_unit own k) }
    ensures { OnOk result (indices.new
        ≡ indices.old ++ own_indices_of input.now own firsts.now object count) }
{
    for number in 0..count {
        let unit = own.unit(number as u32);
        indices.push(own_index(input, firsts, object, unit))?;
    }
    Ok(())
}

impl<'n, 'i, 'a> Numbering<'n, 'i, 'a> {
    /// What the things of objects are numbered by.
    ///
    /// # Errors
    /// `TooLarge` where a space would get more than 4294967294 entries.
    pub(crate) fn new(
        alloc: Global,
        input: &'n LinkInput<'i, 'a>,
        bound: &'n BoundReferences<'a>,
        indices: &'n LinkerDefinedIndices,
    ) -> Result<Self, LinkError>
        requires bound { bound.now ≡ bound_of input.now }
        requires indices { AreMadeIndices input.now indices.now }
        ensures ok { IfOk result (IsNumbering input.now) }
        ensures err { IfErr result (IsSpaceOver input.now) }
    {
        let functions = own_firsts(alloc, input, Own::Functions, indices.functions_end())?;
        let globals = own_firsts(alloc, input, Own::Globals, indices.globals_end())?;
        Ok(Numbering {
            input,
            rows: bound.resolutions.as_slice(),
            scan: &bound.scan,
            shared: &bound.shared,
            bindings: &bound.functions,
            indices,
            function_firsts: functions,
            global_firsts: globals,
        })
    }

    /// What the slots of that kind of an object are resolved to.
    fn row(&self, own: Own, object: usize) -> &'n [ImportResolution]
        requires { object < length self.now.rows.now }
        ensures { (row : Row) → slice_get self.now.rows.now object ≡ Some row
            → result.now ≡ row_part own row }
    {
        match own {
            Own::Functions => self.rows[object].function_resolutions.as_slice(),
            Own::Globals => self.rows[object].global_resolutions.as_slice(),
        }
    }

    /// The first index of what each object defines.
    fn firsts(&self, own: Own) -> &[u32]
        ensures { result.now ≡ firsts_of self.now own }
    {
        match own {
            Own::Functions => self.function_firsts.as_slice(),
            Own::Globals => self.global_firsts.as_slice(),
        }
    }

    /// The index of the host import that a slot is.
    fn host_index(&self, kind: WasmSymbolKind, object: usize, slot: u32) -> u32
        requires { FitsPlace (place_at self.now.shared.now kind object slot) }
        ensures { result
            ≡ unwrap_or (place_at self.now.shared.now kind object slot) WASM_DEAD_INDEX }
    {
        match self.shared.place(object, kind, slot) {
            None => WASM_DEAD_INDEX,
            Some(place) => place as u32,
        }
    }

    /// The index of what the linker makes.
    fn made_index(&self, made: WasmLinkerSymbol) -> u32
        requires { AreMadeIndices self.now.input.now self.now.indices.now }
        ensures { IsIndexOfMade self.now.input.now made result }
    {
        match self.indices.index(made) {
            None => WASM_DEAD_INDEX,
            Some(index) => index,
        }
    }

    /// The index of what a slot is resolved to.
    fn resolved_index(
        &self,
        kind: WasmSymbolKind,
        object: usize,
        slot: u32,
        resolution: ImportResolution,
    ) -> u32
        requires indices { AreMadeIndices self.now.input.now self.now.indices.now }
        requires there { HasIndex self.now (place_at self.now.shared.now kind object slot)
            resolution }
        ensures { IsResolvedIndex self.now (place_at self.now.shared.now kind object slot)
            resolution result }
    {
        match resolution {
            ImportResolution::Unresolved => self.host_index(kind, object, slot),
            ImportResolution::ResolvedFunction {
                object_index,
                local_defined_index,
            } => behind_first(&self.function_firsts, object_index, local_defined_index),
            ImportResolution::ResolvedGlobal {
                object_index,
                local_defined_index,
            } => behind_first(&self.global_firsts, object_index, local_defined_index),
            ImportResolution::LinkerDefined(made) => self.made_index(made),
            ImportResolution::WeakUndefStub { stub_index } => self.indices.stub(stub_index),
            ImportResolution::GotMemSlot(place) => self.indices.got_mem(place),
            ImportResolution::GotFuncSlot(place) => self.indices.got_func(place),
        }
    }

    /// The index of what a slot is resolved to; 4294967295 where it isn't kept.
    fn slot_index(
        &self,
        kind: WasmSymbolKind,
        object: usize,
        slot: u32,
        resolution: ImportResolution,
    ) -> u32
        requires indices { AreMadeIndices self.now.input.now self.now.indices.now }
        requires there { keeps_slot self.now.input.now kind object slot ≡ true
            → HasIndex self.now (place_at self.now.shared.now kind object slot) resolution }
        ensures kept { keeps_slot self.now.input.now kind object slot ≡ true
            → IsResolvedIndex self.now (place_at self.now.shared.now kind object slot)
            resolution result }
        ensures dead { keeps_slot self.now.input.now kind object slot ≡ false
            → result ≡ WASM_DEAD_INDEX }
    {
        if self.input.keeps_slot(kind, object, slot) {
            self.resolved_index(kind, object, slot, resolution)
        } else {
            WASM_DEAD_INDEX
        }
    }

    /// The indices of what the slots of a kind of an object are resolved to.
    fn slot_indices(
        &self,
        alloc: Global,
        kind: WasmSymbolKind,
        object: usize,
        resolutions: &[ImportResolution],
    ) -> Result<ItemList<u32>, AllocError>
        requires indices { AreMadeIndices self.now.input.now self.now.indices.now }
        requires row { resolutions.now ≡ map (resolution_of self.now.input.now kind)
            (import_slots self.now.input.now.link.objects object kind) }
        requires few { length resolutions.now < 2 ^ 32 }
        requires there { HaveSlotIndices self.now kind
            (import_slots self.now.input.now.link.objects object kind) }
        ensures { IfOk result (AllZip (IsSlotIndex self.now kind)
            (import_slots self.now.input.now.link.objects object kind)) }
    {
        let mut indices = ItemList::empty(alloc);
        for (slot, resolution) in resolutions.iter().enumerate() {
            indices.push(self.slot_index(kind, object, slot as u32, *resolution))?;
        }
        Ok(indices)
    }

    /// The index of each function, or of each global, of an object: of what its import slots are
    /// bound to, and then of what it defines.
    fn indices_of(
        &self,
        alloc: Global,
        own: Own,
        object: usize,
    ) -> Result<ItemList<u32>, AllocError>
        requires numbering { IsNumbering self.now.input.now self.now }
        requires within { object < length self.now.input.now.link.objects }
        ensures { let input = self.now.input.now in IfOk result
            (λ row. (o : SpecObject) → slice_get input.link.objects object ≡ Some o
            → AreObjectIndices input own object o row) }
    {
        link_laws();
        let files = self.input.files().as_slice();
        let file = &files[object];
        file.stands_for_an_object();
        let row = self.row(own, object);
        let mut indices = self.slot_indices(alloc, own.kind(), object, row)?;
        let firsts = self.firsts(own);
        push_own(
            &mut indices,
            self.input,
            own,
            firsts,
            object,
            own.count(file),
        )?;
        Ok(indices)
    }

    /// The indices of the functions, or of the globals, of each object.
    ///
    /// # Errors
    /// `AllocError` where memory runs out.
    pub(crate) fn rows_of(&self, alloc: Global, own: Own) -> Result<Vec<ItemList<u32>>, AllocError>
        requires { IsNumbering self.now.input.now self.now }
        ensures { let input = self.now.input.now in IfOk result
            (λ rows. AreRows (AreObjectIndices input own) 0 input.link.objects rows.items) }
    {
        let mut rows = Vec::new(alloc);
        for object in 0..self.input.files().len() {
            rows.push(self.indices_of(alloc, own, object)?)?;
        }
        Ok(rows)
    }
}
