//! What function slots are bound to, by all rules: each is found once a link, and lent from here.

ghost use Rattle.std.specs.Prelude.{◌≡◌, map, option_map, IfOk, OnOk, Some, None, Contains, slice_get};
ghost use Rattle.std.specs.Option.{option_and_then};
ghost use Rattle.wl_custom.specs.declared.symbols.WasmSymbolKind.TheVariants.{Func};
ghost use Rattle.wl_symbols.specs.ImportSlots.{import_slots};
ghost use Rattle.wl_symbols.specs.Left.{first_slot, stub_slots, place_of_name, place_of_import};
ghost use Rattle.wl_symbols.specs.KeptSlots.{slots_from};
ghost use Rattle.wl_bind.specs.FunctionBinding.{left_functions, link_stubs, host_functions};
ghost use Rattle.wl_bind.specs.FunctionSymbols.{kept_binding, function_bindings};
ghost use Rattle.wl_bind.specs.steps.FunctionSlots.{AreFunctionSlots};
ghost use Rattle.wl_bind.specs.Resolutions.{function_resolution};
ghost use Rattle.wl_bind.specs.Shared.{function_imports, import_place, import_places};
ghost use Rattle.wl_bind.specs.SlotRows.{slot_rows};
ghost use Rattle.wl_bind.specs.BindingSteps.{host_target, left_target, left_place, left_resolution};
ghost use Rattle.wl_bind.specs.declared.resolution.ImportResolution.TheVariants.{Unresolved, WeakUndefStub};

use crate::binding::FunctionTarget;
use crate::resolution::{ImportResolution, ResolutionList};
use crate::resolving::resolved;
use crate::shared::{HostSlots, SharedImports};
use crate::slot_rows::{BoundSlot, SlotRow, SlotRows};
use crate::targets::{FunctionBindings, named_function};
use std::alloc::{AllocError, Global};
use wl_linking::WasmSymbolKind;
use wl_rows::RowList;
use wl_symbols::{
    HostImport, HostImports, ImportSlot, LinkInput, Stubs, divide_slots, fill_slots, host_imports,
    is_kept_slot, left_slots, slot_target, stubs_are_found_by_name,
};

// ---- the slots to which names bind nothing

/// The function slots to which names bind nothing: those of stubs, and those that are left to the
/// host.
#[derive(Drop)]
struct LeftFunctions<'i, 'a> {
    stub_slots: Vec<ImportSlot<'i, 'a>>,
    stubs: Stubs<'a>,
    host_slots: Vec<ImportSlot<'i, 'a>>,
    hosts: HostImports<'a>,
}

/// Divides the function slots to which names bind nothing.
fn divide_left<'i, 'a>(
    alloc: Global,
    input: &LinkInput<'i, 'a>,
) -> Result<LeftFunctions<'i, 'a>, AllocError>
    ensures stub_slots { IfOk result (λ left. left.stub_slots.items
        ≡ stub_slots input.now.link.objects (left_functions input.now)) }
    ensures stubs { IfOk result (λ left. left.stubs ≡ map first_slot (link_stubs input.now)) }
    ensures host_slots { IfOk result (λ left. left.host_slots.items ≡ host_functions input.now) }
    ensures hosts { IfOk result (λ left. left.hosts ≡ function_imports input.now) }
{
    let left = left_slots(alloc, input, WasmSymbolKind::Func)?;
    let divided = divide_slots(alloc, input.symbols(), left)?;
    let hosts = host_imports(alloc, &divided.host_slots)?;
    Ok(LeftFunctions {
        stub_slots: divided.stub_slots,
        stubs: divided.stubs,
        host_slots: divided.host_slots,
        hosts,
    })
}

/// The stubs of a link, in order of their first slots.
///
/// # Errors
/// `AllocError` where memory runs out.
pub fn stub_imports<'a>(alloc: Global, input: &LinkInput<'_, 'a>) -> Result<Stubs<'a>, AllocError>
    ensures { IfOk result (λ stubs. stubs ≡ map first_slot (link_stubs input.now)) }
{
    let left = left_slots(alloc, input, WasmSymbolKind::Func)?;
    let divided = divide_slots(alloc, input.symbols(), left)?;
    Ok(divided.stubs)
}

// ---- a slot

/// What a function slot is bound to, and what that makes of it.
#[derive(Clone, Copy)]
struct BoundFunction {
    /// Nothing where the slot isn't kept.
    target: Option<FunctionTarget>,
    slot: BoundSlot,
}

/// The host import that a slot is; a slot that is none of them stands for itself.
fn host_slot(hosts: &HostImports<'_>, slot: &ImportSlot<'_, '_>) -> BoundFunction
    ensures target { result.target ≡ Some (host_target hosts.now slot.now) }
    ensures resolution { result.slot.resolution ≡ Unresolved }
    ensures place { result.slot.place
        ≡ place_of_import slot.now.item.origin slot.now.item.name hosts.now }
{
    let place = hosts.place(slot.module(), slot.field());
    let (object, number) = match import_at(hosts.as_slice(), place) {
        None => (slot.object(), slot.number()),
        Some(host) => (host.object, host.slot),
    };
    BoundFunction {
        target: Some(FunctionTarget::Host {
            object,
            slot: number,
        }),
        slot: BoundSlot {
            resolution: ImportResolution::Unresolved,
            place,
        },
    }
}

/// The import of that place, where there is one.
fn import_at<'h, 'a>(
    imports: &'h [HostImport<'a>],
    place: Option<usize>,
) -> Option<&'h HostImport<'a>>
    ensures { option_map (λ h. h.now) result ≡ option_and_then (slice_get imports.now) place }
{
    imports.get(place?)
}

/// The stub of that place, which has the field name of the slot.
fn stub_slot(left: &LeftFunctions<'_, '_>, place: usize, slot: &ImportSlot<'_, '_>) -> BoundFunction
    requires { place_of_name slot.now.item.name left.now.stubs ≡ Some place }
    ensures target { result.target ≡ Some (left_target left.now.stubs left.now.hosts slot.now) }
    ensures resolution { result.slot.resolution ≡ WeakUndefStub place }
    ensures place { result.slot.place ≡ None }
{
    let bound = BoundSlot::without_import(ImportResolution::WeakUndefStub { stub_index: place });
    let target = match left.stubs.as_slice().get(place) {
        None => host_slot(&left.hosts, slot).target,
        Some(stub) => Some(FunctionTarget::Stub {
            object: stub.object,
            slot: stub.slot,
        }),
    };
    BoundFunction {
        target,
        slot: bound,
    }
}

/// The stub that a slot is to which names bind nothing, or else the host import.
fn left_slot(left: &LeftFunctions<'_, '_>, slot: &ImportSlot<'_, '_>) -> BoundFunction
    ensures target { result.target ≡ Some (left_target left.now.stubs left.now.hosts slot.now) }
    ensures resolution { result.slot.resolution ≡ left_resolution left.now.stubs slot.now }
    ensures place { result.slot.place ≡ left_place left.now.stubs left.now.hosts slot.now }
{
    match left.stubs.place(slot.field()) {
        None => host_slot(&left.hosts, slot),
        Some(place) => stub_slot(left, place, slot),
    }
}

/// What a function slot is bound to, where it is kept.
fn bound_slot(
    input: &LinkInput<'_, '_>,
    left: &LeftFunctions<'_, '_>,
    slot: &ImportSlot<'_, '_>,
) -> BoundFunction
    requires stubs { left.now.stubs ≡ map first_slot (link_stubs input.now) }
    requires hosts { left.now.hosts ≡ function_imports input.now }
    requires here { Contains (slots_from Func 0 input.now.link.objects) slot.now }
    ensures target { result.target ≡ kept_binding input.now slot.now }
    ensures resolution { result.slot.resolution ≡ function_resolution input.now slot.now }
    ensures place { result.slot.place
        ≡ import_place input.now Func (function_imports input.now) slot.now }
{
    stubs_are_found_by_name();
    if !is_kept_slot(input, slot) {
        return BoundFunction {
            target: None,
            slot: BoundSlot::without_import(ImportResolution::Unresolved),
        };
    }
    match slot_target(input.symbols(), slot) {
        None => left_slot(left, slot),
        Some(target) => BoundFunction {
            target: Some(named_function(target)),
            slot: BoundSlot::without_import(resolved(input, WasmSymbolKind::Func, target)),
        },
    }
}

// ---- the slots of an object

/// What the function slots of an object are bound to, slot by slot.
#[derive(Drop)]
struct FunctionRow {
    targets: Vec<Option<FunctionTarget>>,
    slots: SlotRow,
}

/// Puts what the function slots of an object are bound to in place of what the row holds. The list of
/// slots is filled anew.
fn bind_row<'i, 'a>(
    alloc: Global,
    input: &LinkInput<'i, 'a>,
    left: &LeftFunctions<'_, '_>,
    object: usize,
    slots: &mut Vec<ImportSlot<'i, 'a>>,
    row: &mut FunctionRow,
) -> Result<(), AllocError>
    requires stubs { left.now.stubs ≡ map first_slot (link_stubs input.now) }
    requires hosts { left.now.hosts ≡ function_imports input.now }
    ensures targets { OnOk result (row.new.targets.items
        ≡ map (kept_binding input.now) (import_slots input.now.link.objects object Func)) }
    ensures resolutions { OnOk result (row.new.slots.resolutions.items
        ≡ map (function_resolution input.now) (import_slots input.now.link.objects object Func)) }
    ensures places { OnOk result (row.new.slots.places.items
        ≡ map (import_place input.now Func (function_imports input.now))
        (import_slots input.now.link.objects object Func)) }
{
    fill_slots(alloc, input.symbols(), object, WasmSymbolKind::Func, slots)?;
    row.targets.clear();
    row.slots.clear();
    for slot in slots.as_slice() {
        let bound = bound_slot(input, left, slot);
        row.targets.push(bound.target)?;
        row.slots.push(bound.slot)?;
    }
    Ok(())
}

// ---- the slots of all objects

/// What the function slots of all objects are bound to, a row an object.
#[derive(Drop)]
struct FunctionRows {
    targets: RowList<Option<FunctionTarget>>,
    slots: SlotRows,
}

/// What the function slots of all objects are bound to.
fn bind_rows<'i, 'a>(
    alloc: Global,
    input: &LinkInput<'i, 'a>,
    left: &LeftFunctions<'_, '_>,
) -> Result<FunctionRows, AllocError>
    requires stubs { left.now.stubs ≡ map first_slot (link_stubs input.now) }
    requires hosts { left.now.hosts ≡ function_imports input.now }
    ensures targets { IfOk result (λ rows. rows.targets ≡ function_bindings input.now) }
    ensures resolutions { IfOk result (λ rows. rows.slots.resolutions.items
        ≡ slot_rows (function_resolution input.now) Func 0 input.now.link.objects) }
    ensures places { IfOk result (λ rows. rows.slots.places
        ≡ import_places input.now Func (function_imports input.now)) }
{
    let mut targets = RowList::new(alloc);
    let mut rows = SlotRows::new(alloc);
    let mut slots = Vec::new(alloc);
    let mut row = FunctionRow {
        targets: Vec::new(alloc),
        slots: SlotRow::new(alloc),
    };
    for object in 0..input.files().len() {
        bind_row(alloc, input, left, object, &mut slots, &mut row)?;
        targets.push(&mut row.targets)?;
        rows.push(alloc, &mut row.slots)?;
    }
    Ok(FunctionRows {
        targets,
        slots: rows,
    })
}

/// The slots of stubs, and the stubs that they are.
pub(crate) struct StubSlots<'i, 'a> {
    /// The slots, in order.
    pub(crate) slots: Vec<ImportSlot<'i, 'a>>,
    /// The stubs, in order of their first slots.
    pub(crate) stubs: Stubs<'a>,
}

impl<'i, 'a> Drop for StubSlots<'i, 'a> {
    fn drop(self) {
        let Self { slots: _, stubs: _ } = self;
    }
}

/// The function slots of a link: what each is bound to, and the stubs and host imports that some of
/// them are.
#[derive(Drop)]
pub(crate) struct FunctionSlots<'i, 'a> {
    /// What each is bound to.
    pub(crate) bindings: FunctionBindings,
    /// What each is resolved to.
    pub(crate) resolutions: Vec<ResolutionList>,
    /// Those that are stubs.
    pub(crate) weak: StubSlots<'i, 'a>,
    /// Those that are left to the host.
    pub(crate) hosts: HostSlots<'i, 'a>,
}

impl<'i, 'a> FunctionSlots<'i, 'a> {
    /// The function slots of a link.
    ///
    /// # Errors
    /// `AllocError` where memory runs out.
    pub(crate) fn new(alloc: Global, input: &LinkInput<'i, 'a>) -> Result<Self, AllocError>
        ensures { IfOk result (AreFunctionSlots input.now) }
    {
        let left = divide_left(alloc, input)?;
        let rows = bind_rows(alloc, input, &left)?;
        Ok(FunctionSlots {
            bindings: FunctionBindings::of(rows.targets),
            resolutions: rows.slots.resolutions,
            weak: StubSlots {
                slots: left.stub_slots,
                stubs: left.stubs,
            },
            hosts: HostSlots {
                slots: left.host_slots,
                shared: SharedImports {
                    imports: left.hosts,
                    places: rows.slots.places,
                },
            },
        })
    }
}
