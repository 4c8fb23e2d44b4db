//! What global slots are bound to, by all rules, where it is known what kept relocations ask for.

ghost use Rattle.std.specs.Prelude.{◌≡◌, map, IfOk};
ghost use Rattle.wl_custom.specs.declared.symbols.WasmSymbolKind.TheVariants.{Global as GlobalKind};
ghost use Rattle.wl_symbols.specs.ImportSlots.{import_slots};
ghost use Rattle.wl_bind.specs.GlobalBinding.{host_globals};
ghost use Rattle.wl_bind.specs.steps.GlobalSlots.{AreGlobalSlots, is_host_by_lists, left_global_place};
ghost use Rattle.wl_bind.specs.Later.{later_by_got};
ghost use Rattle.wl_bind.specs.Resolutions.{global_resolution};
ghost use Rattle.wl_bind.specs.Scan.{scan_of};
ghost use Rattle.wl_bind.specs.Shared.{import_place, import_places};
ghost use Rattle.wl_bind.specs.SlotRows.{slot_rows};

use crate::later::got_resolution;
use crate::resolution::{ImportResolution, ResolutionList};
use crate::resolving::resolved;
use crate::scan::RelocScan;
use crate::shared::{HostSlots, SharedImports};
use crate::slot_rows::{BoundSlot, SlotRow, SlotRows};
use std::alloc::{AllocError, Global};
use wl_linking::WasmSymbolKind;
use wl_symbols::{
    HostImports, ImportSlot, LinkInput, host_imports, import_slots, is_kept_slot, left_slots,
    slot_target,
};

/// The global slots that are left to the host, object by object.
fn host_slots<'i, 'a>(
    alloc: Global,
    input: &LinkInput<'i, 'a>,
    scan: &RelocScan<'_>,
) -> Result<Vec<ImportSlot<'i, 'a>>, AllocError>
    requires { scan.now ≡ scan_of input.now }
    ensures { IfOk result (λ slots. slots.items ≡ host_globals input.now) }
{
    let mut slots = left_slots(alloc, input, WasmSymbolKind::Global)?;
    slots.retain(
        |slot: &ImportSlot<'_, '_>| -> bool
            ensures { result ≡ is_host_by_lists scan.entry.now slot.now }
        { got_resolution(scan, slot.module(), slot.field()).is_unresolved() },
    );
    Ok(slots)
}

/// What a global slot is to which names bind nothing: an entry of a GOT list, or else the host's.
fn left_slot(scan: &RelocScan<'_>, hosts: &HostImports<'_>, slot: &ImportSlot<'_, '_>) -> BoundSlot
    ensures resolution { result.resolution
        ≡ later_by_got scan.now slot.now.item.origin slot.now.item.name }
    ensures place { result.place ≡ left_global_place scan.now hosts.now slot.now }
{
    let resolution = got_resolution(scan, slot.module(), slot.field());
    let place = if resolution.is_unresolved() {
        hosts.place(slot.module(), slot.field())
    } else {
        None
    };
    BoundSlot { resolution, place }
}

/// What a global slot is resolved to, where it is kept.
fn bound_slot(
    input: &LinkInput<'_, '_>,
    scan: &RelocScan<'_>,
    hosts: &HostImports<'_>,
    slot: &ImportSlot<'_, '_>,
) -> BoundSlot
    requires scan { scan.now ≡ scan_of input.now }
    requires kind { slot.now.kind ≡ GlobalKind }
    ensures resolution { result.resolution ≡ global_resolution input.now slot.now }
    ensures place { result.place ≡ import_place input.now GlobalKind hosts.now slot.now }
{
    if !is_kept_slot(input, slot) {
        return BoundSlot::without_import(ImportResolution::Unresolved);
    }
    match slot_target(input.symbols(), slot) {
        None => left_slot(scan, hosts, slot),
        Some(target) => {
            BoundSlot::without_import(resolved(input, WasmSymbolKind::Global, target))
        }
    }
}

/// What the global slots of an object are resolved to.
fn bind_row(
    alloc: Global,
    input: &LinkInput<'_, '_>,
    scan: &RelocScan<'_>,
    hosts: &HostImports<'_>,
    object: usize,
) -> Result<SlotRow, AllocError>
    requires { scan.now ≡ scan_of input.now }
    ensures resolutions { IfOk result (λ row. row.resolutions.items
        ≡ map (global_resolution input.now)
        (import_slots input.now.link.objects object GlobalKind)) }
    ensures places { IfOk result (λ row. row.places.items
        ≡ map (import_place input.now GlobalKind hosts.now)
        (import_slots input.now.link.objects object GlobalKind)) }
{
    let slots = import_slots(alloc, input.symbols(), object, WasmSymbolKind::Global)?;
    let mut row = SlotRow::new(alloc);
    for slot in &slots {
        row.push(bound_slot(input, scan, hosts, slot))?;
    }
    Ok(row)
}

/// What the global slots of all objects are resolved to.
fn bind_rows(
    alloc: Global,
    input: &LinkInput<'_, '_>,
    scan: &RelocScan<'_>,
    hosts: &HostImports<'_>,
) -> Result<SlotRows, AllocError>
    requires { scan.now ≡ scan_of input.now }
    ensures resolutions { IfOk result (λ rows. rows.resolutions.items
        ≡ slot_rows (global_resolution input.now) GlobalKind 0 input.now.link.objects) }
    ensures places { IfOk result
        (λ rows. rows.places ≡ import_places input.now GlobalKind hosts.now) }
{
    let mut rows = SlotRows::new(alloc);
    for object in 0..input.files().len() {
        let mut row = bind_row(alloc, input, scan, hosts, object)?;
        rows.push(alloc, &mut row)?;
    }
    Ok(rows)
}

/// The global slots of a link: what each is resolved to, and the host imports that some of them are.
#[derive(Drop)]
pub(crate) struct GlobalSlots<'i, 'a> {
    /// What each is resolved to.
    pub(crate) resolutions: Vec<ResolutionList>,
    /// Those that are left to the host.
    pub(crate) hosts: HostSlots<'i, 'a>,
}

impl<'i, 'a> GlobalSlots<'i, 'a> {
    /// The global slots of a link.
    ///
    /// # Errors
    /// `AllocError` where memory runs out.
    pub(crate) fn new(
        alloc: Global,
        input: &LinkInput<'i, 'a>,
        scan: &RelocScan<'_>,
    ) -> Result<Self, AllocError>
        requires { scan.now ≡ scan_of input.now }
        ensures { IfOk result (AreGlobalSlots input.now) }
    {
        let slots = host_slots(alloc, input, scan)?;
        let hosts = host_imports(alloc, &slots)?;
        let bound = bind_rows(alloc, input, scan, &hosts)?;
        Ok(GlobalSlots {
            resolutions: bound.resolutions,
            hosts: HostSlots {
                slots,
                shared: SharedImports {
                    imports: hosts,
                    places: bound.places,
                },
            },
        })
    }
}
