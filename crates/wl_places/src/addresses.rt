//! Where data symbols lie.

ghost use Rattle.std.specs.Prelude.{◌≡◌, ◌<◌, length, Some, IfOk, OnOk, IfErr, slice_get};
ghost use Rattle.wl_linking.specs.Steps.{Refuses};
ghost use Rattle.wl_linking.specs.declared.error.LinkError.TheVariants.{TooLarge};
ghost use Rattle.wl_linking.specs.declared.error.Quantity.TheVariants.{Address};
ghost use Rattle.wl_symbols.specs.LinkerAddresses.{IsTooHigh};
ghost use Rattle.wl_bind.specs.ExportedAddresses.{exported_addresses};
ghost use Rattle.wl_places.specs.AddressSteps.{AreOnce, starts_among, AreStarts, IsBook, HasSegment, HasSymbol, IsSymbolAt, IsHighAt, IsHighIn, AreLowIn};
ghost use Rattle.wl_places.specs.Addresses.{start_of, layouts_of, segment_start, behind, IsHigh, data_by, linker_address, address_of_definition, symbol_address, symbol_addresses, HasHighExport};
ghost use Rattle.wl_places.specs.Placing.{IsPlacing};

use crate::placing::Placing;
use std::alloc::{AllocError, Global};
use wl_bind::ExportedData;
use wl_data::{WasmDataSegmentLayout, past_last_address, segments_have_layouts};
use wl_index::WasmDataAddress;
use wl_linking::{File, LinkError, WasmSymbol, whole_objects};
use wl_lists::ItemList;
use wl_symbols::{Definition, LinkInput, WasmLinkerSymbol};

// ---- segments

/// Where a segment of the output begins.
fn start_of(layout: &WasmDataSegmentLayout<'_>) -> WasmDataAddress
    ensures { result ≡ start_of layout.now }
{
    if layout.tls_template {
        WasmDataAddress::TlsOffset(layout.output_memory_offset)
    } else if !layout.passive || layout.shared_init {
        WasmDataAddress::Placed(layout.output_memory_offset)
    } else {
        WasmDataAddress::Passive
    }
}

/// Where each segment of an object begins, by its number there: nowhere where it isn't kept.
fn object_starts(
    alloc: Global,
    layouts: &[WasmDataSegmentLayout<'_>],
    count: usize,
) -> Result<ItemList<WasmDataAddress>, AllocError>
    requires { AreOnce count layouts.now }
    ensures { IfOk result (λ starts. starts ≡ starts_among layouts.now count) }
{
    let mut starts = vec![in alloc; WasmDataAddress::Missing; count]?;
    for layout in layouts {
        starts[layout.segment_index as usize] = start_of(layout);
    }
    Ok(ItemList::new(starts))
}

/// The segments that the output has of an object.
pub(crate) fn layouts_of<'p, 'a>(
    placing: &'p Placing<'a>,
    object: usize,
) -> &'p [WasmDataSegmentLayout<'a>]
    requires { object < length placing.now.places.layouts }
    ensures { slice_get placing.now.places.layouts object ≡ Some result.now }
{
    let layouts = placing.places.layouts.as_slice();
    layouts[object].as_slice()
}

/// Where the segments of an object begin.
fn starts_row(starts: &[ItemList<WasmDataAddress>], object: usize) -> &[WasmDataAddress]
    requires { object < length starts.now }
    ensures { slice_get starts.now object ≡ Some result.now }
{
    starts[object].as_slice()
}

/// Where each segment of each object begins, object by object and by its number there.
///
/// # Errors
/// `AllocError` where memory runs out.
pub fn all_starts(
    alloc: Global,
    input: &LinkInput<'_, '_>,
    placing: &Placing<'_>,
) -> Result<ItemList<ItemList<WasmDataAddress>>, AllocError>
    requires { IsPlacing input.now placing.now }
    ensures { IfOk result (AreStarts input.now placing.now) }
{
    segments_have_layouts();
    let mut starts = Vec::new(alloc);
    for (object, file) in input.files().as_slice().iter().enumerate() {
        let layouts = layouts_of(placing, object);
        starts.push(object_starts(alloc, layouts, file.num_data_segments())?)?;
    }
    Ok(ItemList::new(starts))
}

// ---- definitions

/// What says where definitions lie: of each symbol of data the address, counted in bytes from the
/// start of the memory, or from that of each thread's block.
#[derive(Drop)]
pub struct AddressBook<'b, 'i, 'a> {
    /// The link, and what is kept of it.
    pub input: &'b LinkInput<'i, 'a>,
    /// Where data, stack and heap lie.
    pub placing: &'b Placing<'a>,
    /// Where each segment of each object begins.
    pub starts: &'b [ItemList<WasmDataAddress>],
}

/// So many bytes past an address.
///
/// # Errors
/// `TooLarge` where that is past the last one.
fn behind(address: WasmDataAddress, offset: u32) -> Result<WasmDataAddress, LinkError>
    ensures ok { IfOk result (λ a. a ≡ behind address offset) }
    ensures low { OnOk result (IsHigh (behind address offset) → ⊥) }
    ensures err { IfErr result (IsHighAt (behind address offset)) }
{
    match address {
        WasmDataAddress::Missing => Ok(WasmDataAddress::Missing),
        WasmDataAddress::Passive => Ok(WasmDataAddress::Passive),
        WasmDataAddress::Placed(place) => match place.checked_add(offset) {
            Some(place) => Ok(WasmDataAddress::Placed(place)),
            None => Err(past_last_address()),
        },
        WasmDataAddress::TlsOffset(place) => match place.checked_add(offset) {
            Some(place) => Ok(WasmDataAddress::TlsOffset(place)),
            None => Err(past_last_address()),
        },
    }
}

/// The address of data that the linker makes; other things have none.
///
/// # Errors
/// `TooLarge` where it is past the last one.
pub fn linker_address(
    input: &LinkInput<'_, '_>,
    placing: &Placing<'_>,
    made: WasmLinkerSymbol,
) -> Result<Option<u32>, LinkError>
    ensures ok { IfOk result (λ a. a ≡ linker_address input.now placing.now made) }
    ensures low { OnOk result (IsTooHigh (linker_address input.now placing.now made) → ⊥) }
    ensures err { IfErr result (λ e. (e ≡ TooLarge Address)
        × IsTooHigh (linker_address input.now placing.now made)) }
{
    let args = input.args();
    made.data_address(
        placing.places.data_start,
        placing.places.data_end,
        args.z_stack_size,
        Some(placing.heap_end),
        args.stack_first,
    )
}

impl<'b, 'i, 'a> AddressBook<'b, 'i, 'a> {
    /// Where a segment of an object begins.
    pub fn start(&self, object: usize, number: u32) -> WasmDataAddress
        requires book { IsBook self.now }
        requires here { HasSegment self.now.input.now.link.objects object number }
        ensures { result ≡ segment_start (layouts_of self.now.placing.now object) number }
    {
        let starts = starts_row(self.starts, object);
        starts[number as usize]
    }

    /// The address of what a symbol of an object defines, if that is data.
    fn of_defined(
        &self,
        object: usize,
        file: &File<'_>,
        symbol: &WasmSymbol<'_>,
    ) -> Result<WasmDataAddress, LinkError>
        requires book { IsBook self.now }
        requires here { slice_get self.now.input.now.link.objects object ≡ Some file.now }
        requires among { HasSymbol file.now symbol.now }
        ensures ok { IfOk result (λ a. a ≡ data_by self.now.placing.now object symbol.now) }
        ensures low { OnOk result (IsHigh (data_by self.now.placing.now object symbol.now) → ⊥) }
        ensures err { IfErr result (IsHighAt (data_by self.now.placing.now object symbol.now)) }
    {
        file.stands_for_an_object();
        whole_objects();
        if !symbol.is_defined_data() {
            return Ok(WasmDataAddress::Missing);
        }
        if symbol.is_absolute() {
            return Ok(WasmDataAddress::Placed(symbol.offset));
        }
        behind(self.start(object, symbol.index), symbol.offset)
    }

    /// The address of a definition.
    ///
    /// # Errors
    /// `TooLarge` where it is past the last one.
    pub fn of_definition(&self, definition: Definition) -> Result<WasmDataAddress, LinkError>
        requires { IsBook self.now }
        ensures ok { IfOk result
            (λ a. a ≡ address_of_definition self.now.input.now self.now.placing.now definition) }
        ensures low { OnOk result (IsHigh
            (address_of_definition self.now.input.now self.now.placing.now definition) → ⊥) }
        ensures err { IfErr result (IsHighAt
            (address_of_definition self.now.input.now self.now.placing.now definition)) }
    {
        match definition {
            Definition::Symbol { object, symbol } => {
                let Some(file) = self.input.files().get(object) else {
                    return Ok(WasmDataAddress::Missing);
                };
                match file.symbols().get(symbol as usize) {
                    Some(symbol) => self.of_defined(object, file, symbol),
                    None => Ok(WasmDataAddress::Missing),
                }
            }
            Definition::Made(made) => match linker_address(self.input, self.placing, made)? {
                Some(address) => Ok(WasmDataAddress::Placed(address)),
                None => Ok(WasmDataAddress::Missing),
            },
        }
    }

    /// The address of a data symbol of an object; other symbols have none.
    fn of_symbol(
        &self,
        object: usize,
        number: u32,
        symbol: &WasmSymbol<'_>,
    ) -> Result<WasmDataAddress, LinkError>
        requires book { IsBook self.now }
        requires here { IsSymbolAt self.now.input.now.link.objects object number symbol.now }
        ensures ok { IfOk result
            (λ a. a ≡ symbol_address self.now.input.now self.now.placing.now object number) }
        ensures low { OnOk result
            (IsHigh (symbol_address self.now.input.now self.now.placing.now object number) → ⊥) }
        ensures err { IfErr result (IsHighAt
            (symbol_address self.now.input.now self.now.placing.now object number)) }
    {
        if !symbol.kind.is_data() {
            return Ok(WasmDataAddress::Missing);
        }
        self.of_definition(self.input.symbols().definition(object, number))
    }

    /// The addresses of the data symbols of an object.
    ///
    /// # Errors
    /// `TooLarge` where one is past the last one.
    pub(crate) fn of_object(
        &self,
        alloc: Global,
        object: usize,
        file: &File<'a>,
    ) -> Result<ItemList<WasmDataAddress>, LinkError>
        requires book { IsBook self.now }
        requires here { slice_get self.now.input.now.link.objects object ≡ Some file.now }
        ensures ok { IfOk result (λ row. row
            ≡ symbol_addresses self.now.input.now self.now.placing.now object file.now) }
        ensures low { OnOk result (AreLowIn self.now object file.now) }
        ensures err { IfErr result (Refuses (IsHighIn self.now object)) }
    {
        file.stands_for_an_object();
        let symbols = file.symbols();
        let mut addresses = Vec::with_capacity(alloc, symbols.len())?;
        for (number, symbol) in symbols.iter().enumerate() {
            addresses.push(self.of_symbol(object, number as u32, symbol)?)?;
        }
        Ok(ItemList::new(addresses))
    }
}

/// Refuses exported data of the linker's past the last address.
///
/// # Errors
/// `TooLarge` where the address of one is past the last one.
pub fn check_exported(
    input: &LinkInput<'_, '_>,
    placing: &Placing<'_>,
    exported: &ExportedData,
) -> Result<(), LinkError>
    requires { exported.now.addresses.keys ≡ exported_addresses input.now.link.args }
    ensures clear { OnOk result (HasHighExport input.now placing.now → ⊥) }
    ensures err { IfErr result (λ e. (e ≡ TooLarge Address) × HasHighExport input.now placing.now) }
{
    for made in exported.addresses.as_slice() {
        linker_address(input, placing, *made)?;
    }
    Ok(())
}
