//! Addresses that are exported, as globals: of data that the linker makes, and of data symbols.

ghost use Rattle.std.specs.Prelude.{◌≡◌, ◌++◌, OnOk, IfOk};
ghost use Rattle.wl_bind.specs.ExportedAddresses.{data_named, exported_addresses};
ghost use Rattle.wl_bind.specs.ExportedData.{is_dynamic_data, dynamic_data, is_made_name, is_dynamic, forced_by, forced_data};
ghost use Rattle.wl_bind.specs.steps.Exported.{forced_alone};
ghost use Rattle.wl_bind.specs.GotSteps.{insert_some};
ghost use Rattle.wl_bind.specs.Made.{linker_needs};
ghost use Rattle.wl_bind.specs.MadeIndices.{AreExported};

use crate::needs::{LinkerImportAbsorption, is_made};
use indexmap::IndexSet;
use std::alloc::{AllocError, Global};
use std::hash::Hash;
use wl_linking::WasmSymbol;
use wl_lists::ItemList;
use wl_symbols::{Definition, LinkInput, WasmLinkerSymbol, is_candidate};
use wl_words::WasmArgs;

/// A data symbol, by the number of its object and its own.
#[derive(Clone, Copy, PartialEq, Eq, Hash)]
pub struct DataSymbol {
    /// The number of the object.
    pub object: usize,
    /// The number of the symbol in the object.
    pub symbol: u32,
}

/// What is exported as globals with addresses.
pub struct ExportedData {
    /// The data that the linker makes whose names are to be exported, each once.
    pub addresses: IndexSet<WasmLinkerSymbol>,
    /// The named data symbols that `--export-dynamic` exports, by object and symbol.
    pub dynamic: ItemList<DataSymbol>,
    /// The data symbols whose names are to be exported, each once, the former aside.
    pub forced: IndexSet<DataSymbol>,
}

impl Drop for ExportedData {
    fn drop(self) {
        let Self {
            addresses: _,
            dynamic: _,
            forced: _,
        } = self;
    }
}

// ---- data that the linker makes

/// The data that the linker makes under a name.
fn data_named(name: &str) -> Option<WasmLinkerSymbol>
    ensures { result ≡ data_named name.now }
{
    WasmLinkerSymbol::parse(name).filter(|made| made.exported_as_data_global(true))
}

/// The data that the linker makes whose names are to be exported.
fn exported_addresses(
    alloc: Global,
    args: &WasmArgs,
) -> Result<IndexSet<WasmLinkerSymbol>, AllocError>
    ensures { IfOk result (λ list. list.keys ≡ exported_addresses args.now) }
{
    let mut list = IndexSet::new(alloc);
    for name in args.force_export_symbol_names() {
        insert_some(&mut list, data_named(name.as_str()))?;
    }
    Ok(list)
}

/// Adds a thing, where there is one, to a set, unless it stands there.
fn insert_some<T: Copy + Eq + Hash + Drop>(
    set: &mut IndexSet<T>,
    item: Option<T>,
) -> Result<(), AllocError>
    ensures { OnOk result (set.new.keys ≡ insert_some T.eq set.old.keys item) }
{
    if let Some(item) = item {
        set.insert(item)?;
    }
    Ok(())
}

// ---- with `--export-dynamic`

/// Whether it is a named data symbol that `--export-dynamic` exports.
fn is_dynamic_data(
    input: &LinkInput<'_, '_>,
    object: usize,
    number: u32,
    symbol: &WasmSymbol<'_>,
) -> bool
    ensures { result ≡ is_dynamic_data input.now object number symbol.now }
{
    symbol.kind.is_data()
        && symbol.has_name()
        && is_candidate(input.symbols(), object, number, symbol)
}

/// The named data symbols that `--export-dynamic` exports, where it is given.
fn dynamic_data(
    alloc: Global,
    input: &LinkInput<'_, '_>,
) -> Result<ItemList<DataSymbol>, AllocError>
    ensures { IfOk result (λ list. list ≡ dynamic_data input.now) }
{
    let files = input.files().as_slice();
    let mut list = ItemList::empty(alloc);
    if input.args().export_dynamic {
        for (object, file) in files.iter().enumerate() {
            file.stands_for_an_object();
            for (i, symbol) in file.symbols().iter().enumerate() {
                let number = i as u32;
                if is_dynamic_data(input, object, number, symbol) {
                    list.push(DataSymbol {
                        object,
                        symbol: number,
                    })?;
                }
            }
        }
    }
    Ok(list)
}

// ---- by their names

/// Whether the output has something that the linker makes under the name.
fn is_made_name(input: &LinkInput<'_, '_>, needs: LinkerImportAbsorption, name: &str) -> bool
    requires { needs ≡ linker_needs input.now }
    ensures { result ≡ is_made_name input.now name.now }
{
    match WasmLinkerSymbol::parse(name) {
        None => false,
        Some(made) => is_made(input, needs, made),
    }
}

/// Whether a data symbol is exported anyway.
fn is_dynamic(input: &LinkInput<'_, '_>, place: DataSymbol) -> bool
    ensures { result ≡ is_dynamic input.now place }
{
    if !input.args().export_dynamic {
        return false;
    }
    match input.symbols().symbol(place.object, place.symbol) {
        None => false,
        Some(symbol) => is_dynamic_data(input, place.object, place.symbol, symbol),
    }
}

/// The data of an object that a name stands for, unless the linker makes the name.
fn forced_by(
    input: &LinkInput<'_, '_>,
    needs: LinkerImportAbsorption,
    name: &str,
) -> Option<DataSymbol>
    requires { needs ≡ linker_needs input.now }
    ensures { result ≡ forced_by input.now name.now }
{
    if is_made_name(input, needs, name) {
        return None;
    }
    let Definition::Symbol { object, symbol } = input.symbols().lookup(name)? else {
        return None;
    };
    let found = input.symbols().symbol(object, symbol)?;
    found
        .is_defined_data()
        .then_some(DataSymbol { object, symbol })
}

/// The data of an object that a name stands for, unless it is exported anyway.
fn forced_alone(
    input: &LinkInput<'_, '_>,
    needs: LinkerImportAbsorption,
    name: &str,
) -> Option<DataSymbol>
    requires { needs ≡ linker_needs input.now }
    ensures { result ≡ forced_alone input.now name.now }
{
    let place = forced_by(input, needs, name)?;
    (!is_dynamic(input, place)).then_some(place)
}

/// The data symbols whose names are to be exported; those that are exported anyway aside.
fn forced_data(
    alloc: Global,
    input: &LinkInput<'_, '_>,
    needs: LinkerImportAbsorption,
) -> Result<IndexSet<DataSymbol>, AllocError>
    requires { needs ≡ linker_needs input.now }
    ensures { IfOk result (λ list. list.keys ≡ forced_data input.now) }
{
    let mut list = IndexSet::new(alloc);
    for name in input.args().force_export_symbol_names() {
        insert_some(&mut list, forced_alone(input, needs, name.as_str()))?;
    }
    Ok(list)
}

/// What is exported as globals with addresses.
///
/// # Errors
/// `AllocError` where memory runs out.
pub(crate) fn exported_data(
    alloc: Global,
    input: &LinkInput<'_, '_>,
    needs: LinkerImportAbsorption,
) -> Result<ExportedData, AllocError>
    requires { needs ≡ linker_needs input.now }
    ensures { IfOk result (AreExported input.now) }
{
    Ok(ExportedData {
        addresses: exported_addresses(alloc, input.args())?,
        dynamic: dynamic_data(alloc, input)?,
        forced: forced_data(alloc, input, needs)?,
    })
}
