//! Functions and globals that nothing defines.

ghost use Rattle.std.specs.Prelude.{◌≡◌, option_map, filter_map, IfOk, OnOk, IfErr};
ghost use Rattle.indexmap.specs.IndexSet.{insert_all};
ghost use Rattle.wl_linking.specs.Steps.{Clear, Refuses};
ghost use Rattle.wl_bind.specs.Resolutions.{resolutions, by_all_rules};
ghost use Rattle.wl_bind.specs.Undefined.{same_undefined, undefined_import_of, undefined_imports, IsUndefinedImport};
ghost use Rattle.wl_bind.specs.UndefinedSteps.{as_undefined};
ghost use Rattle.wl_bind.specs.steps.Shared.{resolution_at, is_host_at};

use crate::resolution::{ImportResolution, ObjectImportResolutions};
use crate::undefined::{UndefinedNames, wants_definition};
use std::alloc::{AllocError, Global};
use wl_linking::{LinkError, WasmSymbol, WasmSymbolKind};
use wl_symbols::LinkInput;

/// What the slot of that kind and number of an object is resolved to, if there is one.
fn resolution_at(
    rows: &[ObjectImportResolutions],
    kind: WasmSymbolKind,
    object: usize,
    number: u32,
) -> Option<ImportResolution>
    ensures { result ≡ resolution_at rows.now kind object number }
{
    let row = rows.get(object)?;
    match kind {
        WasmSymbolKind::Func => row.function_resolutions.get(number as usize),
        WasmSymbolKind::Global => row.global_resolutions.get(number as usize),
        WasmSymbolKind::Data
        | WasmSymbolKind::Section
        | WasmSymbolKind::Event
        | WasmSymbolKind::Table => None,
    }
}

/// Whether there is a slot of that kind and number of an object, and it is left to the host: it is
/// kept, and no rule resolves it.
pub(crate) fn is_host_at(
    input: &LinkInput<'_, '_>,
    rows: &[ObjectImportResolutions],
    kind: WasmSymbolKind,
    object: usize,
    number: u32,
) -> bool
    requires rows { rows.now ≡ resolutions input.now (by_all_rules input.now) }
    ensures { result ≡ is_host_at input.now kind object number }
{
    match resolution_at(rows, kind, object, number) {
        None => false,
        Some(resolution) => { input.keeps_slot(kind, object, number) && resolution.is_unresolved() }
    }
}

/// The object and the name of a function or global symbol that has to be defined, and whose slot is
/// left to the host, if it is such a one.
fn undefined_import_of<'a>(
    input: &LinkInput<'_, 'a>,
    rows: &[ObjectImportResolutions],
    object: usize,
    symbol: &WasmSymbol<'a>,
) -> Option<(usize, &'a str)>
    requires rows { rows.now ≡ resolutions input.now (by_all_rules input.now) }
    ensures { option_map as_undefined result ≡ undefined_import_of input.now object symbol.now }
{
    if wants_definition(symbol) && is_host_at(input, rows, symbol.kind, object, symbol.index) {
        Some((object, symbol.name))
    } else {
        None
    }
}

/// Sees that functions and globals that are left to the host may be undefined.
///
/// # Errors
/// `UndefinedSymbols` where some have to be defined: it lists all of them, each name once with an
/// object, in order of first occurrence.
pub fn report_disallowed_unresolved_imports(
    alloc: Global,
    input: &LinkInput<'_, '_>,
    rows: &[ObjectImportResolutions],
) -> Result<(), LinkError>
    requires rows { rows.now ≡ resolutions input.now (by_all_rules input.now) }
    ensures clear { OnOk result (Clear (IsUndefinedImport input.now)) }
    ensures err { IfErr result (Refuses (IsUndefinedImport input.now)) }
{
    if input.args().allow_undefined {
        return Ok(());
    }
    let files = input.files().as_slice();
    let mut names = UndefinedNames::new(alloc);
    for (object, file) in files.iter().enumerate() {
        for symbol in file.symbols() {
            names.add_some(undefined_import_of(input, rows, object, symbol))?;
        }
    }
    if names.is_empty() {
        return Ok(());
    }
    Err(LinkError::UndefinedSymbols(names.symbols(alloc)?))
}
