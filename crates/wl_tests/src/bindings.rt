//! What references are bound to, by one call after the other. The program makes all of it at once.

ghost use Rattle.std.specs.Prelude.{◌≡◌, IfOk};
ghost use Rattle.wl_bind.specs.Resolutions.{resolutions, by_names};
ghost use Rattle.wl_symbols.specs.Link.{link_of};
ghost use Rattle.wl_symbols.specs.Live.{IsLiveOf};

use crate::samples::{args_of, one_file};
use std::alloc::Global;
use wl_bind::{
    ImportResolution, ObjectImportResolutions, ResolutionList, absorb_got_imports,
    absorb_weak_undef_function_imports, collect_shared_unresolved_imports,
    report_disallowed_unresolved_imports, resolve_import_symbols, scan_layout_relocations,
};
use wl_linking::{FileList, LinkError, WasmSymbolKind};
use wl_live::{LiveSet, collect_live};
use wl_symbols::{LinkInput, SymbolTable};
use wl_words::WasmArgs;

/// A function `f`. It calls `g`, a weak function that nothing defines, and `h`, which is left to the
/// host, and reads the address of the data `d`, which an import of the module `GOT.mem` names too.
const REFERRING: &[u8; 170] = b"\0asm\x01\0\0\0\
    \x01\x04\x01\x60\0\0\
    \x02\x35\x04\x03env\x01g\0\0\x03env\x01h\0\0\x07GOT.mem\x01d\x03\x7f\x01\
    \x03env\x0f__linear_memory\x02\0\0\
    \x03\x02\x01\0\
    \x0a\x17\x01\x15\0\x10\x80\x80\x80\x80\0\x10\x81\x80\x80\x80\0\x23\x80\x80\x80\x80\0\x1a\x0b\
    \x0b\x07\x01\0\x41\0\x0b\x01\x2a\
    \0\x25\x07linking\x02\
    \x08\x13\x04\0\x11\0\0\x10\x01\0\0\x02\x01f\x01\0\x01d\0\0\x01\
    \x05\x05\x01\x01d\0\0\
    \0\x16\x0areloc.CODE\x03\x03\0\x04\0\0\x0a\x01\x07\x10\x03";

/// What names alone resolve the slots of all objects to.
fn rows_by_names(
    alloc: Global,
    input: &LinkInput<'_, '_>,
) -> Result<Vec<ObjectImportResolutions>, LinkError>
    ensures { IfOk result (λ rows. rows.items ≡ resolutions input.now (by_names input.now)) }
{
    let mut rows = Vec::new(alloc);
    for object in 0..input.files().len() {
        let functions = resolve_import_symbols(alloc, input, object, WasmSymbolKind::Func)?;
        let globals = resolve_import_symbols(alloc, input, object, WasmSymbolKind::Global)?;
        rows.push(ObjectImportResolutions {
            function_resolutions: ResolutionList::new(functions),
            global_resolutions: ResolutionList::new(globals),
        })?;
    }
    Ok(rows)
}

/// Whether the first function of the one object is a stub's, the second one the host's, and the
/// global an entry of a GOT list.
fn are_bound(rows: &[ObjectImportResolutions]) -> bool {
    match rows {
        [row] => {
            row.function_resolutions.as_slice()
                == [
                    ImportResolution::WeakUndefStub { stub_index: 0 },
                    ImportResolution::Unresolved,
                ]
                .as_slice()
                && row.global_resolutions.as_slice() == [ImportResolution::GotMemSlot(0)].as_slice()
        }
        _ => false,
    }
}

/// Whether the calls on bindings, one after the other, come to that.
fn are_bound_in_order(alloc: Global, input: &LinkInput<'_, '_>) -> Result<bool, LinkError> {
    let scan = scan_layout_relocations(alloc, input)?;
    let mut rows = rows_by_names(alloc, input)?;
    absorb_got_imports(input, &scan, &mut rows);
    let stubs = absorb_weak_undef_function_imports(alloc, input, &mut rows)?;
    report_disallowed_unresolved_imports(alloc, input, &rows)?;
    let shared = collect_shared_unresolved_imports(alloc, input, &rows)?;
    let is_shared = shared.functions().len() == 1 && shared.globals().is_empty();
    Ok(stubs.len() == 1 && scan.got_mem.len() == 1 && is_shared && are_bound(&rows))
}

/// The same where it is known what is kept.
fn are_kept_bound<'a>(alloc: Global, symbols: &'a SymbolTable<'a, 'a>, live: &'a LiveSet) -> bool
    requires { IsLiveOf symbols.now live.now }
{
    match are_bound_in_order(alloc, &LinkInput::new(symbols, live)) {
        Ok(are_bound) => are_bound,
        Err(_) => false,
    }
}

/// The same where it is found what is kept.
fn are_found_bound<'a>(
    alloc: Global,
    files: &'a FileList<'a>,
    symbols: &'a SymbolTable<'a, 'a>,
    args: &'a WasmArgs,
) -> bool
    requires { symbols.now ≡ link_of files.now args.now }
{
    match collect_live(alloc, files, symbols, args) {
        Ok(live) => are_kept_bound(alloc, symbols, &live),
        Err(_) => false,
    }
}

/// The same of these objects.
fn are_linked_bound(alloc: Global, files: &FileList<'_>, args: &WasmArgs) -> bool {
    match SymbolTable::build(alloc, files, args) {
        Ok(symbols) => are_found_bound(alloc, files, &symbols, args),
        Err(_) => false,
    }
}

/// The same of the object above, of which all is kept.
fn is_bound_call_by_call(alloc: Global) -> bool {
    let words = ["a.o", "--no-gc-sections", "--no-entry", "--allow-undefined"];
    match (one_file(alloc, REFERRING), args_of(alloc, &words)) {
        (Some(files), Some(args)) => are_linked_bound(alloc, &files, &args),
        _ => false,
    }
}

#[test]
fn slots_are_bound_call_by_call(rt: HostRuntime) {
    assert!(rt; is_bound_call_by_call(rt.alloc()));
}
