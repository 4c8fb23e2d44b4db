//! Lists that are copied out of an object, and what names bind its import slots to.

ghost use Rattle.std.specs.Prelude.{◌≤◌, length};
ghost use Rattle.wl_bytes.specs.declared.reader.TheConstants.{MAX_LEN};

use crate::samples::{CALLER, PAIR, STRONG, args_of};
use std::alloc::Global;
use wl_linking::{File, FileList, WasmSymbolKind, parse_wasm_module};
use wl_symbols::{SlotTarget, SymbolTable, slot_targets};
use wl_words::WasmArgs;

/// A memory, a global that is 7, and a segment of two bytes at 1024.
const DATA: &[u8; 32] = b"\0asm\x01\0\0\0\
    \x05\x03\x01\0\x01\
    \x06\x06\x01\x7f\0\x41\x07\x0b\
    \x0b\x09\x01\0\x41\x80\x08\x0b\x02ab";

/// How many functions, globals and segments a file has, by lists of its own.
fn counts(alloc: Global, file: &File<'_>) -> Option<(usize, usize, usize)> {
    let functions = file.module_functions(alloc).ok()?.len();
    let globals = file.module_globals(alloc).ok()?.len();
    let segments = file.data_segments(alloc).ok()?.len();
    Some((functions, globals, segments))
}

/// The same of the object that the bytes are.
fn counts_of(alloc: Global, bytes: &[u8]) -> Option<(usize, usize, usize)>
    requires { length bytes.now ≤ MAX_LEN }
{
    match parse_wasm_module(alloc, bytes) {
        Ok(file) => counts(alloc, &file),
        Err(_) => None,
    }
}

#[test]
fn lists_are_copied(rt: HostRuntime) {
    assert!(rt; counts_of(rt.alloc(), PAIR) == Some((2, 0, 0)));
    assert!(rt; counts_of(rt.alloc(), DATA) == Some((0, 1, 1)));
}

/// Puts the object that the bytes are at the end, and says whether it is there.
fn push<'a>(alloc: Global, files: &mut FileList<'a>, bytes: &'a [u8]) -> bool
    requires { length bytes.now ≤ MAX_LEN }
{
    match parse_wasm_module(alloc, bytes) {
        Ok(file) => files.push(file).is_ok(),
        Err(_) => false,
    }
}

/// Whether the one function that the second object imports is the first one of the first object.
fn is_bound(alloc: Global, symbols: &SymbolTable<'_, '_>) -> bool {
    match slot_targets(alloc, symbols, 1, WasmSymbolKind::Func) {
        Ok(targets) => {
            let first = SlotTarget::Defined {
                object: 0,
                number: 0,
            };
            targets.as_slice() == [Some(first)].as_slice()
        }
        Err(_) => false,
    }
}

/// The same where these objects are linked.
fn is_bound_in(alloc: Global, files: &FileList<'_>, args: &WasmArgs) -> bool {
    match SymbolTable::build(alloc, files, args) {
        Ok(symbols) => is_bound(alloc, &symbols),
        Err(_) => false,
    }
}

/// The same where an object that defines a function comes before one that calls it.
fn is_bound_to_the_one_before(alloc: Global) -> bool {
    let mut files = FileList::new(alloc);
    let is_whole = push(alloc, &mut files, STRONG) && push(alloc, &mut files, CALLER);
    match args_of(alloc, &["a.o", "b.o"]) {
        Some(args) => is_whole && is_bound_in(alloc, &files, &args),
        None => false,
    }
}

#[test]
fn a_slot_is_bound_by_name(rt: HostRuntime) {
    assert!(rt; is_bound_to_the_one_before(rt.alloc()));
}
