//! What a name stands for while small objects are kept and replaced.

ghost use Rattle.std.specs.Prelude.{◌≤◌, length};
ghost use Rattle.wl_bytes.specs.declared.reader.TheConstants.{MAX_LEN};

use crate::samples::{NOTHING, STRONG, WEAK, args_of};
use std::alloc::Global;
use wl_linking::parse_wasm_module;
use wl_session::Kept;
use wl_symbols::Definition;
use wl_words::WasmArgs;

/// Puts one more object at the end, and says whether it is there.
fn push<'a>(alloc: Global, kept: &mut Kept<'a>, bytes: &'a [u8]) -> bool
    requires { length bytes.now ≤ MAX_LEN }
{
    match parse_wasm_module(alloc, bytes) {
        Ok(file) => kept.push(file).is_ok(),
        Err(_) => false,
    }
}

/// Puts an object in place of the first one, and says whether it is there.
fn replace_first<'a>(alloc: Global, kept: &mut Kept<'a>, bytes: &'a [u8]) -> bool
    requires { length bytes.now ≤ MAX_LEN }
{
    match parse_wasm_module(alloc, bytes) {
        Ok(file) => !kept.files().is_empty() && kept.replace(0, file).is_ok(),
        Err(_) => false,
    }
}

/// Whether the name `a` stands for a symbol of that object.
fn is_defined_by(alloc: Global, kept: &Kept<'_>, args: &WasmArgs, definer: usize) -> bool {
    match kept.names().table(alloc, kept.files(), args) {
        Ok(table) => match table.lookup("a") {
            Some(Definition::Symbol { object, .. }) => object == definer,
            _ => false,
        },
        Err(_) => false,
    }
}

/// Whether `a` is defined where it should be, while the first of two objects is replaced: it defines
/// `a`, the second one does weakly; then it defines nothing; then it does weakly too.
fn follows(alloc: Global, kept: &mut Kept<'_>, args: &WasmArgs) -> bool {
    push(alloc, kept, STRONG)
        && push(alloc, kept, WEAK)
        && is_defined_by(alloc, kept, args, 0)
        && replace_first(alloc, kept, NOTHING)
        && is_defined_by(alloc, kept, args, 1)
        && replace_first(alloc, kept, WEAK)
        && is_defined_by(alloc, kept, args, 0)
}

/// Whether it is so from no objects on.
fn follows_from_nothing(alloc: Global, args: &WasmArgs) -> bool {
    let mut kept = Kept::new(alloc);
    follows(alloc, &mut kept, args)
}

/// Whether it is so where no more is asked for.
fn follows_by_itself(alloc: Global) -> bool {
    match args_of(alloc, &["a.o"]) {
        Some(args) => follows_from_nothing(alloc, &args),
        None => false,
    }
}

#[test]
fn a_name_follows_replacements(rt: HostRuntime) {
    assert!(rt; follows_by_itself(rt.alloc()));
}
