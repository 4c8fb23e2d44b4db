//! What options ask for.

use crate::samples::args_of;
use std::alloc::Global;
use wl_words::WasmArgs;

/// Whether sections of these names are left in, and debug sections aren't.
fn keeps_three(args: &WasmArgs) -> bool {
    args.emit_stripped_section("a")
        && args.emit_stripped_section("name")
        && args.emit_stripped_section("c")
        && !args.emit_stripped_section(".debug_info")
}

/// Whether it is so under options that name these three, in each form.
fn keeps_what_is_named(alloc: Global) -> bool {
    let words = [
        "--keep-section=a",
        "--keep-section",
        "name",
        "-keep-section=c",
        "--strip-all",
    ];
    match args_of(alloc, &words) {
        Some(args) => keeps_three(&args),
        None => false,
    }
}

/// Whether all sections are left in where nothing is stripped.
fn keeps_all(alloc: Global) -> bool {
    match args_of(alloc, &["a.o"]) {
        Some(args) => args.emit_stripped_section(".debug_info"),
        None => false,
    }
}

#[test]
fn sections_are_kept_by_their_names(rt: HostRuntime) {
    assert!(rt; keeps_what_is_named(rt.alloc()));
    assert!(rt; keeps_all(rt.alloc()));
}
