//! Calls that read parts of a module, and that the program doesn't make.

use std::alloc::Global;
use wl_module::{DataKind, ImportEntity, read_imports, read_segments, split_sections};

/// Whether a type section, and a custom section `ab` with two bytes, are distinguished.
fn is_split(alloc: Global) -> bool {
    match split_sections(alloc, b"\0asm\x01\0\0\0\x01\x01\0\0\x05\x02ab\x07\x08") {
        Ok(sections) => {
            sections.len() == 2
                && sections[0].payload_range == (10, 11)
                && sections[1].payload_range == (16, 18)
                && sections[1].name_range == Some((14, 16))
        }
        Err(_) => false,
    }
}

#[test]
fn splits_sections(rt: HostRuntime) {
    assert!(rt; is_split(rt.alloc()));
}

/// Whether one import is read: the function `env.f` of type 5.
fn is_imported(alloc: Global) -> bool {
    match read_imports(alloc, b"\x01\x03env\x01f\0\x05") {
        Ok(imports) => {
            imports.len() == 1
                && imports[0].module == "env"
                && imports[0].name == "f"
                && imports[0].entity == ImportEntity::Func(5)
        }
        Err(_) => false,
    }
}

#[test]
fn reads_imports(rt: HostRuntime) {
    assert!(rt; is_imported(rt.alloc()));
}

/// Whether one segment is read, active in memory 3 at place 0: the bytes 4 and 5.
fn is_segment(alloc: Global) -> bool {
    match read_segments(alloc, b"\x01\x02\x03\x41\0\x0b\x02\x04\x05") {
        Ok(segments) => {
            segments.len() == 1
                && segments[0].kind == DataKind::Active
                && segments[0].payload == [4, 5].as_slice()
                && segments[0].section_offset == 1
                && segments[0].encoded_size == 8
        }
        Err(_) => false,
    }
}

#[test]
fn reads_segments(rt: HostRuntime) {
    assert!(rt; is_segment(rt.alloc()));
}
