//! Where the segments of one object lie, and what lies behind them.

use std::alloc::Global;
use wl_data::{
    KeptSegment, all_can_be_placed, ensure_memory_covers, heap_base_address, heap_base_after_data,
    heap_end_from_initial_pages, layout_object_data, stack_high_after_data, stack_pointer_init,
};
use wl_linking::LinkError;
use wl_module::MemoryType;
use wl_symbols::WasmLinkerSymbol;

/// Whether that is the address that was found.
fn is_found(found: Result<u32, LinkError>, want: u32) -> bool {
    match &found {
        Ok(address) => *address == want,
        Err(_) => false,
    }
}

#[test]
fn heap_begins_behind_the_data(rt: HostRuntime) {
    assert!(rt; is_found(heap_base_address(1048676, 65536, true), 1048688));
    assert!(rt; is_found(heap_base_after_data(1024), 1024));
    assert!(rt; is_found(stack_high_after_data(1024, 65536), 66560));
    assert!(rt; is_found(heap_end_from_initial_pages(2), 131072));
}

/// How many pages a memory of one page has once it holds the stack, in front of data that ends at
/// 1024 or behind it, where it may begin with so many bytes.
fn pages(stack_first: bool, initial: Option<u64>) -> Option<u64> {
    let mut memory = MemoryType {
        initial: 1,
        maximum: None,
        shared: false,
    };
    ensure_memory_covers(
        &mut memory,
        1024,
        0,
        65536,
        stack_first,
        initial,
        None,
        false,
    )
    .ok()
}

#[test]
fn memory_holds_the_stack(rt: HostRuntime) {
    assert!(rt; pages(true, None) == Some(1));
    assert!(rt; pages(false, None) == Some(2));
    assert!(rt; pages(false, Some(65536)).is_none());
}

/// A segment of an object.
fn segment(payload: &[u8], active: bool, alignment: u32) -> KeptSegment<'_> {
    KeptSegment {
        original: 0,
        payload,
        payload_start: 0,
        active,
        tls: false,
        alignment,
    }
}

/// Whether two segments lie from address 1024 on, the second one at a multiple of its alignment.
fn are_laid(alloc: Global, segments: &[KeptSegment<'_>]) -> bool {
    let mut end = 1024;
    if !all_can_be_placed(segments) {
        return false;
    }
    match layout_object_data(alloc, segments, &mut end, false, false, None) {
        Ok(layouts) => {
            layouts.len() == 2
                && layouts[0].output_memory_offset == 1024
                && layouts[1].output_memory_offset == 1028
                && end == 1032
        }
        Err(_) => false,
    }
}

#[test]
fn segments_stand_in_a_row(rt: HostRuntime) {
    let segments = [segment(b"abc", true, 1), segment(b"defg", true, 4)];
    assert!(rt; are_laid(rt.alloc(), &segments));
}

/// Whether that is the address of a name, where data without bytes lies at 1024 and the end of the
/// heap isn't known.
fn is_address(name: WasmLinkerSymbol, want: Option<u32>) -> bool {
    match &name.data_address(1024, 1024, 65536, None, false) {
        Ok(address) => *address == want,
        Err(_) => false,
    }
}

#[test]
fn names_of_the_linker_have_addresses(rt: HostRuntime) {
    assert!(rt; is_address(WasmLinkerSymbol::DataEnd, Some(1024)));
    assert!(rt; is_address(WasmLinkerSymbol::GlobalBase, Some(1024)));
    assert!(rt; is_address(WasmLinkerSymbol::DsoHandle, Some(1024)));
    assert!(rt; is_address(WasmLinkerSymbol::WasmFirstPageEnd, Some(65536)));
    assert!(rt; is_address(WasmLinkerSymbol::HeapEnd, None));
}

#[test]
fn the_stack_begins_at_its_high_end(rt: HostRuntime) {
    assert!(rt; is_found(stack_pointer_init(2000000, 1048576, true), 1048576));
    assert!(rt; is_found(stack_pointer_init(1024, 65536, false), 66560));
}
