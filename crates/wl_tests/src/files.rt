//! Whole files, and streams, in memory.

use crate::check::LISTING;
use crate::samples::{NOTHING, PAIR};
use std::alloc::{AllocError, Global};
use wl_files::{MemFiles, MemSink, ReadObject, read_object, write_all};

/// Why the file of that object isn't read under a limit, where each read gives a byte, and the call
/// of that number fails.
fn fault(alloc: Global, call: u64, limit: usize) -> Result<Option<ReadObject>, AllocError> {
    let mut files = MemFiles::new(alloc).with_piece(1);
    files.add("a.o", PAIR)?;
    files.fail(call)?;
    Ok(read_object(alloc, &mut files, "a.o", limit).err())
}

#[test]
fn a_file_has_a_limit(rt: HostRuntime) {
    assert!(rt; matches!(fault(rt.alloc(), 1000, 76), Ok(None)));
    assert!(rt; matches!(fault(rt.alloc(), 1000, 75), Ok(Some(ReadObject::TooLong))));
}

#[test]
fn each_failing_call_of_a_file_is_a_fault(rt: HostRuntime) {
    // A begin, a read for each of 76 bytes, and one at the end.
    for call in 1..79 {
        assert!(rt; matches!(fault(rt.alloc(), call, 1000), Ok(Some(ReadObject::Fault))));
    }
    assert!(rt; matches!(fault(rt.alloc(), 79, 1000), Ok(None)));
}

/// Why this file isn't read under a limit, where the call of that number fails, if one does.
fn fault_of(
    alloc: Global,
    bytes: &[u8],
    limit: usize,
    failing: Option<u64>,
) -> Result<Option<ReadObject>, AllocError> {
    let mut files = MemFiles::new(alloc);
    files.add("a.o", bytes)?;
    if let Some(call) = failing {
        files.fail(call)?;
    }
    Ok(read_object(alloc, &mut files, "a.o", limit).err())
}

#[test]
fn a_file_may_have_as_many_bytes_as_the_limit(rt: HostRuntime) {
    let alloc = rt.alloc();
    assert!(rt; matches!(fault_of(alloc, NOTHING, 8, None), Ok(None)));
    assert!(rt;
        matches!(
            fault_of(alloc, b"\0asm\x01\0\0\0\0", 8, None),
            Ok(Some(ReadObject::TooLong))
        )
    );
}

#[test]
fn the_read_that_finds_the_end_may_fail(rt: HostRuntime) {
    // A begin, a read of all eight bytes, and one of nothing.
    assert!(rt;
        matches!(
            fault_of(rt.alloc(), NOTHING, 1000, Some(3)),
            Ok(Some(ReadObject::Fault))
        )
    );
    assert!(rt; matches!(fault_of(rt.alloc(), NOTHING, 1000, Some(4)), Ok(None)));
}

/// Whether a stream that takes so many bytes a call, and fails at the call of that number, takes
/// this front of the listing, and tells whether that is the whole.
fn takes(alloc: Global, piece: usize, call: u64, front: &[u8]) -> Result<bool, AllocError> {
    let mut sink = MemSink::new(alloc, 1000, piece)?;
    sink.fail(call)?;
    let is_whole = write_all(&mut sink, LISTING).is_ok();
    Ok(sink.bytes() == front && is_whole == (front.len() == LISTING.len()))
}

#[test]
fn each_failing_write_leaves_a_front(rt: HostRuntime) {
    for taken in 0..17 {
        let front = LISTING.get(..16 * taken).unwrap_or(LISTING);
        assert!(rt; matches!(takes(rt.alloc(), 16, taken as u64 + 1, front), Ok(true)));
    }
}

#[test]
fn a_stream_that_takes_nothing_is_a_fault(rt: HostRuntime) {
    assert!(rt; matches!(takes(rt.alloc(), 0, 1000, &[]), Ok(true)));
}
