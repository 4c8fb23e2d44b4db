//! The texts of errors.

use std::alloc::Global;
use wl_bytes::{BytesError, Form, ReadError, Why};

/// Whether an error of bytes is printed so.
fn is_short(alloc: Global, error: BytesError, want: &str) -> bool {
    match format!(in alloc; "{error}") {
        Ok(text) => text.as_str() == want,
        Err(_) => false,
    }
}

/// Whether an error of a payload is printed so.
fn is_printed(alloc: Global, error: ReadError, want: &str) -> bool {
    match format!(in alloc; "{error}") {
        Ok(text) => text.as_str() == want,
        Err(_) => false,
    }
}

#[test]
fn prints_errors(rt: HostRuntime) {
    let alloc = rt.alloc();
    assert!(rt; is_short(alloc, BytesError::BadLeb, "BadLeb"));
    assert!(rt; is_printed(alloc, ReadError::OutOfMemory, "OutOfMemory"));
    assert!(rt; is_printed(alloc, ReadError::Malformed(Why::Body), "Malformed"));
    assert!(rt; is_printed(alloc, ReadError::Unsupported(Form::Tag), "Unsupported"));
}
