//! Objects for trials.

ghost use Rattle.std.specs.Prelude.{◌<◌};

use std::alloc::Global;
use wl_generate::generated_object;

/// The first of two objects: `f0`, which calls the import `env.f1`, and `d0`.
const FIRST: &[u8; 93] = b"\0asm\x01\0\0\0\
    \x01\x04\x01\x60\0\0\
    \x02\x0a\x01\x03env\x02f1\0\0\
    \x03\x03\x02\0\0\
    \x0a\x0d\x02\x08\0\x10\x80\x80\x80\x80\0\x0b\x02\0\x0b\
    \0\x1b\x07linking\x02\x08\x10\x03\0\x10\0\0\0\x01\x02f0\0\0\x02\x02d0\
    \0\x10\x0areloc.CODE\x03\x01\0\x04\0";

/// The second one: `f1`, which calls nothing, and `d1`.
const SECOND: &[u8; 54] = b"\0asm\x01\0\0\0\
    \x01\x04\x01\x60\0\0\
    \x03\x03\x02\0\0\
    \x0a\x07\x02\x02\0\x0b\x02\0\x0b\
    \0\x18\x07linking\x02\x08\x0d\x02\0\0\0\x02f1\0\0\x01\x02d1";

/// Whether the object of that number, of two, has these bytes.
fn is_made(alloc: Global, number: u32, want: &[u8]) -> bool
    requires { number < 2 }
{
    match generated_object(alloc, number, 2) {
        Ok(object) => object.as_slice() == want,
        Err(_) => false,
    }
}

#[test]
fn makes_both_objects_of_a_chain(rt: HostRuntime) {
    assert!(rt; is_made(rt.alloc(), 0, FIRST));
    assert!(rt; is_made(rt.alloc(), 1, SECOND));
}
