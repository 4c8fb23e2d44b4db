//! Lines of listings, as they are read and written again.

use std::alloc::{AllocError, Global};
use wl_check::{Line, push_line, read_listing};

/// A listing of one object that has most kinds of lines.
pub(crate) const LISTING: &[u8] = b"wildplan 1
type 0 ()->()
func 0 type 0 object 0 unit 0
func 1 type 0 object 0 unit 1
body 0 001081808080000b
body 1 000b
global 0 i32 var 41808004 made stack_pointer
memory 2 - -
export \"memory\" memory 0
fix 0 code 0 2 R_WASM_FUNCTION_INDEX_LEB 1 0
end
";

/// The other kinds of lines, and names with bytes that stand in hexadecimal.
const OTHER_LINES: &[u8] = b"import func \"env\" \"p\" 0
import global \"GOT.mem\" \"a b\\22\\0a\" i32 var
import memory \"env\" \"memory\" 1 4 shared
func 0 type 0 object 18446744073709551615 unit 4294967295
func 1 type 0 made __wasm_init_tls
func 2 type 3 stub \"f\"
func 3 type 3 wrap \"g\"
global 1 i64 const  object 0 unit 2
table 18446744073709551615
slot 10 20
segment 0 object 0 unit 0 shared 1024 4
segment 0 object 0 unit 0 passive - 4
start 0
fix 1 segment 0 4 R_WASM_MEMORY_ADDR_I32 1024 -2147483648
fix 0 segment 0 0 R_WASM_MEMORY_ADDR_I32 deferred -1
feature \"\xff\\7f\\1f\\5c\x80\"
debug 18446744073709551615 \"\" 4294967295
";

/// The text of these lines.
fn text_of(alloc: Global, lines: &[Line]) -> Result<Vec<u8>, AllocError> {
    let mut text = Vec::new(alloc);
    for line in lines {
        push_line(&mut text, line)?;
    }
    Ok(text)
}

/// Whether a text is read as lines whose text it is.
fn is_written_again(alloc: Global, text: &[u8]) -> bool {
    match read_listing(alloc, text) {
        Ok(lines) => match text_of(alloc, lines.as_slice()) {
            Ok(again) => again.as_slice() == text,
            Err(_) => false,
        },
        Err(_) => false,
    }
}

#[test]
fn lines_are_read_and_written_again(rt: HostRuntime) {
    assert!(rt; is_written_again(rt.alloc(), LISTING));
    assert!(rt; is_written_again(rt.alloc(), OTHER_LINES));
}
