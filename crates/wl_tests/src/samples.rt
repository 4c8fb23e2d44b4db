//! Small objects and options that tests share.

ghost use Rattle.std.specs.Prelude.{◌≤◌, length};
ghost use Rattle.wl_bytes.specs.declared.reader.TheConstants.{MAX_LEN};

use std::alloc::{AllocError, Global};
use wl_linking::{FileList, parse_wasm_module};
use wl_words::WasmArgs;

/// No sections.
pub(crate) const NOTHING: &[u8; 8] = b"\0asm\x01\0\0\0";

/// A function `a`.
pub(crate) const STRONG: &[u8; 43] = b"\0asm\x01\0\0\0\
    \x01\x04\x01\x60\0\0\
    \x03\x02\x01\0\
    \x0a\x04\x01\x02\0\x0b\
    \0\x11\x07linking\x02\x08\x06\x01\0\0\0\x01a";

/// A weak function `a`.
pub(crate) const WEAK: &[u8; 43] = b"\0asm\x01\0\0\0\
    \x01\x04\x01\x60\0\0\
    \x03\x02\x01\0\
    \x0a\x04\x01\x02\0\x0b\
    \0\x11\x07linking\x02\x08\x06\x01\0\x01\0\x01a";

/// A function `b`, which calls a function `a` of another object.
pub(crate) const CALLER: &[u8; 81] = b"\0asm\x01\0\0\0\
    \x01\x04\x01\x60\0\0\
    \x02\x09\x01\x03env\x01a\0\0\
    \x03\x02\x01\0\
    \x0a\x0a\x01\x08\0\x10\x80\x80\x80\x80\0\x0b\
    \0\x14\x07linking\x02\x08\x09\x02\0\x10\0\0\0\x01\x01b\
    \0\x10\x0areloc.CODE\x03\x01\0\x04\0";

/// Two functions `()->()`: `a`, which calls `b`, and `b`.
pub(crate) const PAIR: &[u8; 76] = b"\0asm\x01\0\0\0\
    \x01\x04\x01\x60\0\0\
    \x03\x03\x02\0\0\
    \x0a\x0d\x02\x08\0\x10\x81\x80\x80\x80\0\x0b\x02\0\x0b\
    \0\x16\x07linking\x02\x08\x0b\x02\0\0\0\x01a\0\0\x01\x01b\
    \0\x10\x0areloc.CODE\x02\x01\0\x04\x01";

/// The words of a command line.
fn words_of(alloc: Global, texts: &[&str]) -> Result<Vec<String>, AllocError> {
    let mut words = Vec::new(alloc);
    for text in texts {
        words.push(String::from_str(alloc, text)?)?;
    }
    Ok(words)
}

/// What these words ask for, where they are right.
pub(crate) fn args_of(alloc: Global, texts: &[&str]) -> Option<WasmArgs> {
    match words_of(alloc, texts) {
        Ok(words) => WasmArgs::parse(alloc, &words).ok(),
        Err(_) => None,
    }
}

/// The list of one object, where the bytes are one.
pub(crate) fn one_file(alloc: Global, bytes: &[u8]) -> Option<FileList<'_>>
    requires { length bytes.now ≤ MAX_LEN }
{
    let mut files = FileList::new(alloc);
    match parse_wasm_module(alloc, bytes) {
        Ok(file) => match files.push(file) {
            Ok(()) => Some(files),
            Err(_) => None,
        },
        Err(_) => None,
    }
}
