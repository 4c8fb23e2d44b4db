//! The sections of an object, each appended to what stands there.

ghost use Rattle.std.specs.Prelude.{◌≡◌, ◌+◌, ◌<◌, ◌≤◌, ◌++◌, length, OnOk};
ghost use Rattle.wl_generate.specs.Generated.{sized, section, custom, front, two_functions, code, import_of, linking, call_relocation};

use std::alloc::{AllocError, Global};

/// The body of a function that does nothing.
pub(crate) const EMPTY_BODY: [u8; 2] = [0, 0x0b];

/// The body of a function that calls function 0, whose number takes five bytes.
pub(crate) const CALLING_BODY: [u8; 8] = [0, 0x10, 0x80, 0x80, 0x80, 0x80, 0, 0x0b];

/// Puts a text after its length.
pub(crate) fn push_sized(out: &mut Vec<u8>, text: &[u8]) -> Result<(), AllocError>
    requires { length text.now < 128 }
    ensures { OnOk result (out.new.items ≡ out.old.items ++ sized text.now) }
{
    out.push(text.len() as u8)?;
    out.extend_from_slice(text)
}

/// Puts a section of that number.
fn push_section(out: &mut Vec<u8>, id: u8, payload: &[u8]) -> Result<(), AllocError>
    requires { length payload.now < 128 }
    ensures { OnOk result (out.new.items ≡ out.old.items ++ section id payload.now) }
{
    out.push(id)?;
    push_sized(out, payload)
}

/// Puts a custom section of that name.
fn push_custom(
    alloc: Global,
    out: &mut Vec<u8>,
    name: &[u8],
    payload: &[u8],
) -> Result<(), AllocError>
    requires { 1 + length name.now + length payload.now < 128 }
    ensures { OnOk result (out.new.items ≡ out.old.items ++ custom name.now payload.now) }
{
    let mut whole = Vec::new(alloc);
    push_sized(&mut whole, name)?;
    whole.extend_from_slice(payload)?;
    push_section(out, 0, &whole)
}

/// Puts the header of a module, and the one type.
pub(crate) fn push_front(out: &mut Vec<u8>) -> Result<(), AllocError>
    ensures { OnOk result (out.new.items ≡ out.old.items ++ front) }
{
    out.extend_from_slice(b"\0asm\x01\0\0\0")?;
    push_section(out, 1, &[1, 0x60, 0, 0])
}

/// Puts the import of the function of that name.
pub(crate) fn push_import(alloc: Global, out: &mut Vec<u8>, name: &[u8]) -> Result<(), AllocError>
    requires { length name.now < 100 }
    ensures { OnOk result (out.new.items ≡ out.old.items ++ import_of name.now) }
{
    let mut payload = Vec::new(alloc);
    payload.push(1)?;
    push_sized(&mut payload, b"env")?;
    push_sized(&mut payload, name)?;
    payload.extend_from_slice(&[0, 0])?;
    push_section(out, 2, &payload)
}

/// Puts two functions of the one type.
pub(crate) fn push_two_functions(out: &mut Vec<u8>) -> Result<(), AllocError>
    ensures { OnOk result (out.new.items ≡ out.old.items ++ two_functions) }
{
    push_section(out, 3, &[2, 0, 0])
}

/// Puts two bodies: this one, and one that does nothing.
pub(crate) fn push_code(alloc: Global, out: &mut Vec<u8>, body: &[u8]) -> Result<(), AllocError>
    requires { length body.now < 100 }
    ensures { OnOk result (out.new.items ≡ out.old.items ++ code body.now) }
{
    let mut payload = Vec::new(alloc);
    payload.push(2)?;
    push_sized(&mut payload, body)?;
    push_sized(&mut payload, &EMPTY_BODY)?;
    push_section(out, 10, &payload)
}

/// Puts a table of so many symbols.
pub(crate) fn push_linking(
    alloc: Global,
    out: &mut Vec<u8>,
    count: u8,
    symbols: &[u8],
) -> Result<(), AllocError>
    requires { length symbols.now < 100 }
    ensures { OnOk result (out.new.items ≡ out.old.items ++ linking count symbols.now) }
{
    let mut table = Vec::new(alloc);
    table.push(count)?;
    table.extend_from_slice(symbols)?;
    let mut payload = Vec::new(alloc);
    payload.extend_from_slice(&[2, 8])?;
    push_sized(&mut payload, &table)?;
    push_custom(alloc, out, b"linking", &payload)
}

/// Puts the relocation of the call.
pub(crate) fn push_call_relocation(alloc: Global, out: &mut Vec<u8>) -> Result<(), AllocError>
    ensures { OnOk result (out.new.items ≡ out.old.items ++ call_relocation) }
{
    push_custom(alloc, out, b"reloc.CODE", &[3, 1, 0, 4, 0])
}
