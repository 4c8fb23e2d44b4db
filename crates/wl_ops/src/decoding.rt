//! Decoding the bodies of functions.

ghost use Rattle.std.specs.Prelude.{◌≡◌, ◌≤◌, IfOk, length};
ghost use Rattle.wl_bytes.specs.Cursor.{end_of};
ghost use Rattle.wl_bytes.specs.Grammar.{times_at};
ghost use Rattle.wl_bytes.specs.Outcome.{Yields, Gives, ReadsWhole};
ghost use Rattle.wl_bytes.specs.Lists.{list_at};
ghost use Rattle.wl_bytes.specs.Checks.{any_at};
ghost use Rattle.wl_ops.specs.Decoding.{local_at, ops_of, body_of, in_body, decoded, AreTaken, DecodeFault, list_items};

use crate::immediates::read_count;
use crate::op::Op;
use crate::operators::{END, read_op};
use std::alloc::Global;
use wl_bytes::{ReadError, Reader, Why};
use wl_module::ValType;

/// The next local declaration: how many locals, and the byte of their type.
#[tactic(auto, unfolding(crate::specs::Decoding::local_at))]
fn read_local(reader: &mut Reader<'_>) -> Result<(u32, u8), ReadError>
    ensures value { Yields (λ l. l) result reader.new (local_at reader.old) }
    ensures end { end_of reader.new ≡ end_of reader.old }
{
    let count = reader.read_u32()?;
    let value_type = reader.read_u8()?;
    match ValType::from_byte(value_type) {
        Some(_) => Ok((count, value_type)),
        None => Err(ReadError::Malformed(Why::BadByte)),
    }
}

/// Passes so many local declarations.
fn pass_locals(count: u32, reader: &mut Reader<'_>) -> Result<(), ReadError>
    ensures value { Yields (λ u. u) result reader.new
        (any_at (times_at local_at count) reader.old) }
    ensures end { end_of reader.new ≡ end_of reader.old }
{
    for _ in 0..count {
        read_local(reader)?;
    }
    Ok(())
}

/// Passes the local declarations that come next, and returns nothing of them.
pub(crate) fn skip_locals(reader: &mut Reader<'_>) -> Result<(), ReadError>
    ensures value { Yields (λ u. u) result reader.new (any_at (list_at local_at) reader.old) }
    ensures end { end_of reader.new ≡ end_of reader.old }
{
    let count = read_count(reader)?;
    pass_locals(count, reader)
}

/// The operators up to the end of the bytes.
fn read_ops(alloc: Global, reader: &mut Reader<'_>) -> Result<Vec<Op>, ReadError>
    ensures { Gives (λ v. v.items) result (ops_of reader.old) }
{
    let mut ops = Vec::new(alloc);
    let mut is_ended = false;
    while !reader.rest().is_empty() {
        let op = read_op(alloc, reader)?;
        is_ended = op.code == END;
        ops.push(op)?;
    }
    if is_ended {
        Ok(ops)
    } else {
        Err(ReadError::Malformed(Why::Truncated))
    }
}

/// The operators of a body, with each fault as it is.
#[tactic(auto, unfolding(crate::specs::Decoding::body_of))]
fn read_body(alloc: Global, body: &[u8]) -> Result<Vec<Op>, ReadError>
    ensures { Gives (λ v. v.items) result (body_of body.now) }
{
    let mut reader = Reader::new(body);
    skip_locals(&mut reader)?;
    read_ops(alloc, &mut reader)
}

/// A broken rule of the format as that of a body.
pub(crate) fn in_body(error: ReadError) -> ReadError
    ensures { result ≡ in_body error }
{
    match error {
        ReadError::Malformed(_) => ReadError::Malformed(Why::Body),
        other => other,
    }
}

/// The operators of a body, with a fault as it is reported.
fn decode(alloc: Global, body: &[u8]) -> Result<Vec<Op>, ReadError>
    ensures { Gives (λ v. v.items) result (decoded body.now) }
{
    match read_body(alloc, body) {
        Ok(ops) => Ok(ops),
        Err(error) => Err(in_body(error)),
    }
}

/// Decodes the body of a function (core specification, "Code Section"): after the local
/// declarations its operators, the last of which is `end` and ends the bytes. How they nest, and
/// what they are applied to, isn't looked at.
///
/// Operators and immediates are together no more than the bytes, so a body bounds the memory.
///
/// # Errors
/// The first thing that is no operator of the table decides: `Unsupported(ElementOperator)` for
/// `table.init` and `elem.drop`; `Unsupported(Operator)` for an operator that the table lacks and
/// the format knows, an alignment of 0x40 or more, the type of a block or of a null reference that
/// isn't taken; `Malformed(Body)` for everything else, as bytes that end too early. `OutOfMemory`
/// comes where memory runs out.
pub fn decode_body(alloc: Global, body: &[u8]) -> Result<Vec<Op>, ReadError>
    ensures reads { ReadsWhole (λ v. v.items) AreTaken DecodeFault body.now result }
    ensures few { IfOk result (λ v. list_items v.items ≤ length body.now) }
{
    decode(alloc, body)
}
