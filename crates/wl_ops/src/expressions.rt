//! Expressions that take the index of a global or of a function.

ghost use Rattle.std.specs.Prelude.{◌≡◌, ◌↔◌, IfOk, IsTrue};
ghost use Rattle.wl_bytes.specs.Grammar.{map_at};
ghost use Rattle.wl_bytes.specs.Lists.{start};
ghost use Rattle.wl_bytes.specs.Outcome.{Yields};
ghost use Rattle.wl_ops.specs.Operators.{op_at};
ghost use Rattle.wl_ops.specs.Expressions.{is_reference, HasReference};

use crate::op::Op;
use crate::operators::read_op;
use std::alloc::{AllocError, Global};
use wl_bytes::{ReadError, Reader};

/// The first byte of the operator `global.get`.
const GLOBAL_GET: u8 = 0x23;

/// The first byte of the operator `ref.func`.
const REF_FUNC: u8 = 0xd2;

/// Whether the operator is one of these.
fn is_reference(op: &Op) -> bool
    ensures { result ≡ is_reference op.now }
{
    op.code == GLOBAL_GET || op.code == REF_FUNC
}

/// Whether the next operator is one of these.
fn next_is_reference(alloc: Global, reader: &mut Reader<'_>) -> Result<bool, ReadError>
    ensures { Yields (λ b. b) result reader.new (map_at is_reference op_at reader.old) }
{
    let op = read_op(alloc, reader)?;
    Ok(is_reference(&op))
}

/// Whether one of the operators of an expression takes the index of a global or of a function, as
/// far as it can be decoded.
///
/// # Errors
/// `AllocError` where memory runs out.
pub fn has_reference(alloc: Global, expression: &[u8]) -> Result<bool, AllocError>
    ensures { IfOk result (λ has. IsTrue has ↔ HasReference (start expression.now)) }
{
    let mut reader = Reader::new(expression);
    while !reader.rest().is_empty() {
        match next_is_reference(alloc, &mut reader) {
            Ok(true) => return Ok(true),
            Ok(false) => {}
            Err(ReadError::OutOfMemory) => return Err(AllocError),
            Err(ReadError::Malformed(_)) => return Ok(false),
            Err(ReadError::Unsupported(_)) => return Ok(false),
        }
    }
    Ok(false)
}
