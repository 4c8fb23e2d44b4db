//! Operators: a first byte, for some of them a number, and immediates.

ghost use Rattle.std.specs.Prelude.{◌≡◌};
ghost use Rattle.wl_bytes.specs.Cursor.{end_of};
ghost use Rattle.wl_bytes.specs.Outcome.{Yields, Gives};
ghost use Rattle.wl_ops.specs.Operators.{sub_at, head_at, taken_shape, behind_at, op_at};

use crate::immediates::read_immediates;
use crate::op::{Op, OpArgs};
use crate::table::{Shape, immediates_of, is_element, is_prefix, is_untaken, shape_of};
use std::alloc::Global;
use wl_bytes::{Form, ReadError, Reader, Why};

/// The first byte of the operator `end`.
pub(crate) const END: u8 = 0x0b;

/// The number after the first byte, where there is one.
#[tactic(auto, unfolding(crate::specs::Operators::sub_at))]
fn read_sub(code: u8, reader: &mut Reader<'_>) -> Result<u32, ReadError>
    ensures value { Yields (λ n. n) result reader.new (sub_at code reader.old) }
    ensures end { end_of reader.new ≡ end_of reader.old }
{
    if is_prefix(code) {
        Ok(reader.read_u32()?)
    } else {
        Ok(0)
    }
}

/// The shape of an operator that is taken.
#[tactic(auto, unfolding(crate::specs::Operators::taken_shape))]
fn taken_shape(code: u8, sub: u32) -> Result<Shape, ReadError>
    ensures { Gives (λ s. s) result (taken_shape (code, sub)) }
{
    if is_element(code, sub) {
        return Err(ReadError::Unsupported(Form::ElementOperator));
    }
    match shape_of(code, sub) {
        Some(shape) => Ok(shape),
        None if is_untaken(code) => Err(ReadError::Unsupported(Form::Operator)),
        None => Err(ReadError::Malformed(Why::BadByte)),
    }
}

/// The first byte of the next operator, and the number after it.
#[tactic(auto, unfolding(crate::specs::Operators::head_at))]
pub(crate) fn read_head(reader: &mut Reader<'_>) -> Result<(u8, u32), ReadError>
    ensures value { Yields (λ h. h) result reader.new (head_at reader.old) }
    ensures end { end_of reader.new ≡ end_of reader.old }
{
    let code = reader.read_u8()?;
    let sub = read_sub(code, reader)?;
    Ok((code, sub))
}

/// What follows the first byte and the number.
pub(crate) fn read_behind(
    alloc: Global,
    code: u8,
    sub: u32,
    reader: &mut Reader<'_>,
) -> Result<OpArgs, ReadError>
    ensures value { Yields (λ a. a) result reader.new
        (behind_at (taken_shape (code, sub)) reader.old) }
    ensures end { end_of reader.new ≡ end_of reader.old }
{
    let shape = taken_shape(code, sub)?;
    read_immediates(alloc, immediates_of(shape), reader)
}

/// The next operator.
#[tactic(auto, unfolding(crate::specs::Operators::op_at))]
pub(crate) fn read_op(alloc: Global, reader: &mut Reader<'_>) -> Result<Op, ReadError>
    ensures value { Yields (λ o. o) result reader.new (op_at reader.old) }
    ensures end { end_of reader.new ≡ end_of reader.old }
{
    let (code, sub) = read_head(reader)?;
    let args = read_behind(alloc, code, sub, reader)?;
    Ok(Op { code, sub, args })
}
