//! The immediates of operators.

ghost use Rattle.std.specs.Prelude.{◌≡◌};
ghost use Rattle.wl_bytes.specs.Cursor.{end_of};
ghost use Rattle.wl_bytes.specs.Grammar.{times_at};
ghost use Rattle.wl_bytes.specs.Outcome.{Yields};
ghost use Rattle.wl_bytes.specs.Lists.{number_at};
ghost use Rattle.wl_ops.specs.Front.{with_front};
ghost use Rattle.wl_ops.specs.Immediates.{is_block_type, single_at, catch_numbers, catch_kind_at, catch_at, flat_at, immediate_at, immediates_at};

use crate::op::OpArgs;
use crate::table::{Immediate, Single};
use std::alloc::Global;
use wl_bytes::{Form, ReadError, Reader, Why};
use wl_module::ValType;

/// Whether the number is the type of a block: the index of a type, a value type or nothing.
fn is_block_type(value: i64) -> bool
    ensures { result ≡ is_block_type value }
{
    -5 <= value || (-17 <= value && value <= -16) || (-64 <= value && value <= -64)
}

/// The next value.
#[tactic(auto, unfolding(crate::specs::Immediates::single_at))]
fn read_single(single: Single, reader: &mut Reader<'_>) -> Result<i64, ReadError>
    ensures value { Yields (λ z. z) result reader.new (single_at single reader.old) }
    ensures end { end_of reader.new ≡ end_of reader.old }
{
    match single {
        Single::Number => Ok(i64::from(reader.read_u32()?)),
        Single::Alignment => {
            let exponent = reader.read_u32()?;
            if exponent < 0x40 {
                Ok(i64::from(exponent))
            } else {
                Err(ReadError::Unsupported(Form::Operator))
            }
        }
        Single::BlockType => {
            let value = reader.read_s33()?;
            if is_block_type(value) {
                Ok(value)
            } else {
                Err(ReadError::Unsupported(Form::Operator))
            }
        }
        Single::Signed32 => Ok(i64::from(reader.read_s32()?)),
        Single::Signed64 => Ok(reader.read_s64()?),
        Single::Byte => Ok(i64::from(reader.read_u8()?)),
        Single::ReferenceType => {
            let byte = reader.read_u8()?;
            match ValType::from_byte(byte) {
                Some(ty) if ty.is_reference() => Ok(i64::from(byte)),
                Some(_) | None => Err(ReadError::Unsupported(Form::Operator)),
            }
        }
        Single::ValueType => {
            let byte = reader.read_u8()?;
            match ValType::from_byte(byte) {
                Some(_) => Ok(i64::from(byte)),
                None => Err(ReadError::Malformed(Why::BadByte)),
            }
        }
    }
}

/// So many values that come next, which go after those that are there.
fn read_singles(
    single: Single,
    count: u32,
    reader: &mut Reader<'_>,
    args: &mut OpArgs,
) -> Result<(), ReadError>
    ensures value { Yields (λ _. args.new) result reader.new
        (with_front args.old (times_at (single_at single) count reader.old)) }
    ensures end { end_of reader.new ≡ end_of reader.old }
{
    for _ in 0..count {
        let value = read_single(single, reader)?;
        args.push(value)?;
    }
    Ok(())
}

/// How many things follow.
pub(crate) fn read_count(reader: &mut Reader<'_>) -> Result<u32, ReadError>
    ensures value { Yields (λ n. n) result reader.new (number_at reader.old) }
    ensures end { end_of reader.new ≡ end_of reader.old }
{
    Ok(reader.read_u32()?)
}

/// The kind of a catch.
#[tactic(auto, unfolding(crate::specs::Immediates::catch_kind_at))]
fn read_catch_kind(reader: &mut Reader<'_>) -> Result<u8, ReadError>
    ensures value { Yields (λ k. k) result reader.new (catch_kind_at reader.old) }
    ensures end { end_of reader.new ≡ end_of reader.old }
{
    let kind = reader.read_u8()?;
    if kind < 4 {
        Ok(kind)
    } else {
        Err(ReadError::Malformed(Why::BadByte))
    }
}

/// How many numbers follow it: a tag and a label, or a label alone.
fn catch_numbers(kind: u8) -> u32
    ensures { result ≡ catch_numbers kind }
{
    if kind < 2 { 2 } else { 1 }
}

/// The next catch, whose values go after those that are there.
fn read_catch(reader: &mut Reader<'_>, args: &mut OpArgs) -> Result<(), ReadError>
    ensures value { Yields (λ _. args.new) result reader.new
        (with_front args.old (catch_at reader.old)) }
    ensures end { end_of reader.new ≡ end_of reader.old }
{
    let kind = read_catch_kind(reader)?;
    args.push_number(u32::from(kind))?;
    read_singles(Single::Number, catch_numbers(kind), reader, args)
}

/// So many catches that come next, whose values go after those that are there.
fn read_catches(count: u32, reader: &mut Reader<'_>, args: &mut OpArgs) -> Result<(), ReadError>
    ensures value { Yields (λ _. args.new) result reader.new
        (with_front args.old (flat_at catch_at count reader.old)) }
    ensures end { end_of reader.new ≡ end_of reader.old }
{
    for _ in 0..count {
        read_catch(reader, args)?;
    }
    Ok(())
}

/// The next immediate, whose values go after those that are there.
fn read_immediate(
    immediate: Immediate,
    reader: &mut Reader<'_>,
    args: &mut OpArgs,
) -> Result<(), ReadError>
    ensures value { Yields (λ _. args.new) result reader.new
        (with_front args.old (immediate_at immediate reader.old)) }
    ensures end { end_of reader.new ≡ end_of reader.old }
{
    match immediate {
        Immediate::One(single) => {
            let value = read_single(single, reader)?;
            args.push(value)?;
            Ok(())
        }
        Immediate::ListOf(single) => {
            let count = read_count(reader)?;
            args.push_number(count)?;
            read_singles(single, count, reader, args)
        }
        Immediate::Catches => {
            let count = read_count(reader)?;
            args.push_number(count)?;
            read_catches(count, reader, args)
        }
    }
}

/// The next immediates, in this order.
pub(crate) fn read_immediates(
    alloc: Global,
    immediates: &[Immediate],
    reader: &mut Reader<'_>,
) -> Result<OpArgs, ReadError>
    ensures value { Yields (λ a. a) result reader.new (immediates_at immediates.now reader.old) }
    ensures end { end_of reader.new ≡ end_of reader.old }
{
    let mut args = OpArgs::new(alloc);
    for immediate in immediates {
        read_immediate(*immediate, reader, &mut args)?;
    }
    Ok(args)
}
