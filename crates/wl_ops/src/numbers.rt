//! The numbers of data segments in the bodies of functions.

ghost use Rattle.std.specs.Prelude.{◌≡◌, ◌++◌, [], Ok, false, IfOk};
ghost use Rattle.std.specs.Option.{option_to_list};
ghost use Rattle.wl_bytes.specs.Cursor.{end_of};
ghost use Rattle.wl_bytes.specs.Outcome.{Yields, Gives, ReadsWhole};
ghost use Rattle.wl_ops.specs.Numbers.{is_segment, placed_number_at, segment_number_at, segment_args, marked_at, NumbersIn, NumbersOf, AreTold, NumbersFault, holds_prefix};

use crate::decoding::{in_body, skip_locals};
use crate::op::{DataIndexImm, Marked, Op, OpArgs};
use crate::operators::{END, read_behind, read_head};
use memchr::memchr;
use std::alloc::{AllocError, Global};
use wl_bytes::{ReadError, Reader, Why};

/// The first byte of `memory.init` and `data.drop`.
const PREFIX: u8 = 0xfc;

/// The number of `memory.init` among the operators that begin so.
const MEMORY_INIT: u32 = 8;

/// The number of `data.drop` among them.
const DATA_DROP: u32 = 9;

/// Whether the first immediate is the number of a data segment.
fn is_segment(code: u8, sub: u32) -> bool
    ensures { result ≡ is_segment code sub }
{
    code == PREFIX && (sub == MEMORY_INIT || sub == DATA_DROP)
}

/// The next number, with its place.
#[tactic(auto, unfolding(crate::specs::Numbers::placed_number_at))]
fn read_placed_number(reader: &mut Reader<'_>) -> Result<DataIndexImm, ReadError>
    ensures value { Yields (λ n. n) result reader.new (placed_number_at reader.old) }
    ensures end { end_of reader.new ≡ end_of reader.old }
{
    let offset = reader.position();
    let index = reader.read_u32()?;
    let len = reader.position() - offset;
    Ok(DataIndexImm { offset, len, index })
}

/// The number of a segment, and for `memory.init` that of a memory.
#[tactic(auto, unfolding(crate::specs::Numbers::segment_number_at))]
fn read_segment_number(
    sub: u32,
    reader: &mut Reader<'_>,
) -> Result<(DataIndexImm, Option<u32>), ReadError>
    ensures value { Yields (λ p. p) result reader.new (segment_number_at sub reader.old) }
    ensures end { end_of reader.new ≡ end_of reader.old }
{
    let number = read_placed_number(reader)?;
    if sub == MEMORY_INIT {
        let memory = reader.read_u32()?;
        Ok((number, Some(memory)))
    } else {
        Ok((number, None))
    }
}

/// The values of both.
fn segment_args(
    alloc: Global,
    number: DataIndexImm,
    memory: Option<u32>,
) -> Result<OpArgs, AllocError>
    ensures { IfOk result (λ a. a ≡ segment_args (number, memory)) }
{
    let mut args = OpArgs::new(alloc);
    args.push_number(number.index)?;
    if let Some(memory) = memory {
        args.push_number(memory)?;
    }
    Ok(args)
}

/// The next operator, with the number of a data segment in it.
#[tactic(auto, unfolding(crate::specs::Numbers::marked_at))]
pub(crate) fn read_marked(alloc: Global, reader: &mut Reader<'_>) -> Result<Marked, ReadError>
    ensures value { Yields (λ m. m) result reader.new (marked_at reader.old) }
    ensures end { end_of reader.new ≡ end_of reader.old }
{
    let (code, sub) = read_head(reader)?;
    if is_segment(code, sub) {
        let (number, memory) = read_segment_number(sub, reader)?;
        let args = segment_args(alloc, number, memory)?;
        Ok(Marked {
            op: Op { code, sub, args },
            number: Some(number),
        })
    } else {
        let args = read_behind(alloc, code, sub, reader)?;
        Ok(Marked {
            op: Op { code, sub, args },
            number: None,
        })
    }
}

/// One more number, if there is one.
fn keep(numbers: &mut Vec<DataIndexImm>, number: Option<DataIndexImm>) -> Result<(), AllocError>
    ensures { IfOk result (λ _. numbers.new.items ≡ numbers.old.items ++ option_to_list number) }
{
    if let Some(number) = number {
        numbers.push(number)?;
    }
    Ok(())
}

/// The numbers of the operators up to the end of the bytes.
fn numbers_in(alloc: Global, reader: &mut Reader<'_>) -> Result<Vec<DataIndexImm>, ReadError>
    ensures { NumbersIn (λ v. v.items) reader.old result }
{
    let mut numbers = Vec::new(alloc);
    let mut is_ended = false;
    while !reader.rest().is_empty() {
        let marked = read_marked(alloc, reader)?;
        is_ended = marked.op.code == END;
        keep(&mut numbers, marked.number)?;
    }
    if is_ended {
        Ok(numbers)
    } else {
        Err(ReadError::Malformed(Why::Truncated))
    }
}

/// The numbers of a body, with each fault as it is.
fn numbers_of(alloc: Global, body: &[u8]) -> Result<Vec<DataIndexImm>, ReadError>
    ensures { NumbersOf (λ v. v.items) body.now result }
{
    let mut reader = Reader::new(body);
    skip_locals(&mut reader)?;
    numbers_in(alloc, &mut reader)
}

/// Whether a byte 0xfc stands in the body.
fn holds_prefix(body: &[u8]) -> bool
    ensures { result ≡ holds_prefix body.now }
{
    memchr(PREFIX, body).is_some()
}

/// The numbers of data segments in a body: those of the operators `memory.init` and `data.drop`,
/// in order (core specification, "Memory Instructions"). Places and lengths are in bytes.
///
/// Whoever removes or reorders segments rewrites these numbers. A body without a byte 0xfc has
/// none, and isn't decoded.
///
/// # Errors
/// Those of [`decode_body`](crate::decode_body), on a body with a byte 0xfc.
pub fn data_index_immediates(alloc: Global, body: &[u8]) -> Result<Vec<DataIndexImm>, ReadError>
    ensures reads { ReadsWhole (λ v. v.items) AreTold NumbersFault body.now result }
    ensures undecoded { holds_prefix body.now ≡ false → Gives (λ v. v.items) result (Ok []) }
{
    if !holds_prefix(body) {
        return Ok(Vec::new(alloc));
    }
    match numbers_of(alloc, body) {
        Ok(numbers) => Ok(numbers),
        Err(error) => Err(in_body(error)),
    }
}
