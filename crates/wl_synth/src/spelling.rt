//! Spelling operators, each number in its shortest form.

ghost use Rattle.std.specs.Prelude.{◌≡◌, ℕ, pos, [], ◌∷◌, map, Some, None, OnOk, MatchResult};
ghost use Rattle.wl_bytes.specs.Leb.{IsWithin};
ghost use Rattle.wl_synth.specs.Spelling.{IsShortImmediate, StandBehind, IsSpelled, as_op, as_ops};
ghost use Rattle.wl_synth.specs.Encoding.{great_constant, AddsText, AddsOperator, IsWritten, EncodeFault};

use crate::error::SynthError;
use crate::operator::Operator;
use std::alloc::{AllocError, Global};
use wl_bytes::{push_sleb, push_uleb, written_signed_is_read, written_unsigned_is_read};

/// The greatest signed number of 32 bits.
const GREATEST: u32 = 2147483647;

/// Adds an unsigned number.
fn push_immediate(out: &mut Vec<u8>, number: u32) -> Result<(), AllocError>
    ensures { OnOk result
        (AddsText (IsShortImmediate None (pos number)) out.old.items out.new.items) }
{
    push_uleb(out, u64::from(number))
}

/// Adds a first byte and unsigned numbers.
fn push_immediates(out: &mut Vec<u8>, code: u8, numbers: &[u32]) -> Result<(), AllocError>
    ensures { OnOk result (AddsText (StandBehind code None (map (λ n. pos n) numbers.now))
        out.old.items out.new.items) }
{
    out.push(code)?;
    for number in numbers {
        push_immediate(out, *number)?;
    }
    Ok(())
}

/// Adds a first byte and a signed number.
fn push_signed_immediate(out: &mut Vec<u8>, code: u8, number: i64) -> Result<(), AllocError>
    ensures { OnOk result ((bits : ℕ) → IsWithin bits number
        → AddsText (StandBehind code (Some bits) (number ∷ [])) out.old.items out.new.items) }
{
    out.push(code)?;
    push_sleb(out, number)?;
    Ok(())
}

/// Adds an operator whose constant, if it has one, is in range.
fn push_in_range(out: &mut Vec<u8>, operator: Operator) -> Result<(), AllocError>
    requires { great_constant (as_op operator) ≡ None }
    ensures { OnOk result (AddsText (IsSpelled (as_op operator)) out.old.items out.new.items) }
{
    match operator {
        Operator::Block => push_signed_immediate(out, 0x02, -0x40),
        Operator::End => push_immediates(out, 0x0b, &[]),
        Operator::Br(label) => push_immediates(out, 0x0c, &[label]),
        Operator::BrTable(zero, one, other) => push_immediates(out, 0x0e, &[2, zero, one, other]),
        Operator::Call(function) => push_immediates(out, 0x10, &[function]),
        Operator::Drop => push_immediates(out, 0x1a, &[]),
        Operator::LocalGet(local) => push_immediates(out, 0x20, &[local]),
        Operator::GlobalGet(global) => push_immediates(out, 0x23, &[global]),
        Operator::GlobalSet(global) => push_immediates(out, 0x24, &[global]),
        Operator::I32Store => push_immediates(out, 0x36, &[2, 0]),
        Operator::I32Const(number) => push_signed_immediate(out, 0x41, i64::from(number)),
        Operator::I32Unsigned(number) => push_signed_immediate(out, 0x41, i64::from(number)),
        Operator::I64Const(number) => push_signed_immediate(out, 0x42, number),
        Operator::I32Add => push_immediates(out, 0x6a, &[]),
        Operator::MemoryInit(segment) => push_immediates(out, 0xfc, &[8, segment, 0]),
        Operator::DataDrop(segment) => push_immediates(out, 0xfc, &[9, segment]),
        Operator::MemoryFill => push_immediates(out, 0xfc, &[11, 0]),
        Operator::MemoryAtomicNotify => push_immediates(out, 0xfe, &[0x00, 2, 0]),
        Operator::MemoryAtomicWait32 => push_immediates(out, 0xfe, &[0x01, 2, 0]),
        Operator::I32AtomicStore => push_immediates(out, 0xfe, &[0x17, 2, 0]),
        Operator::I32AtomicRmwCmpxchg => push_immediates(out, 0xfe, &[0x48, 2, 0]),
    }
}

/// The number of the operator's constant, where it is too great.
fn great_constant_of(operator: Operator) -> Option<u32>
    ensures { result ≡ great_constant (as_op operator) }
{
    let Operator::I32Unsigned(number) = operator else {
        return None;
    };
    if number > GREATEST {
        Some(number)
    } else {
        None
    }
}

/// Adds an operator, or refuses its constant.
fn push_operator(out: &mut Vec<u8>, operator: Operator) -> Result<(), SynthError>
    ensures { MatchResult result (λ _. AddsOperator operator out.old.items out.new.items)
        (EncodeFault (as_op operator ∷ [])) }
{
    if let Some(number) = great_constant_of(operator) {
        return Err(SynthError::Range(number));
    }
    push_in_range(out, operator)?;
    Ok(())
}

/// The body without locals that has these operators.
pub fn spell(alloc: Global, operators: &[Operator]) -> Result<Vec<u8>, SynthError>
    ensures { MatchResult result (λ body. IsWritten (as_ops operators.now) body.items)
        (EncodeFault (as_ops operators.now)) }
{
    written_unsigned_is_read();
    written_signed_is_read();
    let mut out = Vec::new(alloc);
    out.push(0x00)?;
    for operator in operators {
        push_operator(&mut out, *operator)?;
    }
    Ok(out)
}
