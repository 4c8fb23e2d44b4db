//! Constant expressions: what a global starts with, and where a segment is put.

ghost use Rattle.wl_module.specs.Constants.{first_at, reference_at, vector_at, const_immediate_at, step_at, expression_at};
ghost use Rattle.wl_bytes.specs.Outcome.{Yields};

use wl_bytes::{Form, ReadError, Reader};

/// The byte that ends an expression.
const END: u8 = 0x0b;

/// The number of `v128.const` among the operators whose first byte is 0xfd.
const V128_CONST: u32 = 0x0c;

/// The operators that a constant expression may have, by their first bytes (core specification,
/// "Constant Expressions").
#[derive(Clone, Copy, PartialEq, Eq)]
pub enum ConstOperator {
    /// `i32.const`: 0x41.
    I32Const,
    /// `i64.const`: 0x42.
    I64Const,
    /// `f32.const`: 0x43.
    F32Const,
    /// `f64.const`: 0x44.
    F64Const,
    /// `global.get`: 0x23.
    GlobalGet,
    /// `ref.null`: 0xd0.
    RefNull,
    /// `ref.func`: 0xd2.
    RefFunc,
    /// `i32.add`: 0x6a.
    I32Add,
    /// `i32.sub`: 0x6b.
    I32Sub,
    /// `i32.mul`: 0x6c.
    I32Mul,
    /// `i64.add`: 0x7c.
    I64Add,
    /// `i64.sub`: 0x7d.
    I64Sub,
    /// `i64.mul`: 0x7e.
    I64Mul,
    /// `v128.const`: 0xfd, the first byte of all vector operators, and its number.
    Vector,
}

/// The first byte of an operator, or `None` for that of the end.
#[tactic(auto, unfolding(crate::specs::Constants::first_at))]
fn read_first(reader: &mut Reader<'_>) -> Result<Option<ConstOperator>, ReadError>
    ensures { Yields (λ o. o) result reader.new (first_at reader.old) }
{
    match reader.read_u8()? {
        END => Ok(None),
        0x41 => Ok(Some(ConstOperator::I32Const)),
        0x42 => Ok(Some(ConstOperator::I64Const)),
        0x43 => Ok(Some(ConstOperator::F32Const)),
        0x44 => Ok(Some(ConstOperator::F64Const)),
        0x23 => Ok(Some(ConstOperator::GlobalGet)),
        0xd0 => Ok(Some(ConstOperator::RefNull)),
        0xd2 => Ok(Some(ConstOperator::RefFunc)),
        0x6a => Ok(Some(ConstOperator::I32Add)),
        0x6b => Ok(Some(ConstOperator::I32Sub)),
        0x6c => Ok(Some(ConstOperator::I32Mul)),
        0x7c => Ok(Some(ConstOperator::I64Add)),
        0x7d => Ok(Some(ConstOperator::I64Sub)),
        0x7e => Ok(Some(ConstOperator::I64Mul)),
        0xfd => Ok(Some(ConstOperator::Vector)),
        _ => Err(ReadError::Unsupported(Form::ConstOperator)),
    }
}

/// The type of a null reference.
#[tactic(auto, unfolding(crate::specs::Constants::reference_at))]
fn skip_reference(reader: &mut Reader<'_>) -> Result<(), ReadError>
    ensures { Yields (λ u. u) result reader.new (reference_at reader.old) }
{
    match reader.read_u8()? {
        0x70 | 0x6f => Ok(()),
        _ => Err(ReadError::Unsupported(Form::Operator)),
    }
}

/// What follows the first byte of a vector operator.
#[tactic(auto, unfolding(crate::specs::Constants::vector_at))]
fn skip_vector(reader: &mut Reader<'_>) -> Result<(), ReadError>
    ensures { Yields (λ u. u) result reader.new (vector_at reader.old) }
{
    if reader.read_u32()? != V128_CONST {
        return Err(ReadError::Unsupported(Form::ConstOperator));
    }
    reader.take(16)?;
    Ok(())
}

/// What follows an operator's first byte.
#[tactic(auto, unfolding(crate::specs::Constants::const_immediate_at))]
fn skip_immediate(operator: ConstOperator, reader: &mut Reader<'_>) -> Result<(), ReadError>
    ensures { Yields (λ u. u) result reader.new (const_immediate_at operator reader.old) }
{
    match operator {
        ConstOperator::I32Const => {
            reader.read_s32()?;
        }
        ConstOperator::I64Const => {
            reader.read_s64()?;
        }
        ConstOperator::F32Const => {
            reader.take(4)?;
        }
        ConstOperator::F64Const => {
            reader.take(8)?;
        }
        ConstOperator::GlobalGet | ConstOperator::RefFunc => {
            reader.read_u32()?;
        }
        ConstOperator::RefNull => skip_reference(reader)?,
        ConstOperator::Vector => skip_vector(reader)?,
        ConstOperator::I32Add
        | ConstOperator::I32Sub
        | ConstOperator::I32Mul
        | ConstOperator::I64Add
        | ConstOperator::I64Sub
        | ConstOperator::I64Mul => {}
    }
    Ok(())
}

/// The next operator, or `None` at the end.
#[tactic(auto, unfolding(crate::specs::Constants::step_at))]
fn read_step(reader: &mut Reader<'_>) -> Result<Option<ConstOperator>, ReadError>
    ensures { Yields (λ o. o) result reader.new (step_at reader.old) }
{
    let first = read_first(reader)?;
    if let Some(operator) = first {
        skip_immediate(operator, reader)?;
    }
    Ok(first)
}

/// The next expression, without its end. What it computes isn't looked at.
pub(crate) fn read_expression<'a>(reader: &mut Reader<'a>) -> Result<&'a [u8], ReadError>
    ensures { Yields (λ b. b.now) result reader.new (expression_at reader.old) }
{
    let bytes = reader.rest();
    let start = reader.position();
    let mut end = start;
    while read_step(reader)?.is_some() {
        end = reader.position();
    }
    Ok(&bytes[..end - start])
}
