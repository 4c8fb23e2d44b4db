//! Values and their types.

ghost use Rattle.std.specs.Prelude.{◌≡◌, ◌≤◌, IfOk, length};
ghost use Rattle.wl_load.specs.Values.{last_of, has_type, have_types, is_integer, are_integers, are_integer_runs, same_width, handed, zero_of};
ghost use Rattle.wl_load.specs.Answers.{Gives};

use crate::code::LocalRun;
use crate::stop::Stop;
use wl_module::ValType;
use wl_numeric::{Value, Width};

/// Whether a value is of a type; only integers are values here.
fn has_type(value: Value, ty: ValType) -> bool
    ensures { result ≡ has_type value ty }
{
    match ty {
        ValType::I32 => value.width() == Width::Bits32,
        ValType::I64 => value.width() == Width::Bits64,
        ValType::F32 | ValType::F64 | ValType::V128 | ValType::FuncRef | ValType::ExternRef =>
            false,
    }
}

/// Whether values have these types, one each.
#[tactic(auto, using(crate::proofs::AnswerLaws::uncounted))]
pub(crate) fn have_types(values: &[Value], types: &[ValType]) -> bool
    ensures { result ≡ have_types values.now types.now }
{
    if values.len() != types.len() {
        return false;
    }
    for place in 0..values.len() {
        if !has_type(values[place], types[place]) {
            return false;
        }
    }
    true
}

/// Whether the topmost operands have these types, one each.
#[tactic(auto, using(crate::proofs::AnswerLaws::too_few_handed))]
pub(crate) fn check_last(types: &[ValType], operands: &[Value]) -> Result<(), Stop>
    ensures checked { Gives (λ _. last_of (length types.now) operands.now) result
        (handed types.now operands.now) }
    ensures enough { IfOk result (λ _. length types.now ≤ length operands.now) }
{
    let Some(below) = operands.len().checked_sub(types.len()) else {
        return Err(Stop::Invalid);
    };
    if have_types(&operands[below..], types) {
        Ok(())
    } else {
        Err(Stop::Invalid)
    }
}

/// Whether values can have the type.
fn is_integer(ty: ValType) -> bool
    ensures { result ≡ is_integer ty }
{
    match ty {
        ValType::I32 | ValType::I64 => true,
        ValType::F32 | ValType::F64 | ValType::V128 | ValType::FuncRef | ValType::ExternRef =>
            false,
    }
}

/// Whether values can have each of the types.
pub(crate) fn are_integers(types: &[ValType]) -> bool
    ensures { result ≡ are_integers types.now }
{
    types.iter().all(|ty| is_integer(*ty))
}

/// Whether values can have the type of each of the locals.
pub(crate) fn are_integer_runs(runs: &[LocalRun]) -> bool
    ensures { result ≡ are_integer_runs runs.now }
{
    runs.iter().all(|run| is_integer(run.value_type))
}

/// Whether two values have one width.
pub(crate) fn same_width(a: Value, b: Value) -> bool
    ensures { result ≡ same_width a b }
{
    match (a, b) {
        (Value::I32(_), Value::I32(_)) | (Value::I64(_), Value::I64(_)) => true,
        (Value::I32(_), Value::I64(_)) | (Value::I64(_), Value::I32(_)) => false,
    }
}

/// What a local of the type begins with; only integers are asked for.
pub(crate) fn zero_of(ty: ValType) -> Value
    ensures { result ≡ zero_of ty }
{
    match ty {
        ValType::I64 => Value::I64(0),
        ValType::I32
        | ValType::F32
        | ValType::F64
        | ValType::V128
        | ValType::FuncRef
        | ValType::ExternRef => Value::I32(0),
    }
}
