//! What globals start with.

ghost use Rattle.std.specs.Prelude.{ℤ, ◌∷◌, MatchOption};
ghost use Rattle.wl_bytes.specs.Leb.{IsSigned, s32_form, s64_form};
ghost use Rattle.wl_numeric.specs.declared.value.Value.{Value as Constant};
ghost use Rattle.wl_run.specs.Values.{HasFirstValue};
ghost use Rattle.wl_run.specs.declared.values.TheConstants.{I32_CONST, I64_CONST};

use wl_bytes::Reader;
use wl_numeric::Value;

/// `i32.const` (core specification, "Numeric Instructions").
pub const I32_CONST: u8 = 0x41;

/// `i64.const`.
pub const I64_CONST: u8 = 0x42;

/// The signed number of 32 bits that these bytes are.
fn whole_s32(text: &[u8]) -> Option<i32>
    ensures { MatchOption result ((z : ℤ) → IsSigned s32_form 0 z text.now → ⊥)
        (λ z. IsSigned s32_form 0 z text.now) }
{
    let mut reader = Reader::new(text);
    let Ok(number) = reader.read_s32() else {
        return None;
    };
    if reader.rest().is_empty() {
        Some(number)
    } else {
        None
    }
}

/// The signed number of 64 bits that these bytes are.
fn whole_s64(text: &[u8]) -> Option<i64>
    ensures { MatchOption result ((z : ℤ) → IsSigned s64_form 0 z text.now → ⊥)
        (λ z. IsSigned s64_form 0 z text.now) }
{
    let mut reader = Reader::new(text);
    let Ok(number) = reader.read_s64() else {
        return None;
    };
    if reader.rest().is_empty() {
        Some(number)
    } else {
        None
    }
}

/// The value of `i32.const` and these bytes.
fn i32_value(text: &[u8]) -> Option<Value>
    ensures { MatchOption result ((v : Constant) → HasFirstValue (I32_CONST ∷ text.now) v → ⊥)
        (HasFirstValue (I32_CONST ∷ text.now)) }
{
    let Some(number) = whole_s32(text) else {
        return None;
    };
    Some(Value::I32(number.cast_unsigned()))
}

/// The value of `i64.const` and these bytes.
fn i64_value(text: &[u8]) -> Option<Value>
    ensures { MatchOption result ((v : Constant) → HasFirstValue (I64_CONST ∷ text.now) v → ⊥)
        (HasFirstValue (I64_CONST ∷ text.now)) }
{
    let Some(number) = whole_s64(text) else {
        return None;
    };
    Some(Value::I64(number.cast_unsigned()))
}

/// The value of an expression that is one constant integer.
pub fn first_value(body: &[u8]) -> Option<Value>
    ensures { MatchOption result ((v : Constant) → HasFirstValue body.now v → ⊥)
        (HasFirstValue body.now) }
{
    let (code, text) = body.split_first()?;
    match *code {
        I32_CONST => i32_value(text),
        I64_CONST => i64_value(text),
        _ => None,
    }
}
