//! Fields of bodies and segments, which take numbers.

ghost use Rattle.std.specs.Prelude.{◌≡◌, ◌+◌, ◌^◌, ◌<◌, ◌/◌, ◌%◌, ℕ};
ghost use Rattle.wl_bytes.specs.Leb.{IsU32, IsSigned, s32_form};
ghost use Rattle.wl_custom.specs.declared.relocation_type.FieldForm.TheVariants.{PaddedUnsigned, PaddedSigned};
ghost use Rattle.wl_numeric.specs.Integers.{signed};
ghost use Rattle.wl_load.specs.Fields.{padded, highest_bits, signed_bits, field_bytes, laid, with_field};

use crate::threads::word_bytes;
use wl_custom::FieldForm;

/// Puts bytes at a place of a list. Where they don't lie in it, it stays as it was.
pub fn lay_bytes(under: &mut Vec<u8>, place: usize, bytes: &[u8])
    ensures { under.new.items ≡ laid place bytes.now under.old.items }
{
    let Some(last) = under.len().checked_sub(bytes.len()) else {
        return;
    };
    if place <= last {
        under[place..place + bytes.len()].copy_from_slice(bytes);
    }
}

/// Seven bits of a number after so many, with the high bit.
fn seven_bits(number: u32, count: u32) -> u8
    requires { count < 32 }
    ensures { result ≡ number / 2 ^ count % 128 + 128 }
{
    ((number >> count) % 0x80) as u8 + 0x80
}

/// Five bytes of LEB128, with that last one.
fn padded(number: u32, last: u8) -> [u8; 5]
    ensures { result ≡ padded last number }
{
    [
        seven_bits(number, 0),
        seven_bits(number, 7),
        seven_bits(number, 14),
        seven_bits(number, 21),
        last,
    ]
}

/// The last of five bytes of unsigned LEB128.
fn highest_bits(number: u32) -> u8
    ensures { result ≡ highest_bits number }
{
    (number >> 28) as u8
}

/// The last of five bytes of signed LEB128: copies of the sign stand above the number's own bits.
fn signed_bits(number: u32) -> u8
    ensures { result ≡ signed_bits number }
{
    if number < 1 << 31 {
        highest_bits(number)
    } else {
        highest_bits(number) + 0x70
    }
}

/// Puts a number into the field at a place, in five bytes of LEB128, of signed LEB128, or in four
/// bytes. Where the field doesn't lie in the bytes, they stay as they were.
pub fn put_field(bytes: &mut Vec<u8>, place: usize, form: FieldForm, number: u32)
    ensures { bytes.new.items ≡ with_field form place number bytes.old.items }
{
    match form {
        FieldForm::PaddedUnsigned => {
            lay_bytes(bytes, place, &padded(number, highest_bits(number)))
        }
        FieldForm::PaddedSigned => lay_bytes(bytes, place, &padded(number, signed_bits(number))),
        FieldForm::Word => lay_bytes(bytes, place, &word_bytes(number)),
    }
}

/// What stands in a field reads as its number: in LEB128 as the number itself, in signed LEB128 as
/// what its bits stand for.
#[tactic(auto, using(crate::proofs::FieldLaws::unsigned_read, crate::proofs::FieldLaws::signed_read))]
pub fn fields_are_read()
    ensures unsigned { (n : ℕ) → n < 2 ^ 32 → IsU32 0 n (field_bytes PaddedUnsigned n) }
    ensures signed { (n : ℕ) → n < 2 ^ 32
        → IsSigned s32_form 0 (signed 32 n) (field_bytes PaddedSigned n) }
{}
