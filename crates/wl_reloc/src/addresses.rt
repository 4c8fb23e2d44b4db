//! What addresses of data become in fields.

ghost use Rattle.std.specs.Prelude.{◌≡◌, pos, ◌-ℤ◌, ◌+ℤ◌};
ghost use Rattle.wl_reloc.specs.Addresses.{s32_or_range, behind_thread_data, address_value, word_of, as_word, stored_by_thread, deferred_value, deferred_at, deferred_pointer};

use crate::error::RelocError;
use wl_custom::{AddressBase, FieldForm};
use wl_index::{WasmDataAddress, WasmObjectIndexMap};
use wl_linking::{RelocationType, WasmRelocation};

/// From where addresses are counted.
#[derive(Clone, Copy, PartialEq, Eq)]
pub struct AddressBases {
    /// The value of `__memory_base`.
    pub memory_base: u32,
    /// Where the data of the thread begins.
    pub tls_base: u32,
}

/// The number, where it is a signed one of 32 bits.
fn s32_or_range(number: i128) -> Result<i32, RelocError>
    ensures { result ≡ s32_or_range number }
{
    if number < -2_147_483_648 || number > 2_147_483_647 {
        Err(RelocError::Range)
    } else {
        Ok(number as i32)
    }
}

/// The word that holds the number: a negative one stands 2^32 higher.
fn word_of(number: i32) -> u32
    ensures { result ≡ word_of number }
{
    if number < 0 {
        (i64::from(number) + 4_294_967_296) as u32
    } else {
        number as u32
    }
}

/// The word that holds the number, where it is a signed one of 32 bits.
fn word_in_range(number: i128) -> Result<u32, RelocError>
    ensures { result ≡ as_word (s32_or_range number) }
{
    Ok(word_of(s32_or_range(number)?))
}

/// The word of an address that is counted from a base, with what is added to it.
fn counted_from(place: u32, base: u32, addend: i64) -> Result<u32, RelocError>
    ensures { result ≡ as_word (s32_or_range ((pos place -ℤ pos base) +ℤ addend)) }
{
    word_in_range(i128::from(place) - i128::from(base) + i128::from(addend))
}

/// An address relative to the start of the thread's data, with what is added to it.
fn behind_thread_data(bases: AddressBases, place: u32, addend: i64) -> Result<u32, RelocError>
    ensures { result ≡ as_word (behind_thread_data bases place addend) }
{
    if place < bases.tls_base {
        Err(RelocError::Range)
    } else {
        counted_from(place, bases.tls_base, addend)
    }
}

/// The word of a place in the data of a thread, with what is added to it.
fn in_thread_data(offset: u32, addend: i64) -> Result<u32, RelocError>
    ensures { result ≡ as_word (s32_or_range (pos offset +ℤ addend)) }
{
    word_in_range(i128::from(offset) + i128::from(addend))
}

/// The word of an address, by from where it is counted, and by what is added to it; counted from
/// the start of the memory, the addend is left to be added.
pub(crate) fn address_value(
    base: AddressBase,
    bases: AddressBases,
    address: WasmDataAddress,
    addend: i64,
) -> Result<u32, RelocError>
    ensures { result ≡ as_word (address_value base bases address addend) }
{
    match (base, address) {
        (_, WasmDataAddress::Passive)
        | (AddressBase::Memory | AddressBase::MemoryBase, WasmDataAddress::TlsOffset(_)) => {
            Err(RelocError::Unsupported)
        }
        (AddressBase::Memory | AddressBase::ThreadData, WasmDataAddress::Missing) => Ok(0),
        (AddressBase::MemoryBase, WasmDataAddress::Missing) => {
            counted_from(0, bases.memory_base, addend)
        }
        (AddressBase::Memory, WasmDataAddress::Placed(place)) => Ok(place),
        (AddressBase::MemoryBase, WasmDataAddress::Placed(place)) => {
            counted_from(place, bases.memory_base, addend)
        }
        (AddressBase::ThreadData, WasmDataAddress::Placed(place)) => {
            behind_thread_data(bases, place, addend)
        }
        (AddressBase::ThreadData, WasmDataAddress::TlsOffset(offset)) => {
            in_thread_data(offset, addend)
        }
    }
}

/// The place in the data of a thread that the thread stores in a field of that form.
fn stored_by_thread(form: FieldForm, place: i128) -> Result<Option<i32>, RelocError>
    ensures { result ≡ stored_by_thread form place }
{
    match form {
        FieldForm::Word => Ok(Some(s32_or_range(place)?)),
        FieldForm::PaddedUnsigned | FieldForm::PaddedSigned => Err(RelocError::Unsupported),
    }
}

/// The place in the data of a thread that a field takes which names data there.
fn deferred_value(ty: RelocationType, place: i128) -> Result<Option<i32>, RelocError>
    ensures { result ≡ deferred_value ty place }
{
    if ty.has_addend() {
        stored_by_thread(ty.field_form(), place)
    } else {
        Ok(None)
    }
}

/// The place in the data of a thread that a field takes which names what lies there.
fn deferred_at(
    ty: RelocationType,
    addend: i64,
    address: Option<WasmDataAddress>,
) -> Result<Option<i32>, RelocError>
    ensures { result ≡ deferred_at ty addend address }
{
    match address {
        Some(WasmDataAddress::TlsOffset(offset)) => {
            deferred_value(ty, i128::from(offset) + i128::from(addend))
        }
        Some(WasmDataAddress::Missing | WasmDataAddress::Placed(_) | WasmDataAddress::Passive)
        | None => Ok(None),
    }
}

/// The place relative to the start of a thread's data that the field of a relocation takes, where
/// it names data that lies there, in the block of each thread: only four bytes can be stored when
/// the thread starts. For data that lies elsewhere, and for a relocation that names none, there is
/// none.
///
/// # Errors
/// `Unsupported` for an address in another field than four bytes; `Range` where the place is no
/// signed number of 32 bits, each exactly there (the law [`crate::pointer_or_fault`]).
pub fn deferred_tls_template_pointer(
    map: &WasmObjectIndexMap,
    reloc: &WasmRelocation,
) -> Result<Option<i32>, RelocError>
    ensures { result ≡ deferred_pointer map.now.data_addresses reloc.now }
{
    deferred_at(reloc.ty, reloc.addend, map.data_address(reloc.index))
}
