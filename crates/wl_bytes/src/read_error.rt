//! Why a part of a module could not be read.

ghost use Rattle.std.specs.Prelude.{◌≡◌};
ghost use Rattle.wl_bytes.specs.declared.read_error.ReadError.TheVariants.{OutOfMemory};
ghost use Rattle.wl_bytes.specs.Error.{read_error};

use crate::error::BytesError;
use std::alloc::{AllocError, AllocFailed};
use thiserror::Error;

/// The rule of the format that the bytes break.
#[derive(Clone, Copy, Debug, PartialEq, Eq)]
pub enum Why {
    /// The eight bytes at the front aren't those of a module of version 1.
    Header,
    /// The bytes end inside an item.
    Truncated,
    /// A number breaks the rule of LEB128: it is too long, or its last byte is too great.
    BadLeb,
    /// A name isn't UTF-8.
    BadUtf8,
    /// A section's id is above 13.
    SectionId,
    /// A standard section comes twice, or after one that it has to precede.
    SectionOrder,
    /// There is a second linking section, a second subsection of one kind in it, or a second
    /// relocation section for one target.
    Repeated,
    /// Bytes are left after the items of a section.
    Trailing,
    /// A byte has no meaning in its place.
    BadByte,
    /// A minimum and a maximum that can't be, as a minimum above the maximum.
    BadLimits,
    /// The exponent of an alignment is above 31.
    BadAlignment,
    /// There aren't as many bodies as functions, or as many segments as the data count says.
    Count,
    /// An index names nothing.
    BadIndex,
    /// Two undefined symbols of one import have different names.
    SlotNames,
    /// The number of a relocation's type is above 26.
    RelocType,
    /// The field of a relocation lies in no body and no payload, or hasn't the form of its type.
    Field,
    /// The fields of two relocations overlap.
    Overlap,
    /// The operators of a body can't be decoded.
    Body,
}

/// A form that the format knows and that isn't taken.
#[derive(Clone, Copy, Debug, PartialEq, Eq)]
pub enum Form {
    /// An entry of the type section that isn't a function type.
    TypeForm,
    /// A value type that isn't a number, a vector, `funcref` or `externref`.
    ValueType,
    /// An imported table whose elements aren't `funcref`.
    TableType,
    /// A table with other limits than a minimum, and a maximum where there is one: shared ones,
    /// 64-bit ones, and those with a page size.
    TableForm,
    /// A table section: tables are imported.
    TableDef,
    /// A memory with 64-bit addresses.
    Memory64,
    /// A memory whose pages have a size of their own.
    PageSize,
    /// A second memory.
    ManyMemories,
    /// A start section.
    Start,
    /// An exception tag.
    Tag,
    /// A constant expression with an operator that isn't taken there.
    ConstOperator,
    /// A linking section of a version other than 2.
    LinkingVersion,
    /// A type of relocation that there is no rule for.
    RelocType,
    /// A relocation section for something other than code, data or debug sections.
    RelocTarget,
    /// An operator that there is no rule for, or a null reference of another type than `funcref`
    /// and `externref`.
    Operator,
    /// One of the operators `table.init` and `elem.drop`.
    ElementOperator,
    /// A global that starts with `global.get` or `ref.func`.
    GlobalInit,
    /// The address of something in a passive segment.
    PassiveAddress,
    /// The address of something thread-local.
    TlsAddress,
}

/// Why bytes could not be read.
#[derive(Clone, Copy, Debug, PartialEq, Eq, Error)]
pub enum ReadError {
    /// There was no memory for what was read.
    #[error("OutOfMemory")]
    OutOfMemory,
    /// The bytes break a rule of the format.
    #[error("Malformed")]
    Malformed(Why),
    /// The bytes are sound as far as they were read, and the next form isn't taken.
    #[error("Unsupported")]
    Unsupported(Form),
}

impl From<BytesError> for ReadError {
    ghost from_gives = { λ d e. e ≡ read_error d };

    fn from(e: BytesError) -> ReadError {
        match e {
            BytesError::End => ReadError::Malformed(Why::Truncated),
            BytesError::BadLeb => ReadError::Malformed(Why::BadLeb),
            BytesError::BadUtf8 => ReadError::Malformed(Why::BadUtf8),
        }
    }
}

impl From<AllocError> for ReadError {
    ghost from_gives = { λ _ e. e ≡ OutOfMemory };

    fn from(_e: AllocError) -> ReadError {
        ReadError::OutOfMemory
    }
}

impl<T: Drop> From<AllocFailed<T>> for ReadError {
    ghost from_gives = { λ _ e. e ≡ OutOfMemory };

    fn from(_e: AllocFailed<T>) -> ReadError {
        ReadError::OutOfMemory
    }
}
