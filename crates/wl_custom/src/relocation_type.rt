//! The types of relocations (object file linking, version 2, "Relocation Sections"), as one table:
//! each column is a `match`.

ghost use Rattle.std.specs.Prelude.{◌≡◌};
ghost use Rattle.wl_custom.specs.RelocationTypes.{field_form, taking_of, may_stand_in_data, relocation_types, relocation_type_of, names_a_type, has_addend, takes_kind, is_global_index, is_table_index, is_table_relative, is_table_number, is_memory_relative, is_absolute, type_name};

use crate::symbols::WasmSymbolKind;
use crate::takings::{AddressBase, Taking};

/// What a relocation puts into its field (object file linking, version 2, "Relocation Sections").
#[derive(Clone, Copy, PartialEq, Eq)]
pub enum RelocationType {
    /// The number of a function, in five bytes of LEB128.
    FunctionIndexLeb,
    /// The slot of a function in the table, in five bytes of signed LEB128.
    TableIndexSleb,
    /// The slot of a function in the table, in four bytes.
    TableIndexI32,
    /// The address of data, in five bytes of LEB128.
    MemoryAddrLeb,
    /// The address of data, in five bytes of signed LEB128.
    MemoryAddrSleb,
    /// The address of data, in four bytes.
    MemoryAddrI32,
    /// The number of a type, in five bytes of LEB128.
    TypeIndexLeb,
    /// The number of a global, in five bytes of LEB128.
    GlobalIndexLeb,
    /// The address of data relative to the base of the memory, in five bytes of signed LEB128.
    MemoryAddrRelSleb,
    /// The slot of a function relative to the base of the table, in five bytes of signed LEB128.
    TableIndexRelSleb,
    /// The number of a global, in four bytes.
    GlobalIndexI32,
    /// The number of a table, in five bytes of LEB128.
    TableNumberLeb,
    /// The address of data relative to the base of a thread's data, in five bytes of signed LEB128.
    MemoryAddrTlsSleb,
    /// The number of a function, in four bytes.
    FunctionIndexI32,
}

/// How a field holds its value.
#[derive(Clone, Copy, PartialEq, Eq)]
pub enum FieldForm {
    /// LEB128 in five bytes.
    PaddedUnsigned,
    /// Signed LEB128 in five bytes.
    PaddedSigned,
    /// Four bytes, the least first.
    Word,
}

/// The greatest number of a type of relocation.
pub(crate) const LAST_TYPE: u8 = 26;

impl RelocationType {
    /// All of them that there is a rule for, each once.
    pub fn all_types() -> &'static [RelocationType]
        ensures { result.now ≡ relocation_types }
    {
        &[
            Self::FunctionIndexLeb,
            Self::TableIndexSleb,
            Self::TableIndexI32,
            Self::MemoryAddrLeb,
            Self::MemoryAddrSleb,
            Self::MemoryAddrI32,
            Self::TypeIndexLeb,
            Self::GlobalIndexLeb,
            Self::MemoryAddrRelSleb,
            Self::TableIndexRelSleb,
            Self::GlobalIndexI32,
            Self::TableNumberLeb,
            Self::MemoryAddrTlsSleb,
            Self::FunctionIndexI32,
        ]
    }

    /// How its field holds the value.
    pub fn field_form(self) -> FieldForm
        ensures { result ≡ field_form self }
    {
        match self {
            Self::FunctionIndexLeb
            | Self::MemoryAddrLeb
            | Self::TypeIndexLeb
            | Self::GlobalIndexLeb
            | Self::TableNumberLeb => FieldForm::PaddedUnsigned,
            Self::TableIndexSleb
            | Self::MemoryAddrSleb
            | Self::MemoryAddrRelSleb
            | Self::TableIndexRelSleb
            | Self::MemoryAddrTlsSleb => FieldForm::PaddedSigned,
            Self::TableIndexI32
            | Self::MemoryAddrI32
            | Self::GlobalIndexI32
            | Self::FunctionIndexI32 => FieldForm::Word,
        }
    }

    /// What it takes of what it names.
    pub fn takes(self) -> Taking
        ensures { result ≡ taking_of self }
    {
        match self {
            Self::FunctionIndexLeb | Self::FunctionIndexI32 => Taking::FunctionIndex,
            Self::TableIndexSleb | Self::TableIndexI32 => Taking::Slot,
            Self::TableIndexRelSleb => Taking::SlotBehindBase,
            Self::TypeIndexLeb => Taking::TypeIndex,
            Self::GlobalIndexLeb | Self::GlobalIndexI32 => Taking::GlobalIndex,
            Self::TableNumberLeb => Taking::TableNumber,
            Self::MemoryAddrLeb | Self::MemoryAddrSleb | Self::MemoryAddrI32 => {
                Taking::Address(AddressBase::Memory)
            }
            Self::MemoryAddrRelSleb => Taking::Address(AddressBase::MemoryBase),
            Self::MemoryAddrTlsSleb => Taking::Address(AddressBase::ThreadData),
        }
    }

    /// Whether it may stand in the data section too: data has no base to count a slot from.
    pub(crate) fn may_stand_in_data(self) -> bool
        ensures { result ≡ may_stand_in_data self }
    {
        match self {
            Self::TableIndexRelSleb => false,
            Self::FunctionIndexLeb
            | Self::TableIndexSleb
            | Self::TableIndexI32
            | Self::MemoryAddrLeb
            | Self::MemoryAddrSleb
            | Self::MemoryAddrI32
            | Self::TypeIndexLeb
            | Self::GlobalIndexLeb
            | Self::MemoryAddrRelSleb
            | Self::GlobalIndexI32
            | Self::TableNumberLeb
            | Self::MemoryAddrTlsSleb
            | Self::FunctionIndexI32 => true,
        }
    }

    /// The type of that number, where there is a rule for it. The other numbers are those of
    /// offsets in functions and sections, of tags, of forms of 64 bits, and of addresses relative
    /// to their field.
    pub(crate) fn from_number(number: u8) -> Option<Self>
        ensures { result ≡ relocation_type_of number }
    {
        match number {
            0 => Some(Self::FunctionIndexLeb),
            1 => Some(Self::TableIndexSleb),
            2 => Some(Self::TableIndexI32),
            3 => Some(Self::MemoryAddrLeb),
            4 => Some(Self::MemoryAddrSleb),
            5 => Some(Self::MemoryAddrI32),
            6 => Some(Self::TypeIndexLeb),
            7 => Some(Self::GlobalIndexLeb),
            11 => Some(Self::MemoryAddrRelSleb),
            12 => Some(Self::TableIndexRelSleb),
            13 => Some(Self::GlobalIndexI32),
            20 => Some(Self::TableNumberLeb),
            21 => Some(Self::MemoryAddrTlsSleb),
            26 => Some(Self::FunctionIndexI32),
            _ => None,
        }
    }

    /// Whether its index is that of a type: all others are those of symbols.
    pub fn names_a_type(self) -> bool
        ensures { result ≡ names_a_type self }
    {
        self.takes() == Taking::TypeIndex
    }

    /// Whether an entry of that type has an addend: those of addresses do.
    pub fn has_addend(self) -> bool
        ensures { result ≡ has_addend self }
    {
        match self.takes() {
            Taking::Address(_) => true,
            Taking::FunctionIndex
            | Taking::Slot
            | Taking::SlotBehindBase
            | Taking::TypeIndex
            | Taking::GlobalIndex
            | Taking::TableNumber => false,
        }
    }

    /// Whether it takes symbols of that kind. Data and functions have entries of GOT lists, and so
    /// the number of a global.
    pub fn takes_kind(self, kind: WasmSymbolKind) -> bool
        ensures { result ≡ takes_kind self kind }
    {
        match self.takes() {
            Taking::FunctionIndex | Taking::Slot | Taking::SlotBehindBase => kind.is_function(),
            Taking::TypeIndex => false,
            Taking::GlobalIndex => kind.is_global() || kind.is_data() || kind.is_function(),
            Taking::TableNumber => kind.is_table(),
            Taking::Address(_) => kind.is_data(),
        }
    }

    /// Whether it takes the number of a global.
    pub fn is_global_index(self) -> bool
        ensures { result ≡ is_global_index self }
    {
        self.takes() == Taking::GlobalIndex
    }

    /// Whether it takes the slot of a function in the table, or relative to the table's base.
    pub fn is_table_index(self) -> bool
        ensures { result ≡ is_table_index self }
    {
        let takes = self.takes();
        takes == Taking::Slot || takes == Taking::SlotBehindBase
    }

    /// Whether it takes a slot relative to the base of the table.
    pub fn is_table_relative(self) -> bool
        ensures { result ≡ is_table_relative self }
    {
        self.takes() == Taking::SlotBehindBase
    }

    /// Whether it takes the number of a table.
    pub fn is_table_number(self) -> bool
        ensures { result ≡ is_table_number self }
    {
        self.takes() == Taking::TableNumber
    }

    /// Whether it takes an address relative to the base of the memory.
    pub fn is_memory_relative(self) -> bool
        ensures { result ≡ is_memory_relative self }
    {
        self.takes() == Taking::Address(AddressBase::MemoryBase)
    }

    /// Whether it takes an address that counts from the start of the memory.
    pub fn is_absolute(self) -> bool
        ensures { result ≡ is_absolute self }
    {
        self.takes() == Taking::Address(AddressBase::Memory)
    }
}

/// The name of a type of relocation (object file linking, version 2, "Relocation Sections"), as
/// `R_WASM_FUNCTION_INDEX_LEB`.
pub fn relocation_type_to_string(ty: RelocationType) -> &'static str
    ensures { result.now ≡ type_name ty }
{
    match ty {
        RelocationType::FunctionIndexLeb => "R_WASM_FUNCTION_INDEX_LEB",
        RelocationType::TableIndexSleb => "R_WASM_TABLE_INDEX_SLEB",
        RelocationType::TableIndexI32 => "R_WASM_TABLE_INDEX_I32",
        RelocationType::MemoryAddrLeb => "R_WASM_MEMORY_ADDR_LEB",
        RelocationType::MemoryAddrSleb => "R_WASM_MEMORY_ADDR_SLEB",
        RelocationType::MemoryAddrI32 => "R_WASM_MEMORY_ADDR_I32",
        RelocationType::TypeIndexLeb => "R_WASM_TYPE_INDEX_LEB",
        RelocationType::GlobalIndexLeb => "R_WASM_GLOBAL_INDEX_LEB",
        RelocationType::MemoryAddrRelSleb => "R_WASM_MEMORY_ADDR_REL_SLEB",
        RelocationType::TableIndexRelSleb => "R_WASM_TABLE_INDEX_REL_SLEB",
        RelocationType::GlobalIndexI32 => "R_WASM_GLOBAL_INDEX_I32",
        RelocationType::TableNumberLeb => "R_WASM_TABLE_NUMBER_LEB",
        RelocationType::MemoryAddrTlsSleb => "R_WASM_MEMORY_ADDR_TLS_SLEB",
        RelocationType::FunctionIndexI32 => "R_WASM_FUNCTION_INDEX_I32",
    }
}
