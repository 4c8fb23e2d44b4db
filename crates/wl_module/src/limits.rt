//! Limits: how large a memory or a table is at first, and how large it may grow.

ghost use Rattle.std.specs.Prelude.{◌≡◌};
ghost use Rattle.wl_bytes.specs.Grammar.{map_at};
ghost use Rattle.wl_bytes.specs.Checks.{when_at};
ghost use Rattle.wl_module.specs.Limits.{memory_flags_at, table_flags_at, limits_from, sizes_at, limits_fit, memory_limits_fit, elements_at, memory_type_at, table_type_at};
ghost use Rattle.wl_bytes.specs.Lists.{number_at};
ghost use Rattle.wl_bytes.specs.Outcome.{Yields};

use wl_bytes::{Form, ReadError, Reader, Why};

/// The bytes of a page of memory (core specification, "Memory Instances").
pub const WASM_PAGE_SIZE: u32 = 65_536;

/// The greatest size of a memory with addresses of 32 bits, in pages.
pub const MAX_PAGES: u64 = 65_536;

/// The byte of a table's elements that are references to functions.
const FUNCREF: u8 = 0x70;

/// How large something is at first, and how large it may grow: a memory in pages of
/// [`WASM_PAGE_SIZE`] bytes, a table in elements.
#[derive(Clone, Copy, PartialEq, Eq)]
pub struct Limits {
    /// The size at first.
    pub minimum: u64,
    /// The size that it can't grow past, where there is one.
    pub maximum: Option<u64>,
    /// Whether threads share it.
    pub shared: bool,
}

impl Limits {
    /// Whether the maximum isn't below the minimum.
    fn are_ordered(&self) -> bool
        ensures { result ≡ limits_fit self.now }
    {
        match self.maximum {
            None => true,
            Some(maximum) => self.minimum <= maximum,
        }
    }

    /// Whether a memory can have these limits.
    fn fit_memory(&self) -> bool
        ensures { result ≡ memory_limits_fit self.now }
    {
        let within = match self.maximum {
            None => self.minimum <= MAX_PAGES,
            Some(maximum) => self.minimum <= MAX_PAGES && maximum <= MAX_PAGES,
        };
        self.are_ordered() && within && (!self.shared || self.maximum.is_some())
    }
}

/// The size of a memory, in pages of [`WASM_PAGE_SIZE`] bytes.
#[derive(Clone, Copy, PartialEq, Eq)]
pub struct MemoryType {
    /// The size at first.
    pub initial: u64,
    /// The size that it can't grow past, where there is one.
    pub maximum: Option<u64>,
    /// Whether threads share it.
    pub shared: bool,
}

/// The size of a table, in references to functions.
#[derive(Clone, Copy, PartialEq, Eq)]
pub struct TableType {
    /// The size at first.
    pub initial: u64,
    /// The size that it can't grow past, where there is one.
    pub maximum: Option<u64>,
}

/// What the first byte of limits says.
#[derive(Clone, Copy, PartialEq, Eq)]
pub(crate) struct LimitsFlags {
    has_maximum: bool,
    shared: bool,
}

/// The flags of a memory.
#[tactic(auto, unfolding(crate::specs::Limits::memory_flags_at))]
fn read_memory_flags(reader: &mut Reader<'_>) -> Result<LimitsFlags, ReadError>
    ensures { Yields (λ f. f) result reader.new (memory_flags_at reader.old) }
{
    match reader.read_u8()? {
        0 => Ok(LimitsFlags {
            has_maximum: false,
            shared: false,
        }),
        1 => Ok(LimitsFlags {
            has_maximum: true,
            shared: false,
        }),
        2 => Ok(LimitsFlags {
            has_maximum: false,
            shared: true,
        }),
        3 => Ok(LimitsFlags {
            has_maximum: true,
            shared: true,
        }),
        4..=7 | 12..=15 => Err(ReadError::Unsupported(Form::Memory64)),
        8..=11 => Err(ReadError::Unsupported(Form::PageSize)),
        _ => Err(ReadError::Malformed(Why::BadByte)),
    }
}

/// The flags of a table, which isn't shared.
#[tactic(auto, unfolding(crate::specs::Limits::table_flags_at))]
fn read_table_flags(reader: &mut Reader<'_>) -> Result<LimitsFlags, ReadError>
    ensures { Yields (λ f. f) result reader.new (table_flags_at reader.old) }
{
    match reader.read_u8()? {
        0 => Ok(LimitsFlags {
            has_maximum: false,
            shared: false,
        }),
        1 => Ok(LimitsFlags {
            has_maximum: true,
            shared: false,
        }),
        2..=15 => Err(ReadError::Unsupported(Form::TableForm)),
        _ => Err(ReadError::Malformed(Why::BadByte)),
    }
}

/// The maximum, where the flags say that there is one.
fn read_maximum(has_maximum: bool, reader: &mut Reader<'_>) -> Result<Option<u64>, ReadError>
    ensures { Yields (λ m. m) result reader.new (when_at number_at has_maximum reader.old) }
{
    if !has_maximum {
        return Ok(None);
    }
    let maximum = reader.read_u32()?;
    Ok(Some(u64::from(maximum)))
}

/// What follows the flags.
#[tactic(auto, unfolding(crate::specs::Limits::sizes_at))]
fn read_sizes(flags: LimitsFlags, reader: &mut Reader<'_>) -> Result<Limits, ReadError>
    ensures { Yields (λ l. l) result reader.new
        (map_at (λ p. limits_from (flags, p)) (sizes_at flags) reader.old) }
{
    let minimum = reader.read_u32()?;
    let maximum = read_maximum(flags.has_maximum, reader)?;
    Ok(Limits {
        minimum: u64::from(minimum),
        maximum,
        shared: flags.shared,
    })
}

/// The next memory type.
#[tactic(auto, unfolding(crate::specs::Limits::memory_type_at))]
pub(crate) fn read_memory_type(reader: &mut Reader<'_>) -> Result<MemoryType, ReadError>
    ensures { Yields (λ m. m) result reader.new (memory_type_at reader.old) }
{
    let flags = read_memory_flags(reader)?;
    let limits = read_sizes(flags, reader)?;
    if !limits.fit_memory() {
        return Err(ReadError::Malformed(Why::BadLimits));
    }
    Ok(MemoryType {
        initial: limits.minimum,
        maximum: limits.maximum,
        shared: limits.shared,
    })
}

/// The type of a table's elements.
#[tactic(auto, unfolding(crate::specs::Limits::elements_at))]
fn read_elements(reader: &mut Reader<'_>) -> Result<(), ReadError>
    ensures { Yields (λ u. u) result reader.new (elements_at reader.old) }
{
    match reader.read_u8()? {
        FUNCREF => Ok(()),
        _ => Err(ReadError::Unsupported(Form::TableType)),
    }
}

/// The next table type.
#[tactic(auto, unfolding(crate::specs::Limits::table_type_at))]
pub(crate) fn read_table_type(reader: &mut Reader<'_>) -> Result<TableType, ReadError>
    ensures { Yields (λ t. t) result reader.new (table_type_at reader.old) }
{
    read_elements(reader)?;
    let flags = read_table_flags(reader)?;
    let limits = read_sizes(flags, reader)?;
    if !limits.are_ordered() {
        return Err(ReadError::Malformed(Why::BadLimits));
    }
    Ok(TableType {
        initial: limits.minimum,
        maximum: limits.maximum,
    })
}
