//! The symbol table of a linking section (object file linking, version 2, "Symbol Table
//! Subsection").

ghost use Rattle.std.specs.Prelude.{◌≡◌, ◌≤◌, ◌<◌, ◌^◌, ◌+◌, ◌-◌, length};
ghost use Rattle.wl_bytes.specs.declared.reader.TheConstants.{MAX_LEN};
ghost use Rattle.wl_bytes.specs.Outcome.{Yields, Gives};
ghost use Rattle.wl_custom.specs.Symbols.{symbol_kind_verdict, is_function, is_data, is_global, is_table, has_name, is_undefined, is_defined, is_defined_function, is_defined_data, is_weak, is_local, is_hidden, is_exported, is_explicit_name, is_no_strip, is_thread_local, is_absolute, is_thread_data, with_name, range_of, symbol_context};
ghost use Rattle.wl_custom.specs.SymbolsReading.{based_name_at, name_where_at, extent_where_at, numbered_at, located_at, sectioned_at, details_at, symbols_of};

use crate::base::Base;
use crate::flags::SymbolFlags;
use bitflags::Flags;
use std::alloc::Global;
use std::marker::Model;
use wl_bytes::{Form, Item, ReadError, Reader, Why, place_of, read_payload};
use wl_lists::ItemList;

/// What a symbol stands for (object file linking, version 2, "Symbol Table Subsection").
#[derive(Clone, Copy, PartialEq, Eq)]
pub enum WasmSymbolKind {
    /// A function.
    Func,
    /// Bytes of a segment.
    Data,
    /// A global.
    Global,
    /// A section of the object.
    Section,
    /// An exception tag. No object that is read has one.
    Event,
    /// A table.
    Table,
}

impl WasmSymbolKind {
    /// Whether symbols of that kind are functions'.
    pub fn is_function(self) -> bool
        ensures { result ≡ is_function self }
    {
        matches!(self, WasmSymbolKind::Func)
    }

    /// Whether they are bytes of a segment.
    pub fn is_data(self) -> bool
        ensures { result ≡ is_data self }
    {
        matches!(self, WasmSymbolKind::Data)
    }

    /// Whether they are globals'.
    pub fn is_global(self) -> bool
        ensures { result ≡ is_global self }
    {
        matches!(self, WasmSymbolKind::Global)
    }

    /// Whether they are tables'.
    pub fn is_table(self) -> bool
        ensures { result ≡ is_table self }
    {
        matches!(self, WasmSymbolKind::Table)
    }
}

/// A symbol of an object (object file linking, version 2, "Symbol Table Subsection"). Clauses see
/// it as a `Symbol`, with its name as a list of bytes.
#[derive(Drop)]
pub struct WasmSymbol<'a> {
    /// What it stands for.
    pub kind: WasmSymbolKind,
    /// Its flags, with bits that have no name.
    pub flags: SymbolFlags,
    /// The number of its function, global, table, section or segment in the object; 0 for data
    /// that the object doesn't define. That of data at an absolute address names nothing.
    pub index: u32,
    /// How many bytes of its segment lie before the data, or its address where that is absolute; 0
    /// for other symbols.
    pub offset: u32,
    /// How many bytes the data has; 0 for other symbols.
    pub size: u32,
    /// Its name; an empty one is no name.
    pub name: &'a str,
    name_range: (u32, u32),
}

impl<'a> Model for WasmSymbol<'a> {
    ghost use Rattle.wl_custom.specs.Symbols.{Symbol};

    ghost Value = { Symbol };

    ghost view = { λ s. record {
      kind = s.kind;
      flags = s.flags.0;
      index = s.index;
      offset = s.offset;
      size = s.size;
      name = s.name.now;
      name_range = s.name_range;
    } };
}

impl<'a> WasmSymbol<'a> {
    /// Where the name stands in the object's bytes: the places of its first byte and of the one
    /// after it. Both are 0 where there is no name.
    pub fn name_range(&self) -> (u32, u32)
        ensures { result ≡ self.now.name_range }
    {
        self.name_range
    }

    /// Whether there is a name. An empty one is none.
    pub fn has_name(&self) -> bool
        ensures { result ≡ has_name self.now }
    {
        !self.name.is_empty()
    }

    /// Whether the object doesn't define it.
    pub fn is_undefined(&self) -> bool
        ensures { result ≡ is_undefined self.now }
    {
        self.flags.contains(SymbolFlags::UNDEFINED)
    }

    /// Whether the object defines it.
    pub fn is_defined(&self) -> bool
        ensures { result ≡ is_defined self.now }
    {
        !self.is_undefined()
    }

    /// Whether it is a function that the object defines.
    pub fn is_defined_function(&self) -> bool
        ensures { result ≡ is_defined_function self.now }
    {
        self.kind.is_function() && self.is_defined()
    }

    /// Whether it is data that the object defines.
    pub fn is_defined_data(&self) -> bool
        ensures { result ≡ is_defined_data self.now }
    {
        self.kind.is_data() && self.is_defined()
    }

    /// Whether another definition of the name comes before this one.
    pub fn is_weak(&self) -> bool
        ensures { result ≡ is_weak self.now }
    {
        self.flags.contains(SymbolFlags::WEAK)
    }

    /// Whether other objects don't see it.
    pub fn is_local(&self) -> bool
        ensures { result ≡ is_local self.now }
    {
        self.flags.contains(SymbolFlags::LOCAL)
    }

    /// Whether its name isn't exported by itself.
    pub fn is_hidden(&self) -> bool
        ensures { result ≡ is_hidden self.now }
    {
        self.flags.contains(SymbolFlags::HIDDEN)
    }

    /// Whether it is kept for the host.
    pub fn is_exported(&self) -> bool
        ensures { result ≡ is_exported self.now }
    {
        self.flags.contains(SymbolFlags::EXPORTED)
    }

    /// Whether it has a name of its own where it is undefined, beside that of its import.
    pub fn is_explicit_name(&self) -> bool
        ensures { result ≡ is_explicit_name self.now }
    {
        self.flags.contains(SymbolFlags::EXPLICIT_NAME)
    }

    /// Whether it is kept though nothing refers to it.
    pub fn is_no_strip(&self) -> bool
        ensures { result ≡ is_no_strip self.now }
    {
        self.flags.contains(SymbolFlags::NO_STRIP)
    }

    /// Whether each thread has its own.
    pub fn is_thread_local(&self) -> bool
        ensures { result ≡ is_thread_local self.now }
    {
        self.flags.contains(SymbolFlags::TLS)
    }

    /// Whether it is data that the object defines, and its offset is an address: it lies in no
    /// segment, and its index is of no use.
    pub fn is_absolute(&self) -> bool
        ensures { result ≡ is_absolute self.now }
    {
        self.is_defined_data() && self.flags.contains(SymbolFlags::ABSOLUTE)
    }

    /// Whether it is data on a segment of which each thread has a copy.
    pub fn is_thread_data(&self) -> bool
        ensures { result ≡ is_thread_data self.now }
    {
        self.is_defined_data() && !self.is_absolute() && self.is_thread_local()
    }

    /// The flags as they stand in the object.
    pub fn raw_flags(&self) -> u32
        ensures { result ≡ self.now.flags }
    {
        self.flags.bits()
    }

    /// The same symbol under a name, which stands at that range of the object's bytes: that of its
    /// import, where an undefined symbol has no name of its own (object file linking, version 2,
    /// "Symbol Table Subsection").
    pub fn with_name(self, name: &'a str, name_range: (u32, u32)) -> Self
        ensures { result ≡ with_name self.entry name.now name_range }
    {
        WasmSymbol {
            name,
            name_range,
            ..self
        }
    }

    /// Puts it under a name, as [`with_name`](WasmSymbol::with_name) does.
    pub fn set_name(&mut self, name: &'a str, name_range: (u32, u32))
        ensures { self.new ≡ with_name self.old name.now name_range }
    {
        self.name = name;
        self.name_range = name_range;
    }
}

/// The kind of that number.
fn symbol_kind(kind: u8) -> Result<WasmSymbolKind, ReadError>
    ensures { Gives (λ k. k) result (symbol_kind_verdict kind) }
{
    match kind {
        0 => Ok(WasmSymbolKind::Func),
        1 => Ok(WasmSymbolKind::Data),
        2 => Ok(WasmSymbolKind::Global),
        3 => Ok(WasmSymbolKind::Section),
        4 => Err(ReadError::Unsupported(Form::Tag)),
        5 => Ok(WasmSymbolKind::Table),
        _ => Err(ReadError::Malformed(Why::BadByte)),
    }
}

/// What follows the flags of a symbol. Clauses see it as a record of the same fields, with
/// the name as a list.
#[derive(Drop)]
struct Details<'a> {
    index: u32,
    offset: u32,
    size: u32,
    name: &'a str,
    name_range: (u32, u32),
}

impl<'a> Model for Details<'a> {
    ghost use Rattle.wl_custom.specs.Symbols.{SymbolDetails};

    ghost Value = { SymbolDetails };

    ghost view = { λ d. record {
      index = d.index;
      offset = d.offset;
      size = d.size;
      name = d.name.now;
      name_range = d.name_range;
    } };
}

/// Where a name of so many bytes stands in the object, by how many bytes of the object lie before
/// the reader's, and how many of these before the end of the name (core specification, "Names").
pub fn range_of(base: u32, end: usize, len: usize) -> (u32, u32)
    requires end { base + end < 2 ^ 32 }
    requires len { len ≤ end }
    ensures { result ≡ range_of base (end - len) len }
{
    if len == 0 {
        return (0, 0);
    }
    let end = base + end as u32;
    (end - len as u32, end)
}

/// The next name, with its place in the object.
#[tactic(auto, unfolding(wl_bytes::specs::Words::placed_name_at))]
fn read_based_name<'a>(
    base: Base,
    reader: &mut Reader<'a>,
) -> Result<(&'a str, (u32, u32)), ReadError>
    ensures { Yields (λ w. (w.0.now, w.1)) result reader.new
        (based_name_at base.before reader.old) }
{
    let name = reader.read_name()?;
    let end = place_of(reader)?;
    let range = range_of(base.before, end as usize, name.len());
    Ok((name, range))
}

/// The next name, where there is to be one.
#[tactic(auto, unfolding(crate::specs::SymbolsReading::name_where_at))]
fn read_name_where<'a>(
    base: Base,
    named: bool,
    reader: &mut Reader<'a>,
) -> Result<(&'a str, (u32, u32)), ReadError>
    ensures { Yields (λ w. (w.0.now, w.1)) result reader.new
        (name_where_at base.before named reader.old) }
{
    if named {
        read_based_name(base, reader)
    } else {
        Ok(("", (0, 0)))
    }
}

/// Where the next data lies: its segment, its offset there and its size.
#[tactic(auto, unfolding(crate::specs::SymbolsReading::extent_where_at))]
fn read_extent_where(defined: bool, reader: &mut Reader<'_>) -> Result<(u32, (u32, u32)), ReadError>
    ensures { Yields (λ e. e) result reader.new (extent_where_at defined reader.old) }
{
    if !defined {
        return Ok((0, (0, 0)));
    }
    let segment = reader.read_u32()?;
    let offset = reader.read_u32()?;
    let size = reader.read_u32()?;
    Ok((segment, (offset, size)))
}

/// An index, and a name where there is to be one.
#[tactic(auto, unfolding(crate::specs::SymbolsReading::numbered_at))]
fn read_numbered<'a>(
    base: Base,
    flags: SymbolFlags,
    reader: &mut Reader<'a>,
) -> Result<Details<'a>, ReadError>
    ensures { Yields (λ d. d) result reader.new (numbered_at base.before flags.0 reader.old) }
{
    let index = reader.read_u32()?;
    let named = !flags.contains(SymbolFlags::UNDEFINED)
        || flags.contains(SymbolFlags::EXPLICIT_NAME);
    let (name, name_range) = read_name_where(base, named, reader)?;
    Ok(Details {
        index,
        offset: 0,
        size: 0,
        name,
        name_range,
    })
}

/// A name, and where data lies that the object defines.
#[tactic(auto, unfolding(crate::specs::SymbolsReading::located_at))]
fn read_located<'a>(
    base: Base,
    flags: SymbolFlags,
    reader: &mut Reader<'a>,
) -> Result<Details<'a>, ReadError>
    ensures { Yields (λ d. d) result reader.new (located_at base.before flags.0 reader.old) }
{
    let (name, name_range) = read_based_name(base, reader)?;
    let defined = !flags.contains(SymbolFlags::UNDEFINED);
    let (index, (offset, size)) = read_extent_where(defined, reader)?;
    Ok(Details {
        index,
        offset,
        size,
        name,
        name_range,
    })
}

/// The number of a section.
#[tactic(auto, unfolding(crate::specs::SymbolsReading::sectioned_at))]
fn read_sectioned<'a>(reader: &mut Reader<'a>) -> Result<Details<'a>, ReadError>
    ensures { Yields (λ d. d) result reader.new (sectioned_at reader.old) }
{
    let index = reader.read_u32()?;
    Ok(Details {
        index,
        offset: 0,
        size: 0,
        name: "",
        name_range: (0, 0),
    })
}

/// What follows the flags of a symbol of that kind.
fn read_details<'a>(
    base: Base,
    kind: WasmSymbolKind,
    flags: SymbolFlags,
    reader: &mut Reader<'a>,
) -> Result<Details<'a>, ReadError>
    ensures { Yields (λ d. d) result reader.new
        (details_at kind (symbol_context base.before flags.0) reader.old) }
{
    match kind {
        WasmSymbolKind::Func | WasmSymbolKind::Global | WasmSymbolKind::Table => {
            read_numbered(base, flags, reader)
        }
        WasmSymbolKind::Data => read_located(base, flags, reader),
        WasmSymbolKind::Section | WasmSymbolKind::Event => read_sectioned(reader),
    }
}

impl<'a> Item<'a> for WasmSymbol<'a> {
    ghost use Rattle.wl_custom.specs.SymbolsReading.{symbol_at};

    type Under = Base;

    ghost item_at = { λ base. symbol_at base.before };

    #[tactic(auto, unfolding(crate::specs::SymbolsReading::symbol_at))]
    fn read(_alloc: Global, base: &mut Base, reader: &mut Reader<'a>) -> Result<Self, ReadError> {
        let kind = reader.read_u8()?;
        let kind = symbol_kind(kind)?;
        let flags = SymbolFlags::from_bits_retain(reader.read_u32()?);
        let details = read_details(*base, kind, flags, reader)?;
        Ok(WasmSymbol {
            kind,
            flags,
            index: details.index,
            offset: details.offset,
            size: details.size,
            name: details.name,
            name_range: details.name_range,
        })
    }
}

/// The symbols of a symbol table, in order, where so many bytes of the object lie before its
/// payload.
#[tactic(auto, using(wl_bytes::proofs::Loops::list_kept))]
pub(crate) fn read_symbols(
    alloc: Global,
    base: u32,
    payload: &[u8],
) -> Result<ItemList<WasmSymbol<'_>>, ReadError>
    requires base { base + MAX_LEN < 2 ^ 32 }
    requires len { length payload.now ≤ MAX_LEN }
    ensures { Gives (λ symbols. symbols) result (symbols_of base payload.now) }
{
    let symbols = read_payload(alloc, Base::new(base), payload)?;
    Ok(ItemList::new(symbols))
}
