//! The linking section (object file linking, version 2, "Linking Metadata Section").

ghost use Rattle.std.specs.Prelude.{◌≡◌, ◌+◌, ◌<◌, ◌≤◌, ◌^◌, OnOk, [], length, MatchResult};
ghost use Rattle.wl_bytes.specs.declared.reader.TheConstants.{MAX_LEN};
ghost use Rattle.wl_bytes.specs.Cursor.{end_of};
ghost use Rattle.wl_bytes.specs.Outcome.{Yields, Gives, HasCause};
ghost use Rattle.wl_custom.specs.Linking.{subsection_kind, subsection_verdict, held_of, subsection_at, version_at, seen_after, linking_of, with_subsection, HaveSubsections, SubsectionsFault, IsLinking, LinkingFault};

use crate::infos::{WasmInitFunc, WasmSegmentInfo};
use crate::symbols::{WasmSymbol, read_symbols};
use std::alloc::{AllocError, Global};
use wl_bytes::{Form, ReadError, Reader, Why, read_payload};
use wl_lists::ItemList;

/// What a subsection of a linking section is for, by its number (object file linking, version 2,
/// "Linking Metadata Section").
#[derive(Clone, Copy, PartialEq, Eq)]
pub enum SubsectionKind {
    /// Names, alignments and flags of segments: 5.
    SegmentInfo,
    /// Functions that run at the start: 6.
    InitFuncs,
    /// Symbols: 8.
    SymbolTable,
    /// It is skipped.
    Other,
}

/// What a subsection of a linking section holds.
#[derive(Drop)]
pub enum Subsection<'a> {
    /// What is said of the segments, in their order.
    SegmentInfo(ItemList<WasmSegmentInfo<'a>>),
    /// The init functions.
    InitFuncs(ItemList<WasmInitFunc>),
    /// The symbols.
    SymbolTable(ItemList<WasmSymbol<'a>>),
    /// What isn't read.
    Skipped,
}

/// Which subsections came before that may come once.
#[derive(Clone, Copy, Default, PartialEq, Eq)]
pub struct SeenSubsections {
    /// That of segments.
    pub segment_info: bool,
    /// That of init functions.
    pub init_funcs: bool,
    /// That of symbols.
    pub symbol_table: bool,
}

/// What a linking section holds (object file linking, version 2, "Linking Metadata Section").
#[derive(Drop)]
pub struct Linking<'a> {
    /// What it says of the segments, in their order.
    pub segment_infos: ItemList<WasmSegmentInfo<'a>>,
    /// The init functions, in its order.
    pub init_funcs: ItemList<WasmInitFunc>,
    /// The symbols, in its order.
    pub symbols: ItemList<WasmSymbol<'a>>,
}

impl<'a> Linking<'a> {
    /// What no subsection holds.
    fn empty(alloc: Global) -> Self
        ensures { result ≡ linking_of [] }
    {
        Linking {
            segment_infos: ItemList::empty(alloc),
            init_funcs: ItemList::empty(alloc),
            symbols: ItemList::empty(alloc),
        }
    }

    /// Takes in what one more subsection holds.
    fn add(&mut self, subsection: Subsection<'a>) -> Result<(), AllocError>
        ensures { OnOk result (self.new ≡ with_subsection self.old subsection.entry) }
    {
        match subsection {
            Subsection::SegmentInfo(infos) => self.segment_infos.append(infos),
            Subsection::InitFuncs(functions) => self.init_funcs.append(functions),
            Subsection::SymbolTable(symbols) => self.symbols.append(symbols),
            Subsection::Skipped => Ok(()),
        }
    }
}

/// The version of the linking section that is read.
const VERSION: u32 = 2;

/// What a subsection of that number is for.
fn subsection_kind(number: u8) -> SubsectionKind
    ensures { result ≡ subsection_kind number }
{
    match number {
        5 => SubsectionKind::SegmentInfo,
        6 => SubsectionKind::InitFuncs,
        8 => SubsectionKind::SymbolTable,
        _ => SubsectionKind::Other,
    }
}

/// Whether a subsection may come after those that were seen.
fn check_kind(seen: SeenSubsections, kind: SubsectionKind) -> Result<(), ReadError>
    ensures { Gives (λ u. u) result (subsection_verdict seen kind) }
{
    let repeated = match kind {
        SubsectionKind::SegmentInfo => seen.segment_info,
        SubsectionKind::InitFuncs => seen.init_funcs,
        SubsectionKind::SymbolTable => seen.symbol_table,
        SubsectionKind::Other => false,
    };
    if repeated {
        return Err(ReadError::Malformed(Why::Repeated));
    }
    Ok(())
}

/// What the payload of a subsection of that kind holds, where so many bytes of the object lie
/// before it.
#[tactic(auto, using(wl_bytes::proofs::Loops::list_kept))]
fn read_held(
    alloc: Global,
    base: u32,
    kind: SubsectionKind,
    payload: &[u8],
) -> Result<Subsection<'_>, ReadError>
    requires base { base + MAX_LEN < 2 ^ 32 }
    requires len { length payload.now ≤ MAX_LEN }
    ensures { Gives (λ s. s) result (held_of base kind payload.now) }
{
    match kind {
        SubsectionKind::SegmentInfo => Ok(Subsection::SegmentInfo(ItemList::new(read_payload(
            alloc,
            (),
            payload,
        )?))),
        SubsectionKind::InitFuncs => Ok(Subsection::InitFuncs(ItemList::new(read_payload(
            alloc,
            (),
            payload,
        )?))),
        SubsectionKind::SymbolTable => {
            Ok(Subsection::SymbolTable(read_symbols(alloc, base, payload)?))
        }
        SubsectionKind::Other => Ok(Subsection::Skipped),
    }
}

/// The next subsection, where so many bytes of the object lie before those of the section.
#[tactic(auto, unfolding(crate::specs::Linking::subsection_at))]
fn read_subsection<'a>(
    alloc: Global,
    base: u32,
    seen: SeenSubsections,
    reader: &mut Reader<'a>,
) -> Result<Subsection<'a>, ReadError>
    requires base { base ≤ MAX_LEN }
    requires end { end_of reader.old ≤ MAX_LEN }
    ensures value { Yields (λ s. s) result reader.new (subsection_at base seen reader.old) }
    ensures end { end_of reader.new ≡ end_of reader.old }
{
    let kind = subsection_kind(reader.read_u8()?);
    check_kind(seen, kind)?;
    let size = reader.read_u32()?;
    let place = reader.position() as u32;
    let payload = reader.take(size as usize)?;
    read_held(alloc, base + place, kind, payload)
}

/// What was seen, with this subsection too.
fn seen_after(seen: SeenSubsections, subsection: &Subsection<'_>) -> SeenSubsections
    ensures { result ≡ seen_after seen subsection.now }
{
    match subsection {
        Subsection::SegmentInfo(_) => SeenSubsections {
            segment_info: true,
            ..seen
        },
        Subsection::InitFuncs(_) => SeenSubsections {
            init_funcs: true,
            ..seen
        },
        Subsection::SymbolTable(_) => SeenSubsections {
            symbol_table: true,
            ..seen
        },
        Subsection::Skipped => seen,
    }
}

/// What the subsections up to the end hold.
fn read_subsections<'a>(
    alloc: Global,
    base: u32,
    reader: &mut Reader<'a>,
) -> Result<Linking<'a>, ReadError>
    requires base { base ≤ MAX_LEN }
    requires end { end_of reader.old ≤ MAX_LEN }
    ensures { MatchResult result (HaveSubsections base reader.old)
        (HasCause (λ e. SubsectionsFault base e reader.old)) }
{
    let mut linking = Linking::empty(alloc);
    let mut seen = SeenSubsections::default();
    while !reader.rest().is_empty() {
        let subsection = read_subsection(alloc, base, seen, reader)?;
        seen = seen_after(seen, &subsection);
        linking.add(subsection)?;
    }
    Ok(linking)
}

/// The version that comes next is the one that is read.
#[tactic(auto, unfolding(crate::specs::Linking::version_at))]
fn read_version(reader: &mut Reader<'_>) -> Result<(), ReadError>
    ensures value { Yields (λ _. (2, tt)) result reader.new (version_at reader.old) }
    ensures end { end_of reader.new ≡ end_of reader.old }
{
    if reader.read_u32()? == VERSION {
        Ok(())
    } else {
        Err(ReadError::Unsupported(Form::LinkingVersion))
    }
}

/// Reads the payload of a linking section (object file linking, version 2, "Linking Metadata
/// Section"), where so many bytes of the object lie before it.
///
/// # Errors
/// `Malformed` and `Unsupported` name the first thing at fault in the payload.
pub fn read_linking(alloc: Global, base: u32, payload: &[u8]) -> Result<Linking<'_>, ReadError>
    requires base { base ≤ MAX_LEN }
    requires len { length payload.now ≤ MAX_LEN }
    ensures { MatchResult result (λ linking. IsLinking base linking payload.now)
        (HasCause (λ e. LinkingFault base e payload.now)) }
{
    let mut reader = Reader::new(payload);
    read_version(&mut reader)?;
    read_subsections(alloc, base, &mut reader)
}
