//! Where the fields of relocations lie (object file linking, version 2, "Relocation Sections").

ghost use Rattle.std.specs.Prelude.{◌≡◌, ◌≤◌, length, nat_le, take, drop, map, OnOk, IfOk, MatchResult, MatchBool};
ghost use Rattle.wl_bytes.specs.declared.reader.TheConstants.{MAX_LEN};
ghost use Rattle.std.specs.List.{AllByRecursion};
ghost use Rattle.std.specs.List.Sorted.{IsNonDecreasingBy};
ghost use Rattle.wl_linking.specs.Sites.{AreInOrder, AreSites, AreApart, HasOverlap, LieApart, FieldsFault, body_piece, segment_piece, is_padded, has_form, field_len, offset_of};
ghost use Rattle.wl_linking.specs.Placing.{IsSpanned, piece_end, position_of, site_of, Ascend, FieldFault};
ghost use Rattle.wl_bytes.specs.Outcome.{HasCause};

use std::alloc::{AllocError, Global};
use std::marker::Model;
use std::mem;
use wl_bytes::{ReadError, Why};
use wl_custom::{FieldForm, WasmRelocation};
use wl_lists::ItemList;
use wl_module::{WasmDataSegment, WasmFunctionBody};

/// A place in a function's body or in the bytes of a segment.
#[derive(Clone, Copy, PartialEq, Eq)]
pub struct Site {
    /// The number of the function, among those that the object defines, or of the segment.
    pub unit: u32,
    /// How many bytes of the body or the segment lie before the field.
    pub position: u32,
}

/// Bytes of a section's payload in which fields may lie. Clauses see it as a `PieceOf`, with the
/// bytes as a list.
#[derive(Drop)]
pub(crate) struct Piece<'a> {
    /// How many bytes of the payload lie before them.
    pub place: u32,
    pub bytes: &'a [u8],
}

impl<'a> Model for Piece<'a> {
    ghost use Rattle.wl_linking.specs.Sites.{PieceOf};

    ghost Value = { PieceOf };

    ghost view = { λ p. record { place = p.place; bytes = p.bytes.now } };
}

/// How many bytes a padded LEB128 number has.
const PADDED_LEN: usize = 5;

/// How many bytes a word has.
const WORD_LEN: usize = 4;

/// The bodies as the pieces in which fields of code lie.
fn body_pieces<'a>(
    alloc: Global,
    bodies: &'a [WasmFunctionBody<'_>],
) -> Result<Vec<Piece<'a>>, AllocError>
    ensures { IfOk result (λ pieces. pieces.items ≡ map body_piece bodies.now) }
{
    let mut pieces = Vec::with_capacity(alloc, bodies.len())?;
    for body in bodies {
        pieces.push(Piece {
            place: body.code_offset,
            bytes: &body.bytes,
        })?;
    }
    Ok(pieces)
}

/// The bytes of a segment, with which it ends.
fn segment_piece<'a>(segment: &WasmDataSegment<'a>) -> Piece<'a>
    requires { IsSpanned segment.now }
    ensures { result ≡ segment_piece segment.now }
{
    let head = segment.encoded_size - segment.payload.len() as u32;
    Piece {
        place: segment.section_offset + head,
        bytes: segment.payload,
    }
}

/// The segments as the pieces in which fields of data lie.
fn segment_pieces<'a>(
    alloc: Global,
    segments: &'a [WasmDataSegment<'_>],
) -> Result<Vec<Piece<'a>>, AllocError>
    requires { AllByRecursion IsSpanned segments.now }
    ensures { IfOk result (λ pieces. pieces.items ≡ map segment_piece segments.now) }
{
    let mut pieces = Vec::with_capacity(alloc, segments.len())?;
    for segment in segments {
        pieces.push(segment_piece(segment))?;
    }
    Ok(pieces)
}

/// Puts relocations in order of their fields, and those of one place in file order.
pub(crate) fn put_in_order(
    alloc: Global,
    relocations: &mut ItemList<WasmRelocation>,
) -> Result<(), AllocError>
    ensures { OnOk result (AreInOrder relocations.old relocations.new) }
{
    let mut list = mem::replace(relocations, ItemList::empty(alloc)).into_vec();
    list.sort_by_key(|relocation| relocation.offset)?;
    *relocations = ItemList::new(list);
    Ok(())
}

/// How many bytes a field of that form has.
fn field_len(form: FieldForm) -> usize
    ensures { result ≡ field_len form }
{
    match form {
        FieldForm::PaddedUnsigned | FieldForm::PaddedSigned => PADDED_LEN,
        FieldForm::Word => WORD_LEN,
    }
}

/// The bytes are a padded LEB128 number.
fn is_padded(text: &[u8]) -> bool
    ensures { result ≡ is_padded text.now }
{
    match text {
        [a, b, c, d, e] => *a >= 0x80 && *b >= 0x80 && *c >= 0x80 && *d >= 0x80 && *e < 0x80,
        _ => false,
    }
}

/// The bytes are a field of that form.
fn has_form(form: FieldForm, text: &[u8]) -> bool
    ensures { result ≡ has_form form text.now }
{
    match form {
        FieldForm::PaddedUnsigned | FieldForm::PaddedSigned => is_padded(text),
        FieldForm::Word => text.len() == WORD_LEN,
    }
}

/// The bytes from a place on, at most so many.
fn field_at(bytes: &[u8], position: usize, len: usize) -> &[u8]
    ensures { result.now ≡ take len (drop position bytes.now) }
{
    let rest = bytes.split_at(position.min(bytes.len())).1;
    rest.split_at(len.min(rest.len())).0
}

/// The piece ends at that place of the section or before it.
fn ends_by(piece: &Piece<'_>, offset: u32) -> bool
    ensures { result ≡ nat_le (piece_end piece.now) offset }
{
    offset >= piece.place && (offset - piece.place) as usize >= piece.bytes.len()
}

/// Where in the piece a field of that form lies at that place of the section.
fn position_in(piece: &Piece<'_>, form: FieldForm, offset: u32) -> Option<u32>
    ensures { result ≡ position_of piece.now form offset }
{
    if offset < piece.place {
        return None;
    }
    let position = offset - piece.place;
    if has_form(
        form,
        field_at(piece.bytes, position as usize, field_len(form)),
    ) {
        Some(position)
    } else {
        None
    }
}

/// The site of a field, among the pieces from that one on.
fn find_site(pieces: &[Piece<'_>], from: u32, form: FieldForm, offset: u32) -> Option<Site>
    requires { length pieces.now ≤ MAX_LEN }
    ensures { result ≡ site_of from (drop from pieces.now) form offset }
{
    let mut unit = from;
    while (unit as usize) < pieces.len() {
        let piece = &pieces[unit as usize];
        if !ends_by(piece, offset) {
            return position_in(piece, form, offset).map(|position| Site { unit, position });
        }
        unit += 1;
    }
    None
}

/// The site of each relocation, in one pass over both lists.
fn find_sites(
    alloc: Global,
    pieces: &[Piece<'_>],
    relocations: &[WasmRelocation],
) -> Result<ItemList<Site>, ReadError>
    requires pieces { Ascend 0 pieces.now }
    requires few { length pieces.now ≤ MAX_LEN }
    requires order { IsNonDecreasingBy offset_of relocations.now }
    ensures { MatchResult result (AreSites pieces.now relocations.now)
        (HasCause (FieldFault pieces.now relocations.now)) }
{
    let mut sites = Vec::with_capacity(alloc, relocations.len())?;
    let mut unit = 0;
    for relocation in relocations {
        let form = relocation.ty.field_form();
        let Some(site) = find_site(pieces, unit, form, relocation.offset) else {
            return Err(ReadError::Malformed(Why::Field));
        };
        unit = site.unit;
        sites.push(site)?;
    }
    Ok(ItemList::new(sites))
}

/// No two fields share a byte.
fn are_apart(relocations: &[WasmRelocation]) -> bool
    requires { IsNonDecreasingBy offset_of relocations.now }
    ensures { MatchBool result (AreApart relocations.now) (HasOverlap relocations.now) }
{
    for i in 1..relocations.len() {
        let before = relocations[i - 1];
        let past = relocations[i].offset.saturating_sub(before.offset);
        if (past as usize) < field_len(before.ty.field_form()) {
            return false;
        }
    }
    true
}

/// The site of each relocation of a section, whose fields lie in these pieces, each by itself.
fn place_fields(
    alloc: Global,
    pieces: &[Piece<'_>],
    relocations: &[WasmRelocation],
) -> Result<ItemList<Site>, ReadError>
    requires pieces { Ascend 0 pieces.now }
    requires few { length pieces.now ≤ MAX_LEN }
    requires order { IsNonDecreasingBy offset_of relocations.now }
    ensures { MatchResult result (LieApart pieces.now relocations.now)
        (HasCause (FieldsFault pieces.now relocations.now)) }
{
    let sites = find_sites(alloc, pieces, relocations)?;
    if !are_apart(relocations) {
        return Err(ReadError::Malformed(Why::Overlap));
    }
    Ok(sites)
}

/// Where the fields of code lie: each in a body, and by itself.
pub(crate) fn code_sites(
    alloc: Global,
    bodies: &[WasmFunctionBody<'_>],
    relocations: &[WasmRelocation],
) -> Result<ItemList<Site>, ReadError>
    requires bodies { Ascend 0 (map body_piece bodies.now) }
    requires few { length bodies.now ≤ MAX_LEN }
    requires order { IsNonDecreasingBy offset_of relocations.now }
    ensures { let pieces = map body_piece bodies.now in
        MatchResult result (LieApart pieces relocations.now)
        (HasCause (FieldsFault pieces relocations.now)) }
{
    let pieces = body_pieces(alloc, bodies)?;
    place_fields(alloc, &pieces, relocations)
}

/// Where the fields of data lie: each in a segment, and by itself.
pub(crate) fn data_sites(
    alloc: Global,
    segments: &[WasmDataSegment<'_>],
    relocations: &[WasmRelocation],
) -> Result<ItemList<Site>, ReadError>
    requires spans { AllByRecursion IsSpanned segments.now }
    requires segments { Ascend 0 (map segment_piece segments.now) }
    requires few { length segments.now ≤ MAX_LEN }
    requires order { IsNonDecreasingBy offset_of relocations.now }
    ensures { let pieces = map segment_piece segments.now in
        MatchResult result (LieApart pieces relocations.now)
        (HasCause (FieldsFault pieces relocations.now)) }
{
    let pieces = segment_pieces(alloc, segments)?;
    place_fields(alloc, &pieces, relocations)
}
