//! A relocatable object: its sections, and what must hold across them.

ghost use Rattle.std.specs.Prelude.{◌≡◌, ◌⊎◌, ◌<◌, ◌≤◌, ℕ, List, length, map, Some, slice_get, MatchResult};
ghost use Rattle.wl_bytes.specs.declared.reader.TheConstants.{MAX_LEN};
ghost use Rattle.std.specs.List.{AllByRecursion};
ghost use Rattle.wl_module.specs.Sections.{Section, IsModule, FrameFault};
ghost use Rattle.wl_bytes.specs.declared.read_error.ReadError.{ReadError as Fault};
ghost use Rattle.wl_linking.specs.Object.{Object};
ghost use Rattle.wl_linking.specs.Sites.{body_piece, segment_piece};
ghost use Rattle.wl_linking.specs.Fitting.{NameStands, IsPlacedObject, HoldsObject, IsNamed, NamingFault, PartsFault, FirstItemsFault, HasFewItems, IsFitting, IsObject, IsWhole, ObjectFault, ParsesObject};
ghost use Rattle.wl_linking.specs.Spaces.{count_imports};
ghost use Rattle.wl_module.specs.declared.imports.ExternalKind.{ExternalKind as Kind};
ghost use Rattle.wl_linking.specs.declared.sites.Site.{Site as PlacedSite};
ghost use Rattle.wl_linking.specs.Stretches.{PartsStandIn};
ghost use Rattle.wl_linking.specs.Placing.{IsSpanned, Ascend};
ghost use Rattle.wl_bytes.specs.Outcome.{HasCause};

use crate::contents::Contents;
use crate::file::File;
use crate::parts::{Parts, read_parts};
use crate::slots::check_slots;
use crate::spaces::{check_indices, spaces_of};
use std::alloc::Global;
use wl_bytes::ReadError;
use wl_lists::ItemList;
use wl_module::{SectionHeader, read_sections, section_headers};

/// The object of these parts: its symbols have the names that they take from imports, its
/// relocations are in order, and each field lies by itself in a body or a segment.
fn place<'a>(
    alloc: Global,
    bytes: &'a [u8],
    sections: ItemList<SectionHeader>,
    mut parts: Parts<'a>,
) -> Result<Contents<'a>, ReadError>
    requires bodies { Ascend 0 (map body_piece parts.bodies) }
    requires spans { AllByRecursion IsSpanned parts.segments }
    requires segments { Ascend 0 (map segment_piece parts.segments) }
    requires few_bodies { length parts.bodies ≤ MAX_LEN }
    requires few_segments { length parts.segments ≤ MAX_LEN }
    ensures { MatchResult result (IsPlacedObject bytes.now sections parts.entry)
        (HasCause (PartsFault bytes.now sections parts.entry)) }
{
    let sites = parts.settle(alloc)?;
    Ok(Contents {
        bytes,
        sections,
        parts,
        code_sites: sites.code_sites,
        data_sites: sites.data_sites,
    })
}

/// Sees that what the object names exists, and that each import has one name.
fn check_names(alloc: Global, contents: &Contents<'_>) -> Result<(), ReadError>
    requires { AllByRecursion (NameStands contents.now.bytes) contents.now.symbols }
    ensures { MatchResult result (λ _. IsNamed contents.now) (HasCause (NamingFault contents.now)) }
{
    check_indices(contents)?;
    check_slots(
        alloc,
        spaces_of(contents),
        contents.parts.symbols.as_slice(),
    )
}

/// What the bytes hold as an object, where it isn't known yet whether what it names exists.
fn read_contents(alloc: Global, bytes: &[u8]) -> Result<Contents<'_>, ReadError>
    requires { length bytes.now ≤ MAX_LEN }
    ensures { MatchResult result (HoldsObject bytes.now)
        (HasCause (λ e. ObjectFault e bytes.now)) }
{
    let sections = read_sections(alloc, bytes)?;
    let headers = section_headers(alloc, &sections)?;
    let parts = read_parts(alloc, &sections)?;
    place(alloc, bytes, ItemList::new(headers), parts)
}

/// Reads a relocatable object (core specification, "Modules"; object file linking, version 2), of
/// `MAX_LEN` bytes at most.
///
/// # Errors
/// `Malformed` and `Unsupported` say what is wrong with the bytes: their frame is judged first,
/// then the sections in file order, up to the first that isn't sound, then what must hold across
/// them. Where more than one of these last rules is broken, which one is reported is left open.
pub fn parse_wasm_module(alloc: Global, bytes: &[u8]) -> Result<File<'_>, ReadError>
    requires { length bytes.now ≤ MAX_LEN }
    ensures { ParsesObject bytes.now result }
{
    let contents = read_contents(alloc, bytes)?;
    check_names(alloc, &contents)?;
    let spaces = spaces_of(&contents);
    Ok(File { contents, spaces })
}

/// Bytes are one object or at fault: always one of the two, and never both. A fault of the frame is
/// the only one, and so is that of the first section that isn't sound.
pub fn object_or_fault()
    ensures some { (bytes : List ℕ)
        → ((o : Object) × IsObject o bytes) ⊎ ((e : Fault) × ObjectFault e bytes) }
    ensures one { (bytes : List ℕ) (o p : Object) → IsObject o bytes → IsObject p bytes → o ≡ p }
    ensures either { (bytes : List ℕ) (o : Object) (e : Fault)
        → IsObject o bytes → ObjectFault e bytes → ⊥ }
    ensures frame_first { (bytes : List ℕ) (e d : Fault)
        → FrameFault e bytes → ObjectFault d bytes → d ≡ e }
    ensures section_first { (bytes : List ℕ) (e d : Fault) (sections : List Section)
        → IsModule sections bytes → FirstItemsFault sections e → ObjectFault d bytes → d ≡ e }
{}

/// The name of each symbol is what stands at its range of the object's bytes.
pub fn names_stand()
    ensures { (bytes : List ℕ) (o : Object) → IsObject o bytes
        → AllByRecursion (NameStands bytes) o.symbols }
{}

/// The names of imports, exports, features and what is said of segments, the expressions of
/// globals, bodies, and the bytes of segments stand in the object's bytes.
pub fn parts_of_objects_stand()
    ensures { (bytes : List ℕ) (o : Object) → IsObject o bytes → PartsStandIn bytes o }
{}

/// Each list of an object has at most as many items as the object has bytes.
pub fn object_lists_are_few()
    ensures { (bytes : List ℕ) (o : Object) → IsObject o bytes → HasFewItems (length bytes) o }
{}

/// What holds of each object that is kept: it fits together, its lists have `MAX_LEN` items at
/// most, each
/// function has one of its types, and each relocation has one site, in one of the bodies or of the
/// segments.
pub fn whole_objects()
    ensures fitting { (o : Object) → IsWhole o → IsFitting o }
    ensures few { (o : Object) → IsWhole o → HasFewItems MAX_LEN o }
    ensures imports { (o : Object) (k : Kind) → IsWhole o → count_imports k o.imports ≤ MAX_LEN }
    ensures types { (o : Object) (i t : ℕ) → IsWhole o
        → slice_get o.functions i ≡ Some t → t < length o.types }
    ensures code_sites { (o : Object) → IsWhole o
        → length o.code_sites ≡ length o.code_relocations }
    ensures code_units { (o : Object) (i : ℕ) (s : PlacedSite) → IsWhole o
        → slice_get o.code_sites i ≡ Some s → s.unit < length o.bodies }
    ensures data_sites { (o : Object) → IsWhole o
        → length o.data_sites ≡ length o.data_relocations }
    ensures data_units { (o : Object) (i : ℕ) (s : PlacedSite) → IsWhole o
        → slice_get o.data_sites i ≡ Some s → s.unit < length o.segments }
{}
