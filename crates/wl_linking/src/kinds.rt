//! What each section of an object is for (core specification, "Sections"; object file linking,
//! version 2).

ghost use Rattle.std.specs.Prelude.{◌≡◌};
ghost use Rattle.wl_bytes.specs.Outcome.{Gives};
ghost use Rattle.wl_linking.specs.Targets.{bytes_between, custom_kind, target_verdict, numbered_verdict, is_debug};

use crate::parts::Parts;
use wl_bytes::{Form, ReadError, Why};
use wl_custom::Target;
use wl_module::{FramedSection, SectionHeader, SectionKind};

/// The name of the section that describes symbols and segments (object file linking, version 2,
/// "Linking Metadata Section").
pub const LINKING_SECTION_NAME: &str = "linking";

/// What the name of a relocation section begins with (object file linking, version 2, "Relocation
/// Sections").
pub const RELOC_SECTION_PREFIX: &str = "reloc.";

/// The name of the section that says what an object uses of the machine that it is made for (tool
/// conventions, "Target Features Section").
pub const TARGET_FEATURES_SECTION_NAME: &str = "target_features";

/// What the name of a debug section begins with.
const DEBUG_SECTION_PREFIX: &str = ".debug_";

/// What a custom section is, by its name.
#[derive(Clone, Copy, PartialEq, Eq)]
pub(crate) enum CustomKind {
    Linking,
    Reloc,
    Debug,
    Features,
    /// It says nothing of the plan.
    Other,
}

/// What a custom section of that name is.
pub(crate) fn custom_kind(name: &[u8]) -> CustomKind
    ensures { result ≡ custom_kind name.now }
{
    if name == LINKING_SECTION_NAME.as_bytes() {
        CustomKind::Linking
    } else if name.starts_with(RELOC_SECTION_PREFIX.as_bytes()) {
        CustomKind::Reloc
    } else if name.starts_with(DEBUG_SECTION_PREFIX.as_bytes()) {
        CustomKind::Debug
    } else if name == TARGET_FEATURES_SECTION_NAME.as_bytes() {
        CustomKind::Features
    } else {
        CustomKind::Other
    }
}

/// What a section is for relocations, after the sections with these items.
fn check_target(before: &Parts<'_>, section: &FramedSection<'_>) -> Result<Target, ReadError>
    ensures { Gives (λ t. t) result (target_verdict before.now section.now) }
{
    let (target, is_repeated) = match section.kind {
        SectionKind::Code => (Target::Code, before.has_code_relocations),
        SectionKind::Data => (Target::Data, before.has_data_relocations),
        SectionKind::Custom if custom_kind(section.name.as_bytes()) == CustomKind::Debug => {
            (Target::Debug, false)
        }
        _ => return Err(ReadError::Unsupported(Form::RelocTarget)),
    };
    if is_repeated {
        return Err(ReadError::Malformed(Why::Repeated));
    }
    Ok(target)
}

/// What the section of that number is for relocations. One that isn't there has no rule either.
pub(crate) fn target_of(
    sections: &[FramedSection<'_>],
    before: &Parts<'_>,
    number: u32,
) -> Result<Target, ReadError>
    ensures { Gives (λ t. t) result (numbered_verdict sections.now before.now number) }
{
    match sections.get(number as usize) {
        None => Err(ReadError::Unsupported(Form::RelocTarget)),
        Some(section) => check_target(before, section),
    }
}

/// The bytes from one place to another, as far as there are any.
fn bytes_between(bytes: &[u8], range: (u32, u32)) -> &[u8]
    ensures { result.now ≡ bytes_between bytes.now range }
{
    let from = bytes.len().min(range.0 as usize);
    let rest = bytes.split_at(from).1;
    let len = rest.len().min(range.1.saturating_sub(range.0) as usize);
    rest.split_at(len).0
}

/// Whether the section of this header is a debug section.
pub(crate) fn is_debug(bytes: &[u8], header: &SectionHeader) -> bool
    ensures { result ≡ is_debug bytes.now header.now }
{
    match header.name_range {
        None => false,
        Some(range) => custom_kind(bytes_between(bytes, range)) == CustomKind::Debug,
    }
}
