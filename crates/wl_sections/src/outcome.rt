//! What becomes of a section of an object, by its name.

ghost use Rattle.std.specs.Prelude.{◌≡◌};
ghost use Rattle.std.specs.List.{list_any};
ghost use Rattle.std.specs.Str.{bytes_eq};
ghost use Rattle.wl_sections.specs.Outcomes.{is_discarded, section_outcome};

use wl_linking::{LINKING_SECTION_NAME, RELOC_SECTION_PREFIX, TARGET_FEATURES_SECTION_NAME};

/// What becomes of a section of an object.
#[derive(Clone, Copy, PartialEq, Eq)]
pub enum SectionRuleOutcome {
    /// It has no copy in the output: the linker writes one of its own, or none.
    Discard,
    /// It is debug data, and is copied.
    Debug,
}

/// What the name of a debug section begins with.
const DEBUG_SECTION_PREFIX: &str = ".debug_";

/// The names of sections that have no copy in the output (core specification, "Modules"; object
/// file linking, version 2; tool conventions, "Target Features Section").
const DISCARDED_NAMES: [&str; 15] = [
    "type",
    "import",
    "function",
    "table",
    "memory",
    "global",
    "export",
    "start",
    "element",
    "data_count",
    "code",
    "data",
    LINKING_SECTION_NAME,
    "name",
    TARGET_FEATURES_SECTION_NAME,
];

/// Whether one of the names is this one.
fn is_among(names: &[&str], name: &[u8]) -> bool
    ensures { result ≡ list_any (λ other. bytes_eq name.now other.now) names.now }
{
    names.iter().any(|other| name == other.as_bytes())
}

/// A section of that name has no copy in the output.
fn is_discarded(name: &[u8]) -> bool
    ensures { result ≡ is_discarded name.now }
{
    is_among(&DISCARDED_NAMES, name)
}

/// What becomes of a section of that name, where there is a rule for it: standard sections, and
/// what is meant for linkers alone, are written anew or not at all; debug data is copied.
pub fn section_outcome(name: &[u8]) -> Option<SectionRuleOutcome>
    ensures { result ≡ section_outcome name.now }
{
    if is_discarded(name) || name.starts_with(RELOC_SECTION_PREFIX.as_bytes()) {
        Some(SectionRuleOutcome::Discard)
    } else if name.starts_with(DEBUG_SECTION_PREFIX.as_bytes()) {
        Some(SectionRuleOutcome::Debug)
    } else {
        None
    }
}
