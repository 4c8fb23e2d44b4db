//! What a plan has beside the module's own sections: the features, and the debug sections.

ghost use Rattle.std.specs.Prelude.{◌≡◌, IfOk};
ghost use Rattle.wl_symbols.specs.Link.{Link, link_of};
ghost use Rattle.wl_features.specs.Taken.{AreTaken};
ghost use Rattle.wl_plan.specs.Extras.{AreOutputFeatures, output_debug_sections};

use crate::bodies::all_debug_sections;
use std::alloc::{AllocError, Global};
use wl_features::FeatureList;
use wl_linking::{DebugSectionInput, FileList, TARGET_FEATURES_SECTION_NAME};
use wl_lists::ItemList;
use wl_words::WasmArgs;

/// The features that the output has, unless the words leave them out.
pub(crate) fn output_features<'a>(
    alloc: Global,
    args: &WasmArgs,
    features: FeatureList<'a>,
) -> FeatureList<'a>
    ensures { (link : Link) → args.now ≡ link.args → AreTaken link features.entry
        → AreOutputFeatures link result }
{
    if args.emit_stripped_section(TARGET_FEATURES_SECTION_NAME) {
        features
    } else {
        FeatureList::empty(alloc)
    }
}

/// The debug sections of all objects, unless the words leave them out.
///
/// # Errors
/// `AllocError` where memory runs out.
pub(crate) fn output_debug_sections<'a>(
    alloc: Global,
    files: &FileList<'a>,
    args: &WasmArgs,
) -> Result<ItemList<DebugSectionInput<'a>>, AllocError>
    ensures { IfOk result
        (λ sections. sections ≡ output_debug_sections (link_of files.now args.now)) }
{
    if args.strip_all || args.strip_debug {
        return Ok(ItemList::empty(alloc));
    }
    all_debug_sections(alloc, files.as_slice())
}
