//! How many bytes the code and the data take in the output.

ghost use Rattle.std.specs.Prelude.{◌≤◌, length, OnOk, IfErr, IfOk};
ghost use Rattle.wl_linking.specs.Steps.{Clear};
ghost use Rattle.wl_index.specs.declared.index.TheConstants.{MAX_ENTRIES};
ghost use Rattle.wl_data.specs.Sizes.{segment_count};
ghost use Rattle.wl_plan.specs.steps.Sizes.{IsTooBig, HasSizes};

use wl_data::{
    SegmentLayouts, code_can_be_measured, compute_code_section_size, compute_data_section_size,
    data_can_be_measured,
};
use wl_linking::{LinkError, Quantity};
use wl_module::WasmFunctionBody;

/// How many bytes the two sections take.
#[derive(Clone, Copy)]
pub(crate) struct SectionSizes {
    /// The code section.
    pub(crate) code: u64,
    /// The data section.
    pub(crate) segments: u64,
}

/// How many bytes the sections of these bodies and segments take.
///
/// # Errors
/// `TooLarge` where the bodies, or the segments, have 4611686018427387904 bytes or more.
pub(crate) fn section_sizes(
    bodies: &[WasmFunctionBody<'_>],
    layouts: &[SegmentLayouts<'_>],
) -> Result<SectionSizes, LinkError>
    requires bodies { length bodies.now ≤ MAX_ENTRIES }
    requires layouts { segment_count layouts.now ≤ MAX_ENTRIES }
    ensures ok { IfOk result (HasSizes bodies.now layouts.now) }
    ensures clear { OnOk result (Clear (IsTooBig bodies.now layouts.now)) }
    ensures err { IfErr result (IsTooBig bodies.now layouts.now) }
{
    let what = Quantity::Size;
    if !code_can_be_measured(bodies) {
        return Err(LinkError::TooLarge { what });
    }
    if !data_can_be_measured(layouts) {
        return Err(LinkError::TooLarge { what });
    }
    Ok(SectionSizes {
        code: compute_code_section_size(bodies),
        segments: compute_data_section_size(layouts),
    })
}
