//! The layout of the output module, where it is known what is kept.

ghost use Rattle.std.specs.Prelude.{OnOk, IfOk, IfErr};
ghost use Rattle.wl_linking.specs.Steps.{Clear, Refuses};
ghost use Rattle.wl_plan.specs.BodySteps.{AreSoundBodies};
ghost use Rattle.wl_plan.specs.Faults.{kept_fault};
ghost use Rattle.wl_plan.specs.Plan.{IsLayout};

use crate::layout::WasmLayout;
use crate::plan::plan_kept;
use std::alloc::Global;
use wl_features::taken_features;
use wl_linking::LinkError;
use wl_symbols::LinkInput;

/// The layout of the output module: that of the plan of whole objects, of which it is known what is
/// kept. What is judged before that is to have no cause: kept bodies are decoded.
///
/// # Errors
/// Why references can't be bound, things numbered or data placed, why a global or a field can't
/// take its value, why there can't be the exports, or that code or data has too many bytes.
pub fn build_output_module_layout<'a>(
    alloc: Global,
    input: &LinkInput<'a, 'a>,
) -> Result<WasmLayout<'a>, LinkError>
    requires sound { AreSoundBodies input.now }
    ensures ok { IfOk result (IsLayout input.now) }
    ensures clear { OnOk result (Clear (kept_fault input.now)) }
    ensures err { IfErr result (Refuses (kept_fault input.now)) }
{
    let args = input.args();
    let features = taken_features(alloc, input.files(), args)?;
    let plan = plan_kept(alloc, input, args, features)?;
    Ok(plan.layout)
}
