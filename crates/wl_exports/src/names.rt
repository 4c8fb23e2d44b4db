//! Names that are taken.

ghost use Rattle.std.specs.Prelude.{◌≡◌, ◌||◌, not, ℕ, List, bytes_eq, IfOk, OnOk};
ghost use Rattle.wl_exports.specs.steps.Names.{holds_name};

use std::alloc::AllocError;
use std::collections::HashSet;

/// Takes a name, and says whether it was free.
pub(crate) fn take_name<'a>(taken: &mut HashSet<&'a str>, name: &'a str) -> Result<bool, AllocError>
    ensures free { IfOk result (λ free. free ≡ not (holds_name taken.old name.now)) }
    ensures names { OnOk result ((wanted : List ℕ)
        → holds_name taken.new wanted ≡ (bytes_eq name.now wanted || holds_name taken.old wanted)) }
{
    Ok(taken.insert(name)?)
}
