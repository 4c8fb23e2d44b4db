//! What others see of the output.

ghost use Rattle.std.specs.Prelude.{◌≡◌, length, IfOk, IfErr, OnOk};
ghost use Rattle.wl_linking.specs.Steps.{Clear, Refuses};
ghost use Rattle.wl_bind.specs.FunctionSpace.{host_function_part, function_space};
ghost use Rattle.wl_exports.specs.Interface.{IsInterface};
ghost use Rattle.wl_exports.specs.Sources.{AreSources};
ghost use Rattle.wl_exports.specs.Wrapped.{AreTooManyWrappers};

use crate::entries::output_exports;
use crate::sources::ExportSources;
use crate::wrappers::{Wrapper, count_wrappers, wrap_exports};
use std::alloc::Global;
use wl_index::MAX_ENTRIES;
use wl_linking::{LinkError, Quantity};
use wl_lists::ItemList;
use wl_module::OutputExport;

/// What others see of the output.
#[derive(Drop)]
pub struct OutputInterface<'a> {
    /// What it exports, in order.
    pub exports: ItemList<OutputExport<'a>>,
    /// The wrappers that some of these lead to, in the order of their exports.
    pub wrappers: ItemList<Wrapper<'a>>,
}

/// What others see of the output: so many functions are imported, and so many are there without
/// wrappers, which follow them.
///
/// # Errors
/// `TooLarge` where with the wrappers there are more than 4294967294 functions.
pub fn output_interface<'a>(
    alloc: Global,
    sources: &ExportSources<'_, '_, 'a>,
    hosts: usize,
    functions: usize,
) -> Result<OutputInterface<'a>, LinkError>
    requires sources { AreSources sources.now }
    requires hosts { hosts ≡ length (host_function_part sources.now.input.now) }
    requires functions { functions ≡ length (function_space sources.now.input.now) }
    ensures ok { IfOk result (IsInterface sources.now.input.now) }
    ensures clear { OnOk result (Clear (AreTooManyWrappers sources.now.input.now)) }
    ensures err { IfErr result (Refuses (AreTooManyWrappers sources.now.input.now)) }
{
    let input = sources.input;
    let exports = output_exports(alloc, sources)?;
    let room = MAX_ENTRIES - functions;
    if room < count_wrappers(input, hosts, exports.as_slice()) {
        return Err(LinkError::TooLarge {
            what: Quantity::Space,
        });
    }
    let (exports, wrappers) = wrap_exports(alloc, input, hosts, functions, exports)?;
    Ok(OutputInterface { exports, wrappers })
}
