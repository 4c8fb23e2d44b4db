//! What is reported of a run of a function of a plan.

ghost use Rattle.std.specs.Prelude.{◌≡◌, codes, IfOk, true};
ghost use Rattle.wl_symbols.specs.Link.{Link as SpecLink};
ghost use Rattle.wl_load.specs.Images.{LoadedImage};
ghost use Rattle.wl_plan.specs.LinkPlan.{IsPlanOf};
ghost use Rattle.wl_plan.specs.declared.layout.LinkPlan.{LinkPlan as SpecPlan};
ghost use Rattle.wildplan.specs.Loading.{CanBeLoaded, IsLoaded};
ghost use Rattle.wildplan.specs.Running.{is_function_named, exported_function, can_start, can_take_turns, IsRunText};

use crate::loading::load;
use std::alloc::{AllocError, Global};
use wl_load::Image;
use wl_module::{ExternalKind, OutputExport};
use wl_plan::LinkPlan;
use wl_run::{end_line, load_line, run_in_turn};

/// Whether a function is exported under that name.
fn is_function_named(export: &OutputExport<'_>, name: &str) -> bool
    ensures { result ≡ is_function_named name.now export.now }
{
    let is_function = match export.kind {
        ExternalKind::Func => true,
        ExternalKind::Table | ExternalKind::Memory | ExternalKind::Global => false,
    };
    is_function && export.name == name
}

/// The number of the function that is exported under a name.
fn exported_function(exports: &[OutputExport<'_>], name: &str) -> Option<u32>
    ensures { result ≡ exported_function exports.now name.now }
{
    for export in exports {
        if is_function_named(export, name) {
            return Some(export.index);
        }
    }
    None
}

/// Whether the function at the start, where there is one, can be run without arguments.
fn can_start(image: &Image, start: Option<u32>) -> bool
    ensures { result ≡ can_start image.now start }
{
    match start {
        None => true,
        Some(start) => image.can_run(start, &[]),
    }
}

/// Whether it can, and the other function too.
fn can_take_turns(image: &Image, start: Option<u32>, function: u32) -> bool
    ensures { result ≡ can_take_turns image.now start function }
{
    image.can_run(function, &[]) && can_start(image, start)
}

/// The line that says how the run of the function ends that a plan exports under a name, once the
/// function at the start has run: `done` and its results, or what ended it. It is `load` and the
/// cause where the plan isn't loaded, `none` where no function is exported so, and `arguments`
/// where that one takes some.
///
/// # Errors
/// `AllocError` where memory runs out, in the run too.
pub fn run_text(alloc: Global, plan: &LinkPlan<'_>, name: &str) -> Result<Vec<u8>, AllocError>
    requires { CanBeLoaded plan.now }
    ensures { IfOk result (λ text. IsRunText plan.now name.now text.items) }
{
    let mut image = match load(alloc, plan) {
        Ok(image) => image,
        Err(error) => return load_line(alloc, error),
    };
    let Some(function) = exported_function(plan.layout.exports.as_slice(), name) else {
        return Vec::from_slice(alloc, b"none\n");
    };
    let start = plan.layout.start_function;
    if !can_take_turns(&image, start, function) {
        return Vec::from_slice(alloc, b"arguments\n");
    }
    let end = run_in_turn(&mut image, start, function);
    end_line(alloc, &end)
}

/// The function at the start of a plan takes no arguments, so that `arguments` is about the one
/// that is exported.
pub fn starts_take_no_arguments()
    ensures { (link : SpecLink) (plan : SpecPlan) (image : LoadedImage) → IsPlanOf link plan
        → CanBeLoaded plan → IsLoaded plan image
        → can_start image plan.layout.start_function ≡ true }
{}
