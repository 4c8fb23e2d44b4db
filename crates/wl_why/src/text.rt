//! Why units are kept, as text.

ghost use Rattle.std.specs.Prelude.{◌≡◌, ◌++◌, if◌then◌else◌, [], length, false, replicate, OnOk, IfOk};
ghost use Rattle.std.specs.List.{flat_map};
ghost use Rattle.wl_symbols.specs.Link.{link_of};
ghost use Rattle.wl_symbols.specs.Units.{total_of};
ghost use Rattle.wl_symbols.specs.Live.{IsLiveOf};
ghost use Rattle.wl_why.specs.Marked.{with_marks};
ghost use Rattle.wl_why.specs.Certificate.{unit_at_place};
ghost use Rattle.wl_why.specs.Text.{unit_kind_name, unit_text, from_text, reason_text, why_line, drop_line, drop_lines, step_number, certificate_text, IsWhyText};

use crate::certificate::{Certificate, Step};
use crate::explaining::explain;
use crate::marked::mark;
use crate::units::all_units;
use std::alloc::{AllocError, Global};
use wl_linking::FileList;
use wl_reach::Marks;
use wl_symbols::{
    LinkUnit, LiveSet, SymbolTable, UnitNumbers, WasmGcUnit, unit_index, units_are_numbered,
};
use wl_text::Page;
use wl_words::WasmArgs;

/// The kind of a unit.
fn unit_kind_name(unit: WasmGcUnit) -> &'static str
    ensures { result.now ≡ unit_kind_name unit }
{
    match unit {
        WasmGcUnit::DefinedFunction(_) => "function",
        WasmGcUnit::DefinedGlobal(_) => "global",
        WasmGcUnit::DataSegment(_) => "segment",
        WasmGcUnit::FunctionImport(_) => "funcimport",
        WasmGcUnit::GlobalImport(_) => "globalimport",
    }
}

/// A unit after a blank.
fn push_unit(page: &mut Page, unit: LinkUnit) -> Result<(), AllocError>
    ensures { OnOk result (page.new ≡ page.old ++ unit_text unit) }
{
    page.push_decimal(b" ", unit.object as u64)?;
    page.push_word(b" ")?;
    page.push_word(unit_kind_name(unit.unit).as_bytes())?;
    page.push_decimal(b" ", u64::from(unit_index(unit.unit)))
}

/// The unit of the step at that place.
fn unit_at_place(steps: &[Step], place: u64) -> Option<LinkUnit>
    ensures { result ≡ unit_at_place steps.now place }
{
    let step = steps.get(place as usize)?;
    Some(step.link_unit())
}

/// The unit that a step comes from.
fn push_from(page: &mut Page, unit: Option<LinkUnit>) -> Result<(), AllocError>
    ensures { OnOk result (page.new ≡ page.old ++ from_text unit) }
{
    if let Some(unit) = unit {
        page.push_word(b" from")?;
        push_unit(page, unit)?;
    }
    Ok(())
}

/// Why the unit of a step is kept.
fn push_reason(
    page: &mut Page,
    collects: bool,
    steps: &[Step],
    from: Option<u64>,
) -> Result<(), AllocError>
    ensures { OnOk result
        (page.new ≡ page.old ++ reason_text collects steps.now from) }
{
    match from {
        Some(from) => push_from(page, unit_at_place(steps, from)),
        None if collects => page.push_word(b" root"),
        None => page.push_word(b" off"),
    }
}

/// The line of a step.
fn push_step(page: &mut Page, collects: bool, steps: &[Step], step: Step) -> Result<(), AllocError>
    ensures { OnOk result
        (page.new ≡ page.old ++ why_line collects steps.now step) }
{
    page.push_word(b"why")?;
    push_unit(page, step.link_unit())?;
    push_reason(page, collects, steps, step.from)?;
    page.push_word(b"\n")
}

/// The lines of all steps.
fn push_steps(page: &mut Page, collects: bool, steps: &[Step]) -> Result<(), AllocError>
    ensures { OnOk result (page.new
        ≡ page.old ++ flat_map (why_line collects steps.now) steps.now) }
{
    for step in steps {
        push_step(page, collects, steps, *step)?;
    }
    Ok(())
}

/// A mark for each unit that has a step.
fn mark_steps(alloc: Global, numbers: &UnitNumbers, steps: &[Step]) -> Result<Marks, AllocError>
    ensures { IfOk result (λ m. m
        ≡ with_marks (step_number numbers.now) (replicate (total_of numbers.now) false) steps.now) }
{
    units_are_numbered();
    let mut marks = Marks::new(alloc, numbers.total())?;
    for step in steps {
        mark(&mut marks, numbers.number(step.link_unit()));
    }
    Ok(marks)
}

/// The line of a unit that has no step.
fn push_drop(page: &mut Page, unit: LinkUnit, listed: bool) -> Result<(), AllocError>
    ensures { OnOk result
        (page.new ≡ page.old ++ (if listed then [] else drop_line unit)) }
{
    if !listed {
        page.push_word(b"drop")?;
        push_unit(page, unit)?;
        page.push_word(b"\n")?;
    }
    Ok(())
}

/// The lines of the units that have no step.
fn push_drops(page: &mut Page, units: &[LinkUnit], marks: &Marks) -> Result<(), AllocError>
    requires { length marks.now ≡ length units.now }
    ensures { OnOk result
        (page.new ≡ page.old ++ drop_lines units.now marks.now) }
{
    for (number, unit) in units.iter().enumerate() {
        push_drop(page, *unit, marks.get(number))?;
    }
    Ok(())
}

/// A certificate as text: a line for each step, and then one for each unit that has none, by
/// object, kind and number.
///
/// # Errors
/// `AllocError` where memory runs out.
pub fn certificate_text(
    alloc: Global,
    symbols: &SymbolTable<'_, '_>,
    certificate: &Certificate,
) -> Result<Vec<u8>, AllocError>
    ensures { IfOk result (λ v. v.items ≡ certificate_text symbols.now certificate.now) }
{
    units_are_numbered();
    let steps = certificate.as_slice();
    let numbers = UnitNumbers::new(alloc, symbols.files())?;
    let marks = mark_steps(alloc, &numbers, steps)?;
    let units = all_units(alloc, symbols.files())?;
    let mut page = Page::new(alloc);
    push_steps(&mut page, symbols.args().gc_sections, steps)?;
    push_drops(&mut page, &units, &marks)?;
    page.into_text()
}

/// Why units are kept, and which aren't, as text: that of a valid certificate. `docs/WHY.md` says
/// how to read it.
///
/// # Errors
/// `AllocError` where memory runs out.
pub fn why_text(
    alloc: Global,
    files: &FileList<'_>,
    symbols: &SymbolTable<'_, '_>,
    args: &WasmArgs,
    live: &LiveSet,
) -> Result<Vec<u8>, AllocError>
    requires fit { symbols.now ≡ link_of files.now args.now }
    requires live { IsLiveOf symbols.now live.now }
    ensures { IfOk result (λ v. IsWhyText symbols.now v.items) }
{
    let certificate = explain(alloc, files, symbols, args, live)?;
    certificate_text(alloc, symbols, &certificate)
}
