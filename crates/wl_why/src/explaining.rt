//! A certificate of what is kept.

ghost use Rattle.std.specs.Prelude.{◌≡◌, ◌<◌, true, false, length, map, IfOk, All};
ghost use Rattle.wl_symbols.specs.Link.{link_of};
ghost use Rattle.wl_symbols.specs.Units.{units_of};
ghost use Rattle.wl_symbols.specs.Live.{IsLiveOf};
ghost use Rattle.wl_why.specs.Certificate.{IsValid};
ghost use Rattle.wl_why.specs.BreadthFirst.{IsBreadthFirst};
ghost use Rattle.wl_why.specs.Units.{all_units};
ghost use Rattle.wl_why.specs.Explaining.{step_of, plain_step, AreVisitSteps};

use crate::certificate::{Certificate, Step};
use crate::units::all_units;
use crate::walk::{Visit, walk};
use std::alloc::{AllocError, Global};
use wl_linking::FileList;
use wl_live::unit_graph;
use wl_reach::Graph;
use wl_symbols::{LinkUnit, LiveSet, SymbolTable, UnitNumbers, units_are_numbered};
use wl_words::WasmArgs;

/// The step of a unit.
fn step_of(unit: LinkUnit, from: Option<u64>) -> Step
    ensures { result ≡ step_of unit from }
{
    Step {
        object: unit.object,
        unit: unit.unit,
        from,
    }
}

/// A step for each unit, none of which comes from another.
fn plain_steps(alloc: Global, units: &[LinkUnit]) -> Result<Vec<Step>, AllocError>
    ensures { IfOk result (λ v. v.items ≡ map plain_step units.now) }
{
    let mut steps = Vec::new(alloc);
    for unit in units {
        steps.push(step_of(*unit, None))?;
    }
    Ok(steps)
}

/// The steps where nothing is left out: one for each unit.
fn whole_steps(
    alloc: Global,
    symbols: &SymbolTable<'_, '_>,
    units: &[LinkUnit],
) -> Result<Vec<Step>, AllocError>
    requires units { units.now ≡ all_units (units_of symbols.now.objects) }
    requires off { symbols.now.args.gc_sections ≡ false }
    ensures valid { IfOk result (λ v. IsValid symbols.now v.items) }
    ensures order { IfOk result (λ v. IsBreadthFirst symbols.now v.items) }
{
    units_are_numbered();
    plain_steps(alloc, units)
}

/// A step for each visit, of the unit of that number.
fn visit_steps(alloc: Global, units: &[LinkUnit], visits: &[Visit]) -> Result<Vec<Step>, AllocError>
    requires { All (λ v. v.node < length units.now) visits.now }
    ensures { IfOk result (λ v. AreVisitSteps units.now visits.now v.items) }
{
    let mut steps = Vec::new(alloc);
    for visit in visits {
        steps.push(step_of(units[visit.node], visit.from))?;
    }
    Ok(steps)
}

/// The steps where units are collected: those that a walk from the roots visits.
fn traced_steps(
    alloc: Global,
    symbols: &SymbolTable<'_, '_>,
    numbers: &UnitNumbers,
    units: &[LinkUnit],
) -> Result<Vec<Step>, AllocError>
    requires numbers { numbers.now ≡ units_of symbols.now.objects }
    requires units { units.now ≡ all_units (units_of symbols.now.objects) }
    requires collected { symbols.now.args.gc_sections ≡ true }
    ensures valid { IfOk result (λ v. IsValid symbols.now v.items) }
    ensures order { IfOk result (λ v. IsBreadthFirst symbols.now v.items) }
{
    units_are_numbered();
    let links = unit_graph(alloc, symbols, numbers)?;
    let graph = Graph::new(alloc, numbers.total(), links.edges())?;
    let visits = walk(alloc, &graph, links.roots())?;
    visit_steps(alloc, units, &visits)
}

/// Why the units of the live set are kept: the roots first, and then each other unit with the first
/// listed one that refers to it, breadth first; all units where nothing is left out. The set itself
/// isn't asked: it doesn't know from where its units were reached.
///
/// # Errors
/// `AllocError` where memory runs out.
pub fn explain(
    alloc: Global,
    files: &FileList<'_>,
    symbols: &SymbolTable<'_, '_>,
    args: &WasmArgs,
    _live: &LiveSet,
) -> Result<Certificate, AllocError>
    requires fit { symbols.now ≡ link_of files.now args.now }
    requires live { IsLiveOf symbols.now _live.now }
    ensures valid { IfOk result (IsValid symbols.now) }
    ensures order { IfOk result (IsBreadthFirst symbols.now) }
{
    let units = all_units(alloc, files)?;
    if args.gc_sections {
        let numbers = UnitNumbers::new(alloc, files)?;
        let steps = traced_steps(alloc, symbols, &numbers, &units)?;
        Ok(Certificate::new(steps))
    } else {
        let steps = whole_steps(alloc, symbols, &units)?;
        Ok(Certificate::new(steps))
    }
}
