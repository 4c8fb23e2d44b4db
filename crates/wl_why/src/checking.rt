//! Whether a certificate is valid.

ghost use Rattle.std.specs.Prelude.{◌≡◌, ◌<◌, ◌↔◌, length, true, false, None, IsTrue, IfOk, IfSome, All, slice_index};
ghost use Rattle.wl_symbols.specs.Link.{link_of};
ghost use Rattle.wl_why.specs.Certificate.{IsValid};
ghost use Rattle.wl_why.specs.Marked.{with_marks};
ghost use Rattle.wl_symbols.specs.Units.{units_of};
ghost use Rattle.wl_why.specs.Places.{ArePlaces};
ghost use Rattle.wl_why.specs.Checking.{root_place, is_from, from_place, justified_by_root, justified_by_edge, AreJustified};

use crate::certificate::{Certificate, Step};
use crate::marked::mark;
use crate::places::places_of;
use std::alloc::{AllocError, Global};
use wl_linking::FileList;
use wl_live::unit_graph;
use wl_reach::{Edge, Marks};
use wl_symbols::{SymbolTable, UnitNumbers, units_are_numbered};
use wl_words::WasmArgs;

/// Whether each of these units is listed.
fn are_listed(places: &[usize], count: usize, numbers: &[usize]) -> bool
    requires { All (λ n. n < length places.now) numbers.now }
    ensures { IsTrue result ↔ All (λ n. slice_index places.now n < count) numbers.now }
{
    numbers.iter().all(|n| places[*n] < count)
}

/// Whether what a listed unit refers to is listed.
fn are_closed(places: &[usize], count: usize, edges: &[Edge]) -> bool
    requires from { All (λ e. e.from < length places.now) edges.now }
    requires to { All (λ e. e.to < length places.now) edges.now }
    ensures { IsTrue result
        ↔ All (λ e. slice_index places.now e.from < count → slice_index places.now e.to < count)
        edges.now }
{
    edges
        .iter()
        .all(|e| places[e.from] >= count || places[e.to] < count)
}

/// The place, if the step there comes from none.
fn root_place(steps: &[Step], place: usize) -> Option<usize>
    ensures { result ≡ root_place steps.now place }
{
    let step = steps.get(place)?;
    if step.from.is_none() {
        Some(place)
    } else {
        None
    }
}

/// Whether a step comes from that place.
fn is_from(from: Option<u64>, place: usize) -> bool
    ensures { result ≡ is_from from place }
{
    match from {
        Some(from) => from == place as u64,
        None => false,
    }
}

/// The place, if the step there comes from the other place.
fn from_place(steps: &[Step], from: usize, place: usize) -> Option<usize>
    ensures { result ≡ from_place steps.now from place }
{
    let step = steps.get(place)?;
    if is_from(step.from, from) {
        Some(place)
    } else {
        None
    }
}

/// Marks the steps that roots justify.
fn mark_roots(marks: &mut Marks, places: &[usize], steps: &[Step], roots: &[usize])
    requires each { length marks.old ≡ length steps.now }
    requires roots { All (λ n. n < length places.now) roots.now }
    ensures count { length marks.new ≡ length marks.old }
    ensures marked { marks.new
        ≡ with_marks (justified_by_root places.now steps.now) marks.old roots.now }
{
    for root in roots {
        mark(marks, root_place(steps, places[*root]));
    }
}

/// Marks the steps that references justify.
fn mark_references(marks: &mut Marks, places: &[usize], steps: &[Step], edges: &[Edge])
    requires each { length marks.old ≡ length steps.now }
    requires from { All (λ e. e.from < length places.now) edges.now }
    requires to { All (λ e. e.to < length places.now) edges.now }
    ensures count { length marks.new ≡ length marks.old }
    ensures marked { marks.new
        ≡ with_marks (justified_by_edge places.now steps.now) marks.old edges.now }
{
    for edge in edges {
        mark(marks, from_place(steps, places[edge.from], places[edge.to]));
    }
}

/// Whether a step comes from none, or from one before it.
fn is_behind(from: Option<u64>, place: usize) -> bool
    ensures { IsTrue result ↔ IfSome from (λ j. j < place) }
{
    match from {
        Some(from) => from < place as u64,
        None => true,
    }
}

/// Whether each step is marked and comes from none, or from one before it.
fn are_justified(steps: &[Step], marks: &Marks) -> bool
    requires { length marks.now ≡ length steps.now }
    ensures { IsTrue result ↔ AreJustified steps.now marks.now }
{
    for (i, step) in steps.iter().enumerate() {
        if !marks.get(i) || !is_behind(step.from, i) {
            return false;
        }
    }
    true
}

/// Whether no step comes from another.
fn are_plain(steps: &[Step]) -> bool
    ensures { IsTrue result ↔ All (λ s. s.from ≡ None) steps.now }
{
    steps.iter().all(|step| step.from.is_none())
}

/// Whether all units are listed.
fn are_all(places: &[usize], count: usize) -> bool
    ensures { IsTrue result ↔ All (λ place. place < count) places.now }
{
    places.iter().all(|place| *place < count)
}

/// Whether the certificate is valid where units are collected: what it claims is so, and it lists
/// the roots, and with each unit what that refers to.
fn is_traced(
    alloc: Global,
    symbols: &SymbolTable<'_, '_>,
    numbers: &UnitNumbers,
    places: &[usize],
    steps: &[Step],
) -> Result<bool, AllocError>
    requires units { numbers.now ≡ units_of symbols.now.objects }
    requires places { ArePlaces numbers.now steps.now places.now }
    requires collected { symbols.now.args.gc_sections ≡ true }
    ensures { IfOk result (λ yes. IsTrue yes ↔ IsValid symbols.now steps.now) }
{
    units_are_numbered();
    let graph = unit_graph(alloc, symbols, numbers)?;
    if !are_listed(places, steps.len(), graph.roots()) {
        return Ok(false);
    }
    if !are_closed(places, steps.len(), graph.edges()) {
        return Ok(false);
    }
    let mut marks = Marks::new(alloc, steps.len())?;
    mark_roots(&mut marks, places, steps, graph.roots());
    mark_references(&mut marks, places, steps, graph.edges());
    Ok(are_justified(steps, &marks))
}

/// Whether the certificate is valid where nothing is left out.
fn is_whole(symbols: &SymbolTable<'_, '_>, places: &[usize], steps: &[Step]) -> bool
    requires places { ArePlaces (units_of symbols.now.objects) steps.now places.now }
    requires off { symbols.now.args.gc_sections ≡ false }
    ensures { IsTrue result ↔ IsValid symbols.now steps.now }
{
    units_are_numbered();
    if !are_plain(steps) {
        return false;
    }
    are_all(places, steps.len())
}

/// Whether a certificate is valid: what each of its steps says is so, and it lists the roots and
/// all to which a listed unit refers, or every unit where nothing is left out. Its steps may be
/// any.
///
/// # Errors
/// `AllocError` where memory runs out.
pub fn check_why(
    alloc: Global,
    files: &FileList<'_>,
    symbols: &SymbolTable<'_, '_>,
    args: &WasmArgs,
    certificate: &Certificate,
) -> Result<bool, AllocError>
    requires { symbols.now ≡ link_of files.now args.now }
    ensures { IfOk result (λ yes. IsTrue yes ↔ IsValid symbols.now certificate.now) }
{
    let steps = certificate.as_slice();
    let numbers = UnitNumbers::new(alloc, files)?;
    let Some(places) = places_of(alloc, &numbers, steps)? else {
        return Ok(false);
    };
    if args.gc_sections {
        is_traced(alloc, symbols, &numbers, &places, steps)
    } else {
        Ok(is_whole(symbols, &places, steps))
    }
}
