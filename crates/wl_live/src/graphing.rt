//! Which units refer to which.

ghost use Rattle.std.specs.Prelude.{◌≡◌, ◌↔◌, ◌⊎◌, true, List, Contains, IfOk, OnOk};
ghost use Rattle.wl_symbols.specs.Units.{exists, units_of};
ghost use Rattle.wl_symbols.specs.References.{RefersBySymbol, RefersByNumber, RefersBySlot, Refers};
ghost use Rattle.wl_symbols.specs.Roots.{IsRoot};
ghost use Rattle.wl_symbols.specs.declared.units.LinkUnit.{LinkUnit as UnitRecord};
ghost use Rattle.wl_live.specs.Facts.{Facts, AreAllFacts};
ghost use Rattle.wl_live.specs.Laying.{followed_references};
ghost use Rattle.wl_live.specs.Table.{link_edges, object_references};
ghost use Rattle.wl_live.specs.UnitGraph.{IsGraphOf};

use crate::marking::collect_numbers;
use crate::mentions::mentions_of;
use crate::object_facts::{ObjectFacts, all_facts};
use crate::references::{Followed, followed_by};
use crate::roots::{collect_roots, push_unit};
use crate::table::collect_edges;
use std::alloc::{AllocError, Global};
use std::marker::Model;
use wl_ops::numbers_are_one;
use wl_reach::Edge;
use wl_symbols::{LinkUnit, SymbolTable, UnitNumbers};

/// Which units refer to which, and which are kept by themselves, by the numbers of units. Clauses
/// see it as a `Graph`.
#[derive(Drop)]
pub struct UnitGraph {
    edges: Vec<Edge>,
    roots: Vec<usize>,
}

impl Model for UnitGraph {
    ghost use Rattle.wl_live.specs.UnitGraph.{Graph};

    ghost Value = { Graph };

    ghost view = { λ g. record { edges = g.edges.items; roots = g.roots.items } };
}

impl UnitGraph {
    /// An edge for each reference, from the unit that refers to the other one. A reference that
    /// stands more than once has more than one edge.
    pub fn edges(&self) -> &[Edge]
        ensures { result.now ≡ self.now.edges }
    {
        &self.edges
    }

    /// The units that are kept by themselves, each once or more often.
    pub fn roots(&self) -> &[usize]
        ensures { result.now ≡ self.now.roots }
    {
        &self.roots
    }
}

/// Which units of the objects refer to which, and which are kept by themselves.
///
/// # Errors
/// `AllocError` where memory runs out.
pub fn unit_graph(
    alloc: Global,
    symbols: &SymbolTable<'_, '_>,
    numbers: &UnitNumbers,
) -> Result<UnitGraph, AllocError>
    requires { numbers.now ≡ units_of symbols.now.objects }
    ensures graph { IfOk result (IsGraphOf symbols.now) }
    ensures table { IfOk result (λ g. (facts : List Facts) → AreAllFacts symbols.now.objects facts
        → g.edges ≡ link_edges symbols.now facts) }
{
    numbers_are_one();
    let facts = all_facts(alloc, symbols.files())?;
    let edges = collect_edges(alloc, symbols, numbers, &facts)?;
    let roots = collect_roots(alloc, symbols, numbers)?;
    let roots = collect_numbers(alloc, numbers, &roots)?;
    Ok(UnitGraph { edges, roots })
}

/// The units that are kept by themselves, each once or more often.
///
/// # Errors
/// `AllocError` where memory runs out.
pub fn roots_of(
    alloc: Global,
    symbols: &SymbolTable<'_, '_>,
    numbers: &UnitNumbers,
) -> Result<Vec<LinkUnit>, AllocError>
    requires { numbers.now ≡ units_of symbols.now.objects }
    ensures { IfOk result
        (λ list. (u : UnitRecord) → Contains list.items u ↔ IsRoot symbols.now u) }
{
    collect_roots(alloc, symbols, numbers)
}

/// Adds what is followed, if it is followed from that unit.
fn push_followed(
    list: &mut Vec<LinkUnit>,
    unit: LinkUnit,
    followed: Followed,
) -> Result<(), AllocError>
    ensures { OnOk result ((v : UnitRecord) → Contains list.new.items v
        ↔ (Contains list.old.items v
        ⊎ Contains (followed_references followed) (record { from = unit; to = v }))) }
{
    if followed.from == unit {
        push_unit(list, followed.own)?;
        push_unit(list, followed.other)?;
    }
    Ok(())
}

/// What a unit refers to, by what its object says.
fn references_in(
    alloc: Global,
    symbols: &SymbolTable<'_, '_>,
    numbers: &UnitNumbers,
    unit: LinkUnit,
    said: &ObjectFacts,
) -> Result<Vec<LinkUnit>, AllocError>
    ensures { IfOk result (λ list. (v : UnitRecord) → Contains list.items v
        ↔ Contains (object_references symbols.now numbers.now unit.object said.now)
        (record { from = unit; to = v })) }
{
    let mut list = Vec::new(alloc);
    for mention in mentions_of(unit.object, said) {
        push_followed(&mut list, unit, followed_by(symbols, numbers, mention))?;
    }
    Ok(list)
}

/// The units to which a unit refers, each once or more often, by what each object says of its
/// units: an answer of [`all_facts`](crate::all_facts). A segment that doesn't exist is one of them
/// where its number stands in the unit.
///
/// # Errors
/// `AllocError` where memory runs out.
pub fn references_of(
    alloc: Global,
    symbols: &SymbolTable<'_, '_>,
    numbers: &UnitNumbers,
    facts: &[ObjectFacts],
    unit: LinkUnit,
) -> Result<Vec<LinkUnit>, AllocError>
    requires units { numbers.now ≡ units_of symbols.now.objects }
    requires facts { AreAllFacts symbols.now.objects facts.now }
    ensures how { IfOk result (λ list. (v : UnitRecord) → Contains list.items v
        ↔ (RefersBySymbol symbols.now unit v
        ⊎ (RefersByNumber symbols.now unit v ⊎ RefersBySlot symbols.now unit v))) }
    ensures refers { IfOk result (λ list. (v : UnitRecord)
        → exists (units_of symbols.now.objects) unit ≡ true
        → exists (units_of symbols.now.objects) v ≡ true
        → Contains list.items v ↔ Refers symbols.now unit v) }
{
    numbers_are_one();
    match facts.get(unit.object) {
        Some(said) => references_in(alloc, symbols, numbers, unit, said),
        None => Ok(Vec::new(alloc)),
    }
}
