//! The table of what units refer to, by their numbers: references are counted first, and then laid
//! straight into it.

ghost use Rattle.std.specs.Prelude.{◌≡◌, ◌++◌, List, length, IfOk, OnOk};
ghost use Rattle.std.specs.Option.{option_to_list};
ghost use Rattle.wl_reach.specs.Graph.{HasRoom, graph_of};
ghost use Rattle.wl_reach.specs.declared.graph.Edge.{Edge as SpecEdge};
ghost use Rattle.wl_symbols.specs.Link.{Link};
ghost use Rattle.wl_symbols.specs.Units.{total_of};
ghost use Rattle.wl_live.specs.Laying.{all_edges, edge_to, edges, mention_edges, IsLaying};

use crate::mentions::{Mention, all_mentions};
use crate::object_facts::ObjectFacts;
use crate::references::{Followed, followed_by};
use std::alloc::{AllocError, Global};
use wl_reach::{Edge, Graph, GraphBuilder, Rooms};
use wl_symbols::{LinkUnit, SymbolTable, UnitNumbers};

// ---- the edges of references

/// The edges of what a unit refers to by one mention.
#[derive(Clone, Copy, PartialEq, Eq)]
struct MentionEdges {
    own: Option<Edge>,
    other: Option<Edge>,
}

/// The edge from the unit of that number to another, if that exists.
fn edge_to(numbers: &UnitNumbers, from: usize, to: Option<LinkUnit>) -> Option<Edge>
    ensures { result ≡ edge_to numbers.now from to }
{
    let to = numbers.number(to?)?;
    Some(Edge { from, to })
}

/// The edges of what a mention makes its unit refer to, where both units exist.
fn edges_of(symbols: &SymbolTable<'_, '_>, numbers: &UnitNumbers, mention: Mention) -> MentionEdges
    ensures { edges result ≡ mention_edges symbols.now numbers.now mention }
{
    let Followed { from, own, other } = followed_by(symbols, numbers, mention);
    match numbers.number(from) {
        Some(from) => MentionEdges {
            own: edge_to(numbers, from, own),
            other: edge_to(numbers, from, other),
        },
        None => MentionEdges {
            own: None,
            other: None,
        },
    }
}

// ---- as a list

/// Adds an edge, if there is one.
fn push_edge(list: &mut Vec<Edge>, edge: Option<Edge>) -> Result<(), AllocError>
    ensures { OnOk result (list.new.items ≡ list.old.items ++ option_to_list edge) }
{
    if let Some(edge) = edge {
        list.push(edge)?;
    }
    Ok(())
}

/// Adds the edges of what a mention makes its unit refer to.
fn push_edges(
    list: &mut Vec<Edge>,
    symbols: &SymbolTable<'_, '_>,
    numbers: &UnitNumbers,
    mention: Mention,
) -> Result<(), AllocError>
    ensures { OnOk result
        (list.new.items ≡ list.old.items ++ mention_edges symbols.now numbers.now mention) }
{
    let MentionEdges { own, other } = edges_of(symbols, numbers, mention);
    push_edge(list, own)?;
    push_edge(list, other)
}

/// The edges of all references.
pub(crate) fn collect_edges(
    alloc: Global,
    symbols: &SymbolTable<'_, '_>,
    numbers: &UnitNumbers,
    facts: &[ObjectFacts],
) -> Result<Vec<Edge>, AllocError>
    ensures { IfOk result (λ v. v.items ≡ all_edges symbols.now numbers.now facts.now) }
{
    let mut list = Vec::new(alloc);
    for mention in all_mentions(facts) {
        push_edges(&mut list, symbols, numbers, mention)?;
    }
    Ok(list)
}

// ---- as a table

/// Makes room for what a unit refers to by a mention.
fn add_room(rooms: &mut Rooms, numbers: &UnitNumbers, mention: Mention) -> Result<(), AllocError>
    requires { length rooms.old ≡ total_of numbers.now }
    ensures nodes { OnOk result (length rooms.new ≡ length rooms.old) }
    ensures room { OnOk result ((link : Link) (old : List SpecEdge) → HasRoom rooms.old old
        → HasRoom rooms.new (old ++ mention_edges link numbers.now mention)) }
{
    match numbers.number(mention.referring()) {
        Some(node) => rooms.add(node, mention.most_references()),
        None => Ok(()),
    }
}

/// Room for what each unit refers to.
fn count_references(
    alloc: Global,
    numbers: &UnitNumbers,
    facts: &[ObjectFacts],
) -> Result<Rooms, AllocError>
    ensures nodes { IfOk result (λ r. length r ≡ total_of numbers.now) }
    ensures room { IfOk result
        (λ r. (link : Link) → HasRoom r (all_edges link numbers.now facts.now)) }
{
    let mut rooms = Rooms::new(alloc, numbers.total())?;
    for mention in all_mentions(facts) {
        add_room(&mut rooms, numbers, mention)?;
    }
    Ok(rooms)
}

/// Lays an edge, if there is one.
fn lay_edge(builder: &mut GraphBuilder, edge: Option<Edge>)
    requires { (all left : List SpecEdge) × IsLaying all (option_to_list edge ++ left) builder.old }
    ensures rooms { builder.new.rooms ≡ builder.old.rooms }
    ensures laid { (all left : List SpecEdge)
        → IsLaying all (option_to_list edge ++ left) builder.old
        → IsLaying all left builder.new }
{
    if let Some(edge) = edge {
        builder.add(edge);
    }
}

/// Lays the edges of what a mention makes its unit refer to.
fn lay_edges(
    builder: &mut GraphBuilder,
    symbols: &SymbolTable<'_, '_>,
    numbers: &UnitNumbers,
    mention: Mention,
)
    requires { (all left : List SpecEdge)
        × IsLaying all (mention_edges symbols.now numbers.now mention ++ left) builder.old }
    ensures rooms { builder.new.rooms ≡ builder.old.rooms }
    ensures laid { (all left : List SpecEdge)
        → IsLaying all (mention_edges symbols.now numbers.now mention ++ left) builder.old
        → IsLaying all left builder.new }
{
    let MentionEdges { own, other } = edges_of(symbols, numbers, mention);
    lay_edge(builder, own);
    lay_edge(builder, other);
}

/// The table of all references, for which there is room.
fn lay_references(
    alloc: Global,
    symbols: &SymbolTable<'_, '_>,
    numbers: &UnitNumbers,
    facts: &[ObjectFacts],
    rooms: Rooms,
) -> Result<Graph, AllocError>
    requires nodes { length rooms ≡ total_of numbers.now }
    requires room { HasRoom rooms (all_edges symbols.now numbers.now facts.now) }
    ensures { IfOk result (λ g. g
        ≡ graph_of (total_of numbers.now) (all_edges symbols.now numbers.now facts.now)) }
{
    let mut builder = GraphBuilder::new(alloc, rooms)?;
    for mention in all_mentions(facts) {
        lay_edges(&mut builder, symbols, numbers, mention);
    }
    Ok(builder.finish())
}

/// The table of all references: for each unit those to which it refers, by their numbers. It takes
/// two passes over the facts, of which the first one counts.
pub(crate) fn lay_table(
    alloc: Global,
    symbols: &SymbolTable<'_, '_>,
    numbers: &UnitNumbers,
    facts: &[ObjectFacts],
) -> Result<Graph, AllocError>
    ensures { IfOk result (λ g. g
        ≡ graph_of (total_of numbers.now) (all_edges symbols.now numbers.now facts.now)) }
{
    let rooms = count_references(alloc, numbers, facts)?;
    lay_references(alloc, symbols, numbers, facts, rooms)
}
