//! What can be reached in a graph.

ghost use Rattle.std.specs.Prelude.{◌≡◌, ◌<◌, ◌≤◌, ◌+◌, OnOk, IfOk, All, true, length, sum_by, slice_set};
ghost use Rattle.wl_reach.specs.Search.{MarksReached, steps_of, with_mark};

use crate::graph::Graph;
use crate::marks::Marks;
use std::alloc::{AllocError, Global};
use std::marker::Brand;
use std::sync::ledger::{Blank, Ledger};
use wl_steps::Steps;

/// Marks a node, and notes it if it wasn't marked.
fn mark(marks: &mut Marks, order: &mut Vec<usize>, node: usize) -> Result<(), AllocError>
    requires { node < length marks.old }
    ensures marked { OnOk result (marks.new ≡ slice_set marks.old node true) }
    ensures noted { OnOk result (order.new.items ≡ with_mark marks.old order.old.items node) }
{
    if !marks.get(node) {
        order.push(node)?;
        marks.set(node);
    }
    Ok(())
}

/// Marks the nodes to which a chain of edges leads from a root, in steps that are counted: one for
/// each node that is marked, and one for each edge from it.
pub fn reach_counted<L: Ledger>(
    alloc: Global,
    graph: &Graph,
    roots: &[usize],
    steps: &mut Steps<L>,
) -> Result<Marks, AllocError>
    requires { All (λ r. r < length graph.now) roots.now }
    ensures marked { IfOk result (MarksReached graph.now roots.now) }
    ensures steps { IfOk result (λ marks. steps.new ≡ steps.old + steps_of marks graph.now) }
    ensures cost { steps.new ≤ steps.old + (length graph.now + sum_by length graph.now) }
{
    let mut marks = Marks::new(alloc, graph.len())?;
    let mut order = Vec::new(alloc);
    for root in roots {
        mark(&mut marks, &mut order, *root)?;
    }
    let mut done = 0;
    while done < order.len() {
        let node = order[done];
        steps.tick();
        for next in graph.successors(node) {
            steps.tick();
            mark(&mut marks, &mut order, *next)?;
        }
        done += 1;
    }
    Ok(marks)
}

/// The same, over a ledger that was just made.
fn reach_uncounted<L: Ledger>(
    alloc: Global,
    graph: &Graph,
    roots: &[usize],
    blank: Blank,
) -> Result<Marks, AllocError>
    requires name { blank.name ≡ L.name }
    requires parts { blank.parts ≡ L.parts }
    requires some { 0 < blank.parts }
    requires roots { All (λ r. r < length graph.now) roots.now }
    ensures marked { IfOk result (MarksReached graph.now roots.now) }
{
    let mut steps = Steps::<L>::start(blank);
    reach_counted(alloc, graph, roots, &mut steps)
}

/// Marks the nodes to which a chain of edges leads from a root.
pub fn reach(alloc: Global, graph: &Graph, roots: &[usize]) -> Result<Marks, AllocError>
    requires { All (λ r. r < length graph.now) roots.now }
    ensures marked { IfOk result (MarksReached graph.now roots.now) }
{
    reach_uncounted::<Brand>(alloc, graph, roots, Blank::new(1))
}
