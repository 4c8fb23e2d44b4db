//! A walk through a graph.

ghost use Rattle.std.specs.Prelude.{◌≡◌, ◌<◌, length, true, OnOk, IfOk, All, slice_set};
ghost use Rattle.wl_why.specs.Walk.{IsWalk, IsInOrder, with_visit};

use std::alloc::{AllocError, Global};
use wl_reach::{Graph, Marks};

/// A node that is reached, and the place of the visit from which an edge leads to it; none for a
/// root.
#[derive(Clone, Copy)]
pub(crate) struct Visit {
    pub(crate) node: usize,
    pub(crate) from: Option<u64>,
}

/// Marks the node of a visit, and notes the visit if the node wasn't marked.
fn note(marks: &mut Marks, visits: &mut Vec<Visit>, visit: Visit) -> Result<(), AllocError>
    requires { visit.node < length marks.old }
    ensures marked { OnOk result (marks.new ≡ slice_set marks.old visit.node true) }
    ensures noted { OnOk result (visits.new.items ≡ with_visit marks.old visits.old.items visit) }
{
    if !marks.get(visit.node) {
        visits.push(visit)?;
        marks.set(visit.node);
    }
    Ok(())
}

/// Visits each node to which a chain of edges leads from a root, breadth first.
pub(crate) fn walk(alloc: Global, graph: &Graph, roots: &[usize]) -> Result<Vec<Visit>, AllocError>
    requires { All (λ r. r < length graph.now) roots.now }
    ensures walk { IfOk result (λ v. IsWalk graph.now roots.now v.items) }
    ensures order { IfOk result (λ v. IsInOrder graph.now roots.now v.items) }
{
    let mut marks = Marks::new(alloc, graph.len())?;
    let mut visits = Vec::new(alloc);
    for root in roots {
        let first = Visit {
            node: *root,
            from: None,
        };
        note(&mut marks, &mut visits, first)?;
    }
    let mut done = 0;
    while done < visits.len() {
        let node = visits[done].node;
        for next in graph.successors(node) {
            let further = Visit {
                node: *next,
                from: Some(done as u64),
            };
            note(&mut marks, &mut visits, further)?;
        }
        done += 1;
    }
    Ok(visits)
}
