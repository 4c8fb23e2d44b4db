//! A search that isn't counted.

use std::alloc::{AllocError, Global};
use wl_reach::{Edge, Graph, reach};

/// An edge from the first of four nodes to the second, and edges from there and from the fourth to
/// the third.
const EDGES: [Edge; 3] = [
    Edge { from: 0, to: 1 },
    Edge { from: 1, to: 2 },
    Edge { from: 3, to: 2 },
];

/// Whether the first node leads to the third, and not to the fourth.
fn leads_to_third(alloc: Global) -> Result<bool, AllocError> {
    let graph = Graph::new(alloc, 4, &EDGES)?;
    let marks = reach(alloc, &graph, &[0])?;
    Ok(marks.get(2) && !marks.get(3))
}

#[test]
fn what_a_root_leads_to_is_marked(rt: HostRuntime) {
    assert!(rt; matches!(leads_to_third(rt.alloc()), Ok(true)));
}
