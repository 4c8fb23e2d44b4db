//! What can be reached in a graph, and a list of marks in packed bits.
#![tactic(auto)]

mod graph;
mod marks;
mod search;

pub use graph::{Edge, Graph, GraphBuilder, Rooms};
pub use marks::{Marks, RankedMarks};
pub use search::{reach, reach_counted};
