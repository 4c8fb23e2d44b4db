//! Rows of items, one behind the other in one list.
#![tactic(auto)]

mod rows;

pub use rows::RowList;
