//! The operators of function bodies, and the numbers of data segments among their immediates.
//!
//! [`decode_body`] gives the operators of a body. [`data_index_immediates`] finds the numbers of
//! data segments in it, and [`remap_body_data_indices`] gives them other values. Which operators
//! there are, and what follows each, says one table. The order of the operators, their types
//! and how blocks nest aren't looked at.
#![tactic(auto)]

mod decoding;
mod expressions;
mod immediates;
mod laws;
mod numbers;
mod op;
mod operators;
mod rewriting;
mod table;

pub use decoding::decode_body;
pub use expressions::has_reference;
pub use laws::{
    computed_operators_are_spelled, constant_operators_are_operators, numbers_are_one,
    numbers_or_fault, operators_are_few, operators_are_one, operators_or_fault,
    rewriting_keeps_operators,
};
pub use numbers::data_index_immediates;
pub use op::{DataIndexImm, Op, OpArgs};
pub use rewriting::remap_body_data_indices;
