//! Lists and texts in records, which clauses see as lists, and laws of lists of anything.
#![tactic(auto)]

mod items;
mod text;

pub use items::ItemList;
pub use text::Text;
