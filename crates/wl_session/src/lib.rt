//! The objects of a link, kept while some are replaced.
//!
//! [`Kept`] has the objects, and beside them what is known of each whatever the others are: its
//! names, and what it says of its units. An object is added or replaced, and what is known of that
//! object alone is gathered anew. [`replacements_are_done_in_order`] says what things are after a
//! list of replacements.
#![tactic(auto)]

mod kept;
mod laws;

pub use kept::Kept;
pub use laws::replacements_are_done_in_order;
