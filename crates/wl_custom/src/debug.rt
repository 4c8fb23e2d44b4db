//! Debug sections: custom sections that describe the code to debuggers.

use std::marker::Model;

/// A debug section of an object. Clauses see it as a `DebugInput`, with its name and its bytes as
/// lists.
#[derive(Drop)]
pub struct DebugSectionInput<'a> {
    /// The section's name, which begins with `.debug_`.
    pub name: &'a str,
    /// What follows the name.
    pub payload: &'a [u8],
    /// The number of its object among those of a plan; 0 until it is planned.
    pub object_index: usize,
}

impl<'a> Model for DebugSectionInput<'a> {
    ghost use Rattle.wl_custom.specs.Debug.{DebugInput};

    ghost Value = { DebugInput };

    ghost view = { λ d. record {
      name = d.name.now;
      payload = d.payload.now;
      object_index = d.object_index;
    } };
}
