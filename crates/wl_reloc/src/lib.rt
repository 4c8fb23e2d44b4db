//! What the field of a relocation takes, by where the things of its object stand in the output.
//!
//! A [`WasmObjectIndexMap`] says where they stand; [`resolve_reloc`] gives the value, and
//! [`deferred_tls_template_pointer`] an address in the data of a thread, which is known only when
//! the thread starts.
#![tactic(auto)]

mod addresses;
mod error;
mod laws;
mod resolving;

pub use addresses::{AddressBases, deferred_tls_template_pointer};
pub use error::RelocError;
pub use laws::{pointer_or_fault, value_or_fault};
pub use resolving::resolve_reloc;
pub use wl_custom::{AddressBase, Taking};
pub use wl_index::WasmObjectIndexMap;
