//! Why units are kept.
//!
//! A [`Certificate`] lists units, each as one that is kept by itself or with another that refers to
//! it. [`explain`] makes one of what is kept, [`check_why`] says of any whether it is valid,
//! [`chain_to`] gives the chain of references that leads to one unit, and [`why_text`] writes it
//! all as text. A valid certificate lists exactly what is kept, whoever made it:
//! [`valid_certificates_list_what_is_kept`].
#![tactic(auto)]

mod certificate;
mod laws;

// Whether one is valid.
mod checking;
mod marked;
mod places;

// One of what is kept.
mod explaining;
mod units;
mod walk;

// What one says.
mod chain;
mod text;

pub use certificate::{Certificate, Step};
pub use chain::chain_to;
pub use checking::check_why;
pub use explaining::explain;
pub use laws::{valid_certificates_list_what_is_kept, valid_certificates_list_what_is_live};
pub use text::{certificate_text, why_text};
