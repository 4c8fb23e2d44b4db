//! Listings.

ghost use Rattle.std.specs.Prelude.{IfErr, OnOk};
ghost use Rattle.wl_check.specs.Difference.{IsSomeListing};
ghost use Rattle.wl_check.specs.Spelled.{HasListingFault, ReadsListing};

use crate::line::Line;
use crate::pieces::{Stop, Words};
use std::alloc::{AllocFailed, Global};
use thiserror::Error;

/// Why a text is no listing.
#[derive(Clone, Copy, Debug, PartialEq, Eq, Error)]
pub enum ListingError {
    /// No memory was left.
    #[error("OutOfMemory")]
    OutOfMemory,
    /// No line is spelled between two line ends, or from the last to the text's end: so many lines
    /// stand before.
    #[error("Bad {line}")]
    Bad { line: usize },
}

impl<T: Drop> From<AllocFailed<T>> for ListingError {
    ghost use Rattle.std.specs.Prelude.{◌≡◌};
    ghost use Rattle.wl_check.specs.declared.listing.ListingError.TheVariants.{OutOfMemory};

    ghost from_gives = { λ _ e. e ≡ OutOfMemory };

    fn from(_: AllocFailed<T>) -> Self {
        ListingError::OutOfMemory
    }
}

/// The lines of a listing, in order. Lines of any kinds in any order are one.
///
/// # Errors
/// `Bad` where a stretch up to a line end, or to the text's end, spells no line: the first such
/// stretch, counted from 0. `OutOfMemory` where memory runs out.
pub fn read_listing(alloc: Global, text: &[u8]) -> Result<Vec<Line>, ListingError>
    ensures { ReadsListing (λ lines. lines.items) text.now result }
{
    let mut words = Words::new(text);
    let mut lines = Vec::new(alloc);
    while !words.is_empty() {
        match words.line(alloc) {
            Ok(line) => lines.push(line)?,
            Err(Stop::OutOfMemory) => return Err(ListingError::OutOfMemory),
            Err(Stop::NoLine) => return Err(ListingError::Bad { line: lines.len() }),
        }
    }
    Ok(lines)
}

/// Whether a text is a listing. Its lines are read one by one, and none is kept.
///
/// # Errors
/// Those of [`read_listing`].
pub fn check_lines(alloc: Global, text: &[u8]) -> Result<(), ListingError>
    ensures listing { OnOk result (IsSomeListing text.now) }
    ensures err { IfErr result (HasListingFault text.now) }
{
    let mut words = Words::new(text);
    let mut lines: usize = 0;
    while !words.is_empty() {
        match words.line(alloc) {
            Ok(line) => {
                drop(line);
                lines += 1;
            }
            Err(Stop::OutOfMemory) => return Err(ListingError::OutOfMemory),
            Err(Stop::NoLine) => return Err(ListingError::Bad { line: lines }),
        }
    }
    Ok(())
}
