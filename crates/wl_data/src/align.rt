//! Addresses that are multiples of an alignment.

ghost use Rattle.std.specs.Prelude.{◌≡◌, ◌<◌, ◌≤◌, ℕ, ◌^◌, IfSome, IfNone, MatchOption};
ghost use Rattle.std.specs.Int.{next_multiple_of};
ghost use Rattle.wl_data.specs.Spans.{IsLeastAligned};
ghost use Rattle.wl_linking.specs.declared.error.LinkError.TheVariants.{TooLarge};
ghost use Rattle.wl_linking.specs.declared.error.Quantity.TheVariants.{Address};

use wl_linking::{LinkError, Quantity};

/// The refusal of an address past the last one.
pub fn past_last_address() -> LinkError
    ensures { result ≡ TooLarge Address }
{
    LinkError::TooLarge {
        what: Quantity::Address,
    }
}

/// The least multiple of the alignment that isn't below `end`; none where that passes the last
/// address.
pub fn align_up(end: u32, alignment: u32) -> Option<u32>
    requires { 0 < alignment }
    ensures value { MatchOption result (2 ^ 32 ≤ next_multiple_of end alignment)
        (λ place. place ≡ next_multiple_of end alignment) }
    ensures least { IfSome result (IsLeastAligned alignment end) }
    ensures none { IfNone result ((place : ℕ) → IsLeastAligned alignment end place
        → 2 ^ 32 ≤ place) }
{
    end.checked_next_multiple_of(alignment)
}

/// There is one least multiple of an alignment that isn't below an end.
pub fn least_multiple_is_one()
    ensures found { (alignment end : ℕ) → 0 < alignment
        → IsLeastAligned alignment end (next_multiple_of end alignment) }
    ensures one { (alignment end place : ℕ) → 0 < alignment
        → IsLeastAligned alignment end place → place ≡ next_multiple_of end alignment }
{}
