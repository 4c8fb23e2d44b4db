//! Payloads of target features sections.

ghost use Rattle.std.specs.Prelude.{◌≤◌, length};
ghost use Rattle.wl_bytes.specs.declared.reader.TheConstants.{MAX_LEN};

use std::alloc::Global;
use wl_bytes::{ReadError, Why};
use wl_custom::{
    TARGET_FEATURE_PREFIX_DISALLOWED, TARGET_FEATURE_PREFIX_USED, parse_target_features_payload,
};

/// Whether there are two features: one that the object uses, and one that it can't be linked with.
fn has_one_of_each(alloc: Global, payload: &[u8]) -> bool
    requires { length payload.now ≤ MAX_LEN }
{
    match parse_target_features_payload(alloc, payload) {
        Ok(features) => {
            features.len() == 2
                && features[0].prefix == TARGET_FEATURE_PREFIX_USED
                && features[0].name == "bulk-memory"
                && features[1].prefix == TARGET_FEATURE_PREFIX_DISALLOWED
                && features[1].name == "atomics"
        }
        Err(_) => false,
    }
}

/// Whether the payload ends before the list does.
fn is_cut_off(alloc: Global, payload: &[u8]) -> bool
    requires { length payload.now ≤ MAX_LEN }
{
    matches!(
        parse_target_features_payload(alloc, payload).err(),
        Some(ReadError::Malformed(Why::Truncated))
    )
}

#[test]
fn features_are_listed_with_their_prefixes(rt: HostRuntime) {
    assert!(rt; has_one_of_each(rt.alloc(), b"\x02+\x0bbulk-memory-\x07atomics"));
    assert!(rt; is_cut_off(rt.alloc(), b"\x03+\x0bbulk-memory-\x07atomics"));
}
