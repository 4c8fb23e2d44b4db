//! Features that don't fit together.

ghost use Rattle.std.specs.Prelude.{◌≡◌, length, map, true, OnOk, IfOk, IfErr};
ghost use Rattle.std.specs.List.{list_any};
ghost use Rattle.std.specs.Str.{bytes_eq};
ghost use Rattle.wl_linking.specs.Steps.{Clear, Refuses};
ghost use Rattle.wl_symbols.specs.Link.{link_of};
ghost use Rattle.wl_features.specs.Taken.{AreTaken};
ghost use Rattle.wl_features.specs.Faults.{is_known, IsBadFeature, IsSharedFault, feature_fault};
ghost use Rattle.wl_features.specs.Disallowing.{AreFree, IsFirstClash};

use crate::disallowed::DisallowedFeatures;
use crate::taken::{
    FeatureList, TARGET_FEATURE_ATOMICS, TARGET_FEATURE_BULK_MEMORY, TARGET_FEATURE_SHARED_MEM,
    taken_features,
};
use std::alloc::Global;
use wl_linking::{
    FileList, LinkError, SharedMemoryNeed, TARGET_FEATURE_PREFIX_DISALLOWED,
    TARGET_FEATURE_PREFIX_USED, WasmTargetFeature,
};
use wl_lists::Text;
use wl_words::WasmArgs;

/// The prefix says what the object asks for.
fn is_known(feature: &WasmTargetFeature<'_>) -> bool
    ensures { result ≡ is_known feature.now }
{
    feature.prefix == TARGET_FEATURE_PREFIX_USED
        || feature.prefix == TARGET_FEATURE_PREFIX_DISALLOWED
}

/// Sees that each feature has a prefix that says what its object asks for.
///
/// # Errors
/// `BadFeature` for the first that doesn't.
fn check_prefixes(files: &FileList<'_>) -> Result<(), LinkError>
    ensures ok { OnOk result (Clear (IsBadFeature files.now)) }
    ensures err { IfErr result (Refuses (IsBadFeature files.now)) }
{
    for (object, file) in files.as_slice().iter().enumerate() {
        for feature in file.target_features() {
            if !is_known(feature) {
                return Err(LinkError::BadFeature {
                    object,
                    prefix: feature.prefix,
                });
            }
        }
    }
    Ok(())
}

/// One of the names is this one.
fn has_name(names: &[&str], name: &str) -> bool
    ensures { result ≡ list_any (bytes_eq name.now) (map (λ n. n.now) names.now) }
{
    for one in names {
        if *one == name {
            return true;
        }
    }
    false
}

/// Sees that memory can be shared, where it is.
///
/// # Errors
/// `SharedMemoryFeature` where an object disallows it, or a feature that it needs isn't used.
fn check_shared(
    disallowed: &DisallowedFeatures<'_, '_>,
    args: &WasmArgs,
    names: &[&str],
) -> Result<(), LinkError>
    requires taken { AreTaken (link_of disallowed.now args.now) (map (λ n. n.now) names.now) }
    requires checked { args.now.check_features ≡ true }
    ensures ok { OnOk result (Clear (IsSharedFault (link_of disallowed.now args.now))) }
    ensures err { IfErr result (Refuses (IsSharedFault (link_of disallowed.now args.now))) }
{
    if !args.shared_memory {
        return Ok(());
    }
    let need = if let Some(object) = disallowed.first(TARGET_FEATURE_SHARED_MEM) {
        SharedMemoryNeed::Disallowed(object)
    } else if !has_name(names, TARGET_FEATURE_ATOMICS) {
        SharedMemoryNeed::Atomics
    } else if !has_name(names, TARGET_FEATURE_BULK_MEMORY) {
        SharedMemoryNeed::BulkMemory
    } else {
        return Ok(());
    };
    Err(LinkError::SharedMemoryFeature { need })
}

/// Sees that no object disallows a feature that the output has.
///
/// # Errors
/// `FeatureConflict` with the least such name and the first such object.
fn check_conflicts(
    alloc: Global,
    disallowed: &DisallowedFeatures<'_, '_>,
    names: &[&str],
) -> Result<(), LinkError>
    ensures ok { OnOk result
        (AreFree disallowed.now (map (λ n. n.now) names.now) (length names.now)) }
    ensures err { IfErr result
        (Refuses (IsFirstClash disallowed.now (map (λ n. n.now) names.now))) }
{
    for name in names {
        if let Some(object) = disallowed.first(name) {
            return Err(LinkError::FeatureConflict {
                object,
                feature: Text::new(String::from_str(alloc, name)?),
            });
        }
    }
    Ok(())
}

/// Sees that the features of all objects fit together, and returns those that the output has: used
/// by an object or added by the words, each once, in the order of their bytes. Without
/// `--check-features` prefixes alone are looked at.
///
/// # Errors
/// `BadFeature` for a prefix other than `+` and `-`; then, where memory is shared,
/// `SharedMemoryFeature` where an object disallows it, or `atomics` or `bulk-memory` isn't used;
/// then `FeatureConflict` with the least used name that an object disallows, and the first such
/// object.
pub fn check_features<'a>(
    alloc: Global,
    files: &FileList<'a>,
    args: &'a WasmArgs,
) -> Result<FeatureList<'a>, LinkError>
    ensures ok { IfOk result (λ names. AreTaken (link_of files.now args.now) names) }
    ensures clear { OnOk result (Clear (feature_fault (link_of files.now args.now))) }
    ensures err { IfErr result (Refuses (feature_fault (link_of files.now args.now))) }
{
    check_prefixes(files)?;
    let names = taken_features(alloc, files, args)?;
    if args.check_features {
        let disallowed = DisallowedFeatures::of(alloc, files)?;
        check_shared(&disallowed, args, names.as_slice())?;
        check_conflicts(alloc, &disallowed, names.as_slice())?;
    }
    Ok(names)
}
