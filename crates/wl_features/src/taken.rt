//! The features that the output has.

ghost use Rattle.std.specs.Prelude.{◌≡◌, ◌++◌, [], map, OnOk, IfOk};
ghost use Rattle.wl_symbols.specs.Link.{link_of};
ghost use Rattle.wl_features.specs.Taken.{AreTaken, is_used, names_of};

use std::alloc::{AllocError, Global};
use std::marker::Model;
use wl_linking::{FileList, TARGET_FEATURE_PREFIX_USED, WasmTargetFeature};
use wl_words::{Texts, WasmArgs};

/// Threads may share memory.
pub const TARGET_FEATURE_SHARED_MEM: &str = "shared-mem";

/// Memory is read and written in one step.
pub const TARGET_FEATURE_ATOMICS: &str = "atomics";

/// Memory is filled and copied by one operator, from passive segments too.
pub const TARGET_FEATURE_BULK_MEMORY: &str = "bulk-memory";

/// Globals that change are imported and exported.
pub const TARGET_FEATURE_MUTABLE_GLOBALS: &str = "mutable-globals";

/// The names of features. Clauses see them as a list, and each as its bytes.
#[derive(Drop)]
pub struct FeatureList<'a> {
    names: Vec<&'a str>,
}

impl<'a> Model for FeatureList<'a> {
    ghost use Rattle.std.specs.Prelude.{List, ℕ, map};

    ghost Value = { List (List ℕ) };

    ghost view = { λ l. map (λ n. n.now) l.names.items };
}

impl<'a> FeatureList<'a> {
    /// No features.
    pub fn empty(alloc: Global) -> Self
        ensures { result ≡ [] }
    {
        FeatureList {
            names: Vec::new(alloc),
        }
    }

    /// The names as a slice.
    pub fn as_slice(&self) -> &[&'a str]
        ensures { map (λ n. n.now) result.now ≡ self.now }
    {
        self.names.as_slice()
    }
}

/// Adds the names of the features that are used.
fn push_used<'a>(
    names: &mut Vec<&'a str>,
    features: &[WasmTargetFeature<'a>],
) -> Result<(), AllocError>
    ensures { OnOk result (map (λ n. n.now) names.new.items
        ≡ map (λ n. n.now) names.old.items ++ names_of is_used features.now) }
{
    for feature in features {
        if feature.prefix == TARGET_FEATURE_PREFIX_USED {
            names.push(feature.name)?;
        }
    }
    Ok(())
}

/// Adds these names.
fn push_texts<'a>(names: &mut Vec<&'a str>, texts: &'a Texts) -> Result<(), AllocError>
    ensures { OnOk result (map (λ n. n.now) names.new.items
        ≡ map (λ n. n.now) names.old.items ++ texts.now) }
{
    for text in texts.as_slice() {
        names.push(text.as_str())?;
    }
    Ok(())
}

/// For how many names room is made at once: for all of the objects'.
fn name_room(files: &FileList<'_>) -> usize {
    let mut room: usize = 0;
    for file in files.as_slice() {
        room = room.saturating_add(file.target_features().len());
    }
    room
}

/// The features that the output has: those that an object uses, and those that the words add, each
/// once, in the order of their bytes.
///
/// # Errors
/// `AllocError` where memory runs out.
pub fn taken_features<'a>(
    alloc: Global,
    files: &FileList<'a>,
    args: &'a WasmArgs,
) -> Result<FeatureList<'a>, AllocError>
    ensures { IfOk result (λ names. AreTaken (link_of files.now args.now) names) }
{
    let mut names = Vec::with_capacity(alloc, name_room(files))?;
    for file in files.as_slice() {
        push_used(&mut names, file.target_features())?;
    }
    push_texts(&mut names, &args.extra_features)?;
    names.sort_unstable();
    names.dedup();
    Ok(FeatureList { names })
}
