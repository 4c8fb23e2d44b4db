//! The features that objects disallow.

ghost use Rattle.std.specs.Prelude.{◌≡◌, ℕ, List, OnOk, IfOk, MatchOption, bytes_eq};
ghost use Rattle.std.specs.List.{list_any};
ghost use Rattle.wl_features.specs.Taken.{names_of};
ghost use Rattle.wl_features.specs.Faults.{is_disallowed};
ghost use Rattle.wl_features.specs.Disallowing.{NoneDisallows, IsFirstBy, first_in, with_object};

use std::alloc::{AllocError, Global};
use std::collections::HashMap;
use std::marker::Model;
use wl_linking::{FileList, TARGET_FEATURE_PREFIX_DISALLOWED, WasmTargetFeature};

/// For each name of a feature the first object that disallows it. Clauses see it as the objects.
/// Names are stretches of the objects' bytes. The map has a fixed seed, and nothing goes through
/// it.
#[derive(Drop)]
pub(crate) struct DisallowedFeatures<'f, 'a> {
    files: &'f FileList<'a>,
    firsts: HashMap<&'a str, usize>,
}

impl<'f, 'a> Model for DisallowedFeatures<'f, 'a> {
    ghost use Rattle.std.specs.Prelude.{List, length};
    ghost use Rattle.wl_linking.specs.Object.{Object};
    ghost use Rattle.wl_features.specs.Disallowing.{first_in as found, AreFirsts};

    ghost Value = { List Object };

    ghost view = { λ d. d.files.now };

    ghost invariant = { λ d. AreFirsts (found d.firsts) d.files.now (length d.files.now) };
}

/// Adds that an object disallows the feature of that name. The objects already there stay first.
fn add_name<'a>(
    firsts: &mut HashMap<&'a str, usize>,
    object: usize,
    name: &'a str,
) -> Result<(), AllocError>
    ensures { OnOk result ((q : List ℕ) → first_in firsts.new q
        ≡ with_object (first_in firsts.old q) (bytes_eq name.now q) object) }
{
    if firsts.contains_key(name) {
        return Ok(());
    }
    firsts.insert(name, object)?;
    Ok(())
}

/// Adds those of these features that their object disallows.
fn add_features<'a>(
    firsts: &mut HashMap<&'a str, usize>,
    object: usize,
    features: &[WasmTargetFeature<'a>],
) -> Result<(), AllocError>
    ensures { OnOk result ((q : List ℕ) → first_in firsts.new q
        ≡ with_object (first_in firsts.old q)
        (list_any (bytes_eq q) (names_of is_disallowed features.now)) object) }
{
    for feature in features {
        if feature.prefix == TARGET_FEATURE_PREFIX_DISALLOWED {
            add_name(firsts, object, feature.name)?;
        }
    }
    Ok(())
}

/// For how many names room is made at once: for all that these objects disallow.
fn first_room(files: &FileList<'_>) -> usize {
    let mut room: usize = 0;
    for file in files.as_slice() {
        for feature in file.target_features() {
            if feature.prefix == TARGET_FEATURE_PREFIX_DISALLOWED {
                room = room.saturating_add(1);
            }
        }
    }
    room
}

impl<'f, 'a> DisallowedFeatures<'f, 'a> {
    /// The features that these objects disallow.
    pub(crate) fn of(alloc: Global, files: &'f FileList<'a>) -> Result<Self, AllocError>
        ensures { IfOk result (λ d. d ≡ files.now) }
    {
        let mut firsts = HashMap::with_capacity(alloc, first_room(files))?;
        for (object, file) in files.as_slice().iter().enumerate() {
            add_features(&mut firsts, object, file.target_features())?;
        }
        Ok(DisallowedFeatures { files, firsts })
    }

    /// The first object that disallows the feature of that name.
    pub(crate) fn first(&self, name: &str) -> Option<usize>
        ensures { MatchOption result (NoneDisallows self.now name.now)
            (λ object. IsFirstBy self.now name.now object) }
    {
        self.firsts.get(name).copied()
    }
}
