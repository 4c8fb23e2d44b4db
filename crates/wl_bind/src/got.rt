//! Lists of first occurrences over kept relocations.

ghost use Rattle.std.specs.Prelude.{◌≡◌, ◌==◌, ◌&&◌, not, ℕ, List, [], IfOk, OnOk, Some, None, position, map, length, slice_get, bytes_eq, option_map, if◌then◌else◌};
ghost use Rattle.std.specs.Option.{option_or};
ghost use Rattle.std.specs.HashMap.{get_by};
ghost use Rattle.indexmap.specs.IndexSet.{insert_key};
ghost use Rattle.wl_bind.specs.Sameness.{same_target};
ghost use Rattle.wl_bind.specs.GotSteps.{named, is_name, add_entry, insert_some, ArePlaces};

use crate::binding::FunctionTarget;
use indexmap::{IndexMap, IndexSet};
use std::alloc::{AllocError, Global};
use std::collections::HashMap;
use std::hash::Hash;
use std::marker::Model;
use wl_symbols::Definition;

/// Notes the place of a name, unless it has one. An empty name is none. The map has a fixed seed,
/// and nothing goes through it.
fn note_name<'a>(
    places: &mut HashMap<&'a [u8], usize>,
    name: &'a [u8],
    place: usize,
) -> Result<(), AllocError>
    ensures { OnOk result ((wanted : List ℕ) → get_by (λ k. bytes_eq wanted k.now) places.new
        ≡ option_or (get_by (λ k. bytes_eq wanted k.now) places.old)
        (if is_name wanted name.now then Some place else None)) }
{
    if name.is_empty() || places.contains_key(name) {
        return Ok(());
    }
    places.insert(name, place)?;
    Ok(())
}

/// The first place of each name.
fn name_places<'a, K: Copy + Eq + Hash + Drop>(
    alloc: Global,
    entries: &IndexMap<K, &'a [u8]>,
) -> Result<HashMap<&'a [u8], usize>, AllocError>
    ensures { IfOk result (λ places. ArePlaces places entries.now.entries) }
{
    let mut places = HashMap::with_capacity(alloc, entries.len())?;
    for place in 0..entries.len() {
        if let Some((_, name)) = entries.get_index(place) {
            note_name(&mut places, *name, place)?;
        }
    }
    Ok(places)
}

/// Adds a key with its name, unless the same key is there.
fn add<'a, K: Copy + Eq + Hash + Drop>(
    entries: &mut IndexMap<K, &'a [u8]>,
    key: K,
    name: &'a [u8],
) -> Result<(), AllocError>
    ensures { OnOk result (map named entries.new.entries
        ≡ add_entry K.eq (map named entries.old.entries) (Some (named (key, name.entry)))) }
{
    if entries.contains_key(&key) {
        return Ok(());
    }
    entries.insert(key, name)?;
    Ok(())
}

/// Adds a key with its name, where there is one, unless the same key is there.
///
/// # Errors
/// `AllocError` where memory runs out.
pub(crate) fn add_some<'a, K: Copy + Eq + Hash + Drop>(
    entries: &mut IndexMap<K, &'a [u8]>,
    item: Option<(K, &'a [u8])>,
) -> Result<(), AllocError>
    ensures { OnOk result (map named entries.new.entries
        ≡ add_entry K.eq (map named entries.old.entries) (option_map named item.entry)) }
{
    match item {
        None => Ok(()),
        Some((key, name)) => add(entries, key, name),
    }
}

/// A list of the GOT: what its globals hold, each once, with the names of the definitions. Clauses
/// see it as a list.
pub struct GotList<'a, K: Copy + Eq + Hash + Drop> {
    entries: IndexMap<K, &'a [u8]>,
    /// The first place of each name.
    places: HashMap<&'a [u8], usize>,
}

/// The definitions of data symbols whose address a global holds.
pub type GotMem<'a> = GotList<'a, Definition>;

/// The definitions of function symbols whose slot a global holds, each with the function that it
/// leads to.
pub type GotFunc<'a> = GotList<'a, (Definition, FunctionTarget)>;

impl<'a, K: Copy + Eq + Hash + Drop> Drop for GotList<'a, K> {
    fn drop(self) {
        let Self {
            entries: _,
            places: _,
        } = self;
    }
}

impl<'a, K: Copy + Eq + Hash + Drop> Model for GotList<'a, K> {
    ghost use Rattle.std.specs.Prelude.{List, map};
    ghost use Rattle.wl_bind.specs.Scan.{Named};
    ghost use Rattle.wl_bind.specs.GotSteps.{named, ArePlaces};

    ghost Value = { List (Named K) };

    ghost view = { λ g. map named g.entries.entries };

    ghost invariant = { λ g. ArePlaces g.places g.entries.entries };
}

impl<'a, K: Copy + Eq + Hash + Drop> GotList<'a, K> {
    /// The list of these entries.
    ///
    /// # Errors
    /// `AllocError` where memory runs out.
    pub(crate) fn new(alloc: Global, entries: IndexMap<K, &'a [u8]>) -> Result<Self, AllocError>
        ensures { IfOk result (λ list. list ≡ map named entries.entry.entries) }
    {
        let places = name_places(alloc, &entries)?;
        Ok(GotList { entries, places })
    }

    /// How many entries there are.
    pub fn len(&self) -> usize
        ensures { result ≡ length self.now }
    {
        self.entries.len()
    }

    /// Whether there are none.
    pub fn is_empty(&self) -> bool
        ensures { result ≡ (length self.now == 0) }
    {
        self.entries.len() == 0
    }

    /// The place of what a global holds.
    pub fn place(&self, key: K) -> Option<usize>
        ensures { result ≡ position (λ e. K.eq key e.key) self.now }
    {
        self.entries.get_index_of(&key)
    }

    /// The first place whose definition has the name, an empty one being none.
    pub fn place_of_name(&self, name: &str) -> Option<usize>
        ensures { result
            ≡ position (λ e. not (length name.now == 0) && bytes_eq e.name name.now) self.now }
    {
        self.places.get(name.as_bytes()).copied()
    }

    /// What the global of a place holds.
    pub fn key(&self, place: usize) -> Option<K>
        ensures { result ≡ option_map (λ e. e.key) (slice_get self.now place) }
    {
        let (key, _) = self.entries.get_index(place)?;
        Some(*key)
    }
}

/// The functions that the table holds, each once.
pub struct TableFunctions {
    set: IndexSet<FunctionTarget>,
}

impl Drop for TableFunctions {
    fn drop(self) {
        let Self { set: _ } = self;
    }
}

impl Model for TableFunctions {
    ghost use Rattle.std.specs.Prelude.{List};
    ghost use Rattle.wl_bind.specs.declared.binding.FunctionTarget.{FunctionTarget as Target};

    ghost Value = { List Target };

    ghost view = { λ t. t.set.keys };
}

impl TableFunctions {
    /// No functions.
    pub(crate) fn new(alloc: Global) -> Self
        ensures { result ≡ [] }
    {
        TableFunctions {
            set: IndexSet::new(alloc),
        }
    }

    /// Adds a function, where there is one, unless it is there.
    ///
    /// # Errors
    /// `AllocError` where memory runs out.
    pub(crate) fn add_some(&mut self, target: Option<FunctionTarget>) -> Result<(), AllocError>
        ensures { OnOk result (self.new ≡ insert_some same_target self.old target) }
    {
        if let Some(target) = target {
            self.set.insert(target)?;
        }
        Ok(())
    }

    /// The functions as a slice.
    pub fn as_slice(&self) -> &[FunctionTarget]
        ensures { result.now ≡ self.now }
    {
        self.set.as_slice()
    }

    /// The place of a function.
    pub fn place(&self, target: FunctionTarget) -> Option<usize>
        ensures { result ≡ position (same_target target) self.now }
    {
        self.set.get_index_of(&target)
    }
}
