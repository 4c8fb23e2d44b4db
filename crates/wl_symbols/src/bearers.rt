//! For each name the symbols that bear it.

ghost use Rattle.std.specs.Prelude.{◌≡◌, ◌+◌, ◌<◌, ◌≤◌, ℕ, List, [], ◌∷◌, ◌++◌, None, Some, unwrap_or, if◌then◌else◌, bytes_eq, OnOk};
ghost use Rattle.std.specs.HashMap.{spare};
ghost use Rattle.wl_symbols.specs.Bearers.{found_in, if_some};

use crate::entry::{Place, Strength};
use std::alloc::{AllocError, Global};
use std::collections::HashMap;
use wl_lists::ItemList;

/// A symbol that bears a name.
#[derive(Clone, Copy, PartialEq, Eq)]
pub(crate) struct Bearer {
    pub(crate) strength: Strength,
    pub(crate) place: Place,
}

/// For each name the symbols that bear it, in order. No name is kept that none bears. Names are
/// stretches of the objects' bytes. The map has a fixed seed, and nothing goes through it.
#[derive(Drop)]
pub(crate) struct BearerMap<'a> {
    lists: HashMap<&'a str, ItemList<Bearer>>,
}

impl<'a> BearerMap<'a> {
    /// No names.
    pub(crate) fn new(alloc: Global) -> Self
        ensures { (name : List ℕ) → found_in result.lists name ≡ None }
    {
        BearerMap {
            lists: HashMap::new(alloc),
        }
    }

    /// How many names there are.
    pub(crate) fn len(&self) -> usize {
        self.lists.len()
    }

    /// The symbols that bear a name.
    pub(crate) fn get(&self, name: &str) -> &[Bearer]
        ensures { result.now ≡ unwrap_or (found_in self.now.lists name.now) [] }
    {
        match self.lists.get(name) {
            None => &[],
            Some(list) => list.as_slice(),
        }
    }

    /// Puts one more symbol after those that bear a name.
    pub(crate) fn push(
        &mut self,
        alloc: Global,
        name: &'a str,
        bearer: Bearer,
    ) -> Result<(), AllocError>
        ensures { OnOk result ((q : List ℕ) → found_in self.new.lists q
            ≡ (if bytes_eq name.now q
            then Some (unwrap_or (found_in self.old.lists name.now) [] ++ bearer ∷ [])
            else found_in self.old.lists q)) }
    {
        let mut list = self.lists.remove(name).unwrap_or(ItemList::empty(alloc));
        list.push(bearer)?;
        self.lists.insert(name, list)?;
        Ok(())
    }

    /// Makes room for so many names.
    pub(crate) fn reserve(&mut self, names: usize) -> Result<(), AllocError>
        ensures room { OnOk result (names ≤ spare self.new.lists) }
        ensures same { (q : List ℕ) → found_in self.new.lists q ≡ found_in self.old.lists q }
    {
        self.lists.reserve(names)
    }

    /// Puts the symbols that bear a name in place of those that it had. Where there are none the
    /// name isn't kept.
    pub(crate) fn put(&mut self, name: &'a str, list: ItemList<Bearer>)
        requires { 0 < spare self.old.lists }
        ensures put { (q : List ℕ) → found_in self.new.lists q
            ≡ (if bytes_eq name.now q then if_some list else found_in self.old.lists q) }
        ensures room { spare self.old.lists ≤ spare self.new.lists + 1 }
    {
        if list.as_slice().is_empty() {
            self.lists.remove(name);
        } else {
            // There is room, so this isn't refused.
            let _old = self.lists.insert(name, list);
        }
    }
}
