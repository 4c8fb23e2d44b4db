//! The map from names to the first symbols that have them.

ghost use Rattle.std.specs.Prelude.{◌≡◌, ℕ, ◌+◌, List, OnOk, if◌then◌else◌, bytes_eq, IfOk};
ghost use Rattle.wl_symbols.specs.Adding.{no_firsts, firsts_in};

use crate::entry::Firsts;
use std::alloc::{AllocError, Global};
use std::collections::HashMap;
use std::sync::ledger::Ledger;
use wl_steps::Steps;

/// For each name the first symbols that have it. Names are stretches of the objects' bytes. The map
/// has a fixed seed, and nothing goes through it.
#[derive(Drop)]
pub(crate) struct NameMap<'a> {
    firsts: HashMap<&'a str, Firsts>,
}

impl<'a> NameMap<'a> {
    /// The first symbols of a name.
    pub(crate) fn firsts(&self, name: &str) -> Firsts
        ensures { result ≡ firsts_in self.now.firsts name.now }
    {
        self.firsts.get(name).copied().unwrap_or(Firsts::none())
    }
}

/// The same, while symbols are added. Each call on the map is a step, and none is left uncounted.
#[derive(Drop)]
pub(crate) struct CountedNames<'a> {
    names: NameMap<'a>,
}

impl<'a> CountedNames<'a> {
    /// No names, with room for so many.
    pub(crate) fn with_room(alloc: Global, room: usize) -> Result<Self, AllocError>
        ensures { IfOk result
            (λ n. (name : List ℕ) → firsts_in n.names.firsts name ≡ no_firsts) }
    {
        Ok(CountedNames {
            names: NameMap {
                firsts: HashMap::with_capacity(alloc, room)?,
            },
        })
    }

    /// The first symbols of a name, in a step.
    pub(crate) fn firsts<L: Ledger>(&self, name: &str, steps: &mut Steps<L>) -> Firsts
        ensures value { result ≡ firsts_in self.now.names.firsts name.now }
        ensures cost { steps.new ≡ steps.old + 1 }
    {
        steps.tick();
        self.names.firsts(name)
    }

    /// Puts the first symbols of a name, in a step.
    pub(crate) fn put<L: Ledger>(
        &mut self,
        name: &'a str,
        firsts: Firsts,
        steps: &mut Steps<L>,
    ) -> Result<(), AllocError>
        ensures ok { OnOk result ((q : List ℕ) → firsts_in self.new.names.firsts q
            ≡ (if bytes_eq name.now q then firsts else firsts_in self.old.names.firsts q)) }
        ensures cost { steps.new ≡ steps.old + 1 }
    {
        steps.tick();
        self.names.firsts.insert(name, firsts)?;
        Ok(())
    }

    /// The map, once all symbols are in it.
    pub(crate) fn finish(self) -> NameMap<'a>
        ensures { result ≡ self.entry.names }
    {
        self.names
    }
}
