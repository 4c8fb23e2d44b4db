//! What import slots are resolved to, as the rules are gone through.

ghost use Rattle.std.specs.Prelude.{◌≡◌, slice_get, slice_set};

use std::marker::Model;
use wl_symbols::WasmLinkerSymbol;

/// What an import slot is resolved to. A function or global that an object defines is given by its
/// number among the kept ones of its kind in its object.
#[derive(Clone, Copy, PartialEq, Eq)]
pub enum ImportResolution {
    /// Nothing yet: the slot isn't kept, or it is the host's unless a later rule binds it.
    Unresolved,
    /// A function of an object.
    ResolvedFunction {
        object_index: usize,
        local_defined_index: u32,
    },
    /// A global of an object.
    ResolvedGlobal {
        object_index: usize,
        local_defined_index: u32,
    },
    /// What the linker makes.
    LinkerDefined(WasmLinkerSymbol),
    /// The stub of that place among the stubs.
    WeakUndefStub {
        stub_index: usize,
    },
    /// The entry of that place of the GOT list of data.
    GotMemSlot(usize),
    /// The entry of that place of the GOT list of functions.
    GotFuncSlot(usize),
}

/// What the import slots of a kind of an object are resolved to, by their numbers. Clauses see it
/// as a list.
#[derive(Drop)]
pub struct ResolutionList {
    list: Vec<ImportResolution>,
}

impl Model for ResolutionList {
    ghost use Rattle.std.specs.Prelude.{List};
    ghost use Rattle.wl_bind.specs.declared.resolution.ImportResolution.{ImportResolution as Resolution};

    ghost Value = { List Resolution };

    ghost view = { λ r. r.list.items };
}

impl ResolutionList {
    /// These resolutions.
    pub fn new(list: Vec<ImportResolution>) -> Self
        ensures { result ≡ list.items }
    {
        ResolutionList { list }
    }

    /// The resolutions as a slice.
    pub fn as_slice(&self) -> &[ImportResolution]
        ensures { result.now ≡ self.now }
    {
        self.list.as_slice()
    }

    /// The resolution at a place, if there is one.
    pub fn get(&self, place: usize) -> Option<ImportResolution>
        ensures { result ≡ slice_get self.now place }
    {
        self.list.get(place).copied()
    }

    /// Puts another resolution at a place, if there is one.
    pub(crate) fn set(&mut self, place: usize, resolution: ImportResolution)
        ensures { self.new ≡ slice_set self.old place resolution }
    {
        if place < self.list.len() {
            self.list[place] = resolution;
        }
    }
}

/// What the import slots of an object are resolved to.
#[derive(Drop)]
pub struct ObjectImportResolutions {
    /// The functions that it imports.
    pub function_resolutions: ResolutionList,
    /// The globals that it imports.
    pub global_resolutions: ResolutionList,
}
