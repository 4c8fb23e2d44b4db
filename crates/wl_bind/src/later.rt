//! The rule of the GOT lists, for global slots that names leave unresolved.

ghost use Rattle.std.specs.Prelude.{◌≡◌};
ghost use Rattle.wl_bind.specs.Stepped.{step_at};
ghost use Rattle.wl_bind.specs.Later.{later_by_got, is_unresolved, walk_of, walked_at, walked};

use crate::resolution::{ImportResolution, ResolutionList};
use crate::scan::RelocScan;
use wl_linking::{File, WasmSymbolKind};
use wl_module::Import;
use wl_symbols::{LinkInput, is_slot_of};

/// What an import of a global is by the entries of the GOT lists: one of the module `GOT.mem` or
/// `GOT.func` the first entry of that list whose definition has the field name.
pub(crate) fn got_resolution(scan: &RelocScan<'_>, origin: &str, name: &str) -> ImportResolution
    ensures { result ≡ later_by_got scan.now origin.now name.now }
{
    let place = match origin {
        "GOT.mem" => scan
            .got_mem
            .place_of_name(name)
            .map(ImportResolution::GotMemSlot),
        "GOT.func" => scan
            .got_func
            .place_of_name(name)
            .map(ImportResolution::GotFuncSlot),
        _ => None,
    };
    place.unwrap_or(ImportResolution::Unresolved)
}

impl ImportResolution {
    /// Whether the slot isn't resolved yet.
    pub fn is_unresolved(self) -> bool
        ensures { result ≡ is_unresolved self }
    {
        matches!(self, ImportResolution::Unresolved)
    }
}

/// The global slots of an object, and the lists for them.
#[derive(Drop)]
pub(crate) struct Walk<'w, 'i, 'a> {
    pub(crate) input: &'w LinkInput<'i, 'a>,
    pub(crate) scan: &'w RelocScan<'a>,
    pub(crate) object: usize,
}

impl<'w, 'i, 'a> Walk<'w, 'i, 'a> {
    /// The slot of that number with the rule, where it is kept and isn't resolved yet.
    fn resolve(&self, number: u32, import: &Import<'_>, old: ImportResolution) -> ImportResolution
        ensures { let w = self.now in
            result ≡ walked_at (walk_of w.input.now w.scan.now w.object)
            number import.now old }
    {
        if old.is_unresolved()
            && self
                .input
                .keeps_slot(WasmSymbolKind::Global, self.object, number)
        {
            got_resolution(self.scan, import.module, import.name)
        } else {
            old
        }
    }

    /// Resolves the slot of that number, if there is one.
    #[tactic(auto, using(crate::proofs::SteppedLaws::set_steps, crate::proofs::SteppedLaws::none_steps))]
    fn resolve_at(&self, number: u32, import: &Import<'_>, resolutions: &mut ResolutionList)
        ensures { let w = self.now in
            resolutions.new
            ≡ step_at (walked_at (walk_of w.input.now w.scan.now w.object))
            number number import.now resolutions.old }
    {
        if let Some(old) = resolutions.get(number as usize) {
            resolutions.set(number as usize, self.resolve(number, import, old));
        }
    }

    /// Resolves the slots, one after the other.
    pub(crate) fn resolve_all(&self, file: &File<'_>, resolutions: &mut ResolutionList)
        ensures { let w = self.now in
            resolutions.new ≡ walked (walk_of w.input.now w.scan.now w.object)
            file.now resolutions.old }
    {
        file.stands_for_an_object();
        let mut number: u32 = 0;
        for import in file.imports() {
            if is_slot_of(WasmSymbolKind::Global, import.entity) {
                self.resolve_at(number, import, resolutions);
                number += 1;
            }
        }
    }
}
