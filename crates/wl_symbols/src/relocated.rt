//! The relocations of the objects whose fields lie in units that are kept.

ghost use Rattle.std.specs.Prelude.{◌≡◌, []};
ghost use Rattle.std.specs.Iterator.{YieldsFirst};
ghost use Rattle.wl_symbols.specs.KeptRelocations.{object_left, section_left, relocations_left};
ghost use Rattle.wl_symbols.specs.Relocations.{unit_in, relocated_in, object_relocations};
ghost use Rattle.wl_symbols.specs.Relocations.{relocations};

use crate::input::LinkInput;
use crate::kept_units::SectionUnits;
use crate::live_set::LiveSet;
use crate::units::WasmGcUnit;
use wl_linking::{File, Site, WasmRelocation};

/// What the field of a relocation lies in.
#[derive(Clone, Copy, PartialEq, Eq)]
pub enum FixupPlace {
    /// The body of a function.
    Code,
    /// The payload of a segment.
    Segment,
}

/// A relocation of one of the objects, with what its field lies in.
#[derive(Clone, Copy, PartialEq, Eq)]
pub struct Relocated {
    /// The number of the object.
    pub object: usize,
    /// What the field lies in.
    pub place: FixupPlace,
    /// The relocation.
    pub relocation: WasmRelocation,
    /// Where in the bodies or segments of the object the field lies.
    pub site: Site,
}

/// The unit of that number: a function's in code, a segment's in data.
pub(crate) fn unit_in(place: FixupPlace, unit: u32) -> WasmGcUnit
    ensures { result ≡ unit_in place unit }
{
    match place {
        FixupPlace::Code => WasmGcUnit::DefinedFunction(unit),
        FixupPlace::Segment => WasmGcUnit::DataSegment(unit),
    }
}

// ---- one after the other

/// What is left of the relocations of a section of an object, and where their fields lie.
#[derive(Drop)]
struct SectionRest<'k> {
    units: SectionUnits<'k>,
    listed: &'k [WasmRelocation],
    sites: &'k [Site],
}

impl<'k> SectionRest<'k> {
    /// All relocations of a section.
    fn new(units: SectionUnits<'k>, listed: &'k [WasmRelocation], sites: &'k [Site]) -> Self
        ensures { let u = units.entry in section_left result
            ≡ relocated_in u.live.now u.place u.object listed.now sites.now }
    {
        SectionRest {
            units,
            listed,
            sites,
        }
    }

    /// Takes relocations off up to the first that is kept, and gives that.
    #[inline(always)]
    fn next_in(&mut self) -> Option<Relocated>
        ensures { YieldsFirst section_left self.old result self.new }
    {
        while let Some((relocation, listed)) = self.listed.split_first() {
            let (site, sites) = self.sites.split_first()?;
            self.listed = listed;
            self.sites = sites;
            if self.units.keeps(site.unit) {
                return Some(Relocated {
                    object: self.units.object,
                    place: self.units.place,
                    relocation: *relocation,
                    site: *site,
                });
            }
        }
        None
    }
}

/// What is left of the relocations of an object.
#[derive(Drop)]
struct ObjectRest<'k> {
    code: SectionRest<'k>,
    data: SectionRest<'k>,
}

impl<'k> ObjectRest<'k> {
    /// All relocations of an object.
    fn new(live: &'k LiveSet, object: usize, file: &'k File<'_>) -> Self
        ensures { object_left result ≡ object_relocations live.now object file.now }
    {
        let code = SectionUnits::new(live, FixupPlace::Code, object);
        let data = SectionUnits::new(live, FixupPlace::Segment, object);
        ObjectRest {
            code: SectionRest::new(code, file.code_relocations(), file.code_sites()),
            data: SectionRest::new(data, file.data_relocations(), file.data_sites()),
        }
    }

    /// No relocations.
    fn none(live: &'k LiveSet) -> Self
        ensures { object_left result ≡ [] }
    {
        let code = SectionUnits::new(live, FixupPlace::Code, 0);
        let data = SectionUnits::new(live, FixupPlace::Segment, 0);
        ObjectRest {
            code: SectionRest::new(code, &[], &[]),
            data: SectionRest::new(data, &[], &[]),
        }
    }

    /// Takes relocations off up to the first that is kept, and gives that.
    #[inline(always)]
    fn next_kept(&mut self) -> Option<Relocated>
        ensures { YieldsFirst object_left self.old result self.new }
    {
        match self.code.next_in() {
            Some(relocated) => Some(relocated),
            None => self.data.next_in(),
        }
    }
}

/// The kept relocations of objects, one after the other: object by object, code before data, in
/// order of the fields. They are read where the objects have them, and take no memory of their own.
#[derive(Drop)]
pub struct KeptRelocations<'k, 'a> {
    live: &'k LiveSet,
    files: &'k [File<'a>],
    next: usize,
    current: ObjectRest<'k>,
}

impl<'k, 'a> Iterator for KeptRelocations<'k, 'a> {
    ghost use Rattle.std.specs.Iterator.{YieldsFirst, item_count};
    ghost use Rattle.wl_symbols.specs.KeptRelocations.{relocations_left};

    type Item = Relocated;

    ghost next_gives = { YieldsFirst relocations_left };

    ghost remaining = { item_count relocations_left };

    #[inline(always)]
    fn next(&mut self) -> Option<Relocated> {
        'objects: loop {
            if let Some(relocated) = self.current.next_kept() {
                return Some(relocated);
            }
            let (files, next) = (self.files, self.next);
            if next >= files.len() {
                return None;
            }
            self.current = ObjectRest::new(self.live, next, &files[next]);
            self.next = next + 1;
        }
    }
}

/// The kept relocations of an object: code before data, in order of the fields.
pub fn kept_of_object<'k, 'a>(
    input: &LinkInput<'k, 'a>,
    object: usize,
    file: &'k File<'_>,
) -> KeptRelocations<'k, 'a>
    ensures { relocations_left result ≡ object_relocations input.now.live object file.now }
{
    let (live, files) = (input.live(), input.files().as_slice());
    KeptRelocations {
        live,
        files,
        next: files.len(),
        current: ObjectRest::new(live, object, file),
    }
}

/// The kept relocations of all objects: object by object, code before data, in order of the fields.
pub fn kept_relocations<'k, 'a>(input: &LinkInput<'k, 'a>) -> KeptRelocations<'k, 'a>
    ensures { relocations_left result ≡ relocations input.now }
{
    let live = input.live();
    KeptRelocations {
        live,
        files: input.files().as_slice(),
        next: 0,
        current: ObjectRest::none(live),
    }
}
