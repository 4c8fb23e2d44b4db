//! What the kept relocations become.

ghost use Rattle.std.specs.Prelude.{◌≡◌, ◌<◌, pos, ◌+ℤ◌, ◌-ℤ◌, length, None, Some, Ok, Contains, IfOk, OnOk, IfErr, slice_get};
ghost use Rattle.wl_linking.specs.Steps.{Clear, Refuses};
ghost use Rattle.wl_custom.specs.RelocationTypes.{taking_of, is_absolute};
ghost use Rattle.wl_custom.specs.declared.takings.AddressBase.{AddressBase as Base};
ghost use Rattle.wl_custom.specs.declared.takings.Taking.TheVariants.{Address};
ghost use Rattle.wl_symbols.specs.Relocations.{relocations};
ghost use Rattle.wl_plan.specs.Bodies.{IsMovedIn};
ghost use Rattle.wl_plan.specs.steps.Positions.{AreMovedFields};
ghost use Rattle.wl_plan.specs.steps.Fixups.{AreFixupSources, Answers, AnswersFrom, left_at, left_of, counted_base, number_by, IsRefusedAt};
ghost use Rattle.wl_plan.specs.Fixups.{no_address, address_refusal, IsFixup, AreFixups, IsFixupFault};
ghost use Rattle.wl_plan.specs.Threads.{address_named, bases_of, template_start, pointer_named};

use crate::positions::next_position;
use crate::threads::place_in_block;
use std::alloc::Global;
use wl_bind::{references_are_kept, same_targets_are_one, table_functions_stand_once};
use wl_bytes::Form;
use wl_index::{WasmDataAddress, WasmObjectIndexMap};
use wl_linking::{File, LinkError, RelocationType, addends_are_words, whole_objects};
use wl_lists::ItemList;
use wl_output::{Fixup, FixupTo};
use wl_places::AddressBook;
use wl_reloc::{AddressBase, RelocError, Taking, deferred_tls_template_pointer, resolve_reloc};
use wl_symbols::{FixupPlace, Relocated, kept_relocations};

/// What fixups are made from.
#[derive(Drop)]
pub(crate) struct FixupSources<'s, 'i, 'a> {
    /// Where definitions and segments lie.
    pub(crate) book: &'s AddressBook<'s, 'i, 'a>,
    /// Where the things of each object stand.
    pub(crate) maps: &'s [WasmObjectIndexMap],
    /// The slots of functions by their indices.
    pub(crate) slots: &'s [u32],
}

/// The refusal of an address without a place, or in the block of a thread.
fn no_address(object: usize, address: WasmDataAddress) -> LinkError
    ensures { result ≡ no_address object address }
{
    let form = match address {
        WasmDataAddress::Passive => Form::PassiveAddress,
        WasmDataAddress::Missing | WasmDataAddress::Placed(_) | WasmDataAddress::TlsOffset(_) =>
            Form::TlsAddress,
    };
    LinkError::Unsupported { object, form }
}

/// What is left to be added to the value of a relocation of that type, which takes that address.
fn left_of(address: WasmDataAddress, ty: RelocationType, addend: i32) -> i32
    ensures { result ≡ left_at address (is_absolute ty) addend }
{
    match address {
        WasmDataAddress::Placed(_) => { if ty.is_absolute() { addend } else { 0 } }
        WasmDataAddress::Missing | WasmDataAddress::Passive | WasmDataAddress::TlsOffset(_) => 0,
    }
}

/// A place counted from a base, with what is added to it.
fn counted_from(place: u32, base: u32, addend: i32) -> i64
    ensures { result ≡ (pos place -ℤ pos base) +ℤ addend }
{
    i64::from(place) - i64::from(base) + i64::from(addend)
}

/// The number that would stand in the field that takes the address, counted from that base.
fn number_by(base: u32, address: WasmDataAddress, addend: i32) -> i64
    ensures { result ≡ number_by base address addend }
{
    match address {
        WasmDataAddress::Missing => counted_from(0, base, addend),
        WasmDataAddress::Placed(place) => counted_from(place, base, addend),
        WasmDataAddress::Passive => 0,
        WasmDataAddress::TlsOffset(place) => counted_from(place, 0, addend),
    }
}

/// The map of an object.
fn map_at(maps: &[WasmObjectIndexMap], object: usize) -> &WasmObjectIndexMap
    requires { object < length maps.now }
    ensures { slice_get maps.now object ≡ Some result.now }
{
    &maps[object]
}

/// An object.
fn file_at<'f, 'a>(files: &'f [File<'a>], object: usize) -> &'f File<'a>
    requires { object < length files.now }
    ensures { slice_get files.now object ≡ Some result.now }
{
    &files[object]
}

impl<'s, 'i, 'a> FixupSources<'s, 'i, 'a> {
    /// The address of the data symbol that a relocation names.
    fn address(&self, relocated: &Relocated) -> WasmDataAddress
        requires sources { AreFixupSources self.now }
        requires kept { Contains (relocations self.now.book.now.input.now) relocated.now }
        ensures { result ≡ address_named self.now.book.now.input.now self.now.book.now.placing.now
            relocated.now }
    {
        let map = map_at(self.maps, relocated.object);
        map.data_address(relocated.relocation.index)
            .unwrap_or(WasmDataAddress::Missing)
    }

    /// What is added to what the symbol stands for.
    fn addend(&self, relocated: &Relocated) -> i32
        requires sources { AreFixupSources self.now }
        requires kept { Contains (relocations self.now.book.now.input.now) relocated.now }
        ensures { result ≡ relocated.now.relocation.addend }
    {
        addends_are_words();
        relocated.relocation.addend as i32
    }

    /// What is left to be added to the value of a relocation: an address in the memory leaves the
    /// addend.
    fn addend_left(&self, relocated: &Relocated) -> i32
        requires sources { AreFixupSources self.now }
        requires kept { Contains (relocations self.now.book.now.input.now) relocated.now }
        ensures { result ≡ left_of (address_named self.now.book.now.input.now
            self.now.book.now.placing.now relocated.now) relocated.now.relocation }
    {
        if !relocated.relocation.ty.is_absolute() {
            return 0;
        }
        let addend = self.addend(relocated);
        left_of(self.address(relocated), relocated.relocation.ty, addend)
    }

    /// The address from which what is taken is counted; 0 for what is no address.
    fn counted_base(&self, taking: Taking) -> u32
        ensures { result ≡ counted_base taking (bases_of self.now.book.now.placing.now) }
    {
        match taking {
            Taking::FunctionIndex
            | Taking::Slot
            | Taking::SlotBehindBase
            | Taking::TypeIndex
            | Taking::GlobalIndex
            | Taking::TableNumber
            | Taking::Address(AddressBase::Memory) => 0,
            Taking::Address(AddressBase::MemoryBase) => self.book.placing.memory_base,
            Taking::Address(AddressBase::ThreadData) => self.book.placing.places.tls_base,
        }
    }

    /// The number that would stand in the field of a relocation that takes an address.
    fn number_taken(&self, relocated: &Relocated) -> i64
        requires sources { AreFixupSources self.now }
        requires kept { Contains (relocations self.now.book.now.input.now) relocated.now }
        ensures { result ≡ number_by
            (counted_base (taking_of relocated.now.relocation.ty)
            (bases_of self.now.book.now.placing.now))
            (address_named self.now.book.now.input.now self.now.book.now.placing.now relocated.now)
            relocated.now.relocation.addend }
    {
        let base = self.counted_base(relocated.relocation.ty.takes());
        number_by(base, self.address(relocated), self.addend(relocated))
    }

    /// Why a relocation has no value, as a refusal of the plan.
    fn refusal(&self, relocated: &Relocated, error: RelocError) -> LinkError
        requires sources { AreFixupSources self.now }
        requires kept { Contains (relocations self.now.book.now.input.now) relocated.now }
        ensures { (base : Base) → taking_of relocated.now.relocation.ty ≡ Address base
            → result ≡ address_refusal self.now.book.now.placing.now relocated.now base
            (address_named self.now.book.now.input.now self.now.book.now.placing.now relocated.now)
            error }
    {
        match error {
            RelocError::Range => LinkError::RelocationRange {
                object: relocated.object,
                offset: relocated.relocation.offset,
                value: self.number_taken(relocated),
            },
            RelocError::OutOfRange
            | RelocError::Removed
            | RelocError::WrongKind
            | RelocError::NoSlot
            | RelocError::NoGot
            | RelocError::Unsupported => no_address(relocated.object, self.address(relocated)),
        }
    }

    /// The value of a kept relocation.
    fn value(&self, relocated: &Relocated) -> Result<u32, RelocError>
        requires sources { AreFixupSources self.now }
        requires kept { Contains (relocations self.now.book.now.input.now) relocated.now }
        ensures { AnswersFrom self.now relocated.now result }
    {
        references_are_kept();
        same_targets_are_one();
        table_functions_stand_once();
        let file = file_at(self.book.input.files().as_slice(), relocated.object);
        let symbols = file.symbols();
        resolve_reloc(
            map_at(self.maps, relocated.object),
            &relocated.relocation,
            symbols,
            self.slots,
            self.book.placing.memory_base,
            self.book.placing.places.tls_base,
        )
    }

    /// Where the template begins in the block in which the field of a relocation lies, if it lies
    /// in one.
    fn template_start(&self, relocated: &Relocated) -> Option<u32>
        requires sources { AreFixupSources self.now }
        requires kept { Contains (relocations self.now.book.now.input.now) relocated.now }
        ensures { result ≡ template_start self.now.book.now.placing.now relocated.now }
    {
        whole_objects();
        match relocated.place {
            FixupPlace::Code => None,
            FixupPlace::Segment => {
                place_in_block(self.book.start(relocated.object, relocated.site.unit))
            }
        }
    }

    /// The place in the block of a thread that the field of a relocation takes when the thread
    /// starts, where it lies in a template and names data of the block.
    fn pointer(&self, relocated: &Relocated) -> Result<Option<i32>, RelocError>
        requires sources { AreFixupSources self.now }
        requires kept { Contains (relocations self.now.book.now.input.now) relocated.now }
        ensures { result ≡ pointer_named self.now.book.now.input.now self.now.book.now.placing.now
            relocated.now }
    {
        match self.template_start(relocated) {
            Some(_) => deferred_tls_template_pointer(
                map_at(self.maps, relocated.object),
                &relocated.relocation,
            ),
            None => Ok(None),
        }
    }

    /// What the field of a kept relocation takes that names no place in the block of a thread, or
    /// lies in no template.
    fn value_taken(&self, relocated: &Relocated) -> Result<FixupTo, RelocError>
        requires sources { AreFixupSources self.now }
        requires kept { Contains (relocations self.now.book.now.input.now) relocated.now }
        requires common { pointer_named self.now.book.now.input.now self.now.book.now.placing.now
            relocated.now ≡ Ok None }
        ensures { Answers self.now.book.now.input.now self.now.book.now.placing.now relocated.now
            (taking_of relocated.now.relocation.ty) result }
    {
        match self.value(relocated) {
            Err(error) => Err(error),
            Ok(value) => Ok(FixupTo::Value {
                value,
                addend_left: self.addend_left(relocated),
            }),
        }
    }

    /// What the field of a kept relocation takes.
    fn taken(&self, relocated: &Relocated) -> Result<FixupTo, RelocError>
        requires sources { AreFixupSources self.now }
        requires kept { Contains (relocations self.now.book.now.input.now) relocated.now }
        ensures { Answers self.now.book.now.input.now self.now.book.now.placing.now relocated.now
            (taking_of relocated.now.relocation.ty) result }
    {
        let known = match self.pointer(relocated) {
            Ok(known) => known,
            Err(error) => return Err(error),
        };
        match known {
            Some(offset) => Ok(FixupTo::Deferred { offset }),
            None => self.value_taken(relocated),
        }
    }

    /// What a kept relocation becomes, whose field stands there in what the output has.
    fn fixup(&self, relocated: &Relocated, position: u32) -> Result<Fixup, LinkError>
        requires sources { AreFixupSources self.now }
        requires kept { Contains (relocations self.now.book.now.input.now) relocated.now }
        requires moved { IsMovedIn self.now.book.now.input.now self.now.book.now.placing.now
            relocated.now position }
        ensures ok { IfOk result
            (IsFixup self.now.book.now.input.now self.now.book.now.placing.now relocated.now) }
        ensures clear { OnOk result (Clear (IsRefusedAt self.now relocated.now)) }
        ensures err { IfErr result (IsRefusedAt self.now relocated.now) }
    {
        let to = match self.taken(relocated) {
            Ok(to) => to,
            Err(error) => return Err(self.refusal(relocated, error)),
        };
        Ok(Fixup {
            object: relocated.object,
            place: relocated.place,
            unit: relocated.site.unit,
            position,
            ty: relocated.relocation.ty,
            to,
        })
    }
}

/// How many fixups there may be, as a hint for room: one for each relocation.
fn fixup_room(files: &[File<'_>]) -> usize {
    let mut room: usize = 0;
    for file in files {
        let listed = file.code_relocations().len() + file.data_relocations().len();
        room = room.saturating_add(listed);
    }
    room
}

/// What the kept relocations become, whose fields stand there in what the output has: of those that
/// don't stay where they stood these are the places.
///
/// # Errors
/// `Unsupported` where the address of the data that one names has no value in its field, and
/// `RelocationRange` where the value doesn't fit.
pub(crate) fn all_fixups(
    alloc: Global,
    sources: &FixupSources<'_, '_, '_>,
    positions: &[u32],
) -> Result<ItemList<Fixup>, LinkError>
    requires sources { AreFixupSources sources.now }
    requires positions { AreMovedFields sources.now.book.now.input.now
        sources.now.book.now.placing.now positions.now }
    ensures ok { IfOk result
        (AreFixups sources.now.book.now.input.now sources.now.book.now.placing.now) }
    ensures clear { OnOk result
        (Clear (IsFixupFault sources.now.book.now.input.now sources.now.book.now.placing.now)) }
    ensures err { IfErr result
        (Refuses (IsFixupFault sources.now.book.now.input.now sources.now.book.now.placing.now)) }
{
    let input = sources.book.input;
    let mut fixups = Vec::with_capacity(alloc, fixup_room(input.files().as_slice()))?;
    let mut moved = positions;
    for relocated in kept_relocations(input) {
        let (position, left) = next_position(input, &relocated, moved);
        moved = left;
        fixups.push(sources.fixup(&relocated, position)?)?;
    }
    Ok(ItemList::new(fixups))
}
