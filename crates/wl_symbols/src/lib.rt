//! The link: what names stand for, which units and import slots objects have, and what it is to be
//! kept.
//!
//! [`SymbolTable::build`] gathers the names of all objects, and sees that no two define one name.
//! The table then answers what a name or a symbol stands for: a symbol, or what the linker makes
//! ([`WasmLinkerSymbol`]). [`name_by_cases`] says the same by places. A [`NameIndex`] keeps the names
//! of objects while these change, and makes the same table. [`import_slots`] gives the slots of an
//! object, each with the undefined symbols that stand for it, and [`slot_targets`] what they are
//! bound to whatever is kept; slots to which names bind nothing are divided by [`divide_slots`] into
//! those of stubs and those that are left to the host. A [`LiveSet`] says which units are kept, and
//! [`LinkInput`] holds all of these for what is above.
#![tactic(auto)]

// Names.
mod adding;
mod definitions;
mod entry;
mod linker_symbol;
mod made_sort;
mod names;
mod table;

// Names of objects that change.
mod bearers;
mod exchanging;
mod gathering;
mod index;
mod telling;

// Units.
mod live_set;
mod unit_numbers;
mod units;

// The link.
mod candidates;
mod input;
mod kept_units;
mod relocated;

// Import slots.
mod kept_imports;
mod left;
mod slots;
mod targets;

// Laws.
mod kept_laws;
mod name_laws;
mod slot_laws;

pub use candidates::{definition_at, is_candidate};
pub use entry::Definition;
pub use index::NameIndex;
pub use input::LinkInput;
pub use kept_imports::{is_kept_slot, kept_slots, left_slots};
pub use kept_laws::{
    kept_fields_are_apart, kept_units_are_closed, live_sets_are_one, live_units_are_closed,
    ordinals_are_dense, undecoded_bodies_refer_to_none, units_are_numbered,
    unmarked_bodies_number_none,
};
pub use left::{DividedSlots, HostImport, HostImports, Stubs, divide_slots, host_imports};
pub use linker_symbol::WasmLinkerSymbol;
pub use live_set::LiveSet;
pub use made_sort::{MadeSort, NamedFunction, NamedGlobal};
pub use name_laws::{made_names_differ, name_by_cases, names_or_repeat};
pub use relocated::{FixupPlace, KeptRelocations, Relocated, kept_of_object, kept_relocations};
pub use slot_laws::{
    definitions_have_numbers, host_imports_are_found, imports_stand_once, slots_are_numbered,
    slots_have_one_name, stubs_are_found_by_name, targets_by_cases,
};
pub use slots::{ImportSlot, fill_slots, import_slots, is_slot_of};
pub use table::SymbolTable;
pub use targets::{
    SlotTarget, object_target, own_number, slot_target, slot_targets, symbol_target,
};
pub use unit_numbers::UnitNumbers;
pub use units::{
    LinkUnit, UnitCounts, WasmGcUnit, counts_of, defined_number, number_below, sibling_of, unit_in,
    unit_index, wasm_gc_unit_for_symbol,
};
pub use wl_words::{
    ArgError, DEFAULT_STACK_SIZE, MAX_GENERATED, MemoryName, Mode, Texts, ValuePlace, WasmArgs,
    args_or_fault,
};
