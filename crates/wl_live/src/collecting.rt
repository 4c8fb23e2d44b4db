//! Which units of the objects are kept.

ghost use Rattle.std.specs.Prelude.{◌≡◌, List, ◌<◌, ◌≤◌, ◌+◌, IfOk, OnOk, IfErr};
ghost use Rattle.wl_linking.specs.Steps.{Clear, Refuses};
ghost use Rattle.wl_symbols.specs.Link.{link_of};
ghost use Rattle.wl_live.specs.Faults.{IsKeptFault};
ghost use Rattle.wl_live.specs.Facts.{Facts, AreAllFacts};
ghost use Rattle.wl_live.specs.Table.{most_steps};
ghost use Rattle.wl_symbols.specs.Live.{IsLiveOf};
ghost use Rattle.wl_live.specs.Marking.{steps_to};

use crate::marking::mark_units;
use crate::numbering::mark_numbering;
use crate::object_facts::{ObjectFacts, all_facts};
use crate::refusals::check_faults;
use std::alloc::Global;
use std::marker::Brand;
use std::sync::ledger::{Blank, Ledger};
use wl_linking::{FileList, LinkError};
use wl_ops::numbers_are_one;
use wl_reach::RankedMarks;
use wl_steps::Steps;
use wl_symbols::{LiveSet, SymbolTable, UnitNumbers};
use wl_words::WasmArgs;

/// The units that are kept, by what each object says of them.
fn collect_from_counted<L: Ledger>(
    alloc: Global,
    files: &FileList<'_>,
    facts: &[ObjectFacts],
    symbols: &SymbolTable<'_, '_>,
    args: &WasmArgs,
    steps: &mut Steps<L>,
) -> Result<LiveSet, LinkError>
    requires fit { symbols.now ≡ link_of files.now args.now }
    requires facts { AreAllFacts files.now facts.now }
    ensures live { IfOk result (IsLiveOf symbols.now) }
    ensures clear { OnOk result (Clear (IsKeptFault symbols.now)) }
    ensures err { IfErr result (Refuses (IsKeptFault symbols.now)) }
    ensures steps { IfOk result
        (λ live. steps.new ≡ steps.old + steps_to symbols.now facts.now live) }
    ensures cost { steps.new ≤ steps.old + most_steps symbols.now facts.now }
{
    let numbers = UnitNumbers::new(alloc, files)?;
    let marks = mark_units(alloc, symbols, args, &numbers, facts, steps)?;
    let marks = RankedMarks::new(alloc, marks)?;
    let numbering = mark_numbering(alloc, symbols, &numbers, facts)?;
    let live = LiveSet::new(numbers, marks, numbering);
    check_faults(&live, symbols, facts)?;
    Ok(live)
}

/// The units that are kept, in steps that are counted: one for each unit that is taken up, and one
/// for each reference that is followed.
///
/// # Errors
/// As [`collect_live`].
pub fn collect_live_counted<L: Ledger>(
    alloc: Global,
    files: &FileList<'_>,
    symbols: &SymbolTable<'_, '_>,
    args: &WasmArgs,
    steps: &mut Steps<L>,
) -> Result<LiveSet, LinkError>
    requires fit { symbols.now ≡ link_of files.now args.now }
    ensures live { IfOk result (IsLiveOf symbols.now) }
    ensures clear { OnOk result (Clear (IsKeptFault symbols.now)) }
    ensures err { IfErr result (Refuses (IsKeptFault symbols.now)) }
    ensures steps { IfOk result (λ live. (facts : List Facts) × AreAllFacts files.now facts
        × (steps.new ≡ steps.old + steps_to symbols.now facts live)) }
    ensures cost { (facts : List Facts) → AreAllFacts files.now facts
        → steps.new ≤ steps.old + most_steps symbols.now facts }
{
    numbers_are_one();
    let facts = all_facts(alloc, files)?;
    collect_from_counted(alloc, files, &facts, symbols, args, steps)
}

/// The same by facts that were gathered before, where nobody asks for the steps.
fn collect_from_uncounted<L: Ledger>(
    alloc: Global,
    files: &FileList<'_>,
    facts: &[ObjectFacts],
    symbols: &SymbolTable<'_, '_>,
    args: &WasmArgs,
    blank: Blank,
) -> Result<LiveSet, LinkError>
    requires name { blank.name ≡ L.name }
    requires parts { blank.parts ≡ L.parts }
    requires some { 0 < blank.parts }
    requires fit { symbols.now ≡ link_of files.now args.now }
    requires facts { AreAllFacts files.now facts.now }
    ensures live { IfOk result (IsLiveOf symbols.now) }
    ensures clear { OnOk result (Clear (IsKeptFault symbols.now)) }
    ensures err { IfErr result (Refuses (IsKeptFault symbols.now)) }
{
    let mut steps = Steps::<L>::start(blank);
    collect_from_counted(alloc, files, facts, symbols, args, &mut steps)
}

/// The units that are kept, by what each object says of them: an answer of
/// [`facts`](crate::facts) for each.
///
/// # Errors
/// As [`collect_live`].
pub fn collect_live_from(
    alloc: Global,
    files: &FileList<'_>,
    facts: &[ObjectFacts],
    symbols: &SymbolTable<'_, '_>,
    args: &WasmArgs,
) -> Result<LiveSet, LinkError>
    requires fit { symbols.now ≡ link_of files.now args.now }
    requires facts { AreAllFacts files.now facts.now }
    ensures live { IfOk result (IsLiveOf symbols.now) }
    ensures clear { OnOk result (Clear (IsKeptFault symbols.now)) }
    ensures err { IfErr result (Refuses (IsKeptFault symbols.now)) }
{
    collect_from_uncounted::<Brand>(alloc, files, facts, symbols, args, Blank::new(1))
}

/// The same where nobody asks for the steps.
fn collect_live_uncounted<L: Ledger>(
    alloc: Global,
    files: &FileList<'_>,
    symbols: &SymbolTable<'_, '_>,
    args: &WasmArgs,
    blank: Blank,
) -> Result<LiveSet, LinkError>
    requires name { blank.name ≡ L.name }
    requires parts { blank.parts ≡ L.parts }
    requires some { 0 < blank.parts }
    requires fit { symbols.now ≡ link_of files.now args.now }
    ensures live { IfOk result (IsLiveOf symbols.now) }
    ensures clear { OnOk result (Clear (IsKeptFault symbols.now)) }
    ensures err { IfErr result (Refuses (IsKeptFault symbols.now)) }
{
    let mut steps = Steps::<L>::start(blank);
    collect_live_counted(alloc, files, symbols, args, &mut steps)
}

/// The units that are kept: all where collection is off, and else those to which a chain of
/// references leads from what is kept by itself.
///
/// # Errors
/// `Malformed` or `Unsupported` where a unit is kept that can't be: `Body`, `Operator` and
/// `ElementOperator` where a body with the byte 0xfc isn't decoded, `BadIndex` and `Overlap` where
/// a number of a segment in a body names none or shares a byte with the field of a relocation, and
/// `GlobalInit` where a global starts with the value of another or with a function.
pub fn collect_live(
    alloc: Global,
    files: &FileList<'_>,
    symbols: &SymbolTable<'_, '_>,
    args: &WasmArgs,
) -> Result<LiveSet, LinkError>
    requires fit { symbols.now ≡ link_of files.now args.now }
    ensures live { IfOk result (IsLiveOf symbols.now) }
    ensures clear { OnOk result (Clear (IsKeptFault symbols.now)) }
    ensures err { IfErr result (Refuses (IsKeptFault symbols.now)) }
{
    collect_live_uncounted::<Brand>(alloc, files, symbols, args, Blank::new(1))
}
