//! In how many steps the kept units of generated objects are found. Steps take no bytes, so that
//! nothing can read them when it runs. Here their number is counted once more, by what objects say
//! and by what is kept, and is proved to be the one by which the steps grew.

ghost use Rattle.std.specs.Prelude.{◌≡◌, ◌≤◌, ◌<◌, ◌+◌, ◌^◌, ◌++◌, false, List, All, IfOk, IfSome, OnOk, length, map, count_by, slice_index_or};
ghost use Rattle.wl_live.specs.Facts.{Facts, AreAllFacts};
ghost use Rattle.wl_live.specs.Marking.{steps_to};
ghost use Rattle.wl_live.specs.Table.{most_steps};
ghost use Rattle.wl_reach.specs.Marks.{count_set};
ghost use Rattle.wl_symbols.specs.Link.{link_of};
ghost use Rattle.wl_symbols.specs.Live.{IsLiveOf, is_live};
ghost use Rattle.wl_symbols.specs.Units.{counts_of, units_of};
ghost use Rattle.wl_why.specs.Units.{kind_units, object_units, all_units};
ghost use Rattle.wl_words.specs.declared.values.TheConstants.{MAX_GENERATED};

use crate::samples::args_of;
use std::alloc::{AllocError, Global};
use std::marker::Brand;
use std::sync::ledger::{Blank, Ledger};
use wl_bytes::MAX_LEN;
use wl_generate::generated_object;
use wl_linking::{File, FileList, parse_wasm_module};
use wl_live::{LiveSet, UnitNumbers, WasmGcUnit, collect_live_counted, sibling_of, unit_graph};
use wl_reach::Edge;
use wl_steps::Steps;
use wl_symbols::SymbolTable;
use wl_words::WasmArgs;

// ---- the marks of units

/// Adds, for each of so many units of one kind of an object, whether it is kept.
fn push_kind(
    marks: &mut Vec<bool>,
    live: &LiveSet,
    object: usize,
    kind: WasmGcUnit,
    count: usize,
) -> Result<(), AllocError>
    requires { count ≤ 2 ^ 32 }
    ensures { OnOk result (marks.new.items
        ≡ marks.old.items ++ map (is_live live.now) (kind_units object kind count)) }
{
    for k in 0..count {
        marks.push(live.is_live(object, sibling_of(kind, k as u32)))?;
    }
    Ok(())
}

/// Adds, for each unit of an object, whether it is kept.
fn push_object(
    marks: &mut Vec<bool>,
    live: &LiveSet,
    object: usize,
    file: &File<'_>,
) -> Result<(), AllocError>
    ensures { OnOk result (marks.new.items
        ≡ marks.old.items ++ map (is_live live.now) (object_units object (counts_of file.now))) }
{
    file.stands_for_an_object();
    let (functions, globals) = (file.num_defined_functions(), file.num_defined_globals());
    push_kind(
        marks,
        live,
        object,
        WasmGcUnit::DefinedFunction(0),
        functions,
    )?;
    push_kind(marks, live, object, WasmGcUnit::DefinedGlobal(0), globals)?;
    let segments = file.num_data_segments();
    push_kind(marks, live, object, WasmGcUnit::DataSegment(0), segments)?;
    let imports = file.num_function_imports();
    push_kind(marks, live, object, WasmGcUnit::FunctionImport(0), imports)?;
    let imports = file.num_global_imports();
    push_kind(marks, live, object, WasmGcUnit::GlobalImport(0), imports)
}

/// Whether each unit is kept, by its number.
fn marks_of(alloc: Global, files: &FileList<'_>, live: &LiveSet) -> Result<Vec<bool>, AllocError>
    ensures { IfOk result
        (λ v. v.items ≡ map (is_live live.now) (all_units (units_of files.now))) }
{
    let mut marks = Vec::new(alloc);
    let objects = files.as_slice();
    for (object, file) in objects.iter().enumerate() {
        push_object(&mut marks, live, object, file)?;
    }
    Ok(marks)
}

// ---- the steps

/// How many both are. No memory has room for more than a number can count.
fn added(units: usize, references: usize) -> Result<usize, AllocError>
    ensures { IfOk result (λ n. n ≡ units + references) }
{
    units.checked_add(references).ok_or(AllocError)
}

/// How many marks are set.
fn count_marks(marks: &[bool]) -> usize
    ensures { result ≡ count_set marks.now }
{
    marks.iter().filter(|mark| **mark).count()
}

/// How many of the edges lead from a unit that is marked.
fn count_followed(marks: &[bool], edges: &[Edge]) -> usize
    requires { All (λ e. e.from < length marks.now) edges.now }
    ensures { result ≡ count_by (λ e. slice_index_or marks.now e.from false) edges.now }
{
    edges.iter().filter(|edge| marks[edge.from]).count()
}

/// In how many steps the kept units are found: one for each of them, and one for each reference
/// from one of them to a unit that exists; none where all units are kept without a search.
fn steps_to_live(
    alloc: Global,
    files: &FileList<'_>,
    symbols: &SymbolTable<'_, '_>,
    args: &WasmArgs,
    live: &LiveSet,
) -> Result<usize, AllocError>
    requires fit { symbols.now ≡ link_of files.now args.now }
    requires live { IsLiveOf symbols.now live.now }
    ensures { IfOk result (λ n. (facts : List Facts) → AreAllFacts files.now facts
        → n ≡ steps_to symbols.now facts live.now) }
{
    if !args.gc_sections {
        return Ok(0);
    }
    let numbers = UnitNumbers::new(alloc, files)?;
    let graph = unit_graph(alloc, symbols, &numbers)?;
    let marks = marks_of(alloc, files, live)?;
    let followed = count_followed(&marks, graph.edges());
    let steps = added(count_marks(&marks), followed)?;
    Ok(steps)
}

/// In how many steps what is kept is found at most, whatever that is: one for each unit, and one for
/// each reference between two that exist.
fn steps_at_most(
    alloc: Global,
    files: &FileList<'_>,
    symbols: &SymbolTable<'_, '_>,
    args: &WasmArgs,
) -> Result<usize, AllocError>
    requires { symbols.now ≡ link_of files.now args.now }
    ensures { IfOk result (λ n. (facts : List Facts) → AreAllFacts files.now facts
        → n ≡ most_steps symbols.now facts) }
{
    let numbers = UnitNumbers::new(alloc, files)?;
    let graph = unit_graph(alloc, symbols, &numbers)?;
    numbers
        .total()
        .checked_add(graph.edges().len())
        .ok_or(AllocError)
}

/// Finds what is kept, and says by how many the steps grew.
fn counted<L: Ledger>(
    alloc: Global,
    files: &FileList<'_>,
    symbols: &SymbolTable<'_, '_>,
    args: &WasmArgs,
    steps: &mut Steps<L>,
) -> Option<usize>
    requires { symbols.now ≡ link_of files.now args.now }
    ensures { IfSome result (λ n. steps.new ≡ steps.old + n) }
{
    match collect_live_counted(alloc, files, symbols, args, steps) {
        Ok(live) => steps_to_live(alloc, files, symbols, args, &live).ok(),
        Err(_) => None,
    }
}

// ---- generated objects

/// The steps under a ledger of the test's own.
fn steps_counted<L: Ledger>(
    alloc: Global,
    files: &FileList<'_>,
    symbols: &SymbolTable<'_, '_>,
    args: &WasmArgs,
    blank: Blank,
) -> Option<usize>
    requires name { blank.name ≡ L.name }
    requires parts { blank.parts ≡ L.parts }
    requires some { 0 < blank.parts }
    requires fit { symbols.now ≡ link_of files.now args.now }
{
    let mut steps = Steps::<L>::start(blank);
    counted(alloc, files, symbols, args, &mut steps)
}

/// Whether what is kept of these objects is found in so many steps, of so many at most.
fn takes(alloc: Global, files: &FileList<'_>, args: &WasmArgs, steps: usize, most: usize) -> bool {
    match SymbolTable::build(alloc, files, args) {
        Ok(symbols) => {
            steps_counted::<Brand>(alloc, files, &symbols, args, Blank::new(1)) == Some(steps)
                && steps_at_most(alloc, files, &symbols, args) == Ok(most)
        }
        Err(_) => false,
    }
}

/// Adds the object of that number, of so many, and says whether it is there.
fn push_generated(alloc: Global, objects: &mut Vec<Vec<u8>>, number: u32, count: u32) -> bool
    requires number { number < count }
    requires count { count ≤ MAX_GENERATED }
{
    match generated_object(alloc, number, count) {
        Ok(object) => objects.push(object).is_ok(),
        Err(_) => false,
    }
}

/// So many generated objects.
fn generated(alloc: Global, count: u32) -> Option<Vec<Vec<u8>>>
    requires { count ≤ MAX_GENERATED }
{
    let mut objects = Vec::new(alloc);
    for number in 0..count {
        if !push_generated(alloc, &mut objects, number, count) {
            return None;
        }
    }
    Some(objects)
}

/// Adds what the bytes are, and says whether they are an object.
fn push_parsed<'a>(alloc: Global, files: &mut FileList<'a>, bytes: &'a [u8]) -> bool {
    if bytes.len() > MAX_LEN {
        return false;
    }
    match parse_wasm_module(alloc, bytes) {
        Ok(file) => files.push(file).is_ok(),
        Err(_) => false,
    }
}

/// The list of these objects, where each of them is one.
fn parsed(alloc: Global, objects: &[Vec<u8>]) -> Option<FileList<'_>> {
    let mut files = FileList::new(alloc);
    for bytes in objects {
        if !push_parsed(alloc, &mut files, bytes.as_slice()) {
            return None;
        }
    }
    Some(files)
}

/// Whether it is so of these objects.
fn takes_for(
    alloc: Global,
    objects: &[Vec<u8>],
    args: &WasmArgs,
    steps: usize,
    most: usize,
) -> bool {
    match parsed(alloc, objects) {
        Some(files) => takes(alloc, &files, args, steps, most),
        None => false,
    }
}

/// Whether it is so of ten thousand generated objects under these options.
fn takes_for_many(alloc: Global, args: &WasmArgs, steps: usize, most: usize) -> bool {
    match generated(alloc, 10_000) {
        Some(objects) => takes_for(alloc, &objects, args, steps, most),
        None => false,
    }
}

/// The same from the first of their functions on, as `--generate` plans them.
fn takes_from_first(alloc: Global, steps: usize, most: usize) -> bool {
    match args_of(alloc, &["--generate=10000", "--entry=f0"]) {
        Some(args) => takes_for_many(alloc, &args, steps, most),
        None => false,
    }
}

#[test]
fn steps_are_kept_units_and_what_they_refer_to(rt: HostRuntime) {
    // Of 29999 units 10000 functions `f` are kept and the 9999 imports of them, and the 10000
    // functions `d` aren't. Each of 9999 calls refers to its import and to what that stands for,
    // and each of 9999 imports to what it stands for. So there are 29997 references, all of them
    // from kept units: 19999 + 29997 steps, of 29999 + 29997 at most.
    assert!(rt; takes_from_first(rt.alloc(), 49_996, 59_996));
}
