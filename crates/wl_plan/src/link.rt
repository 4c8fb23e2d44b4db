//! From the bytes of objects to the plan of one module, step by step.

ghost use Rattle.std.specs.Prelude.{◌≡◌, IfOk, IfErr};
ghost use Rattle.std.specs.List.{AllByRecursion};
ghost use Rattle.wl_linking.specs.Fitting.{IsWhole};
ghost use Rattle.wl_linking.specs.Steps.{Clear, Refuses};
ghost use Rattle.wl_symbols.specs.Link.{link_of};
ghost use Rattle.wl_symbols.specs.Repeats.{IsDuplicate};
ghost use Rattle.wl_live.specs.Facts.{AreAllFacts};
ghost use Rattle.wl_plan.specs.Faults.{link_fault};
ghost use Rattle.wl_plan.specs.LinkPlan.{HasLinkFault, IsPlanOf, IsLinkPlan};
ghost use Rattle.wl_plan.specs.steps.Link.{IsKnownOf};

use crate::layout::LinkPlan;
use crate::objects::ObjectList;
use crate::parsing::parse_objects;
use crate::plan::plan_kept;
use std::alloc::Global;
use wl_features::{FeatureList, check_features};
use wl_linking::{FileList, LinkError};
use wl_live::{LiveSet, ObjectFacts, all_facts, check_entry, collect_live_from};
use wl_symbols::{LinkInput, SymbolTable, live_sets_are_one};
use wl_words::WasmArgs;

/// Each object of a list is whole.
pub(crate) fn objects_are_whole(files: &FileList<'_>)
    ensures { AllByRecursion IsWhole files.now }
{
    let _objects = files.as_slice();
}

/// What is known of a link before its references are bound.
#[derive(Drop)]
pub(crate) struct KnownLink<'a> {
    /// The features of the output.
    features: FeatureList<'a>,
    /// What is kept.
    live: LiveSet,
}

/// What is known of the link of these objects, by what their names stand for and what each says of
/// its units. Each step refuses only where none before it does.
///
/// # Errors
/// What [`check_features`] refuses; then `EntryNotDefined` where an entry is asked for that no
/// object defines; then what [`collect_live_from`] refuses.
pub(crate) fn known_link<'a>(
    alloc: Global,
    files: &FileList<'a>,
    symbols: &SymbolTable<'_, 'a>,
    facts: &[ObjectFacts],
    args: &'a WasmArgs,
) -> Result<KnownLink<'a>, LinkError>
    requires fit { symbols.now ≡ link_of files.now args.now }
    requires names { Clear (IsDuplicate files.now) }
    requires facts { AreAllFacts files.now facts.now }
    ensures ok { IfOk result (IsKnownOf (link_of files.now args.now)) }
    ensures err { IfErr result (Refuses (link_fault (link_of files.now args.now))) }
{
    let features = check_features(alloc, files, args)?;
    check_entry(alloc, symbols)?;
    let live = collect_live_from(alloc, files, facts, symbols, args)?;
    Ok(KnownLink { features, live })
}

/// The plan of one module of these objects, where it is known what their names stand for and what
/// is kept.
///
/// # Errors
/// Why references can't be bound, things numbered or data placed, why a global, a field or a body
/// of the linker's can't take its value, or why there can't be the exports.
pub(crate) fn plan_known<'a>(
    alloc: Global,
    files: &FileList<'a>,
    symbols: &SymbolTable<'_, 'a>,
    known: KnownLink<'a>,
    args: &'a WasmArgs,
) -> Result<LinkPlan<'a>, LinkError>
    requires fit { symbols.now ≡ link_of files.now args.now }
    requires known { IsKnownOf (link_of files.now args.now) known }
    ensures ok { IfOk result (IsPlanOf (link_of files.now args.now)) }
    ensures err { IfErr result (Refuses (link_fault (link_of files.now args.now))) }
{
    live_sets_are_one();
    objects_are_whole(files);
    let KnownLink { features, live } = known;
    let input = LinkInput::new(symbols, &live);
    plan_kept(alloc, &input, args, features)
}

/// The plan of one module of these objects.
///
/// # Errors
/// `DuplicateSymbol` where two symbols that other objects can name have one name; then what
/// [`check_features`] refuses; then `EntryNotDefined` where an entry is asked for that no object
/// defines; then what [`collect_live_from`] refuses; then why references can't be bound, things
/// numbered or data placed, why a global, a field or a body of the linker's can't take its value,
/// or why there can't be the exports.
pub fn plan_files<'a>(
    alloc: Global,
    files: &FileList<'a>,
    args: &'a WasmArgs,
) -> Result<LinkPlan<'a>, LinkError>
    ensures ok { IfOk result (IsPlanOf (link_of files.now args.now)) }
    ensures err { IfErr result (Refuses (link_fault (link_of files.now args.now))) }
{
    let symbols = SymbolTable::build(alloc, files, args)?;
    let facts = all_facts(alloc, files)?;
    let known = known_link(alloc, files, &symbols, &facts, args)?;
    // Nothing later asks for them, and a plan takes the most memory while it is made.
    drop(facts);
    plan_known(alloc, files, &symbols, known, args)
}

/// The plan of one module of the objects that some bytes are.
///
/// # Errors
/// An object that isn't in the grammar or has a form that isn't taken, in the order given; else
/// why [`plan_files`] refuses them.
pub fn plan_link<'a>(
    alloc: Global,
    objects: &'a ObjectList,
    args: &'a WasmArgs,
) -> Result<LinkPlan<'a>, LinkError>
    ensures ok { IfOk result (IsLinkPlan objects.now args.now) }
    ensures err { IfErr result (Refuses (HasLinkFault objects.now args.now)) }
{
    let files = parse_objects(alloc, objects)?;
    plan_files(alloc, &files, args)
}
