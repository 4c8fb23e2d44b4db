//! The layout of an output by itself, where it is known what is kept, and the lines of a plan.

ghost use Rattle.std.specs.Prelude.{◌≡◌};
ghost use Rattle.std.specs.List.{AllByRecursion};
ghost use Rattle.wl_linking.specs.Fitting.{IsWhole};
ghost use Rattle.wl_linking.specs.Steps.{Clear};
ghost use Rattle.wl_live.specs.Faults.{IsKeptFault};
ghost use Rattle.wl_symbols.specs.Link.{link_of};
ghost use Rattle.wl_symbols.specs.Live.{IsLiveOf};

use crate::plan::push_copy;
use crate::samples::{PAIR, STRONG, args_of, one_file};
use std::alloc::Global;
use wl_check::Line;
use wl_linking::FileList;
use wl_live::{LiveSet, collect_live};
use wl_plan::{ObjectList, build_output_module_layout, plan_lines, plan_link, plans_have_listings};
use wl_symbols::{LinkInput, SymbolTable};
use wl_words::WasmArgs;

/// How many functions of the output aren't imported, where these units are kept.
fn function_count<'a>(
    alloc: Global,
    symbols: &'a SymbolTable<'a, 'a>,
    live: &'a LiveSet,
) -> Option<usize>
    requires whole { AllByRecursion IsWhole symbols.now.objects }
    requires kept { IsLiveOf symbols.now live.now }
    requires clear { Clear (IsKeptFault symbols.now) }
{
    match build_output_module_layout(alloc, &LinkInput::new(symbols, live)) {
        Ok(layout) => Some(layout.function_type_indices.as_slice().len()),
        Err(_) => None,
    }
}

/// The same where it is found what is kept.
fn kept_count<'a>(
    alloc: Global,
    files: &'a FileList<'a>,
    symbols: &'a SymbolTable<'a, 'a>,
    args: &'a WasmArgs,
) -> Option<usize>
    requires { symbols.now ≡ link_of files.now args.now }
{
    let _files = files.as_slice();
    match collect_live(alloc, files, symbols, args) {
        Ok(live) => function_count(alloc, symbols, &live),
        Err(_) => None,
    }
}

/// The same of these objects.
fn linked_count(alloc: Global, files: &FileList<'_>, args: &WasmArgs) -> Option<usize> {
    match SymbolTable::build(alloc, files, args) {
        Ok(symbols) => kept_count(alloc, files, &symbols, args),
        Err(_) => None,
    }
}

/// The same of a function that calls another one, and is the entry.
fn count_of_pair(alloc: Global) -> Option<usize> {
    match (one_file(alloc, PAIR), args_of(alloc, &["a.o", "--entry=a"])) {
        (Some(files), Some(args)) => linked_count(alloc, &files, &args),
        _ => None,
    }
}

#[test]
fn a_layout_has_the_functions_that_are_kept(rt: HostRuntime) {
    assert!(rt; count_of_pair(rt.alloc()) == Some(2));
}

/// How many lines the plan of these objects has, if the last of them is `end`.
fn line_count(alloc: Global, objects: &ObjectList, args: &WasmArgs) -> Option<usize> {
    plans_have_listings();
    objects.none_is_longer();
    match plan_link(alloc, objects, args) {
        Ok(plan) => match plan_lines(alloc, &plan) {
            Ok(lines) => match lines.as_slice() {
                [others @ .., Line::End] => Some(others.len()),
                _ => None,
            },
            Err(_) => None,
        },
        Err(_) => None,
    }
}

/// The same of one function, which is the entry.
fn lines_of_one(alloc: Global) -> Option<usize> {
    let mut objects = ObjectList::new(alloc);
    let is_whole = push_copy(alloc, &mut objects, STRONG);
    match args_of(alloc, &["a.o", "--entry=a"]) {
        Some(args) => {
            if is_whole {
                line_count(alloc, &objects, &args)
            } else {
                None
            }
        }
        None => None,
    }
}

#[test]
fn a_plan_has_lines(rt: HostRuntime) {
    // The form, a type, a function, its body, the stack pointer, the memory, and two exports.
    assert!(rt; lines_of_one(rt.alloc()) == Some(8));
}
