//! Certificates of a small object, and chains of them.

ghost use Rattle.std.specs.Prelude.{◌≡◌};
ghost use Rattle.wl_symbols.specs.Link.{link_of};

use crate::samples::{PAIR, args_of, one_file};
use std::alloc::{AllocError, Global};
use wl_linking::FileList;
use wl_live::WasmGcUnit;
use wl_symbols::SymbolTable;
use wl_why::{Certificate, Step, chain_to, check_why};
use wl_words::WasmArgs;

/// Functions of the object, each with the place of the step that refers to it, or with none.
type Row = &'static [(u32, Option<u64>)];

/// The first function, which is a root, and the second one, which it calls.
const SOUND: Row = &[(0, None), (1, Some(0))];

/// Rows, and whether each is a valid certificate.
const ROWS: [(Row, bool); 8] = [
    (SOUND, true),
    // No root, and what a listed unit refers to isn't listed.
    (&[], false),
    (&[(0, None)], false),
    // From itself, from a later step, and a root that is none.
    (&[(0, None), (1, Some(1))], false),
    (&[(1, Some(1)), (0, None)], false),
    (&[(0, None), (1, None)], false),
    // A unit that comes twice, and one that doesn't exist.
    (&[(0, None), (1, Some(0)), (1, Some(0))], false),
    (&[(0, None), (1, Some(0)), (2, Some(0))], false),
];

/// The certificate of a row.
fn certificate_of(alloc: Global, row: &[(u32, Option<u64>)]) -> Result<Certificate, AllocError> {
    let mut steps = Vec::new(alloc);
    for (function, from) in row {
        steps.push(Step {
            object: 0,
            unit: WasmGcUnit::DefinedFunction(*function),
            from: *from,
        })?;
    }
    Ok(Certificate::new(steps))
}

/// Whether a row is a valid certificate.
fn is_valid(
    alloc: Global,
    files: &FileList<'_>,
    symbols: &SymbolTable<'_, '_>,
    args: &WasmArgs,
    row: &[(u32, Option<u64>)],
) -> Result<bool, AllocError>
    requires { symbols.now ≡ link_of files.now args.now }
{
    let certificate = certificate_of(alloc, row)?;
    check_why(alloc, files, symbols, args, &certificate)
}

/// How many of the rows are reported right, from the first on.
fn rows_told_right(
    alloc: Global,
    files: &FileList<'_>,
    symbols: &SymbolTable<'_, '_>,
    args: &WasmArgs,
) -> usize
    requires { symbols.now ≡ link_of files.now args.now }
{
    let mut told = 0;
    for (place, (row, want)) in ROWS.iter().enumerate() {
        if told == place && is_valid(alloc, files, symbols, args, *row) == Ok(*want) {
            told = place + 1;
        }
    }
    told
}

/// The same of these objects.
fn rows_told_right_of(alloc: Global, files: &FileList<'_>, args: &WasmArgs) -> usize {
    match SymbolTable::build(alloc, files, args) {
        Ok(symbols) => rows_told_right(alloc, files, &symbols, args),
        Err(_) => 0,
    }
}

/// The same of the object with two functions.
fn rows_told_right_of_pair(alloc: Global, args: &WasmArgs) -> usize {
    match one_file(alloc, PAIR) {
        Some(files) => rows_told_right_of(alloc, &files, args),
        None => 0,
    }
}

/// The same where the first function is the entry.
fn rows_told_right_of_entry(alloc: Global) -> usize {
    match args_of(alloc, &["a.o", "--entry=a"]) {
        Some(args) => rows_told_right_of_pair(alloc, &args),
        None => 0,
    }
}

#[test]
fn certificates_are_valid_or_not(rt: HostRuntime) {
    assert!(rt; rows_told_right_of_entry(rt.alloc()) == ROWS.len());
}

/// How many units the chain to a function has.
fn chain_length(alloc: Global, function: u32) -> Result<Option<usize>, AllocError> {
    let certificate = certificate_of(alloc, SOUND)?;
    match chain_to(
        alloc,
        &certificate,
        0,
        WasmGcUnit::DefinedFunction(function),
    )? {
        Some(chain) => Ok(Some(chain.len())),
        None => Ok(None),
    }
}

#[test]
fn chains_lead_to_listed_units(rt: HostRuntime) {
    assert!(rt; matches!(chain_length(rt.alloc(), 1), Ok(Some(2))));
    assert!(rt; matches!(chain_length(rt.alloc(), 2), Ok(None)));
}
