//! Files in memory.
ghost use Rattle.std.specs.Prelude.{◌≡◌, ◌≤◌, ◌<◌, ◌+◌, ◌||◌, ◌++◌, ◌∷◌, [], false, true, length, take, min, None, Some, OnOk, OnErr, IfOk, IsOk, IsErr, IsNone, is_err};
ghost use Rattle.std.specs.Io.KnownBytes.{ReadConsumes};
ghost use Rattle.std.specs.Option.{ForSome};
ghost use Rattle.wl_files.specs.Held.{opened, left_of, FindsFile};

use crate::files::{Failed, Files};
use std::alloc::{AllocError, Global};

/// A file in memory.
#[derive(Drop)]
pub struct MemFile<'n> {
    /// The name that it is begun by.
    pub name: &'n str,
    /// What it holds.
    pub bytes: Vec<u8>,
}

/// Files in memory, for tests: they fail at the calls that they are asked to fail.
#[derive(Drop)]
pub struct MemFiles<'n> {
    alloc: Global,
    files: Vec<MemFile<'n>>,
    // how many bytes a read gives at most
    piece: usize,
    // the calls that are to fail, counted from 1
    fails: Vec<u64>,
    calls: u64,
    faults: u64,
    // the name that was begun last
    name: Option<&'n str>,
    // the place of the open file
    place: Option<usize>,
    // how much of it was given
    given: usize,
    closed: bool,
    failed: bool,
    ghost gives_some: { 0 < piece },
    ghost nothing_begun: { IsNone name → IsNone place × (closed ≡ false) },
    ghost placed: { ForSome place (λ i. i < length files.items) },
    ghost within: { given ≤ length (opened files.items place) },
}

impl<'n> MemFiles<'n> {
    ghost use Rattle.wl_files.specs.MemFiles.{held_by, failing_calls, read_limit, calls_made, files_state, AddsFile, IsNewFiles, IsSameReading};

    /// No file at all.
    pub fn new(alloc: Global) -> Self
        ensures { IsNewFiles result }
    {
        MemFiles {
            alloc,
            files: Vec::new(alloc),
            piece: usize::MAX,
            fails: Vec::new(alloc),
            calls: 0,
            faults: 0,
            name: None,
            place: None,
            given: 0,
            closed: false,
            failed: false,
        }
    }

    /// The same files, which then give at most `piece` bytes a read.
    pub fn with_piece(mut self, piece: usize) -> Self
        requires { 0 < piece }
        ensures limit { read_limit result ≡ piece }
        ensures failing { failing_calls result ≡ failing_calls self.entry }
        ensures calls { calls_made result ≡ calls_made self.entry }
        ensures same { files_state result ≡ files_state self.entry }
    {
        self.piece = piece;
        self
    }

    /// Adds a file of this name with a copy of these bytes. Of two with one name the first counts.
    pub fn add(&mut self, name: &'n str, bytes: &[u8]) -> Result<(), AllocError>
        ensures ok { OnOk result
            (AddsFile (held_by self.old) (held_by self.new) name.now bytes.now) }
        ensures err { OnErr result (held_by self.new ≡ held_by self.old) }
        ensures failing { failing_calls self.new ≡ failing_calls self.old }
        ensures calls { calls_made self.new ≡ calls_made self.old }
        ensures limit { read_limit self.new ≡ read_limit self.old }
        ensures same { IsSameReading (files_state self.old) (files_state self.new) }
    {
        let bytes = Vec::from_slice(self.alloc, bytes)?;
        self.files.push(MemFile { name, bytes })?;
        Ok(())
    }

    /// Lets the call of this number fail, counted from 1 over begins and reads together.
    pub fn fail(&mut self, call: u64) -> Result<(), AllocError>
        ensures ok { OnOk result (failing_calls self.new ≡ failing_calls self.old ++ call ∷ []) }
        ensures err { OnErr result (failing_calls self.new ≡ failing_calls self.old) }
        ensures calls { calls_made self.new ≡ calls_made self.old }
        ensures limit { read_limit self.new ≡ read_limit self.old }
        ensures same { files_state self.new ≡ files_state self.old }
    {
        self.fails.push(call)?;
        Ok(())
    }
}

// The place of the first file of this name.
fn find(files: &[MemFile], name: &str) -> Option<usize>
    ensures { FindsFile files.now name.now result }
{
    for (i, file) in files.iter().enumerate() {
        if file.name == name {
            return Some(i);
        }
    }
    None
}

// The bytes that are left of a file.
fn left_bytes<'a>(files: &'a [MemFile], place: Option<usize>, given: usize) -> &'a [u8]
    requires { given ≤ length (opened files.now place) }
    ensures { result.now ≡ left_of files.now place given }
{
    match place {
        None => &[],
        Some(place) => match files.get(place) {
            None => &[],
            Some(file) => &file.bytes[given..],
        },
    }
}

// Copies the front of these bytes, as many as there is room for, and at most so many.
fn give(left: &[u8], piece: usize, buf: &mut [u8]) -> usize
    ensures count { result ≡ min (min (length left.now) piece) (length buf.old) }
    ensures bytes { take result buf.new ≡ take result left.now }
{
    let count = left.len().min(piece).min(buf.len());
    buf[..count].copy_from_slice(&left[..count]);
    count
}

impl<'n> Files<'n> for MemFiles<'n> {
    ghost use Rattle.wl_files.specs.Causes.{CountsFaults};
    ghost use Rattle.wl_files.specs.Files.{BeginsAt, IsKnown, HasNoFile, count_of};
    ghost use Rattle.wl_files.specs.MemFiles.{files_state, IsCalm, IsOneCall, call_is_to_fail, read_count};

    ghost state = { files_state };

    ghost is_calm = { IsCalm };

    // The trait's clauses, and then which calls fail.
    fn begin(&mut self, name: &'n str) -> Result<(), Failed>
        ensures begun { (files_state self.new).begun ≡ Some name.now }
        ensures closed { (files_state self.new).closed ≡ is_err result }
        ensures failed { (files_state self.new).failed ≡ is_err result }
        ensures given { (files_state self.new).given ≡ 0 }
        ensures names { (files_state self.new).names ≡ (files_state self.old).names }
        ensures rest { OnOk result
            (BeginsAt (files_state self.old).names name.now (files_state self.new).rest) }
        ensures cause { CountsFaults
            (files_state self.old).faults (files_state self.new).faults result }
        ensures clean { OnOk result
            ((files_state self.new).faults ≡ (files_state self.old).faults) }
        ensures stays_calm { IsCalm self.old → IsCalm self.new }
        ensures calm { IsCalm self.old
            → IsKnown (files_state self.old).names name.now → IsOk result }

        ensures call { IsOneCall self.old self.new }
        ensures told { call_is_to_fail self.old ≡ true → IsErr result }
        ensures untold { call_is_to_fail self.old ≡ false
            → IsKnown (files_state self.old).names name.now → IsOk result }
    {
        self.name = Some(name);
        self.given = 0;
        self.place = None;
        self.calls = self.calls.saturating_add(1);
        if !self.fails.contains(&self.calls) {
            self.place = find(self.files.as_slice(), name);
        }
        self.closed = self.place.is_none();
        self.failed = self.closed;
        if self.closed {
            self.faults = self.faults.saturating_add(1);
            return Err(Failed);
        }
        Ok(())
    }

    // The trait's clauses, and then which calls fail, and how many bytes the others give.
    fn read(&mut self, buf: &mut [u8]) -> Result<usize, Failed>
        ensures begun { (files_state self.new).begun ≡ (files_state self.old).begun }
        ensures closed { (files_state self.new).closed ≡ (files_state self.old).closed }
        ensures failed { (files_state self.new).failed
            ≡ ((files_state self.old).failed || is_err result) }
        ensures given { (files_state self.new).given
            ≡ (files_state self.old).given + count_of result }
        ensures names { (files_state self.new).names ≡ (files_state self.old).names }
        ensures rest { ReadConsumes
            (files_state self.old).rest (files_state self.new).rest result buf.new }
        ensures bound { IfOk result (λ n. n ≤ length buf.old) }
        ensures nothing_begun { (files_state self.old).begun ≡ None
            → ((files_state self.old).closed ≡ false) × IfOk result (λ n. n ≡ 0) }
        ensures nothing_open { HasNoFile (files_state self.old) buf.old → IsErr result }
        ensures cause { CountsFaults
            (files_state self.old).faults (files_state self.new).faults result }
        ensures clean { OnOk result
            ((files_state self.new).faults ≡ (files_state self.old).faults) }
        ensures stays_calm { IsCalm self.old → IsCalm self.new }
        ensures calm { IsCalm self.old → ¬ HasNoFile (files_state self.old) buf.old → IsOk result }

        ensures call { IsOneCall self.old self.new }
        ensures told { call_is_to_fail self.old ≡ true → IsErr result }
        ensures untold { call_is_to_fail self.old ≡ false
            → ¬ HasNoFile (files_state self.old) buf.old → IsOk result }
        ensures count { IfOk result (λ n. n ≡ read_count self.old (length buf.old)) }
    {
        self.calls = self.calls.saturating_add(1);
        if self.fails.contains(&self.calls) || (self.closed && !buf.is_empty()) {
            self.failed = true;
            self.faults = self.faults.saturating_add(1);
            return Err(Failed);
        }
        let left = left_bytes(self.files.as_slice(), self.place, self.given);
        let count = give(left, self.piece, buf);
        self.given += count;
        Ok(count)
    }
}
