//! A place that takes bytes, and one in memory.
ghost use Rattle.std.specs.Prelude.{◌≡◌, ◌<◌, ◌≤◌, ◌+◌, ◌-◌, ◌++◌, ◌∷◌, [], ℕ, true, false, Ok, length, take, vec_capacity, IfOk, IsOkAnd, OnOk, OnErr, IsErr};
ghost use Rattle.std.specs.Io.KnownBytes.{WriteAppends};
ghost use Rattle.wl_files.specs.Sink.{SinkState, IsCalmWrite};
ghost use Rattle.wl_files.specs.Causes.{CountsFaults, Rose};

use crate::files::Failed;
use std::alloc::{AllocError, Global};

/// Takes bytes, some of each piece at a time.
pub trait Sink {
    /// How the sink stands.
    ghost state: { Self → SinkState };

    /// Where it is known: it takes so many bytes more without a fault.
    ghost takes_more: { Self → ℕ → Type 0 } = { λ _ _. ⊥ };

    /// Takes the front of a piece, and says how many bytes that is.
    ///
    /// To take nothing of a piece that has bytes is a fault, as a call that fails is.
    fn write(&mut self, piece: &[u8]) -> Result<usize, Failed>
        ensures taken { WriteAppends
            (state self.old).taken (state self.new).taken result piece.now }
        ensures bound { IfOk result (λ n. n ≤ length piece.now) }
        ensures stuck { result ≡ Ok 0 → 0 < length piece.now
            → Rose (state self.old).faults (state self.new).faults }
        ensures cause { CountsFaults (state self.old).faults (state self.new).faults result }
        ensures clean { IfOk result
            (λ n. 0 < n → (state self.new).faults ≡ (state self.old).faults) }
        ensures empty { length piece.now ≡ 0
            → OnOk result ((state self.new).faults ≡ (state self.old).faults) }
        ensures calm { (n : ℕ) → takes_more self.old n → length piece.now ≤ n
            → IsCalmWrite (takes_more self.new) n (length piece.now) result };
}

/// A sink in memory, for tests: it has room for a number of bytes, takes a piece of them at a
/// time, and fails at the calls that it is asked to fail.
#[derive(Drop)]
pub struct MemSink {
    bytes: Vec<u8>,
    room: usize,
    piece: usize,
    // the calls that are to fail, counted from 1
    fails: Vec<u64>,
    calls: u64,
    faults: u64,
    ghost reserved: { room ≤ vec_capacity bytes },
    ghost within: { length bytes.items ≤ room },
}

impl MemSink {
    ghost use Rattle.wl_files.specs.MemSink.{sink_bytes, failing_writes, write_count, IsNewSink, IsSameSink};

    /// An empty sink with room for `room` bytes, which takes at most `piece` bytes a call.
    pub fn new(alloc: Global, room: usize, piece: usize) -> Result<Self, AllocError>
        ensures { IfOk result (IsNewSink room piece) }
    {
        Ok(MemSink {
            bytes: Vec::with_capacity(alloc, room)?,
            room,
            piece,
            fails: Vec::new(alloc),
            calls: 0,
            faults: 0,
        })
    }

    /// Lets the call of this number fail, counted from 1.
    pub fn fail(&mut self, call: u64) -> Result<(), AllocError>
        ensures ok { OnOk result (failing_writes self.new ≡ failing_writes self.old ++ call ∷ []) }
        ensures err { OnErr result (failing_writes self.new ≡ failing_writes self.old) }
        ensures same { IsSameSink self.old self.new }
    {
        self.fails.push(call)?;
        Ok(())
    }

    /// The bytes that it took.
    pub fn bytes(&self) -> &[u8]
        ensures { result.now ≡ sink_bytes self.now }
    {
        self.bytes.as_slice()
    }

    // How many bytes the next call takes of a piece of this length.
    fn next_count(&self, piece_length: usize) -> usize
        ensures { result ≡ write_count self.now piece_length }
    {
        piece_length
            .min(self.piece)
            .min(self.room - self.bytes.len())
    }
}

impl Sink for MemSink {
    ghost use Rattle.wl_files.specs.MemSink.{sink_state, TakesMore, IsOneWrite, write_is_to_fail, write_count};

    ghost state = { sink_state };

    ghost takes_more = { TakesMore };

    // The trait's clauses, and then which calls fail, and how many bytes the others take.
    fn write(&mut self, piece: &[u8]) -> Result<usize, Failed>
        ensures taken { WriteAppends
            (sink_state self.old).taken (sink_state self.new).taken result piece.now }
        ensures bound { IfOk result (λ n. n ≤ length piece.now) }
        ensures stuck { result ≡ Ok 0 → 0 < length piece.now
            → Rose (sink_state self.old).faults (sink_state self.new).faults }
        ensures cause { CountsFaults
            (sink_state self.old).faults (sink_state self.new).faults result }
        ensures clean { IfOk result
            (λ n. 0 < n → (sink_state self.new).faults ≡ (sink_state self.old).faults) }
        ensures empty { length piece.now ≡ 0
            → OnOk result ((sink_state self.new).faults ≡ (sink_state self.old).faults) }
        ensures calm { (n : ℕ) → TakesMore self.old n → length piece.now ≤ n
            → IsCalmWrite (TakesMore self.new) n (length piece.now) result }

        ensures call { IsOneWrite self.old self.new }
        ensures told { write_is_to_fail self.old ≡ true → IsErr result }
        ensures untold { write_is_to_fail self.old ≡ false
            → IsOkAnd result (λ n. n ≡ write_count self.old (length piece.now)) }
    {
        self.calls = self.calls.saturating_add(1);
        if self.fails.contains(&self.calls) {
            self.faults = self.faults.saturating_add(1);
            return Err(Failed);
        }
        let count = self.next_count(piece.len());
        if count == 0 && !piece.is_empty() {
            self.faults = self.faults.saturating_add(1);
            return Ok(0);
        }
        self.bytes.extend_from_slice(&piece[..count]).unwrap();
        Ok(count)
    }
}
