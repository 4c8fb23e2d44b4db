//! Marks in packed bits.

ghost use Rattle.std.specs.Prelude.{◌≡◌, ◌≢◌, ◌<◌, ◌==◌, ◌+◌, ◌*◌, ◌/◌, ◌%◌, ◌^◌, count_ones, ℕ, IfOk, false, true, length, replicate, slice_index_or, slice_set};
ghost use Rattle.std.specs.Int.{bit_at};
ghost use Rattle.wl_reach.specs.Marks.{count_before, IsRankTable};

use std::alloc::{AllocError, Global};
use std::marker::Model;

/// How many marks a word holds.
const WORD_BITS: usize = 64;

/// A list of marks, each set or not, as bits in words of 64. Clauses see it as a list of Booleans.
#[derive(Drop)]
pub struct Marks {
    words: Vec<u64>,
    len: usize,
}

impl Model for Marks {
    ghost use Rattle.std.specs.Prelude.{List, Bool, ◌≤◌, ◌*◌, length};
    ghost use Rattle.wl_reach.specs.Marks.{unpacked};

    ghost Value = { List Bool };

    ghost view = { λ m. unpacked m.len m.words.items };

    ghost invariant = { λ m. m.len ≤ 64 * length m.words.items };
}

/// Whether the bit is set.
fn has_bit(word: u64, bit: u32) -> bool
    requires { bit < 64 }
    ensures { result ≡ (bit_at word bit == 1) }
{
    (word >> bit) & 1 == 1
}

/// The word with the bit set.
fn with_bit(word: u64, bit: u32) -> u64
    requires { bit < 64 }
    ensures set { bit_at result bit ≡ 1 }
    ensures others { (i : ℕ) → i ≢ bit → bit_at result i ≡ bit_at word i }
{
    word | (1 << bit)
}

impl Marks {
    /// So many marks, none of them set.
    #[tactic(auto, using(crate::proofs::MarkLaws::unpacked_zeros))]
    pub fn new(alloc: Global, len: usize) -> Result<Self, AllocError>
        ensures { IfOk result (λ m. m ≡ replicate len false) }
    {
        let words = vec![in alloc; 0; len.div_ceil(WORD_BITS)]?;
        Ok(Marks { words, len })
    }

    /// So many marks, all of them set.
    #[tactic(auto, using(crate::proofs::MarkLaws::unpacked_ones))]
    pub fn filled(alloc: Global, len: usize) -> Result<Self, AllocError>
        ensures { IfOk result (λ m. m ≡ replicate len true) }
    {
        let words = vec![in alloc; u64::MAX; len.div_ceil(WORD_BITS)]?;
        Ok(Marks { words, len })
    }

    /// How many marks there are.
    pub fn len(&self) -> usize
        ensures { result ≡ length self.now }
    {
        self.len
    }

    /// Whether the mark of that number is set.
    pub fn get(&self, place: usize) -> bool
        requires { place < length self.now }
        ensures { result ≡ slice_index_or self.now place false }
    {
        has_bit(self.words[place / WORD_BITS], (place % WORD_BITS) as u32)
    }

    /// Sets the mark of that number.
    pub fn set(&mut self, place: usize)
        requires { place < length self.old }
        ensures { self.new ≡ slice_set self.old place true }
    {
        let index = place / WORD_BITS;
        self.words[index] = with_bit(self.words[index], (place % WORD_BITS) as u32);
    }

    /// How many of the marks of a place's word before that place are set.
    fn count_in_word(&self, place: usize) -> usize
        requires { place < length self.now }
        ensures { count_before self.now (place / 64 * 64) + result
            ≡ count_before self.now place }
    {
        ones_below(self.words[place / WORD_BITS], (place % WORD_BITS) as u32)
    }
}

/// How many of a word's first bits are set.
fn ones_below(word: u64, bits: u32) -> usize
    requires { bits < 64 }
    ensures { result ≡ count_ones (word % 2 ^ bits) }
{
    (word & ((1 << bits) - 1)).count_ones() as usize
}

/// How many of the marks before each word are set.
fn count_before_words(alloc: Global, marks: &Marks) -> Result<Vec<usize>, AllocError>
    ensures { IfOk result (λ v. IsRankTable marks.now v.items) }
{
    let mut before: Vec<usize> = Vec::new(alloc);
    let mut total: usize = 0;
    let len = marks.len();
    for word in 0..len.div_ceil(WORD_BITS) {
        before.push(total)?;
        let last = (word * WORD_BITS + (WORD_BITS - 1)).min(len - 1);
        total += marks.count_in_word(last) + usize::from(marks.get(last));
    }
    Ok(before)
}

/// Marks, and how many of those before each word are set, so that set ones are counted in no time.
/// Clauses see them as the list of the marks.
#[derive(Drop)]
pub struct RankedMarks {
    marks: Marks,
    before: Vec<usize>,
}

impl Model for RankedMarks {
    ghost use Rattle.std.specs.Prelude.{List, Bool};
    ghost use Rattle.wl_reach.specs.Marks.{IsRankTable};

    ghost Value = { List Bool };

    ghost view = { λ r. r.marks };

    ghost invariant = { λ r. IsRankTable r.marks r.before.items };
}

impl RankedMarks {
    /// The same marks, with the table.
    pub fn new(alloc: Global, marks: Marks) -> Result<Self, AllocError>
        ensures { IfOk result (λ r. r ≡ marks) }
    {
        let before = count_before_words(alloc, &marks)?;
        Ok(RankedMarks { marks, before })
    }

    /// How many marks there are.
    pub fn len(&self) -> usize
        ensures { result ≡ length self.now }
    {
        self.marks.len()
    }

    /// Whether the mark of that number is set.
    pub fn get(&self, place: usize) -> bool
        requires { place < length self.now }
        ensures { result ≡ slice_index_or self.now place false }
    {
        self.marks.get(place)
    }

    /// How many of the marks before that one are set.
    pub fn count_before(&self, place: usize) -> usize
        requires { place < length self.now }
        ensures { result ≡ count_before self.now place }
    {
        self.before[place / WORD_BITS] + self.marks.count_in_word(place)
    }
}
