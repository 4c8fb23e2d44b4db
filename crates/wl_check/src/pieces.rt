//! The pieces of a line, read from the front of a text.

ghost use Rattle.std.specs.Prelude.{◌≡◌, ◌↔◌, ℕ, ◌+◌, ◌^◌, ◌<◌, ◌≤◌, List, [], ◌∷◌, ◌++◌, length, Some, None, MatchBool, MatchOption, IsTrue, IfSome, IfNone, OnOk, OnSome};
ghost use Rattle.std.specs.Bool.{OnTrue};
ghost use Rattle.wl_check.specs.Reading.{Yields, Passes, NoDigit, seen_at, strip, case_at, flag_at, digits_from, natural_at, number_at, signed_of, signed_at, lower_digit, pair_at, hex_at, escaped_at, until_at, name_at, further_type_at, types_at, ended_at};
ghost use Rattle.wl_text.specs.Pieces.{is_escaped};

use crate::case::Case;
use std::alloc::{AllocError, AllocFailed, Global};
use std::marker::Model;
use wl_lists::ItemList;
use wl_module::ValType;

/// The byte between the words of a line.
pub(crate) const BLANK: u8 = b' ';

/// The byte that ends a line.
pub(crate) const NEWLINE: u8 = b'\n';

/// Why no line was read.
#[derive(Clone, Copy)]
pub(crate) enum Stop {
    /// No memory was left for a name or for bytes.
    OutOfMemory,
    /// No line stands there.
    NoLine,
}

impl From<AllocError> for Stop {
    ghost use Rattle.std.specs.Prelude.{◌≡◌};
    ghost use Rattle.wl_check.specs.declared.pieces.Stop.TheVariants.{OutOfMemory};

    ghost from_gives = { λ _ e. e ≡ OutOfMemory };

    fn from(_: AllocError) -> Self {
        Stop::OutOfMemory
    }
}

impl<T: Drop> From<AllocFailed<T>> for Stop {
    ghost use Rattle.std.specs.Prelude.{◌≡◌};
    ghost use Rattle.wl_check.specs.declared.pieces.Stop.TheVariants.{OutOfMemory};

    ghost from_gives = { λ _ e. e ≡ OutOfMemory };

    fn from(_: AllocFailed<T>) -> Self {
        Stop::OutOfMemory
    }
}

/// What is left of a text. Clauses see it as these bytes.
///
/// Each call reads a piece from the front, with the byte that ends it. A call that fails may have
/// taken a part of the piece: no line is read from there then.
#[derive(Drop)]
pub(crate) struct Words<'a> {
    rest: &'a [u8],
}

impl<'a> Model for Words<'a> {
    ghost use Rattle.std.specs.Prelude.{List, ℕ};

    ghost Value = { List ℕ };

    ghost view = { λ w. w.rest.now };
}

/// What is left of some bytes after the word with which they begin.
pub(crate) fn strip<'a>(bytes: &'a [u8], word: &[u8]) -> Option<&'a [u8]>
    ensures rest { MatchOption result
        (strip word.now bytes.now ≡ None)
        (λ rest. strip word.now bytes.now ≡ Some rest.now) }
    ensures len { IfSome result (λ rest. length rest.now + length word.now ≡ length bytes.now) }
{
    bytes.strip_prefix(word)
}

/// What a hexadecimal digit in lower case stands for.
fn lower_digit(digit: u8) -> Option<u8>
    ensures { result ≡ lower_digit digit }
{
    match digit {
        b'0'..=b'9' => Some(digit - b'0'),
        b'a'..=b'f' => Some(digit - b'a' + 10),
        _ => None,
    }
}

/// Whether a name has the byte after a backslash, in hexadecimal.
fn is_escaped(byte: u8) -> bool
    ensures { result ≡ is_escaped byte }
{
    byte < 0x20 || byte == b'"' || byte == b'\\' || byte == 0x7f
}

/// A number with its sign, of what follows the sign; 0 has none.
fn signed_of(negative: bool, number: u32) -> Option<i32>
    ensures { result ≡ signed_of negative number }
{
    let number = i64::from(number);
    if !negative {
        i32::try_from(number).ok()
    } else if number == 0 {
        None
    } else {
        i32::try_from(-number).ok()
    }
}

impl<'a> Words<'a> {
    /// All of a text.
    pub(crate) fn new(text: &'a [u8]) -> Self
        ensures { result ≡ text.now }
    {
        Words { rest: text }
    }

    /// Whether nothing is left.
    pub(crate) fn is_empty(&self) -> bool
        ensures { IsTrue result ↔ (self.now ≡ []) }
    {
        self.rest.is_empty()
    }

    // ---- words

    /// Passes the next word, or reports that it isn't there.
    pub(crate) fn passes(&mut self, word: &[u8]) -> bool
        ensures there { MatchBool result
            (strip word.now self.old ≡ Some self.new)
            ((strip word.now self.old ≡ None) × (self.new ≡ self.old)) }
        ensures len { OnTrue result (length self.new + length word.now ≡ length self.old) }
    {
        match strip(self.rest, word) {
            Some(rest) => {
                self.rest = rest;
                true
            }
            None => false,
        }
    }

    /// Passes a word that has to come next.
    pub(crate) fn expect(&mut self, word: &[u8]) -> Result<(), Stop>
        ensures there { Passes result self.new (strip word.now self.old) }
        ensures len { OnOk result (length self.new + length word.now ≡ length self.old) }
    {
        if self.passes(word) {
            Ok(())
        } else {
            Err(Stop::NoLine)
        }
    }

    /// Whether the second of two words stands there, or else the first.
    pub(crate) fn flag(&mut self, off: &[u8], on: &[u8]) -> Result<bool, Stop>
        ensures { Yields (λ b. b) result self.new (flag_at off.now on.now self.old) }
    {
        if self.passes(on) {
            return Ok(true);
        }
        self.expect(off)?;
        Ok(false)
    }

    /// The case whose word comes next.
    pub(crate) fn case<C: Case>(&mut self) -> Result<C, Stop>
        ensures there { Yields (λ x. x) result self.new (case_at C.word_of C.cases self.old) }
        ensures len { OnOk result (length self.new ≤ length self.old) }
    {
        for case in C::all() {
            if let Some(rest) = strip(self.rest, case.word()) {
                self.rest = rest;
                return Ok(*case);
            }
        }
        Err(Stop::NoLine)
    }

    /// The case whose word comes next, and the byte that ends it.
    pub(crate) fn ended_case<C: Case>(&mut self, end: u8) -> Result<C, Stop>
        ensures { Yields (λ x. x) result self.new
            (ended_at end (case_at C.word_of C.cases) self.old) }
    {
        let case = self.case()?;
        self.expect(&[end])?;
        Ok(case)
    }

    // ---- numbers

    /// The next digit.
    fn digit(&mut self) -> Option<u8>
        ensures some { IfSome result (λ d. (d < 10) × (self.old ≡ (d + 48) ∷ self.new)) }
        ensures none { IfNone result (NoDigit self.old × (self.new ≡ self.old)) }
        ensures len { OnSome result (length self.new < length self.old) }
    {
        let [first, rest @ ..] = self.rest else {
            return None;
        };
        if !first.is_ascii_digit() {
            return None;
        }
        self.rest = rest;
        Some(*first - b'0')
    }

    /// The next digits, after those of a number so far; nothing from 2 ^ 64 on.
    fn digits(&mut self, first: u64) -> Option<u64>
        ensures some { IfSome result (λ n. digits_from first self.old ≡ (n, self.new)) }
        ensures none { IfNone result (2 ^ 64 ≤ (digits_from first self.old).0) }
    {
        let mut number = first;
        while let Some(digit) = self.digit() {
            number = number.checked_mul(10)?.checked_add(u64::from(digit))?;
        }
        Some(number)
    }

    /// A number below 2 ^ 64, without the byte that ends it: after a leading 0 comes no other
    /// digit.
    fn natural(&mut self) -> Option<u64>
        ensures some { IfSome result (λ n. natural_at self.old ≡ Some (n, self.new)) }
        ensures none { IfNone result
            ((n : ℕ) (rest : List ℕ) → natural_at self.old ≡ Some (n, rest) → 2 ^ 64 ≤ n) }
    {
        let first = self.digit()?;
        if first == 0 {
            Some(0)
        } else {
            self.digits(u64::from(first))
        }
    }

    /// A number of 64 bits, and the byte that ends it.
    #[tactic(auto, unfolding(crate::specs::Reading::number_at))]
    pub(crate) fn large(&mut self, end: u8) -> Result<u64, Stop>
        ensures { Yields (λ n. n) result self.new (number_at 64 end self.old) }
    {
        let number = self.natural().ok_or(Stop::NoLine)?;
        self.expect(&[end])?;
        Ok(number)
    }

    /// A number of 32 bits, and the byte that ends it.
    #[tactic(auto, unfolding(crate::specs::Reading::number_at))]
    pub(crate) fn small(&mut self, end: u8) -> Result<u32, Stop>
        ensures { Yields (λ n. n) result self.new (number_at 32 end self.old) }
    {
        let number = self.natural().ok_or(Stop::NoLine)?;
        let small = u32::try_from(number).ok().ok_or(Stop::NoLine)?;
        self.expect(&[end])?;
        Ok(small)
    }

    /// A number of 32 bits with its sign, and the byte that ends it.
    #[tactic(auto, unfolding(crate::specs::Reading::signed_at))]
    pub(crate) fn signed(&mut self, end: u8) -> Result<i32, Stop>
        ensures { Yields (λ z. z) result self.new (signed_at end self.old) }
    {
        let negative = self.passes(b"-");
        let number = self.small(end)?;
        signed_of(negative, number).ok_or(Stop::NoLine)
    }

    // ---- bytes and names

    /// A byte in two hexadecimal digits.
    #[tactic(auto, unfolding(crate::specs::Reading::pair_at))]
    fn pair(&mut self) -> Result<u8, Stop>
        ensures there { Yields (λ b. b) result self.new (pair_at self.old) }
        ensures len { OnOk result (length self.new < length self.old) }
    {
        let [high, low, rest @ ..] = self.rest else {
            return Err(Stop::NoLine);
        };
        let high = lower_digit(*high).ok_or(Stop::NoLine)?;
        let low = lower_digit(*low).ok_or(Stop::NoLine)?;
        self.rest = rest;
        Ok(high * 16 + low)
    }

    /// Bytes in hexadecimal, and the byte that ends them.
    pub(crate) fn hex(&mut self, alloc: Global, end: u8) -> Result<ItemList<u8>, Stop>
        ensures { Yields (λ b. b) result self.new (hex_at end self.old) }
    {
        let mut bytes = Vec::new(alloc);
        while !self.passes(&[end]) {
            bytes.push(self.pair()?)?;
        }
        Ok(ItemList::new(bytes))
    }

    /// A byte of a name.
    #[tactic(auto, unfolding(crate::specs::Reading::escaped_at))]
    fn escaped(&mut self) -> Result<u8, Stop>
        ensures there { Yields (λ b. b) result self.new (escaped_at self.old) }
        ensures len { OnOk result (length self.new < length self.old) }
    {
        let [byte, rest @ ..] = self.rest else {
            return Err(Stop::NoLine);
        };
        self.rest = rest;
        if *byte == b'\\' {
            let byte = self.pair()?;
            if is_escaped(byte) {
                Ok(byte)
            } else {
                Err(Stop::NoLine)
            }
        } else if is_escaped(*byte) {
            Err(Stop::NoLine)
        } else {
            Ok(*byte)
        }
    }

    /// The bytes of a name up to the quote after it.
    fn unquoted(&mut self, alloc: Global) -> Result<ItemList<u8>, Stop>
        ensures { Yields (λ b. b) result self.new (until_at 0x22 escaped_at self.old) }
    {
        let mut name = Vec::new(alloc);
        while !self.passes(b"\"") {
            name.push(self.escaped()?)?;
        }
        Ok(ItemList::new(name))
    }

    /// A name in quotes, and the byte that ends it.
    pub(crate) fn name(&mut self, alloc: Global, end: u8) -> Result<ItemList<u8>, Stop>
        ensures { Yields (λ b. b) result self.new (name_at end self.old) }
    {
        self.expect(b"\"")?;
        let name = self.unquoted(alloc)?;
        self.expect(&[end])?;
        Ok(name)
    }

    // ---- types

    /// A value type after another one.
    fn further_type(&mut self) -> Result<ValType, Stop>
        ensures there { Yields (λ t. t) result self.new (further_type_at self.old) }
        ensures len { OnOk result (length self.new < length self.old) }
    {
        self.expect(b",")?;
        self.case()
    }

    /// Value types, each after a comma, up to a bracket.
    fn further_types(&mut self, types: &mut Vec<ValType>) -> Result<(), Stop>
        ensures { Yields (λ (u : Unit {0}). types.new.items) result self.new
            (seen_at (λ ts. types.old.items ++ ts) (until_at 0x29 further_type_at) self.old) }
    {
        while !self.passes(b")") {
            types.push(self.further_type()?)?;
        }
        Ok(())
    }

    /// Value types with a comma between two of them, up to a bracket.
    pub(crate) fn types(&mut self, alloc: Global) -> Result<Vec<ValType>, Stop>
        ensures { Yields (λ t. t.items) result self.new (types_at self.old) }
    {
        let mut types = Vec::new(alloc);
        if !self.passes(b")") {
            types.push(self.case()?)?;
            self.further_types(&mut types)?;
        }
        Ok(types)
    }
}
