//! Where two listings differ first.

ghost use Rattle.std.specs.Prelude.{◌≡◌, ℕ, List, None, Option, IfOk, slice_get};
ghost use Rattle.wl_check.specs.Difference.{DiffersAt, IsDifference, IsSomeListing};
ghost use Rattle.wl_check.specs.DifferenceSteps.{AreAlike, StandApart};
ghost use Rattle.wl_check.specs.Spelled.{first_stretch, IsListing};
ghost use Rattle.wl_check.specs.declared.difference.Difference.{Difference as Place};
ghost use Rattle.wl_check.specs.declared.line.Line.{Line as Row};

use crate::line::Line;
use crate::pieces::{NEWLINE, Stop, Words, strip};
use memchr::memchr;
use std::alloc::{AllocError, Global};

/// Where two listings differ first.
#[derive(Drop)]
pub struct Difference {
    /// How many equal lines both begin with.
    pub line: usize,
    /// What comes then in the first; nothing where it has ended.
    pub found: Option<Line>,
    /// What comes then in the second.
    pub want: Option<Line>,
}

/// The bytes up to the first line end, with it, or to the text's end.
fn first_stretch(text: &[u8]) -> &[u8]
    ensures { result.now ≡ first_stretch text.now }
{
    match memchr(NEWLINE, text) {
        None => text,
        Some(at) => text.split_at(at + 1).0,
    }
}

/// What two listings have in common at their front, line by line.
#[derive(Drop)]
struct Alike<'f, 'w> {
    /// How many lines that are.
    lines: usize,
    /// What is left of the first after them.
    found: &'f [u8],
    /// What is left of the second.
    want: &'w [u8],
}

/// What two listings have in common at their front.
fn common_front<'f, 'w>(found: &'f [u8], want: &'w [u8]) -> Alike<'f, 'w>
    requires found { IsSomeListing found.now }
    requires want { IsSomeListing want.now }
    ensures alike { AreAlike found.now want.now result.lines result.found.now result.want.now }
    ensures apart { StandApart result.found.now result.want.now }
{
    let (mut found, mut want, mut lines) = (found, want, 0);
    while !found.is_empty() {
        let stretch = first_stretch(found);
        let Some(behind) = strip(want, stretch) else {
            return Alike { lines, found, want };
        };
        want = behind;
        found = found.split_at(stretch.len()).1;
        lines += 1;
    }
    Alike { lines, found, want }
}

/// The first line of a listing, where it has one.
fn first_line(alloc: Global, text: &[u8]) -> Result<Option<Line>, AllocError>
    requires { IsSomeListing text.now }
    ensures { (lines : List Row) → IsListing lines text.now
        → IfOk result (λ line. line ≡ slice_get lines 0) }
{
    if text.is_empty() {
        return Ok(None);
    }
    match Words::new(text).line(alloc) {
        Ok(line) => Ok(Some(line)),
        Err(Stop::OutOfMemory) => Err(AllocError),
        // What begins a listing is a line.
        Err(Stop::NoLine) => unreachable!(),
    }
}

/// Where two listings differ first, if they do. They are compared line by line, and no list of
/// lines is made.
///
/// # Errors
/// `AllocError` where memory runs out: that of the two lines that differ is taken, and no more.
pub fn first_difference(
    alloc: Global,
    found: &[u8],
    want: &[u8],
) -> Result<Option<Difference>, AllocError>
    requires found { IsSomeListing found.now }
    requires want { IsSomeListing want.now }
    ensures { (ks ls : List Row) → IsListing ks found.now → IsListing ls want.now
        → IfOk result (IsDifference ks ls) }
{
    let alike = common_front(found, want);
    if alike.found.is_empty() && alike.want.is_empty() {
        return Ok(None);
    }
    Ok(Some(Difference {
        line: alike.lines,
        found: first_line(alloc, alike.found)?,
        want: first_line(alloc, alike.want)?,
    }))
}

/// Two lists of lines differ first at one place, or at none.
pub fn differences_are_one()
    ensures { (ks ls : List Row) (a b : Option Place) → IsDifference ks ls a → IsDifference ks ls b
        → a ≡ b }
{}
