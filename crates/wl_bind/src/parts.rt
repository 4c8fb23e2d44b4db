//! Where the parts of a space begin.

ghost use Rattle.std.specs.Prelude.{◌≡◌, ◌≤◌, ◌+◌, IfOk, IfErr};
ghost use Rattle.wl_index.specs.declared.index.TheConstants.{MAX_ENTRIES};
ghost use Rattle.wl_bind.specs.steps.Parts.{entry_of};
ghost use Rattle.wl_bind.specs.Parts.{starts_from, total, start_of, single_of, HasEntry, IsOver};

use std::alloc::Global;
use wl_index::MAX_ENTRIES;
use wl_linking::{LinkError, Quantity};
use wl_lists::ItemList;

/// Where each part of a space begins, and where the last one ends.
#[derive(Drop)]
pub struct PartStarts {
    /// The index of the first entry of each part.
    pub(crate) starts: ItemList<u32>,
    /// The index after the last entry of all.
    pub(crate) end: u32,
}

/// The index after so many entries from that one on.
///
/// # Errors
/// `TooLarge` where that is above 4294967294.
pub(crate) fn behind(start: u32, len: usize) -> Result<u32, LinkError>
    requires { start ≤ MAX_ENTRIES }
    ensures ok { IfOk result (λ end. end ≡ start + len) }
    ensures room { IfOk result (λ end. end ≤ MAX_ENTRIES) }
    ensures err { IfErr result (IsOver (start + len)) }
{
    let room = MAX_ENTRIES - start as usize;
    if len > room {
        return Err(LinkError::TooLarge {
            what: Quantity::Space,
        });
    }
    Ok(start + len as u32)
}

impl PartStarts {
    /// Where parts of these lengths begin.
    ///
    /// # Errors
    /// `TooLarge` where they have more than 4294967294 entries together.
    pub(crate) fn new(alloc: Global, lengths: &[usize]) -> Result<Self, LinkError>
        ensures starts { IfOk result (λ s. s.starts ≡ starts_from 0 lengths.now) }
        ensures end { IfOk result (λ s. s.end ≡ total lengths.now) }
        ensures room { IfOk result (λ s. s.end ≤ MAX_ENTRIES) }
        ensures err { IfErr result (IsOver (total lengths.now)) }
    {
        let mut starts = ItemList::empty(alloc);
        let mut end = 0;
        for len in lengths {
            starts.push(end)?;
            end = behind(end, *len)?;
        }
        Ok(PartStarts { starts, end })
    }

    /// The index of the first entry of a part.
    pub(crate) fn start(&self, part: usize) -> u32
        ensures { result ≡ start_of self.now part }
    {
        self.starts
            .as_slice()
            .get(part)
            .copied()
            .unwrap_or(self.end)
    }

    /// The index of the one entry of a part, if it has one.
    pub(crate) fn single(&self, part: usize) -> Option<u32>
        ensures { result ≡ single_of self.now part }
    {
        let start = self.start(part);
        (start < self.end_of(part)).then_some(start)
    }

    /// The index after the last entry of a part.
    fn end_of(&self, part: usize) -> u32
        ensures { result ≡ start_of self.now (part + 1) }
    {
        match self.starts.as_slice().get(part) {
            None => self.end,
            Some(_) => self.start(part + 1),
        }
    }

    /// The index of the entry of that place in a part, if it has one.
    pub(crate) fn entry_at(&self, part: usize, place: usize) -> Option<u32>
        ensures { result ≡ entry_of self.now part place }
    {
        let start = self.start(part);
        let len = self.end_of(part).saturating_sub(start);
        if place < len as usize {
            Some(start + place as u32)
        } else {
            None
        }
    }

    /// The index of the entry of that place in a part, which has one.
    pub(crate) fn entry(&self, part: usize, place: usize) -> u32
        requires { HasEntry self.now part place }
        ensures { result ≡ start_of self.now part + place }
    {
        self.entry_at(part, place).unwrap_or(self.end)
    }
}
