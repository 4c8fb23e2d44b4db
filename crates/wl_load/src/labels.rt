//! Tables of labels.

ghost use Rattle.std.specs.Prelude.{◌≡◌, IfOk};
ghost use Rattle.wl_load.specs.Immediates.{are_labels, label_at, labels_in};
ghost use Rattle.wl_load.specs.Labels.{needed_from};

use crate::immediates::{label_at, labels_in};
use crate::stop::Stop;
use std::alloc::{AllocError, Global};
use std::marker::Model;

/// The labels of a table of branches, of which the greatest one is known. Clauses see them as a
/// list.
#[derive(Drop)]
pub struct Labels {
    labels: Vec<i64>,
    needed: Option<u64>,
}

impl Model for Labels {
    ghost use Rattle.std.specs.Prelude.{◌≡◌, List, ℤ};
    ghost use Rattle.wl_load.specs.Labels.{needed_from};

    ghost Value = { List ℤ };

    ghost view = { λ l. l.labels.items };

    ghost invariant = { λ l. l.needed ≡ needed_from 0 l.labels.items };
}

/// How many blocks have to be open for each of the labels; none are enough for one below 0.
fn needed_for(labels: &[i64]) -> Option<u64>
    ensures { result ≡ needed_from 0 labels.now }
{
    let mut needed: u64 = 0;
    for label in labels {
        match u64::try_from(*label) {
            Ok(label) => needed = needed.max(label + 1),
            Err(_) => return None,
        }
    }
    Some(needed)
}

impl Labels {
    /// The labels that follow their count.
    pub(crate) fn new(alloc: Global, args: &[i64]) -> Result<Self, AllocError>
        ensures { IfOk result (λ labels. labels ≡ labels_in args.now) }
    {
        let labels = labels_in(args);
        Ok(Labels {
            labels: Vec::from_slice(alloc, labels)?,
            needed: needed_for(labels),
        })
    }

    /// Whether each is one of so many labels.
    #[tactic(auto, using(crate::proofs::LabelLaws::needed_are_labels))]
    pub(crate) fn are_open(&self, count: usize) -> bool
        ensures { result ≡ are_labels count self.now }
    {
        match self.needed {
            Some(needed) => needed <= count as u64,
            None => false,
        }
    }

    /// The label at a number, or the last one.
    pub(crate) fn at(&self, number: u32) -> Result<u32, Stop>
        ensures { result ≡ label_at self.now number }
    {
        label_at(&self.labels, number)
    }
}
