//! A list of texts.

ghost use Rattle.std.specs.Prelude.{◌≡◌, ◌==◌, [], ◌∷◌, ◌++◌, length, OnOk, OnErr, bytes_eq};
ghost use Rattle.std.specs.List.{list_any};
ghost use Rattle.wl_words.specs.Texts.{texts, nonempty};

use std::alloc::{AllocError, Global};
use std::marker::Model;

/// Texts in order. Clauses see them as a list, and each as its bytes.
#[derive(Drop)]
pub struct Texts {
    items: Vec<String>,
}

impl Model for Texts {
    ghost use Rattle.std.specs.Prelude.{List, ℕ};
    ghost use Rattle.wl_words.specs.Texts.{texts};

    ghost Value = { List (List ℕ) };

    ghost view = { λ t. texts t.items.items };
}

impl Texts {
    /// No texts.
    pub fn new(alloc: Global) -> Self
        ensures { result ≡ [] }
    {
        Texts {
            items: Vec::new(alloc),
        }
    }

    /// Appends a copy of this text to the others.
    pub fn push(&mut self, alloc: Global, text: &str) -> Result<(), AllocError>
        ensures ok { OnOk result (self.new ≡ self.old ++ text.now ∷ []) }
        ensures err { OnErr result (self.new ≡ self.old) }
    {
        self.items.push(String::from_str(alloc, text)?)?;
        Ok(())
    }

    /// Appends a copy of this text to the others, where it isn't empty.
    pub(crate) fn push_filled(&mut self, alloc: Global, text: &str) -> Result<(), AllocError>
        ensures { OnOk result (self.new ≡ self.old ++ nonempty (text.now ∷ [])) }
    {
        if !text.is_empty() {
            self.push(alloc, text)?;
        }
        Ok(())
    }

    /// Whether one of the texts is this one.
    pub fn contains(&self, text: &str) -> bool
        ensures { result ≡ list_any (λ t. bytes_eq t text.now) self.now }
    {
        for item in &self.items {
            if item.as_str() == text {
                return true;
            }
        }
        false
    }

    /// There are no texts.
    pub fn is_empty(&self) -> bool
        ensures { result ≡ (length self.now == 0) }
    {
        self.items.is_empty()
    }

    /// The texts as a slice.
    pub fn as_slice(&self) -> &[String]
        ensures { texts result.now ≡ self.now }
    {
        self.items.as_slice()
    }
}
