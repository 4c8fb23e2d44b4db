//! The objects as they were read.

ghost use Rattle.std.specs.Prelude.{◌≡◌, [], ◌∷◌, ◌++◌, ◌<◌, length, IfErr, OnOk, OnErr, IfSome, ◌≤◌, Some, slice_get, MatchOption, None};
ghost use Rattle.wl_plan.specs.Contents.{AllWithin, HandsBack};
ghost use Rattle.wl_plan.specs.declared.objects.TheConstants.{MAX_OBJECT};

use std::alloc::Global;
use std::marker::Model;
use wl_bytes::MAX_LEN;

/// The longest object, in bytes.
pub const MAX_OBJECT: usize = MAX_LEN;

/// Why an object wasn't taken. It is handed back.
#[derive(Drop)]
pub enum PushError {
    /// Memory ran out.
    OutOfMemory(Vec<u8>),
    /// It has more than `MAX_OBJECT` bytes.
    TooLong(Vec<u8>),
}

/// The bytes of each object, in the order given, none longer than `MAX_OBJECT`.
#[derive(Drop)]
pub struct ObjectList {
    objects: Vec<Vec<u8>>,
}

impl Model for ObjectList {
    ghost use Rattle.std.specs.Prelude.{List, ℕ};
    ghost use Rattle.wl_plan.specs.Contents.{contents, AllWithin};

    ghost Value = { List (List ℕ) };

    ghost view = { λ o. contents o.objects.items };

    ghost invariant = { λ o. AllWithin (contents o.objects.items) };
}

impl ObjectList {
    /// No objects.
    pub fn new(alloc: Global) -> Self
        ensures { result ≡ [] }
    {
        ObjectList {
            objects: Vec::new(alloc),
        }
    }

    /// Takes an object at the end.
    ///
    /// # Errors
    /// `TooLong` exactly where it has more than `MAX_OBJECT` bytes, and want of memory. The object
    /// is then handed back, and the list is as it was.
    pub fn push(&mut self, bytes: Vec<u8>) -> Result<(), PushError>
        ensures ok { OnOk result (self.new ≡ self.old ++ bytes.items ∷ []) }
        ensures err { OnErr result (self.new ≡ self.old) }
        ensures within { OnOk result (length bytes.items ≤ MAX_OBJECT) }
        ensures back { IfErr result (HandsBack bytes.items) }
    {
        if bytes.len() > MAX_OBJECT {
            return Err(PushError::TooLong(bytes));
        }
        match self.objects.push(bytes) {
            Ok(()) => Ok(()),
            Err(failed) => Err(PushError::OutOfMemory(failed.value)),
        }
    }

    /// No object has more than `MAX_OBJECT` bytes.
    pub fn none_is_longer(&self)
        ensures { AllWithin self.now }
    {
        let _objects = self.objects.as_slice();
    }

    /// The number of objects.
    pub fn len(&self) -> usize
        ensures { result ≡ length self.now }
    {
        self.objects.len()
    }

    /// The bytes of an object.
    pub fn get(&self, object: usize) -> Option<&[u8]>
        ensures bytes { MatchOption result
            (slice_get self.now object ≡ None)
            (λ bytes. slice_get self.now object ≡ Some bytes.now) }
        ensures within { IfSome result (λ bytes. length bytes.now ≤ MAX_OBJECT) }
    {
        if object < self.objects.len() {
            Some(self.objects[object].as_slice())
        } else {
            None
        }
    }
}
