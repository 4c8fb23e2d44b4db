//! What a relocatable object holds, in lists of the caller's own.

ghost use Rattle.std.specs.Prelude.{◌≡◌, IfOk};

use crate::file::File;
use std::alloc::{AllocError, Global};
use wl_custom::DebugSectionInput;
use wl_module::{MemoryType, OutputGlobal, WasmDataSegment, WasmFunctionBody};

/// Lists of what an object holds, for callers that keep or change them. Bytes that the object
/// borrows are borrowed in them too.
impl<'a> File<'a> {
    /// The body of each function that the object defines, as [`bodies`](File::bodies) shows them
    /// (core specification, "Code Section").
    ///
    /// # Errors
    /// `AllocError` where memory runs out.
    pub fn function_bodies(&self, alloc: Global) -> Result<Vec<WasmFunctionBody<'a>>, AllocError>
        ensures { IfOk result (λ v. v.items ≡ self.now.bodies) }
    {
        let mut bodies = Vec::new(alloc);
        for body in self.bodies() {
            bodies.push(body.duplicate(alloc)?)?;
        }
        Ok(bodies)
    }

    /// The type of each function that the object defines, as its number among the types, as
    /// [`functions`](File::functions) shows them (core specification, "Function Section").
    ///
    /// # Errors
    /// `AllocError` where memory runs out.
    pub fn module_functions(&self, alloc: Global) -> Result<Vec<u32>, AllocError>
        ensures { IfOk result (λ v. v.items ≡ self.now.functions) }
    {
        Vec::from_slice(alloc, self.functions())
    }

    /// The globals that the object defines, as [`globals`](File::globals) shows them (core
    /// specification, "Global Section").
    ///
    /// # Errors
    /// `AllocError` where memory runs out.
    pub fn module_globals(&self, alloc: Global) -> Result<Vec<OutputGlobal<'a>>, AllocError>
        ensures { IfOk result (λ v. v.items ≡ self.now.globals) }
    {
        let mut globals = Vec::new(alloc);
        for global in self.globals() {
            globals.push(global.duplicate(alloc)?)?;
        }
        Ok(globals)
    }

    /// The segments, as [`segments`](File::segments) shows them (core specification, "Data
    /// Section").
    ///
    /// # Errors
    /// `AllocError` where memory runs out.
    pub fn data_segments(&self, alloc: Global) -> Result<Vec<WasmDataSegment<'a>>, AllocError>
        ensures { IfOk result (λ v. v.items ≡ self.now.segments) }
    {
        let mut segments = Vec::new(alloc);
        for segment in self.segments() {
            segments.push(segment.duplicate())?;
        }
        Ok(segments)
    }

    /// The memories that the object defines, as [`memory_types`](File::memory_types) shows them
    /// (core specification, "Memory Section").
    ///
    /// # Errors
    /// `AllocError` where memory runs out.
    pub fn memories(&self, alloc: Global) -> Result<Vec<MemoryType>, AllocError>
        ensures { IfOk result (λ v. v.items ≡ self.now.memories) }
    {
        Vec::from_slice(alloc, self.memory_types())
    }

    /// The debug sections, as [`debug_inputs`](File::debug_inputs) shows them (core specification,
    /// "Custom Section").
    ///
    /// # Errors
    /// `AllocError` where memory runs out.
    pub fn debug_sections(&self, alloc: Global) -> Result<Vec<DebugSectionInput<'a>>, AllocError>
        ensures { IfOk result (λ v. v.items ≡ self.now.debug_sections) }
    {
        let mut sections = Vec::new(alloc);
        for section in self.debug_inputs() {
            sections.push(DebugSectionInput {
                name: section.name,
                payload: section.payload,
                object_index: section.object_index,
            })?;
        }
        Ok(sections)
    }
}
