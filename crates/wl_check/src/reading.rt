//! Lines, read from the front of a text.

ghost use Rattle.wl_check.specs.Reading.{Yields};
ghost use Rattle.wl_check.specs.LineReading.{large_at, global_type_at, maximum_at, memory_at, unit_at, source_at, origin_at, state_at, to_at, fixup_at, line_body, line_at};
ghost use Rattle.wl_check.specs.declared.kinds.LineKind.TheVariants as kind;

use crate::kinds::{LineKind, OriginKind, SourceKind, StateKind};
use crate::line::{FunctionSource, Line, SegmentState};
use crate::pieces::{BLANK, NEWLINE, Stop, Words};
use std::alloc::Global;
use wl_module::{FuncType, GlobalType, MemoryType};
use wl_output::{Fixup, FixupTo, GlobalOrigin, OutputImportEntity};

impl<'a> Words<'a> {
    // ---- types

    /// The type of a global, with the two words for whether it can change.
    fn global_type(&mut self, off: &[u8], on: &[u8]) -> Result<GlobalType, Stop>
        ensures { Yields (λ t. t) result self.new (global_type_at off.now on.now self.old) }
    {
        let content_type = self.ended_case(BLANK)?;
        let mutable = self.flag(off, on)?;
        Ok(GlobalType {
            content_type,
            mutable,
        })
    }

    /// The greatest size of a memory, if it has one.
    fn maximum(&mut self) -> Result<Option<u64>, Stop>
        ensures { Yields (λ m. m) result self.new (maximum_at self.old) }
    {
        if self.passes(b"- ") {
            return Ok(None);
        }
        let maximum = self.large(BLANK)?;
        Ok(Some(maximum))
    }

    /// A memory, up to the end of the line.
    #[tactic(auto, unfolding(crate::specs::LineReading::memory_at))]
    fn memory(&mut self) -> Result<MemoryType, Stop>
        ensures { Yields (λ m. m) result self.new (memory_at self.old) }
    {
        let initial = self.large(BLANK)?;
        let maximum = self.maximum()?;
        let shared = self.flag(b"-\n", b"shared\n")?;
        Ok(MemoryType {
            initial,
            maximum,
            shared,
        })
    }

    // ---- where things are from, and where they go

    /// The number of an object, and that of a thing in it, up to the end of the line.
    fn unit(&mut self) -> Result<(usize, u32), Stop>
        ensures { Yields (λ p. p) result self.new (unit_at self.old) }
    {
        let object = self.object()?;
        self.expect(b"unit ")?;
        let unit = self.small(NEWLINE)?;
        Ok((object, unit))
    }

    /// The number of an object.
    fn object(&mut self) -> Result<usize, Stop>
        ensures { Yields (λ n. n) result self.new (large_at self.old) }
    {
        Ok(self.large(BLANK)? as usize)
    }

    /// Where a function is from.
    #[tactic(auto, unfolding(crate::specs::LineReading::source_at))]
    fn source(&mut self, alloc: Global) -> Result<FunctionSource, Stop>
        ensures { Yields (λ s. s) result self.new (source_at self.old) }
    {
        match self.case()? {
            SourceKind::Object => {
                let (object, unit) = self.unit()?;
                Ok(FunctionSource::Object { object, unit })
            }
            SourceKind::Made => {
                let made = self.ended_case(NEWLINE)?;
                Ok(FunctionSource::Made(made))
            }
            SourceKind::Stub => {
                let name = self.name(alloc, NEWLINE)?;
                Ok(FunctionSource::Stub { name })
            }
            SourceKind::Wrap => {
                let name = self.name(alloc, NEWLINE)?;
                Ok(FunctionSource::Wrap { name })
            }
        }
    }

    /// Where a global is from.
    #[tactic(auto, unfolding(crate::specs::LineReading::origin_at))]
    fn origin(&mut self) -> Result<GlobalOrigin, Stop>
        ensures { Yields (λ o. o) result self.new (origin_at self.old) }
    {
        match self.case()? {
            OriginKind::Object => {
                let (object, unit) = self.unit()?;
                Ok(GlobalOrigin::Object { object, unit })
            }
            OriginKind::Made => {
                let made = self.ended_case(NEWLINE)?;
                Ok(GlobalOrigin::Made(made))
            }
        }
    }

    /// Where a segment goes.
    #[tactic(auto, unfolding(crate::specs::LineReading::state_at))]
    fn state(&mut self) -> Result<SegmentState, Stop>
        ensures { Yields (λ s. s) result self.new (state_at self.old) }
    {
        match self.case()? {
            StateKind::Active => {
                let address = self.small(BLANK)?;
                Ok(SegmentState::Active { address })
            }
            StateKind::Shared => {
                let address = self.small(BLANK)?;
                Ok(SegmentState::Shared { address })
            }
            StateKind::Tls => {
                let offset = self.small(BLANK)?;
                Ok(SegmentState::Tls { offset })
            }
            StateKind::Passive => {
                self.expect(b" ")?;
                Ok(SegmentState::Passive)
            }
        }
    }

    /// What a field takes.
    #[tactic(auto, unfolding(crate::specs::LineReading::to_at))]
    fn to(&mut self) -> Result<FixupTo, Stop>
        ensures { Yields (λ t. t) result self.new (to_at self.old) }
    {
        if self.passes(b"deferred ") {
            let offset = self.signed(NEWLINE)?;
            return Ok(FixupTo::Deferred { offset });
        }
        let value = self.small(BLANK)?;
        let addend_left = self.signed(NEWLINE)?;
        Ok(FixupTo::Value { value, addend_left })
    }

    /// What a relocation becomes.
    #[tactic(auto, unfolding(crate::specs::LineReading::fixup_at))]
    fn fixup(&mut self) -> Result<Fixup, Stop>
        ensures { Yields (λ f. f) result self.new (fixup_at self.old) }
    {
        let object = self.object()?;
        let place = self.ended_case(BLANK)?;
        let unit = self.small(BLANK)?;
        let position = self.small(BLANK)?;
        let ty = self.ended_case(BLANK)?;
        let to = self.to()?;
        Ok(Fixup {
            object,
            unit,
            position,
            to,
            place,
            ty,
        })
    }

    // ---- lines, after their first words

    /// The first line.
    fn version_line(&mut self) -> Result<Line, Stop>
        ensures { Yields (λ l. l) result self.new (line_body kind.Version self.old) }
    {
        self.expect(&[NEWLINE])?;
        Ok(Line::Version)
    }

    /// A type of the output.
    fn type_line(&mut self, alloc: Global) -> Result<Line, Stop>
        ensures { Yields (λ l. l) result self.new (line_body kind.OutputType self.old) }
    {
        let index = self.small(BLANK)?;
        self.expect(b"(")?;
        let params = self.types(alloc)?;
        self.expect(b"->(")?;
        let results = self.types(alloc)?;
        self.expect(&[NEWLINE])?;
        let ty = FuncType::new(params, results);
        Ok(Line::OutputType { index, ty })
    }

    /// An imported function.
    fn import_function_line(&mut self, alloc: Global) -> Result<Line, Stop>
        ensures { Yields (λ l. l) result self.new (line_body kind.ImportFunction self.old) }
    {
        let module = self.name(alloc, BLANK)?;
        let name = self.name(alloc, BLANK)?;
        let type_index = self.small(NEWLINE)?;
        let entity = OutputImportEntity::Function { type_index };
        Ok(Line::Import {
            module,
            name,
            entity,
        })
    }

    /// An imported global.
    fn import_global_line(&mut self, alloc: Global) -> Result<Line, Stop>
        ensures { Yields (λ l. l) result self.new (line_body kind.ImportGlobal self.old) }
    {
        let module = self.name(alloc, BLANK)?;
        let name = self.name(alloc, BLANK)?;
        let entity = OutputImportEntity::Global(self.global_type(b"const\n", b"var\n")?);
        Ok(Line::Import {
            module,
            name,
            entity,
        })
    }

    /// An imported memory.
    fn import_memory_line(&mut self, alloc: Global) -> Result<Line, Stop>
        ensures { Yields (λ l. l) result self.new (line_body kind.ImportMemory self.old) }
    {
        let module = self.name(alloc, BLANK)?;
        let name = self.name(alloc, BLANK)?;
        let entity = OutputImportEntity::Memory(self.memory()?);
        Ok(Line::Import {
            module,
            name,
            entity,
        })
    }

    /// A function.
    fn function_line(&mut self, alloc: Global) -> Result<Line, Stop>
        ensures { Yields (λ l. l) result self.new (line_body kind.Function self.old) }
    {
        let index = self.small(BLANK)?;
        self.expect(b"type ")?;
        let ty = self.small(BLANK)?;
        let source = self.source(alloc)?;
        Ok(Line::Function { index, ty, source })
    }

    /// A body.
    fn body_line(&mut self, alloc: Global) -> Result<Line, Stop>
        ensures { Yields (λ l. l) result self.new (line_body kind.Body self.old) }
    {
        let index = self.small(BLANK)?;
        let bytes = self.hex(alloc, NEWLINE)?;
        Ok(Line::Body { index, bytes })
    }

    /// A global.
    fn global_line(&mut self, alloc: Global) -> Result<Line, Stop>
        ensures { Yields (λ l. l) result self.new (line_body kind.Global self.old) }
    {
        let index = self.small(BLANK)?;
        let ty = self.global_type(b"const ", b"var ")?;
        let init = self.hex(alloc, BLANK)?;
        let origin = self.origin()?;
        Ok(Line::Global {
            index,
            ty,
            init,
            origin,
        })
    }

    /// The memory.
    fn memory_line(&mut self) -> Result<Line, Stop>
        ensures { Yields (λ l. l) result self.new (line_body kind.Memory self.old) }
    {
        Ok(Line::Memory(self.memory()?))
    }

    /// The table.
    fn table_line(&mut self) -> Result<Line, Stop>
        ensures { Yields (λ l. l) result self.new (line_body kind.Table self.old) }
    {
        let minimum = self.large(NEWLINE)?;
        Ok(Line::Table { minimum })
    }

    /// A slot.
    fn slot_line(&mut self) -> Result<Line, Stop>
        ensures { Yields (λ l. l) result self.new (line_body kind.Slot self.old) }
    {
        let slot = self.small(BLANK)?;
        let function = self.small(NEWLINE)?;
        Ok(Line::Slot { slot, function })
    }

    /// A segment.
    fn segment_line(&mut self) -> Result<Line, Stop>
        ensures { Yields (λ l. l) result self.new (line_body kind.Segment self.old) }
    {
        let index = self.small(BLANK)?;
        self.expect(b"object ")?;
        let object = self.object()?;
        self.expect(b"unit ")?;
        let unit = self.small(BLANK)?;
        let state = self.state()?;
        let len = self.small(NEWLINE)?;
        Ok(Line::Segment {
            index,
            object,
            unit,
            state,
            len,
        })
    }

    /// An export.
    fn export_line(&mut self, alloc: Global) -> Result<Line, Stop>
        ensures { Yields (λ l. l) result self.new (line_body kind.Export self.old) }
    {
        let name = self.name(alloc, BLANK)?;
        let kind = self.ended_case(BLANK)?;
        let index = self.small(NEWLINE)?;
        Ok(Line::Export { name, kind, index })
    }

    /// The function that runs at the start.
    fn start_line(&mut self) -> Result<Line, Stop>
        ensures { Yields (λ l. l) result self.new (line_body kind.Start self.old) }
    {
        let function = self.small(NEWLINE)?;
        Ok(Line::Start { function })
    }

    /// A relocation.
    fn fixup_line(&mut self) -> Result<Line, Stop>
        ensures { Yields (λ l. l) result self.new (line_body kind.Fix self.old) }
    {
        Ok(Line::Fix(self.fixup()?))
    }

    /// A feature.
    fn feature_line(&mut self, alloc: Global) -> Result<Line, Stop>
        ensures { Yields (λ l. l) result self.new (line_body kind.Feature self.old) }
    {
        let name = self.name(alloc, NEWLINE)?;
        Ok(Line::Feature { name })
    }

    /// A debug section.
    fn debug_line(&mut self, alloc: Global) -> Result<Line, Stop>
        ensures { Yields (λ l. l) result self.new (line_body kind.Debug self.old) }
    {
        let object = self.object()?;
        let name = self.name(alloc, BLANK)?;
        let len = self.small(NEWLINE)?;
        Ok(Line::Debug { object, name, len })
    }

    /// The last line.
    fn end_line(&mut self) -> Result<Line, Stop>
        ensures { Yields (λ l. l) result self.new (line_body kind.End self.old) }
    {
        self.expect(&[NEWLINE])?;
        Ok(Line::End)
    }

    /// The rest of a line of that kind.
    fn line_of(&mut self, alloc: Global, kind: LineKind) -> Result<Line, Stop>
        ensures { Yields (λ l. l) result self.new (line_body kind self.old) }
    {
        match kind {
            LineKind::Version => self.version_line(),
            LineKind::OutputType => self.type_line(alloc),
            LineKind::ImportFunction => self.import_function_line(alloc),
            LineKind::ImportGlobal => self.import_global_line(alloc),
            LineKind::ImportMemory => self.import_memory_line(alloc),
            LineKind::Function => self.function_line(alloc),
            LineKind::Body => self.body_line(alloc),
            LineKind::Global => self.global_line(alloc),
            LineKind::Memory => self.memory_line(),
            LineKind::Table => self.table_line(),
            LineKind::Slot => self.slot_line(),
            LineKind::Segment => self.segment_line(),
            LineKind::Export => self.export_line(alloc),
            LineKind::Start => self.start_line(),
            LineKind::Fix => self.fixup_line(),
            LineKind::Feature => self.feature_line(alloc),
            LineKind::Debug => self.debug_line(alloc),
            LineKind::End => self.end_line(),
        }
    }

    /// The next line.
    pub(crate) fn line(&mut self, alloc: Global) -> Result<Line, Stop>
        ensures { Yields (λ l. l) result self.new (line_at self.old) }
    {
        let kind = self.case()?;
        self.line_of(alloc, kind)
    }
}
