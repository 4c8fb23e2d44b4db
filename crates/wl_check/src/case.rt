//! Words that stand for one of a few things.

ghost use Rattle.std.specs.Prelude.{◌≡◌, List, ℕ};

use crate::kinds::{LineKind, OriginKind, SourceKind, StateKind};
use crate::line::MadeFunction;
use wl_custom::{RelocationType, relocation_type_to_string};
use wl_module::{ExternalKind, ValType};
use wl_output::MadeGlobal;
use wl_symbols::FixupPlace;
use wl_text::{kind_name, value_type_name};

/// One of a few things, each of which is written as a word of its own: none of the words begins
/// another.
pub(crate) trait Case: Copy + 'static {
    /// The word of a case.
    ghost word_of: { Self → List ℕ };

    /// All cases.
    ghost cases: { List Self };

    /// The word that stands for it.
    fn word(self) -> &'static [u8]
        ensures { result.now ≡ word_of self };

    /// All cases, each once.
    fn all() -> &'static [Self]
        ensures { result.now ≡ cases };
}

impl Case for ValType {
    ghost use Rattle.wl_module.specs.Types.{value_types};
    ghost use Rattle.wl_text.specs.Names.{value_type_name};

    ghost word_of = { value_type_name };

    ghost cases = { value_types };

    fn word(self) -> &'static [u8] {
        value_type_name(self).as_bytes()
    }

    fn all() -> &'static [ValType] {
        &[
            ValType::I32,
            ValType::I64,
            ValType::F32,
            ValType::F64,
            ValType::V128,
            ValType::FuncRef,
            ValType::ExternRef,
        ]
    }
}

impl Case for ExternalKind {
    ghost use Rattle.wl_check.specs.LineReading.{export_kinds};
    ghost use Rattle.wl_text.specs.Names.{kind_name};

    ghost word_of = { kind_name };

    ghost cases = { export_kinds };

    fn word(self) -> &'static [u8] {
        kind_name(self).as_bytes()
    }

    fn all() -> &'static [ExternalKind] {
        &[
            ExternalKind::Func,
            ExternalKind::Table,
            ExternalKind::Memory,
            ExternalKind::Global,
        ]
    }
}

impl Case for RelocationType {
    ghost use Rattle.wl_custom.specs.RelocationTypes.{type_name, relocation_types};

    ghost word_of = { type_name };

    ghost cases = { relocation_types };

    fn word(self) -> &'static [u8] {
        relocation_type_to_string(self).as_bytes()
    }

    fn all() -> &'static [RelocationType] {
        RelocationType::all_types()
    }
}

impl Case for MadeFunction {
    ghost use Rattle.wl_check.specs.Texts.{made_function_name};
    ghost use Rattle.wl_check.specs.LineReading.{made_functions};

    ghost word_of = { made_function_name };

    ghost cases = { made_functions };

    fn word(self) -> &'static [u8] {
        match self {
            MadeFunction::CallCtors => b"__wasm_call_ctors",
            MadeFunction::InitTls => b"__wasm_init_tls",
            MadeFunction::InitMemory => b"__wasm_init_memory",
        }
    }

    fn all() -> &'static [MadeFunction] {
        &[
            MadeFunction::CallCtors,
            MadeFunction::InitTls,
            MadeFunction::InitMemory,
        ]
    }
}

impl Case for MadeGlobal {
    ghost use Rattle.wl_check.specs.Texts.{made_global_name};
    ghost use Rattle.wl_check.specs.LineReading.{made_globals};

    ghost word_of = { made_global_name };

    ghost cases = { made_globals };

    fn word(self) -> &'static [u8] {
        match self {
            MadeGlobal::MemoryBase => b"memory_base",
            MadeGlobal::TableBase => b"table_base",
            MadeGlobal::StackPointer => b"stack_pointer",
            MadeGlobal::TlsBase => b"tls_base",
            MadeGlobal::TlsSize => b"tls_size",
            MadeGlobal::TlsAlign => b"tls_align",
            MadeGlobal::Address => b"address",
            MadeGlobal::GotMem => b"got_mem",
            MadeGlobal::GotFunc => b"got_func",
            MadeGlobal::Data => b"data",
        }
    }

    fn all() -> &'static [MadeGlobal] {
        &[
            MadeGlobal::MemoryBase,
            MadeGlobal::TableBase,
            MadeGlobal::StackPointer,
            MadeGlobal::TlsBase,
            MadeGlobal::TlsSize,
            MadeGlobal::TlsAlign,
            MadeGlobal::Address,
            MadeGlobal::GotMem,
            MadeGlobal::GotFunc,
            MadeGlobal::Data,
        ]
    }
}

impl Case for FixupPlace {
    ghost use Rattle.wl_check.specs.Texts.{place_name};
    ghost use Rattle.wl_check.specs.LineReading.{places};

    ghost word_of = { place_name };

    ghost cases = { places };

    fn word(self) -> &'static [u8] {
        match self {
            FixupPlace::Code => b"code",
            FixupPlace::Segment => b"segment",
        }
    }

    fn all() -> &'static [FixupPlace] {
        &[FixupPlace::Code, FixupPlace::Segment]
    }
}

impl Case for SourceKind {
    ghost use Rattle.wl_check.specs.LineReading.{source_word, source_kinds};

    ghost word_of = { source_word };

    ghost cases = { source_kinds };

    fn word(self) -> &'static [u8] {
        match self {
            SourceKind::Object => b"object ",
            SourceKind::Made => b"made ",
            SourceKind::Stub => b"stub ",
            SourceKind::Wrap => b"wrap ",
        }
    }

    fn all() -> &'static [SourceKind] {
        &[
            SourceKind::Object,
            SourceKind::Made,
            SourceKind::Stub,
            SourceKind::Wrap,
        ]
    }
}

impl Case for OriginKind {
    ghost use Rattle.wl_check.specs.LineReading.{origin_word, origin_kinds};

    ghost word_of = { origin_word };

    ghost cases = { origin_kinds };

    fn word(self) -> &'static [u8] {
        match self {
            OriginKind::Object => b"object ",
            OriginKind::Made => b"made ",
        }
    }

    fn all() -> &'static [OriginKind] {
        &[OriginKind::Object, OriginKind::Made]
    }
}

impl Case for StateKind {
    ghost use Rattle.wl_check.specs.LineReading.{state_word, state_kinds};

    ghost word_of = { state_word };

    ghost cases = { state_kinds };

    fn word(self) -> &'static [u8] {
        match self {
            StateKind::Active => b"active ",
            StateKind::Shared => b"shared ",
            StateKind::Tls => b"tls ",
            StateKind::Passive => b"passive -",
        }
    }

    fn all() -> &'static [StateKind] {
        &[
            StateKind::Active,
            StateKind::Shared,
            StateKind::Tls,
            StateKind::Passive,
        ]
    }
}

impl Case for LineKind {
    ghost use Rattle.wl_check.specs.LineReading.{line_word, line_kinds};

    ghost word_of = { line_word };

    ghost cases = { line_kinds };

    fn word(self) -> &'static [u8] {
        match self {
            LineKind::Version => b"wildplan 1",
            LineKind::OutputType => b"type ",
            LineKind::ImportFunction => b"import func ",
            LineKind::ImportGlobal => b"import global ",
            LineKind::ImportMemory => b"import memory ",
            LineKind::Function => b"func ",
            LineKind::Body => b"body ",
            LineKind::Global => b"global ",
            LineKind::Memory => b"memory ",
            LineKind::Table => b"table ",
            LineKind::Slot => b"slot ",
            LineKind::Segment => b"segment ",
            LineKind::Export => b"export ",
            LineKind::Start => b"start ",
            LineKind::Fix => b"fix ",
            LineKind::Feature => b"feature ",
            LineKind::Debug => b"debug ",
            LineKind::End => b"end",
        }
    }

    fn all() -> &'static [LineKind] {
        &[
            LineKind::Version,
            LineKind::OutputType,
            LineKind::ImportFunction,
            LineKind::ImportGlobal,
            LineKind::ImportMemory,
            LineKind::Function,
            LineKind::Body,
            LineKind::Global,
            LineKind::Memory,
            LineKind::Table,
            LineKind::Slot,
            LineKind::Segment,
            LineKind::Export,
            LineKind::Start,
            LineKind::Fix,
            LineKind::Feature,
            LineKind::Debug,
            LineKind::End,
        ]
    }
}
