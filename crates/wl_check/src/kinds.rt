//! What a line, or a choice in it, begins with.

/// What kind of line it is, by its first words: an import says what is imported there.
#[derive(Clone, Copy)]
pub(crate) enum LineKind {
    Version,
    OutputType,
    ImportFunction,
    ImportGlobal,
    ImportMemory,
    Function,
    Body,
    Global,
    Memory,
    Table,
    Slot,
    Segment,
    Export,
    Start,
    Fix,
    Feature,
    Debug,
    End,
}

/// What kind of source a function has.
#[derive(Clone, Copy)]
pub(crate) enum SourceKind {
    Object,
    Made,
    Stub,
    Wrap,
}

/// What kind of origin a global has.
#[derive(Clone, Copy)]
pub(crate) enum OriginKind {
    Object,
    Made,
}

/// What kind of place a segment goes to.
#[derive(Clone, Copy)]
pub(crate) enum StateKind {
    Active,
    Shared,
    Tls,
    Passive,
}
