//! How a script ends.

/// How a script ends.
#[derive(Clone, Copy)]
pub enum ScriptEnd {
    /// All lines were run.
    Done,
    /// A put failed.
    SinkFailed,
    /// Want of memory, but for that of a line `cut`.
    NoMemory,
}
