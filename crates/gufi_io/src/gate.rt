//! A gate, which is told what begins.

/// What is about to begin.
#[derive(Clone, Copy, Debug, PartialEq, Eq)]
pub enum GateKind {
    /// A publication, numbered by its command.
    Publish,
    /// An ask, by its number.
    Ask,
    /// A task of a walker, numbered by its directory.
    Task,
    /// A scan of a directory's store within a task, with the task's number.
    Store,
}

/// Is told what begins. It answers nothing, so it changes no answer.
pub trait Gate {
    fn begin(&self, kind: GateKind, number: u32);
}

/// Does nothing.
#[derive(Clone, Copy, Debug)]
pub struct NoGate;

impl Gate for NoGate {
    fn begin(&self, _kind: GateKind, _number: u32) {}
}
