/// Who is told of each line of a script before its task runs it. A gate may hold the task up there, so
/// that one order of the tasks comes about; it promises nothing.
pub trait Gate {
    /// The task with this place among the names of the script comes to its line of this number.
    fn before(&self, task: u32, seq: u32);
}

/// A gate that holds nobody up.
#[derive(Clone, Copy)]
pub struct OpenGate;

impl Gate for OpenGate {
    fn before(&self, _task: u32, _seq: u32) {}
}
