/// Why no task was made.
#[derive(Clone, Copy, PartialEq, Eq)]
pub enum TaskFault {
    /// A task has or had the pid.
    Exists,
    /// This many tasks were made, the most.
    TasksFull { limit: u32 },
    /// There is no memory for it.
    Memory,
}
