/// Why credentials did not change.
#[derive(Clone, Copy, PartialEq, Eq)]
pub enum CredFault {
    /// More self rules than this would stand, each of a pair of its own.
    SelfFull { limit: u32 },
    /// The list has more labels than this.
    RelabelFull { limit: u32 },
    /// There is no memory for it.
    Memory,
}
