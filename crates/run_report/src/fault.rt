use outside::SinkFault;

/// Why a text was not written to its end.
#[derive(Clone, Copy, PartialEq, Eq)]
pub enum ReportFault {
    /// The sink failed.
    Failed,
    /// Want of memory.
    Memory,
}
