//! Where bytes come from and where they go.
//!
//! A contract sees of a source the bytes left, and of a sink the bytes taken, where they tell them, and of both a
//! count of faults that never falls. The crate promises that reads and writes lose no byte and put none in, and that
//! a fault is answered only where the count rose. `read_all` reads a source to its end, `offer` offers a piece until
//! all of it is taken. The sources and sinks over memory tell all, and fail at the calls that a list names; those over
//! std's readers and writers tell the bytes that the reader or the writer tells. A `Gate` is told of each line of a script
//! before it is run. The crate stands on std alone.
#![tactic(auto)]

mod calls;
mod calm;
mod faults;
mod gate;
mod memory;
mod offering;
mod reading;
mod sink;
mod source;
mod standard;

pub use calm::{CalmSink, CalmSource};
pub use gate::{Gate, OpenGate};
pub use memory::{MemSink, MemSource};
pub use offering::offer;
pub use reading::{Unread, read_all};
pub use sink::{Sink, SinkFault};
pub use source::{Failed, Source};
pub use standard::{DirectSink, StdSink, StdSource};
