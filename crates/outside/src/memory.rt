ghost use Rattle.std.specs.Prelude.{◌≡◌, ◌≢◌, ◌<◌, ◌≤◌, ◌↔◌, [], Some, Err, min, length, take, IsTrue, IsOk, IsErr, IfOk, OnOk, OnErr};
ghost use Rattle.outside.specs.Faults.{Rose};
ghost use Rattle.outside.specs.Source.{Takes};
ghost use Rattle.outside.specs.Sink.{Appends};
ghost use Rattle.outside.specs.Calls.{next_fails, after_call};

use crate::calls::Calls;
use crate::calm::{CalmSink, CalmSource};
use crate::sink::{Sink, SinkFault};
use crate::source::{Failed, Source};
use std::alloc::Global;
use std::marker::Model;

/// Bytes in memory, whose reads fail where their numbers are listed. A contract sees the bytes left and the calls.
#[derive(Drop)]
pub struct MemSource {
    calm: CalmSource,
    calls: Calls,
}

impl Model for MemSource {
    ghost use Rattle.outside.specs.Memory.{MemSourceState};

    ghost Value = { MemSourceState };

    ghost view = { λ source. record { left = source.calm; calls = source.calls } };
}

impl MemSource {
    /// A source of these bytes. The reads whose numbers, from 1, stand in `fails` fail; those after number
    /// 4,294,967,295 have no number and do not fail.
    pub fn new(bytes: Vec<u8>, fails: Vec<u32>) -> MemSource
        ensures left { result.left ≡ bytes.items }
        ensures calls { result.calls ≡ record { made = 0; fails = fails.items; faults = 0 } }
    {
        MemSource {
            calm: CalmSource::new(bytes),
            calls: Calls::new(fails),
        }
    }
}

impl Source for MemSource {
    ghost left = { λ source. Some source.left };

    ghost faults = { λ source. source.calls.faults };

    ghost reads = { λ source. Some source.calls.made };

    /// Fails exactly where the number of the call is listed, and else leaves no room in `into` while bytes are left.
    fn read(&mut self, into: &mut [u8]) -> Result<usize, Failed>
        ensures listed { IsErr result ↔ IsTrue (next_fails self.old.calls) }
        ensures counted { self.new.calls ≡ after_call self.old.calls }
        ensures count { IfOk result (λ n. n ≡ min (length self.old.left) (length into.new)) }
        ensures bytes { IfOk result (λ n. Takes (Some self.old.left) (Some self.new.left) (take n into.new)) }
        ensures unread { OnErr result (self.new.left ≡ self.old.left) }
        ensures later { self.old.calls.faults ≤ self.new.calls.faults }
        ensures failed { OnErr result (Rose self.old.calls.faults self.new.calls.faults) }
        ensures told { OnOk result (self.new.calls.faults ≡ self.old.calls.faults) }
    {
        if self.calls.next() {
            Err(Failed)
        } else {
            self.calm.read(into)
        }
    }
}

/// Keeps the bytes that it takes, at most so many a call, and fails at the writes whose numbers are listed. A contract
/// sees the bytes taken, the most and the calls.
#[derive(Drop)]
pub struct MemSink {
    calm: CalmSink,
    calls: Calls,
}

impl Model for MemSink {
    ghost use Rattle.outside.specs.Memory.{MemSinkState};

    ghost Value = { MemSinkState };

    ghost view = { λ sink. record { taken = sink.calm.taken; most = sink.calm.most; calls = sink.calls } };
}

impl MemSink {
    /// A sink that has taken nothing, and takes at most `most` bytes a call, at least 1. The writes whose numbers, from
    /// 1, stand in `fails` fail; those after number 4,294,967,295 have no number and do not fail.
    pub fn new(alloc: Global, most: u32, fails: Vec<u32>) -> MemSink
        requires { 1 ≤ most }
        ensures taken { result.taken ≡ [] }
        ensures most { result.most ≡ most }
        ensures calls { result.calls ≡ record { made = 0; fails = fails.items; faults = 0 } }
    {
        MemSink {
            calm: CalmSink::new(alloc, most),
            calls: Calls::new(fails),
        }
    }

    /// The bytes taken.
    pub fn taken(&self) -> &[u8]
        ensures { result.now ≡ self.now.taken }
    {
        self.calm.taken()
    }
}

impl Sink for MemSink {
    ghost taken = { λ sink. Some sink.taken };

    ghost faults = { λ sink. sink.calls.faults };

    /// Fails exactly where the number of the call is listed, and else takes as much as it may, unless memory runs out.
    fn write(&mut self, piece: &[u8]) -> Result<usize, SinkFault>
        ensures listed { (result ≡ Err SinkFault.Failed) ↔ IsTrue (next_fails self.old.calls) }
        ensures counted { self.new.calls ≡ after_call self.old.calls }
        ensures count { IfOk result (λ n. n ≡ min (length piece.now) self.old.most) }
        ensures some { IfOk result (λ n. 0 < length piece.now → 0 < n) }
        ensures bytes { IfOk result (λ n. Appends (Some self.old.taken) (Some self.new.taken) (take n piece.now)) }
        ensures untaken { OnErr result (self.new.taken ≡ self.old.taken) }
        ensures same { self.new.most ≡ self.old.most }
        ensures later { self.old.calls.faults ≤ self.new.calls.faults }
        ensures failed { result ≡ Err SinkFault.Failed → Rose self.old.calls.faults self.new.calls.faults }
        ensures told { result ≢ Err SinkFault.Failed → self.new.calls.faults ≡ self.old.calls.faults }
    {
        if self.calls.next() {
            Err(SinkFault::Failed)
        } else {
            self.calm.write(piece)
        }
    }

    /// Keeps nothing back.
    fn flush(&mut self) -> Result<(), SinkFault>
        ensures ok { IsOk result }
        ensures same { self.new ≡ self.old }
    {
        Ok(())
    }
}
