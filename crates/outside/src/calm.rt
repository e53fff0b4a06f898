ghost use Rattle.std.specs.Prelude.{◌≡◌, ◌≢◌, ◌<◌, ◌≤◌, [], Some, Ok, Err, min, length, take, IsOk, IfOk, OnErr};
ghost use Rattle.outside.specs.Source.{Takes, AtEnd};
ghost use Rattle.outside.specs.Sink.{Appends};

use crate::sink::{Sink, SinkFault};
use crate::source::{Failed, Source};
use std::alloc::Global;
use std::marker::Model;

/// Bytes in memory, which come without a fault. A contract sees the bytes left.
#[derive(Drop)]
pub struct CalmSource {
    bytes: Vec<u8>,
    at: usize,
}

impl Model for CalmSource {
    ghost use Rattle.std.specs.Prelude.{ℕ, ◌≤◌, List, drop, vec_len};

    ghost Value = { List ℕ };

    ghost view = { λ source. drop source.at source.bytes.items };

    ghost invariant = { λ source. source.at ≤ vec_len source.bytes };
}

impl CalmSource {
    /// A source of these bytes.
    pub fn new(bytes: Vec<u8>) -> CalmSource
        ensures { result ≡ bytes.items }
    {
        CalmSource { bytes, at: 0 }
    }
}

/// Copies as much of `left` as `into` has room for, and answers how much.
fn copy_front(left: &[u8], into: &mut [u8]) -> usize
    ensures count { result ≡ min (length left.now) (length into.new) }
    ensures copied { take result into.new ≡ take result left.now }
{
    let n = left.len().min(into.len());
    into[..n].copy_from_slice(&left[..n]);
    n
}

impl Source for CalmSource {
    ghost left = { λ source. Some source };

    ghost faults = { λ _. 0 };

    /// Never fails, and leaves no room in `into` while bytes are left.
    fn read(&mut self, into: &mut [u8]) -> Result<usize, Failed>
        ensures whole { result ≡ Ok (min (length self.old) (length into.new)) }
        ensures bytes { IfOk result (λ n. Takes (Some self.old) (Some self.new) (take n into.new)) }
    {
        let n = copy_front(&self.bytes.as_slice()[self.at..], into);
        self.at += n;
        Ok(n)
    }
}

/// Keeps the bytes that it takes, at most so many a call. A contract sees the bytes taken and the most.
#[derive(Drop)]
pub struct CalmSink {
    bytes: Vec<u8>,
    most: u32,
}

impl Model for CalmSink {
    ghost use Rattle.std.specs.Prelude.{◌≤◌};
    ghost use Rattle.outside.specs.Memory.{CalmSinkState};

    ghost Value = { CalmSinkState };

    ghost view = { λ sink. record { taken = sink.bytes.items; most = sink.most } };

    ghost invariant = { λ sink. 1 ≤ sink.most };
}

impl CalmSink {
    /// A sink that has taken nothing, and takes at most `most` bytes a call, at least 1.
    pub fn new(alloc: Global, most: u32) -> CalmSink
        requires { 1 ≤ most }
        ensures { result ≡ record { taken = []; most = most } }
    {
        CalmSink {
            bytes: Vec::new(alloc),
            most,
        }
    }

    /// The bytes taken.
    pub fn taken(&self) -> &[u8]
        ensures { result.now ≡ self.now.taken }
    {
        self.bytes.as_slice()
    }
}

impl Sink for CalmSink {
    ghost taken = { λ sink. Some sink.taken };

    ghost faults = { λ _. 0 };

    /// Takes as much as it may. The only fault is want of memory.
    fn write(&mut self, piece: &[u8]) -> Result<usize, SinkFault>
        ensures count { IfOk result (λ n. n ≡ min (length piece.now) self.old.most) }
        ensures some { IfOk result (λ n. 0 < length piece.now → 0 < n) }
        ensures bytes { IfOk result (λ n. Appends (Some self.old.taken) (Some self.new.taken) (take n piece.now)) }
        ensures untaken { OnErr result (self.new ≡ self.old) }
        ensures same { self.new.most ≡ self.old.most }
        ensures calm { result ≢ Err SinkFault.Failed }
    {
        let n = piece.len().min(self.most as usize);
        match self.bytes.extend_from_slice(&piece[..n]) {
            Ok(()) => Ok(n),
            Err(_) => Err(SinkFault::Memory),
        }
    }

    /// Keeps nothing back.
    fn flush(&mut self) -> Result<(), SinkFault>
        ensures ok { IsOk result }
        ensures same { self.new ≡ self.old }
    {
        Ok(())
    }
}
