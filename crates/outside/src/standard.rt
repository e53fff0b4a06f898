ghost use Rattle.std.specs.Prelude.{◌≡◌, ◌≢◌, ◌<◌, ◌≤◌, [], Some, Err, false, length, take, IfOk, IfErr, OnOk, OnErr, MatchResult};
ghost use Rattle.std.specs.Io.KnownBytes.{Keeps, ReadConsumes, WriteAppends, append_known};
ghost use Rattle.std.specs.Io.Buffered.{writer_inner, writer_buffer};
ghost use Rattle.outside.specs.Faults.{Rose, after_fault};

use crate::faults::count_fault;
use crate::sink::{Sink, SinkFault};
use crate::source::{Failed, Source};
use std::alloc::{AllocError, Global};
use std::io::{BufWriter, Read, Write};
use std::marker::Model;

/// A reader of std. The bytes left are those that its type tells. A contract sees the reader and the count of its
/// errors.
#[derive(Drop)]
pub struct StdSource<R> {
    inner: R,
    faults: u64,
}

impl<R> Model for StdSource<R> {
    ghost use Rattle.outside.specs.Standard.{StdSourceState};

    ghost Value = { StdSourceState R };

    ghost view = { λ source. record { inner = source.inner; faults = source.faults } };
}

impl<R: Read> StdSource<R> {
    /// A source over this reader, with no fault yet.
    pub fn new(inner: R) -> StdSource<R>
        ensures { result ≡ record { inner = inner; faults = 0 } }
    {
        StdSource { inner, faults: 0 }
    }
}

impl<R: Read> Source for StdSource<R> {
    ghost left = { λ source. R.remaining source.inner };

    ghost faults = { λ source. source.faults };

    /// Hands on what the reader answers. Each of its errors is a fault, and nothing else is one.
    #[tactic(auto, using(crate::proofs::Known::nothing_comes))]
    fn read(&mut self, into: &mut [u8]) -> Result<usize, Failed>
        ensures count { IfOk result (λ n. n ≤ length into.new) }
        ensures inner { ReadConsumes (R.remaining self.old.inner) (R.remaining self.new.inner) result into.new }
        ensures only_end { IfOk result (λ n. R.remaining self.old.inner ≡ Some [] → n ≡ 0) }
        ensures faults { MatchResult result (λ _. self.new.faults ≡ self.old.faults) (λ _. self.new.faults ≡ after_fault self.old.faults) }
        ensures later { self.old.faults ≤ self.new.faults }
        ensures failed { OnErr result (Rose self.old.faults self.new.faults) }
        ensures told { OnOk result (self.new.faults ≡ self.old.faults) }
    {
        match self.inner.read(into) {
            Ok(n) => Ok(n),
            Err(_) => {
                self.faults = count_fault(self.faults);
                Err(Failed)
            }
        }
    }
}

/// A writer of std, with nothing kept back before it. The bytes taken are those that it holds, where its type tells them.
/// A contract sees the writer and the count of its errors.
#[derive(Drop)]
pub struct DirectSink<W> {
    inner: W,
    faults: u64,
}

impl<W> Model for DirectSink<W> {
    ghost use Rattle.outside.specs.Standard.{DirectSinkState};

    ghost Value = { DirectSinkState W };

    ghost view = { λ sink. record { inner = sink.inner; faults = sink.faults } };
}

impl<W: Write> DirectSink<W> {
    /// A sink over this writer, with no fault yet.
    pub fn new(inner: W) -> DirectSink<W>
        ensures { result ≡ record { inner = inner; faults = 0 } }
    {
        DirectSink { inner, faults: 0 }
    }
}

impl<W: Write> Sink for DirectSink<W> {
    ghost taken = { λ sink. W.contents sink.inner };

    ghost faults = { λ sink. sink.faults };

    ghost takes_memory = { false };

    /// Hands on what the writer answers. Each of its errors is a fault, and so is an accepted length of 0 for a piece
    /// that is not empty; nothing else is one. Memory is never the answer.
    fn write(&mut self, piece: &[u8]) -> Result<usize, SinkFault>
        ensures count { IfOk result (λ n. n ≤ length piece.now) }
        ensures some { IfOk result (λ n. 0 < length piece.now → 0 < n) }
        ensures inner { WriteAppends (W.contents self.old.inner) (W.contents self.new.inner) result piece.now }
        ensures faults { MatchResult result (λ _. self.new.faults ≡ self.old.faults) (λ _. self.new.faults ≡ after_fault self.old.faults) }
        ensures later { self.old.faults ≤ self.new.faults }
        ensures failed { OnErr result (Rose self.old.faults self.new.faults) }
        ensures told { OnOk result (self.new.faults ≡ self.old.faults) }
        ensures never_memory { result ≢ Err SinkFault.Memory }
    {
        match self.inner.write(piece) {
            Ok(n) if n > 0 || piece.is_empty() => Ok(n),
            _ => {
                self.faults = count_fault(self.faults);
                Err(SinkFault::Failed)
            }
        }
    }

    /// Flushes the writer. Each of its errors is a fault, and nothing else is one. Memory is never the answer.
    fn flush(&mut self) -> Result<(), SinkFault>
        ensures inner { Keeps (W.contents self.old.inner) (W.contents self.new.inner) }
        ensures faults { MatchResult result (λ _. self.new.faults ≡ self.old.faults) (λ _. self.new.faults ≡ after_fault self.old.faults) }
        ensures later { self.old.faults ≤ self.new.faults }
        ensures failed { OnErr result (Rose self.old.faults self.new.faults) }
        ensures told { OnOk result (self.new.faults ≡ self.old.faults) }
        ensures never_memory { result ≢ Err SinkFault.Memory }
    {
        match self.inner.flush() {
            Ok(()) => Ok(()),
            Err(_) => {
                self.faults = count_fault(self.faults);
                Err(SinkFault::Failed)
            }
        }
    }
}

/// The most bytes that a sink over std's writers keeps back.
const MOST_KEPT: usize = 65_536;

/// A writer of std. The bytes taken are those that the writer holds, where its type tells them, and behind them those
/// kept back: small pieces are handed on together, by the next piece that there is no room for or by `flush`. A contract
/// sees the writer, the bytes kept back and the count of errors.
#[derive(Drop)]
pub struct StdSink<W: Write + Drop> {
    direct: DirectSink<BufWriter<W>>,
}

impl<W: Write + Drop> Model for StdSink<W> {
    ghost use Rattle.std.specs.Io.Buffered.{writer_inner, writer_buffer};
    ghost use Rattle.outside.specs.Standard.{StdSinkState};

    ghost Value = { StdSinkState W };

    ghost view = { λ sink. record { inner = writer_inner sink.direct.inner; kept = writer_buffer sink.direct.inner; faults = sink.direct.faults } };
}

impl<W: Write + Drop> StdSink<W> {
    /// A sink over this writer, with no fault yet, that keeps back at most 65,536 bytes. Where there is no memory
    /// for them the writer is dropped.
    pub fn new(alloc: Global, inner: W) -> Result<StdSink<W>, AllocError>
        ensures { IfOk result (λ sink. sink ≡ record { inner = inner; kept = []; faults = 0 }) }
    {
        match BufWriter::with_capacity(alloc, MOST_KEPT, inner) {
            Ok(inner) => Ok(StdSink {
                direct: DirectSink::new(inner),
            }),
            Err(_) => Err(AllocError),
        }
    }
}

impl<W: Write + Drop> Sink for StdSink<W> {
    ghost taken = { λ sink. append_known (W.contents sink.inner) sink.kept };

    ghost faults = { λ sink. sink.faults };

    ghost kept = { λ sink. sink.kept };

    ghost takes_memory = { false };

    /// Hands on what the writer answers. Each of its errors is a fault, and so is an accepted length of 0 for a piece
    /// that is not empty; nothing else is one. Memory is never the answer.
    fn write(&mut self, piece: &[u8]) -> Result<usize, SinkFault>
        ensures count { IfOk result (λ n. n ≤ length piece.now) }
        ensures some { IfOk result (λ n. 0 < length piece.now → 0 < n) }
        ensures inner { WriteAppends (append_known (W.contents self.old.inner) self.old.kept) (append_known (W.contents self.new.inner) self.new.kept) result piece.now }
        ensures faults { MatchResult result (λ _. self.new.faults ≡ self.old.faults) (λ _. self.new.faults ≡ after_fault self.old.faults) }
        ensures later { self.old.faults ≤ self.new.faults }
        ensures failed { OnErr result (Rose self.old.faults self.new.faults) }
        ensures told { OnOk result (self.new.faults ≡ self.old.faults) }
        ensures never_memory { result ≢ Err SinkFault.Memory }
    {
        self.direct.write(piece)
    }

    /// Hands on what is kept back, and flushes the writer. An error of either is a fault, and nothing else is one.
    /// Memory is never the answer.
    fn flush(&mut self) -> Result<(), SinkFault>
        ensures handed_on { OnOk result (self.new.kept ≡ []) }
        ensures inner { Keeps (append_known (W.contents self.old.inner) self.old.kept) (append_known (W.contents self.new.inner) self.new.kept) }
        ensures faults { MatchResult result (λ _. self.new.faults ≡ self.old.faults) (λ _. self.new.faults ≡ after_fault self.old.faults) }
        ensures later { self.old.faults ≤ self.new.faults }
        ensures failed { OnErr result (Rose self.old.faults self.new.faults) }
        ensures told { OnOk result (self.new.faults ≡ self.old.faults) }
        ensures never_memory { result ≢ Err SinkFault.Memory }
    {
        match self.direct.inner.flush() {
            Ok(()) => Ok(()),
            Err(_) => {
                self.direct.faults = count_fault(self.direct.faults);
                Err(SinkFault::Failed)
            }
        }
    }
}
