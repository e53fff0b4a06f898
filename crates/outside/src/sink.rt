ghost use Rattle.std.specs.Prelude.{◌≡◌, ◌≢◌, ◌<◌, ◌≤◌, ℕ, Bool, true, List, [], Option, Err, length, take, IsTrue, IfOk, OnOk, OnErr};
ghost use Rattle.std.specs.Io.KnownBytes.{Keeps};
ghost use Rattle.outside.specs.Faults.{Rose};
ghost use Rattle.outside.specs.Sink.{Appends};

/// Why nothing of a piece was taken.
#[derive(Clone, Copy, Debug, PartialEq, Eq)]
pub enum SinkFault {
    /// The write failed, and the sink's count of faults rose.
    Failed,
    /// There was no memory for the bytes, of a sink that takes memory.
    Memory,
}

/// Where bytes go, in their order.
pub trait Sink {
    /// The bytes taken, where the sink tells them.
    ghost taken: { Self → Option (List ℕ) };

    /// The count of faults.
    ghost faults: { Self → ℕ };

    /// The bytes taken that are still kept back, to be handed on together.
    ghost kept: { Self → List ℕ } = { λ _. [] };

    /// Whether it takes memory, so that there may be none for the bytes.
    ghost takes_memory: { Bool } = { true };

    /// Takes a front of `piece`, and answers its length, which is 0 only for an empty piece.
    fn write(&mut self, piece: &[u8]) -> Result<usize, SinkFault>
        ensures count { IfOk result (λ n. n ≤ length piece.now) }
        ensures some { IfOk result (λ n. 0 < length piece.now → 0 < n) }
        ensures bytes { IfOk result (λ n. Appends (taken self.old) (taken self.new) (take n piece.now)) }
        ensures untaken { OnErr result (Keeps (taken self.old) (taken self.new)) }
        ensures later { faults self.old ≤ faults self.new }
        ensures failed { result ≡ Err SinkFault.Failed → Rose (faults self.old) (faults self.new) }
        ensures told { result ≢ Err SinkFault.Failed → faults self.new ≡ faults self.old }
        ensures memory { result ≡ Err SinkFault.Memory → IsTrue takes_memory };

    /// Hands on all that is kept back. What was taken stays taken, also after a fault.
    fn flush(&mut self) -> Result<(), SinkFault>
        ensures handed_on { OnOk result (kept self.new ≡ []) }
        ensures same { Keeps (taken self.old) (taken self.new) }
        ensures later { faults self.old ≤ faults self.new }
        ensures failed { result ≡ Err SinkFault.Failed → Rose (faults self.old) (faults self.new) }
        ensures told { result ≢ Err SinkFault.Failed → faults self.new ≡ faults self.old }
        ensures memory { result ≡ Err SinkFault.Memory → IsTrue takes_memory };
}
