ghost use Rattle.std.specs.Prelude.{◌≡◌, ◌<◌, ◌≤◌, ℕ, List, [], Option, Some, length, take, None, IfOk, OnOk, OnErr};
ghost use Rattle.outside.specs.Faults.{Rose};
ghost use Rattle.std.specs.Io.KnownBytes.{Keeps};
ghost use Rattle.outside.specs.Source.{Takes, AtEnd, CountsRead};

/// A read failed, and the source's count of faults rose.
#[derive(Clone, Copy, Debug, PartialEq, Eq)]
pub struct Failed;

/// Bytes that come, in their order.
pub trait Source {
    /// The bytes left, where the source tells them.
    ghost left: { Self → Option (List ℕ) };

    /// The count of faults.
    ghost faults: { Self → ℕ };

    /// The count of reads, where the source tells it.
    ghost reads: { Self → Option ℕ } = { λ _. None };

    /// Puts the next bytes at the front of `into`, and answers how many. For an `into` with room, 0 is the end.
    fn read(&mut self, into: &mut [u8]) -> Result<usize, Failed>
        ensures count { IfOk result (λ n. n ≤ length into.new) }
        ensures bytes { IfOk result (λ n. Takes (left self.old) (left self.new) (take n into.new)) }
        ensures end { IfOk result (λ n. n ≡ 0 → 0 < length into.new → AtEnd (left self.new)) }
        ensures only_end { IfOk result (λ n. left self.old ≡ Some [] → n ≡ 0) }
        ensures unread { OnErr result (Keeps (left self.old) (left self.new)) }
        ensures later { faults self.old ≤ faults self.new }
        ensures failed { OnErr result (Rose (faults self.old) (faults self.new)) }
        ensures told { OnOk result (faults self.new ≡ faults self.old) }
        ensures counted { CountsRead (reads self.old) (reads self.new) };
}
