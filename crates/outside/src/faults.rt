ghost use Rattle.std.specs.Prelude.{◌≡◌, ◌≤◌};
ghost use Rattle.outside.specs.Faults.{Rose, after_fault};

/// A count of faults after one more.
#[tactic(auto, using(crate::proofs::Rising::after_fault_rises))]
pub fn count_fault(count: u64) -> u64
    ensures value { result ≡ after_fault count }
    ensures later { count ≤ result }
    ensures rose { Rose count result }
{
    count.saturating_add(1)
}
