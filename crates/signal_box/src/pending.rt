ghost use Rattle.std.specs.Prelude.{◌≡◌, ◌≤◌, ◌<◌, [], true, false, length, position, IfSome, OnOk, OnErr};
ghost use Rattle.std.specs.List.{AllByRecursion};
ghost use Rattle.world_spec.specs.Signals.{is_signal as is_signal_number, with_signal, least_signal, without_least};

use std::marker::Model;

/// The number is not that of a signal, from 1 to 31.
#[derive(Clone, Copy, PartialEq, Eq)]
pub struct OutOfRange;

/// The signals that wait for a task.
#[derive(Drop)]
pub struct Pending {
    /// Whether a signal waits, by its number less one.
    waits: [bool; 31],
}

impl Model for Pending {
    ghost use Rattle.std.specs.Prelude.{List, ℕ};
    ghost use Rattle.signal_box.specs.Places.{set_places};

    ghost Value = { List ℕ };

    ghost view = { λ p. set_places 1 p.waits };
}

fn first_set(waits: &[bool; 31]) -> Option<usize>
    ensures place { result ≡ position (λ w. w) waits.now }
    ensures within { IfSome result (λ at. at < 31) }
{
    waits.iter().position(|w| *w)
}

/// Whether a number is that of a signal, from 1 to 31.
pub fn is_signal(sig: u8) -> bool
    ensures { result ≡ is_signal_number sig }
{
    1 <= sig && sig <= 31
}

impl Pending {
    /// No signal waits.
    pub fn new() -> Pending
        ensures { result ≡ [] }
    {
        Pending { waits: [false; 31] }
    }

    /// The signal, from 1 to 31, waits; one that waits already waits once.
    pub fn put(&mut self, sig: u8)
        requires { is_signal_number sig ≡ true }
        ensures { self.new ≡ with_signal self.old sig }
    {
        self.waits[sig as usize - 1] = true;
    }

    /// The signal waits; one that waits already waits once. `OutOfRange` comes exactly outside 1 to
    /// 31, and then nothing changes.
    pub fn add(&mut self, sig: u8) -> Result<(), OutOfRange>
        ensures ok { OnOk result ((is_signal_number sig ≡ true) × (self.new ≡ with_signal self.old sig)) }
        ensures err { OnErr result ((is_signal_number sig ≡ false) × (self.new ≡ self.old)) }
    {
        if !is_signal(sig) {
            return Err(OutOfRange);
        }
        self.put(sig);
        Ok(())
    }

    /// The least signal that waits; `None` exactly where none does.
    pub fn least(&self) -> Option<u8>
        ensures { result ≡ least_signal self.now }
    {
        match first_set(&self.waits) {
            Some(at) => Some(at as u8 + 1),
            None => None,
        }
    }

    /// The least signal that waits, and it waits no longer; `None` exactly where none does.
    pub fn take(&mut self) -> Option<u8>
        ensures signal { result ≡ least_signal self.old }
        ensures left { self.new ≡ without_least self.old }
        ensures least { IfSome result (λ sig. AllByRecursion (λ x. sig ≤ x) self.old) }
    {
        match first_set(&self.waits) {
            Some(at) => {
                self.waits[at] = false;
                Some(at as u8 + 1)
            }
            None => None,
        }
    }
}
