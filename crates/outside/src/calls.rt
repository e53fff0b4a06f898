ghost use Rattle.std.specs.Prelude.{◌≡◌, ◌≤◌, IsTrue};
ghost use Rattle.std.specs.Bool.{OnTrue, OnFalse};
ghost use Rattle.outside.specs.Faults.{Rose};
ghost use Rattle.outside.specs.Calls.{next_fails, after_call};

use crate::faults::count_fault;
use std::marker::Model;

/// Calls numbered from 1, of which a list says which fail. Calls after number 4,294,967,295 have no number and do not
/// fail.
#[derive(Drop)]
pub struct Calls {
    made: u32,
    fails: Vec<u32>,
    faults: u64,
}

impl Model for Calls {
    ghost use Rattle.outside.specs.Calls.{CallsState};

    ghost Value = { CallsState };

    ghost view = { λ calls. record { made = calls.made; fails = calls.fails.items; faults = calls.faults } };
}

impl Calls {
    /// No call yet, and no fault.
    pub fn new(fails: Vec<u32>) -> Calls
        ensures { result ≡ record { made = 0; fails = fails.items; faults = 0 } }
    {
        Calls {
            made: 0,
            fails,
            faults: 0,
        }
    }

    /// Makes the next call, and answers whether it fails.
    pub fn next(&mut self) -> bool
        ensures fails { result ≡ next_fails self.old }
        ensures counted { self.new ≡ after_call self.old }
        ensures later { self.old.faults ≤ self.new.faults }
        ensures rose { OnTrue result (Rose self.old.faults self.new.faults) }
        ensures same { OnFalse result (self.new.faults ≡ self.old.faults) }
    {
        let Some(number) = self.made.checked_add(1) else {
            return false;
        };
        self.made = number;
        let fails = self.fails.as_slice().contains(&number);
        if fails {
            self.faults = count_fault(self.faults);
        }
        fails
    }
}
