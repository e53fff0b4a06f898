ghost use Rattle.std.specs.Prelude.{◌≡◌, ◌≤◌, length};
ghost use Rattle.smack_kernel.specs.Tasks.{most_calls, IsSound};

use crate::basis::Basis;
use crate::world_machine::WorldMachine;
use live_table::{Notice as SeatNotice, TaskSeat};
use std::marker::Model;

/// A task of a kernel: what it has seen, the rules that it has taken with its credentials, and how
/// many calls it made. A thread may take it along.
#[derive(Drop)]
pub struct Task {
    pub(crate) seat: TaskSeat<WorldMachine>,
    pub(crate) basis: Basis,
    pub(crate) made: u32,
}

impl Model for Task {
    ghost use Rattle.std.specs.Prelude.{◌≤◌};
    ghost use Rattle.smack_kernel.specs.Tasks.{TaskValue, IsTaskState, task_of, most_calls};

    ghost Value = { TaskValue };

    ghost view = { λ t. task_of t.seat t.basis.index.rules t.made t.basis.creds };

    ghost invariant = { λ t. IsTaskState t.seat t.basis.index.rules t.basis.index.rows t.basis.creds × (t.made ≤ most_calls) };
}

impl Task {
    /// How many calls the task made, at most 1,048,575.
    pub fn made(&self) -> u32
        ensures made { result ≡ self.now.made }
        ensures limit { result ≤ most_calls }
        ensures sound { IsSound self.now }
    {
        self.made
    }

    /// The number of the task: 0 is the first one's.
    pub fn number(&self) -> u16
        ensures { result ≡ self.now.number }
    {
        self.seat.number()
    }

    /// The version that the task's rules stand for: one of the journal that the task has seen.
    pub fn version(&self) -> u32
        ensures version { result ≡ self.now.version }
        ensures within { result ≤ length self.now.journal }
    {
        self.basis.index.rules.version()
    }
}

/// What a task has seen, for another to hear.
#[derive(Drop)]
pub struct Notice {
    pub(crate) notice: SeatNotice<WorldMachine>,
}

impl Model for Notice {
    ghost use Rattle.smack_kernel.specs.Tasks.{ToldValue, IsTold};

    ghost Value = { ToldValue };

    ghost view = { λ n. record { table = n.notice.table; journal = n.notice.view.journal; history = n.notice.view.history } };

    ghost invariant = { λ n. IsTold n.notice };
}
