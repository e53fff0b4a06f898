ghost use Rattle.std.specs.Prelude.{◌≡◌, ◌<◌, ◌≤◌, true, false, [], ◌∷◌, length, position, IfOk, OnOk, OnErr, IfErr, IfSome, Some, None, MatchOption};
ghost use Rattle.world_spec.specs.Worlds.{task_first, most_tasks, was_made, live_task, is_live, creds_in, creds_or_first, pending_in, pending_or_none, without_life, with_child};
ghost use Rattle.task_table.specs.Faults.{IsForkFault};

use crate::fault::TaskFault;
use crate::row::Row;
use signal_box::Pending;
use smack_base::{Duplicate, Pid};
use std::alloc::{AllocError, Global};
use std::marker::Model;
use task_creds::Cred;

/// The most tasks that are ever made, the first included.
const MOST_TASKS: u32 = 64;

/// The tasks that were ever made, each at the place of its number.
#[derive(Drop)]
pub struct Tasks {
    rows: Vec<Row>,
}

impl Model for Tasks {
    ghost use Rattle.std.specs.Prelude.{List, length, ◌≤◌};
    ghost use Rattle.world_spec.specs.Worlds.{TaskRow, most_tasks};

    ghost Value = { List TaskRow };

    ghost view = { λ t. t.rows.items };

    ghost invariant = { λ t. length t.rows.items ≤ most_tasks };
}

fn place_of(rows: &[Row], pid: Pid) -> Option<usize>
    ensures place { result ≡ live_task rows.now pid }
    ensures within { IfSome result (λ at. at < length rows.now) }
{
    rows.iter().position(|row| row.live() && row.pid() == pid)
}

impl Tasks {
    /// The first task alone: number 0, pid 0.
    pub fn first(alloc: Global) -> Result<Tasks, AllocError>
        ensures { IfOk result (λ tasks. tasks ≡ task_first ∷ []) }
    {
        let mut rows = Vec::new(alloc);
        rows.push(Row::begun(Pid(0), Cred::first(alloc)))?;
        Ok(Tasks { rows })
    }

    /// How many tasks were ever made, which is the next number.
    pub fn made(&self) -> u16
        ensures made { result ≡ length self.now }
        ensures limit { length self.now ≤ most_tasks }
    {
        self.rows.len() as u16
    }

    /// Whether a task ever had the pid.
    pub fn knows(&self, pid: Pid) -> bool
        ensures { result ≡ was_made self.now pid }
    {
        self.rows.iter().any(|row| row.pid() == pid)
    }

    /// Makes a task with the next number, a copy of its parent's credentials and no signal that
    /// waits, where the pid is new and there is room. On want of memory nothing changes.
    pub fn begin(&mut self, parent: u16, pid: Pid) -> Result<u16, AllocError>
        requires parent { parent < length self.old }
        requires room { length self.old < most_tasks }
        ensures number { IfOk result (λ number. number ≡ length self.old) }
        ensures ok { OnOk result (self.new ≡ with_child self.old pid (creds_or_first (creds_in self.old parent))) }
        ensures err { OnErr result (self.new ≡ self.old) }
    {
        let number = self.made();
        let cred = self.rows[parent as usize].cred().copy()?;
        match self.rows.push(Row::begun(pid, cred)) {
            Ok(()) => Ok(number),
            Err(_) => Err(AllocError),
        }
    }

    /// Makes a task with the next number, a copy of its parent's credentials and no signal that
    /// waits. `Exists` comes exactly where a task ever had the pid, and then `TasksFull` exactly
    /// where 64 tasks were made. On an error nothing changes.
    pub fn fork(&mut self, parent: u16, pid: Pid) -> Result<u16, TaskFault>
        requires { parent < length self.old }
        ensures number { IfOk result (λ number. number ≡ length self.old) }
        ensures ok { OnOk result ((was_made self.old pid ≡ false) × (self.new ≡ with_child self.old pid (creds_or_first (creds_in self.old parent)))) }
        ensures fault { IfErr result (IsForkFault self.old pid) }
        ensures err { OnErr result (self.new ≡ self.old) }
    {
        if self.knows(pid) {
            return Err(TaskFault::Exists);
        }
        if self.rows.len() >= MOST_TASKS as usize {
            return Err(TaskFault::TasksFull { limit: MOST_TASKS });
        }
        match self.begin(parent, pid) {
            Ok(number) => Ok(number),
            Err(_) => Err(TaskFault::Memory),
        }
    }

    /// The task of this number is not live any more.
    pub fn exit(&mut self, task: u16)
        requires { task < length self.old }
        ensures { self.new ≡ without_life self.old task }
    {
        self.rows[task as usize].exit();
    }

    /// Whether the task of this number is live; a number that no task ever had is not.
    pub fn live(&self, task: u16) -> bool
        ensures { result ≡ is_live self.now task }
    {
        match self.rows.get(task as usize) {
            Some(row) => row.live(),
            None => false,
        }
    }

    /// The credentials of a live task; `None` exactly where the task of this number is not live.
    pub fn live_cred(&self, task: u16) -> Option<&Cred>
        ensures { MatchOption result (is_live self.now task ≡ false)
            (λ cred. (is_live self.now task ≡ true) × (cred.now ≡ creds_or_first (creds_in self.now task)) × (task < length self.now)) }
    {
        match self.rows.get(task as usize) {
            Some(row) => { if row.live() { Some(row.cred()) } else { None } }
            None => None,
        }
    }

    /// The number of the live task that has the pid; `None` exactly where no live task has it.
    pub fn of_pid(&self, pid: Pid) -> Option<u16>
        ensures number { result ≡ live_task self.now pid }
        ensures within { IfSome result (λ task. task < length self.now) }
    {
        match place_of(self.rows.as_slice(), pid) {
            Some(at) => Some(at as u16),
            None => None,
        }
    }

    /// The credentials of a task, live or not; `None` exactly where no task ever had the number.
    pub fn cred(&self, task: u16) -> Option<&Cred>
        ensures { MatchOption result (creds_in self.now task ≡ None) (λ cred. creds_in self.now task ≡ Some cred.now) }
    {
        match self.rows.get(task as usize) {
            Some(row) => Some(row.cred()),
            None => None,
        }
    }

    /// The signals that wait for a task; `None` exactly where no task ever had the number.
    pub fn pending(&self, task: u16) -> Option<&Pending>
        ensures { MatchOption result (pending_in self.now task ≡ None) (λ pending. pending_in self.now task ≡ Some pending.now) }
    {
        match self.rows.get(task as usize) {
            Some(row) => Some(row.pending()),
            None => None,
        }
    }
}

impl Tasks {
    ghost use Rattle.std.specs.Borrow.{Lends, sem};
    ghost use Rattle.task_table.specs.contracts.tasks.Tasks.{the_row};
    ghost use Rattle.task_creds.specs.contracts.cred.Cred.{the_row as cred_row};
    ghost use Rattle.signal_box.specs.contracts.pending.Pending.{the_row as pending_row};
    ghost use Rattle.world_spec.specs.Worlds.{with_creds, with_pending};

    /// The credentials of a task, to be changed.
    pub fn cred_mut(&mut self, task: u16) -> &mut Cred
        requires { task < length self.old }
        ensures* writes_back { sem 𝓛 (Lends the_row cred_row self.entry result (λ c. with_creds self.old task c)) }
        ensures value { result.now ≡ creds_or_first (creds_in self.old task) }
    {
        self.rows[task as usize].cred_mut()
    }

    /// The signals that wait for a task, to be changed.
    pub fn pending_mut(&mut self, task: u16) -> &mut Pending
        requires { task < length self.old }
        ensures* writes_back { sem 𝓛 (Lends the_row pending_row self.entry result (λ p. with_pending self.old task p)) }
        ensures value { result.now ≡ pending_or_none (pending_in self.old task) }
    {
        self.rows[task as usize].pending_mut()
    }
}
