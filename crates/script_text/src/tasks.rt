ghost use Rattle.std.specs.Prelude.{◌≡◌, ◌≤◌, ◌<◌, ◌+◌, ◌∷◌, ◌++◌, [], length, slice_index_or, slice_set, reverse, nat_lt, true, false, IfOk, OnOk};
ghost use Rattle.std.specs.List.{position, position_or_len, list_any};
ghost use Rattle.std.specs.Str.{bytes_eq};
ghost use Rattle.script_spec.specs.Tasks.{forked_name, lineage, latest_child as latest_child_of, is_pid as is_pid_of, is_there as is_there_of, pid_of as pid_of_name, is_gone as is_gone_of, is_live_name as is_live_of, is_latest_child as is_latest_child_of, change_of as change_of_call};
ghost use Rattle.script_text.specs.TaskTables.{part_names, tasks_seen, table_after, flag_in, count_in, change_seen, IsWaitThere, IsTable, IsFirst, IsTaskForked, IsFlagged, IsTaskAwaited, IsCounted, IsTasksAfter};
ghost use Rattle.script_text.specs.Spelled.{spelled_seen, IsSpelledCall};
ghost use Rattle.script_spec.specs.Grammar.{most_script_tasks};

use crate::spelled::Spelled;
use call_words::word;
use rule_text::Part;
use std::alloc::{AllocError, Global};
use verb_spec::Verb;

/// The most tasks of a script.
const MOST_TASKS: usize = 64;

/// What the calls so far say of tasks, by pid.
#[derive(Drop)]
pub struct TaskTable<'a> {
    pub names: Vec<Part<'a>>,
    /// The tasks that made the tasks 1, 2, ..
    pub parents: Vec<u16>,
    /// Which tasks have exited.
    pub exited: Vec<bool>,
    /// Which tasks were waited for.
    pub awaited: Vec<bool>,
    /// How many calls each task has.
    pub calls: Vec<u32>,
}

/// What a call does to the tasks.
#[derive(Clone, Copy)]
enum Change<'a> {
    Fork(Part<'a>),
    Exit,
    Wait(Part<'a>),
    Nothing,
}

/// The place of the first task of a name.
fn first_of(names: &[Part<'_>], name: &[u8]) -> Option<usize>
    ensures { result ≡ position (λ p. bytes_eq p.bytes.now name.now) names.now }
{
    names.iter().position(|known| known.bytes == name)
}

/// The place of a name among the names of tasks, or their number.
fn place_of(names: &[Part<'_>], name: &[u8]) -> usize
    ensures { result ≡ position_or_len (λ t. bytes_eq t name.now) (part_names names.now) }
{
    match first_of(names, name) {
        Some(at) => at,
        None => names.len(),
    }
}

fn has_flag(flags: &[bool], task: usize) -> bool
    ensures { result ≡ flag_in flags.now task }
{
    match flags.get(task) {
        Some(flag) => *flag,
        None => false,
    }
}

fn set_flag(flags: &mut [bool], task: usize)
    requires { task < length flags.old }
    ensures { flags.new ≡ slice_set flags.old task true }
{
    flags[task] = true;
}

fn add_one(counts: &mut [u32], task: usize)
    requires there { task < length counts.old }
    requires small { count_in counts.old task < 131072 }
    ensures { counts.new ≡ slice_set counts.old task (count_in counts.old task + 1) }
{
    counts[task] += 1;
}

/// Whether a task or one that it descends from has a flag.
fn is_gone(flags: &[bool], parents: &[u16], task: usize) -> bool
    ensures { result ≡ list_any (flag_in flags.now) (lineage (reverse parents.now) task) }
{
    let mut task = task;
    let mut older = parents.len();
    while older > 0 {
        let youngest = older;
        older -= 1;
        if task == youngest {
            if has_flag(flags, task) {
                return true;
            }
            task = parents[older] as usize;
        }
    }
    has_flag(flags, task)
}

/// The youngest child of a task without a flag.
fn latest_child(flags: &[bool], parents: &[u16], task: usize) -> Option<usize>
    ensures { result ≡ latest_child_of (flag_in flags.now) (reverse parents.now) task }
{
    let mut older = parents.len();
    while older > 0 {
        let youngest = older;
        older -= 1;
        if parents[older] as usize == task && !has_flag(flags, youngest) {
            return Some(youngest);
        }
    }
    None
}

/// What a call does to the tasks.
fn change_of<'a>(call: &Spelled<'_, 'a>) -> Change<'a>
    requires { IsSpelledCall call.now }
    ensures { change_seen result ≡ change_of_call (spelled_seen call.now) }
{
    match call.verb {
        Verb::Fork => Change::Fork(word(call.words, 1)),
        Verb::Exit => Change::Exit,
        Verb::Wait => Change::Wait(word(call.words, 1)),
        Verb::Write | Verb::Ask | Verb::Call(_) => Change::Nothing,
    }
}

impl<'a> TaskTable<'a> {
    /// The first task alone, without a call.
    pub fn new(alloc: Global) -> Result<TaskTable<'a>, AllocError>
        ensures first { IfOk result (λ tasks. IsFirst tasks) }
    {
        let mut tasks = TaskTable {
            names: Vec::new(alloc),
            parents: Vec::new(alloc),
            exited: Vec::new(alloc),
            awaited: Vec::new(alloc),
            calls: Vec::new(alloc),
        };
        tasks.names.push(Part {
            bytes: b"init",
            at: 0,
        })?;
        tasks.exited.push(false)?;
        tasks.awaited.push(false)?;
        tasks.calls.push(0)?;
        Ok(tasks)
    }

    /// The pid of a name; the number of tasks where none has it.
    pub fn pid_of(&self, name: &[u8]) -> usize
        ensures { result ≡ pid_of_name (tasks_seen self.now) name.now }
    {
        place_of(self.names.as_slice(), name)
    }

    /// Whether a task of this name is there.
    pub fn is_there(&self, name: &[u8]) -> bool
        ensures { result ≡ is_there_of (tasks_seen self.now) name.now }
    {
        self.pid_of(name) < self.names.len()
    }

    /// Whether a task is live: it is there, it has not exited, and neither it nor one that it
    /// descends from was waited for.
    pub fn is_live(&self, name: &[u8]) -> bool
        ensures { result ≡ is_live_of (tasks_seen self.now) name.now }
    {
        let task = self.pid_of(name);
        task < self.names.len()
            && !has_flag(self.exited.as_slice(), task)
            && !is_gone(self.awaited.as_slice(), self.parents.as_slice(), task)
    }

    /// Whether a name is that of the latest child of a task that was not waited for.
    pub fn is_latest_child(&self, task: usize, name: &[u8]) -> bool
        ensures { result ≡ is_latest_child_of (tasks_seen self.now) task name.now }
    {
        match latest_child(self.awaited.as_slice(), self.parents.as_slice(), task) {
            Some(child) => child == self.pid_of(name),
            None => false,
        }
    }

    /// How many calls a task has.
    pub fn calls(&self, task: usize) -> u32
        ensures { result ≡ (tasks_seen self.now).calls task }
    {
        match self.calls.as_slice().get(task) {
            Some(count) => *count,
            None => 0,
        }
    }

    /// Whether a call makes more tasks than a script may have.
    pub fn is_full_for(&self, call: &Spelled<'_, 'a>) -> bool
        requires call { IsSpelledCall call.now }
        requires few { length self.now.names.items ≤ most_script_tasks }
        ensures { result ≡ nat_lt most_script_tasks (length ((tasks_seen self.now).names ++ forked_name (change_of_call (spelled_seen call.now)))) }
    {
        match change_of(call) {
            Change::Fork(_) => self.names.len() >= MOST_TASKS,
            Change::Exit | Change::Wait(_) | Change::Nothing => false,
        }
    }

    fn fork(&mut self, parent: u16, name: Part<'a>) -> Result<(), AllocError>
        ensures { OnOk result (IsTaskForked parent name.entry.bytes.now self.old self.new) }
    {
        self.names.push(name)?;
        self.parents.push(parent)?;
        self.exited.push(false)?;
        self.awaited.push(false)?;
        self.calls.push(0)?;
        Ok(())
    }

    /// One more call of a task.
    fn count(&mut self, task: usize)
        requires there { task < length self.old.calls.items }
        requires small { count_in self.old.calls.items task < 131072 }
        ensures { IsCounted task self.old self.new }
    {
        add_one(self.calls.as_mut_slice(), task);
    }

    fn exit(&mut self, task: usize)
        requires { task < length self.old.exited.items }
        ensures { IsFlagged task self.old self.new }
    {
        set_flag(self.exited.as_mut_slice(), task);
    }

    fn wait(&mut self, child: usize)
        requires { child < length self.old.awaited.items }
        ensures { IsTaskAwaited child self.old self.new }
    {
        set_flag(self.awaited.as_mut_slice(), child);
    }

    /// Adds a call.
    pub fn add(&mut self, call: &Spelled<'_, 'a>) -> Result<(), AllocError>
        requires call { IsSpelledCall call.now }
        requires table { IsTable self.old }
        requires task { call.now.task < length self.old.names.items }
        requires small { count_in self.old.calls.items call.now.task < 131072 }
        requires room { length (tasks_seen self.old).names + length (forked_name (change_of_call (spelled_seen call.now))) ≤ most_script_tasks }
        requires there { IsWaitThere (tasks_seen self.old) (change_of_call (spelled_seen call.now)) }
        ensures { OnOk result (IsTasksAfter call.now.task (change_of_call (spelled_seen call.now)) self.old self.new) }
    {
        let task = call.task as usize;
        self.count(task);
        match change_of(call) {
            Change::Fork(name) => self.fork(call.task, name)?,
            Change::Exit => self.exit(task),
            Change::Wait(name) => {
                let child = self.pid_of(name.bytes);
                self.wait(child);
            }
            Change::Nothing => {}
        }
        Ok(())
    }
}
