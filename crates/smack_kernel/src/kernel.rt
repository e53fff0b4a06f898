ghost use Rattle.std.specs.Prelude.{◌≡◌, ◌<◌, ◌+◌, length, false, IfOk, IfErr, OnOk, OnErr};
ghost use Rattle.smack_kernel.specs.Tasks.{booted_task, most_calls, Stays, Hears, Adopts, Loads, LoadsOnce};
ghost use Rattle.smack_kernel.specs.Answers.{ArePackedOps, IsAsked, is_fork_call, IsCalled, IsForked, IsOpsWritten, IsOwnWritten, IsWritten, TakesPen, IsMarked, IsSeqFull, IsWholeTask, Closes};

use crate::basis::Basis;
use crate::closed::Closed;
use crate::forks::branch;
use crate::index::{Index, look};
use crate::publishing::{self, publish};
use crate::task::{Notice, Task};
use crate::turns::{Entered, Turned, enter};
use crate::world_machine::WorldMachine;
use file_spec::{Compiled, Refusal};
use label_table::Labels;
use live_table::LiveTable;
use rules_spec::{Batch, Verdict};
use smack_base::{LabelId, Modes, Pid, RuleOps};
use smack_decide::cases;
use smackfs::{TextFault, compile};
use std::alloc::{AllocError, Global};
use std::marker::Model;
use std::sync::Wait;
use task_creds::Cred;
use world_spec::{Call, TaskCall};

/// How many calls a task makes at most.
const MOST_CALLS: u32 = 1_048_575;

/// The answer to a question.
#[derive(Clone, Copy, PartialEq, Eq)]
pub enum Asked {
    /// The verdict of the ordered cases in this version.
    Verdict { version: u32, verdict: Verdict },
    /// The task has made 1,048,575 calls; nothing changed.
    SeqFull,
}

/// What came of an object call.
#[derive(Drop)]
pub enum Called {
    /// The call is an entry of the history.
    Entry(Entered),
    /// The history has 131,072 entries: the call was not made and is not counted, and comes back.
    TrailFull(Call),
    /// The task has made 1,048,575 calls; nothing changed, and the call comes back.
    SeqFull(Call),
}

/// What came of a text that was written.
#[derive(Drop)]
pub enum Written {
    /// The writes are a batch, which makes this version.
    Batch { version: u32 },
    /// The text is an object call of the writing task, which is an entry of the history.
    Entry(Entered),
    /// The text was refused, in this version.
    Refused { version: u32, fault: Refusal },
    /// The text is an object call, and the history has 131,072 entries: it was not made and is not
    /// counted.
    TrailFull,
    /// The task has made 1,048,575 calls; nothing changed.
    SeqFull,
}

/// The task has made 1,048,575 calls; nothing changed.
#[derive(Clone, Copy, PartialEq, Eq)]
pub struct SeqFull;

/// The rules that tasks share, and the turn of the world.
#[derive(Drop)]
pub struct Kernel {
    table: LiveTable<WorldMachine>,
    labels: Labels,
}

impl Model for Kernel {
    ghost use Rattle.smack_kernel.specs.Tasks.{KernelValue};

    ghost Value = { KernelValue };

    ghost view = { λ k. record { table = k.table; labels = k.labels } };
}

impl Kernel {
    /// A kernel with these labels, and its first task, which has made no call. There are no rules.
    pub fn boot(alloc: Global, labels: Labels) -> Result<(Kernel, Task), AllocError>
        ensures labels { IfOk result (λ r. r.0.labels ≡ labels) }
        ensures task { IfOk result (λ r. r.1 ≡ booted_task r.0.table) }
    {
        let index = Index::new(alloc)?;
        let (table, seat) = LiveTable::new(alloc, WorldMachine::new(alloc)?)?;
        let task = Task {
            seat,
            basis: Basis {
                index,
                creds: Cred::first(alloc),
            },
            made: 0,
        };
        Ok((Kernel { table, labels }, task))
    }

    /// The labels that the kernel was booted with.
    pub fn labels(&self) -> &Labels
        ensures { result.now ≡ self.now.labels }
    {
        &self.labels
    }

    /// Looks at the published rows and takes those that the task's rules lack. It waits for nobody.
    /// On want of memory the rules are those of a version in between, and the next call goes on from
    /// there.
    pub fn catch_up(&self, alloc: Global, task: &mut Task) -> Result<(), AllocError>
        requires { task.old.table ≡ self.now.table }
        ensures same { (task.new.table ≡ task.old.table) × (task.new.number ≡ task.old.number) }
        ensures stays { Stays task.old task.new }
        ensures whole { OnOk result (task.new.version ≡ length task.new.journal) }
        ensures lacks { OnErr result (task.new.version < length task.new.journal) }
        ensures loads { Loads task.old task.new }
        ensures once { OnOk result (LoadsOnce task.old task.new) }
        ensures looks { task.old.looks < task.new.looks }
        ensures penless { task.new.pens ≡ task.old.pens }
    {
        look(alloc, &self.table, &mut task.seat, &mut task.basis.index)
    }

    /// Catches up, and judges a question by the ordered cases. It waits for nobody, and takes memory
    /// only where the task's rules lack a batch.
    pub fn ask(
        &self,
        alloc: Global,
        task: &mut Task,
        s: LabelId,
        o: LabelId,
        m: Modes,
    ) -> Result<Asked, AllocError>
        requires { task.old.table ≡ self.now.table }
        ensures same { (task.new.table ≡ task.old.table) × (task.new.number ≡ task.old.number) }
        ensures asked { IfOk result (IsAsked task.old task.new s o m) }
        ensures stays { OnErr result (Stays task.old task.new) }
        ensures lacks { OnErr result (task.new.version < length task.new.journal) }
        ensures loads { Loads task.old task.new }
        ensures once { OnOk result (LoadsOnce task.old task.new) }
        ensures looks { task.old.made < most_calls → task.old.looks < task.new.looks }
        ensures penless { task.new.pens ≡ task.old.pens }
    {
        if task.made >= MOST_CALLS {
            return Ok(Asked::SeqFull);
        }
        look(alloc, &self.table, &mut task.seat, &mut task.basis.index)?;
        task.made += 1;
        Ok(Asked::Verdict {
            version: task.basis.index.rules.version(),
            verdict: cases(&task.basis.index.rules, s, o, m),
        })
    }

    /// Makes an object call, which is no fork: the task waits for the turn, looks at the published
    /// rows and catches up, and the world steps in that version; the step is one entry of the history.
    /// A call that is denied or refused is an entry too. On want of memory there is no entry, and the
    /// call comes back; such a call is not counted. That the turn is ever had is not promised.
    pub fn call<R: Wait>(
        &self,
        rt: &R,
        alloc: Global,
        task: &mut Task,
        call: Call,
    ) -> Result<Called, (AllocError, Call)>
        requires table { task.old.table ≡ self.now.table }
        requires plain { is_fork_call call ≡ false }
        ensures same { (task.new.table ≡ task.old.table) × (task.new.number ≡ task.old.number) }
        ensures called { IfOk result (IsCalled task.old task.new call) }
        ensures back { IfErr result (λ e. (e.1 ≡ call) × Stays task.old task.new) }
        ensures loads { Loads task.old task.new }
        ensures once { OnOk result (LoadsOnce task.old task.new) }
        ensures looks { task.old.made < most_calls → task.old.looks < task.new.looks }
        ensures penless { task.new.pens ≡ task.old.pens }
    {
        if task.made >= MOST_CALLS {
            return Ok(Called::SeqFull(call));
        }
        match enter(
            rt,
            alloc,
            &self.table,
            &mut task.seat,
            &mut task.basis,
            task.made,
            call,
        ) {
            Ok(Turned::Entry(entered)) => {
                task.made += 1;
                Ok(Called::Entry(entered))
            }
            Ok(Turned::TrailFull(call)) => Ok(Called::TrailFull(call)),
            Err(error) => Err(error),
        }
    }

    /// Makes the object call `Fork`. Where its reply is `Child`, the child is handed out: it has the
    /// number that the reply names, its parent's credentials and rules as they are after the call, and
    /// has seen all that its parent then has, the entry of the fork among it. On want of memory there
    /// is no entry.
    pub fn fork<R: Wait>(
        &self,
        rt: &R,
        alloc: Global,
        task: &mut Task,
        pid: Pid,
    ) -> Result<(Called, Option<Task>), AllocError>
        requires { task.old.table ≡ self.now.table }
        ensures same { (task.new.table ≡ task.old.table) × (task.new.number ≡ task.old.number) }
        ensures forked { IfOk result (λ r. IsForked task.old task.new pid r.0 r.1) }
        ensures stays { OnErr result (Stays task.old task.new) }
        ensures loads { Loads task.old task.new }
        ensures once { OnOk result (LoadsOnce task.old task.new) }
        ensures looks { task.old.made < most_calls → task.old.looks < task.new.looks }
        ensures penless { task.new.pens ≡ task.old.pens }
    {
        if task.made >= MOST_CALLS {
            let call = Call::Task(TaskCall::Fork { pid });
            return Ok((Called::SeqFull(call), None));
        }
        let (turned, child) = branch(
            rt,
            alloc,
            &self.table,
            &mut task.seat,
            &mut task.basis,
            task.made,
            pid,
        )?;
        match turned {
            Turned::Entry(entered) => {
                task.made += 1;
                Ok((Called::Entry(entered), child))
            }
            Turned::TrailFull(call) => Ok((Called::TrailFull(call), child)),
        }
    }

    /// Writes a text to a file. A text that its file does not take is refused at once, in the version
    /// of the task's rules. For a file of rules or settings the task waits for the pen and catches up;
    /// the text is refused where the task lacks CAP_MAC_ADMIN in that version, and then where the
    /// journal has no room; else its writes are published as one batch. For a file of the task's own
    /// rules the text is an object call. Want of memory comes only before anything is published or
    /// entered, and such a call is not counted.
    pub fn write<R: Wait>(
        &self,
        rt: &R,
        alloc: Global,
        task: &mut Task,
        file: &[u8],
        text: &[u8],
    ) -> Result<Written, AllocError>
        requires { task.old.table ≡ self.now.table }
        ensures same { (task.new.table ≡ task.old.table) × (task.new.number ≡ task.old.number) }
        ensures written { IfOk result (IsWritten self.now.labels task.old task.new file.now text.now) }
        ensures stays { OnErr result (Stays task.old task.new) }
        ensures loads { Loads task.old task.new }
        ensures once { OnOk result (LoadsOnce task.old task.new) }
        ensures pens { IfOk result (TakesPen task.old task.new) }
    {
        if task.made >= MOST_CALLS {
            return Ok(Written::SeqFull);
        }
        prove!(self.labels.len() as usize <= Labels::LIMIT);
        match compile(alloc, &self.labels, file, text) {
            Ok(Compiled::Rules(ops)) => self.write_ops(rt, alloc, task, ops),
            Ok(Compiled::SelfRules(rules)) => {
                self.write_own(rt, alloc, task, TaskCall::SelfRules { rules })
            }
            Ok(Compiled::Relabels(labels)) => {
                self.write_own(rt, alloc, task, TaskCall::Relabels { labels })
            }
            Err(TextFault::Refused(fault)) => Ok(Kernel::refuse_text(task, fault)),
            Err(TextFault::Memory) => Err(AllocError),
        }
    }

    /// Counts a call whose text is refused.
    fn refuse_text(task: &mut Task, fault: Refusal) -> Written
        requires { task.old.made < most_calls }
        ensures refused { task.new ≡ record task.old { made = task.old.made + 1 } }
        ensures answer { result ≡ Written.Refused task.old.version fault }
    {
        task.made += 1;
        Written::Refused {
            version: task.version(),
            fault,
        }
    }

    /// Publishes the writes of a good text.
    fn write_ops<R: Wait>(
        &self,
        rt: &R,
        alloc: Global,
        task: &mut Task,
        ops: RuleOps,
    ) -> Result<Written, AllocError>
        requires table { task.old.table ≡ self.now.table }
        requires few { task.old.made < most_calls }
        requires packed { ArePackedOps ops }
        ensures same { (task.new.table ≡ task.old.table) × (task.new.number ≡ task.old.number) }
        ensures written { IfOk result (IsOpsWritten task.old task.new ops) }
        ensures stays { OnErr result (Stays task.old task.new) }
        ensures loads { Loads task.old task.new }
        ensures once { OnOk result (LoadsOnce task.old task.new) }
        ensures pens { task.new.pens ≡ task.old.pens + 1 }
    {
        let batch = Batch {
            task: task.number(),
            seq: task.made + 1,
            ops,
        };
        let published = publish(
            rt,
            alloc,
            &self.table,
            &mut task.seat,
            &mut task.basis.index,
            &task.basis.creds,
            &batch,
        )?;
        task.made += 1;
        let version = task.version();
        match published {
            publishing::Published::Batch => Ok(Written::Batch { version }),
            publishing::Published::NotPrivileged => Ok(Written::Refused {
                version,
                fault: Refusal::NotPrivileged,
            }),
            publishing::Published::JournalFull { rows } => Ok(Written::Refused {
                version,
                fault: Refusal::JournalFull { rows },
            }),
        }
    }

    /// Makes the object call that a good text is.
    fn write_own<R: Wait>(
        &self,
        rt: &R,
        alloc: Global,
        task: &mut Task,
        call: TaskCall,
    ) -> Result<Written, AllocError>
        requires table { task.old.table ≡ self.now.table }
        requires plain { is_fork_call (Call.Task call) ≡ false }
        ensures same { (task.new.table ≡ task.old.table) × (task.new.number ≡ task.old.number) }
        ensures written { IfOk result (IsOwnWritten task.old task.new (Call.Task call)) }
        ensures stays { OnErr result (Stays task.old task.new) }
        ensures loads { Loads task.old task.new }
        ensures once { OnOk result (LoadsOnce task.old task.new) }
        ensures penless { task.new.pens ≡ task.old.pens }
    {
        match self.call(rt, alloc, task, Call::Task(call)) {
            Ok(Called::Entry(entered)) => Ok(Written::Entry(entered)),
            Ok(Called::TrailFull(_)) => Ok(Written::TrailFull),
            Ok(Called::SeqFull(_)) => Ok(Written::SeqFull),
            Err((fault, _)) => Err(fault),
        }
    }

    /// Numbers a call that does nothing: the version of the task's rules.
    pub fn mark(&self, task: &mut Task) -> Result<u32, SeqFull>
        requires { task.old.table ≡ self.now.table }
        ensures same { (task.new.table ≡ task.old.table) × (task.new.number ≡ task.old.number) }
        ensures marked { IfOk result (IsMarked task.old task.new) }
        ensures full { OnErr result (IsSeqFull task.old task.new) }
    {
        if task.made >= MOST_CALLS {
            return Err(SeqFull);
        }
        task.made += 1;
        Ok(task.version())
    }

    /// A notice of all that the task has seen. The task stays as it is.
    pub fn notice(&self, task: &mut Task) -> Notice
        requires { task.old.table ≡ self.now.table }
        ensures same { task.new ≡ task.old }
        ensures told { result ≡ record { table = task.old.table; journal = task.old.journal; history = task.old.history } }
    {
        Notice {
            notice: self.table.notice(&mut task.seat),
        }
    }

    /// Hears a notice: the task has then seen all that the notice has. Its rules stay those that it
    /// has taken, until it catches up.
    pub fn hear(&self, task: &mut Task, note: Notice)
        requires { (task.old.table ≡ self.now.table) × (note.table ≡ self.now.table) }
        ensures same { (task.new.table ≡ task.old.table) × (task.new.number ≡ task.old.number) }
        ensures hears { Hears task.old note task.new }
    {
        let Notice { notice } = note;
        self.table.hear(&mut task.seat, notice);
    }

    /// Adopts another task of the kernel, which ends: the task has then seen all that both had, and
    /// its rules are those of the greater version. The other's calls are those of ended numbers of
    /// this task. It takes no memory.
    pub fn adopt(&self, task: &mut Task, child: Task)
        requires { (task.old.table ≡ self.now.table) × (child.table ≡ self.now.table) }
        ensures same { (task.new.table ≡ task.old.table) × (task.new.number ≡ task.old.number) }
        ensures adopts { Adopts task.old child task.new }
    {
        let Task {
            seat,
            basis: Basis { index, creds: _ },
            made: _,
        } = child;
        self.table.adopt(&mut task.seat, seat);
        task.basis.index.keep_newer(index);
    }

    /// Ends the kernel: its labels, and all that was published and entered. The task is whole. On
    /// want of memory kernel and task come back as they were, but for the rows that were loaded.
    pub fn close(self, alloc: Global, task: Task) -> Result<Closed, (AllocError, Kernel, Task)>
        requires table { task.table ≡ self.table }
        requires whole { IsWholeTask task }
        ensures closed { IfOk result (Closes self.labels task) }
        ensures back { IfErr result (λ e. (e.1 ≡ self) × (e.2 ≡ record task { loads = e.2.loads })) }
    {
        let Task { seat, basis, made } = task;
        let Kernel { table, labels } = self;
        match table.close(alloc, seat) {
            Ok((journal, machine)) => Ok(Closed {
                labels,
                journal,
                history: machine.into_trail(),
            }),
            Err((fault, table, seat)) => Err((
                fault,
                Kernel { table, labels },
                Task { seat, basis, made },
            )),
        }
    }
}
