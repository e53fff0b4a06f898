ghost use Rattle.std.specs.Prelude.{◌≡◌, ◌<◌, ◌≤◌, ◌+◌, ◌-◌, ◌^◌, ◌++◌, ◌∷◌, [], Ok, Some, length, map, IfOk, OnOk};
ghost use Rattle.rules_spec.specs.Creds.{is_effective};
ghost use Rattle.rules_spec.specs.Rulings.{ruling};
ghost use Rattle.file_spec.specs.Files.{compiled};
ghost use Rattle.world_spec.specs.Worlds.{creds_of};
ghost use Rattle.script_spec.specs.Grammar.{most_script_tasks};
ghost use Rattle.script_spec.specs.Lines.{word_in};
ghost use Rattle.script_text.specs.Lines.{call_seen};
ghost use Rattle.replay_spec.specs.Replays.{number_of_task, noted, after_act, after_line, published, written, stepped_by, run_first};
ghost use Rattle.smack_world.specs.Stepping.{most_entries};
ghost use Rattle.script_replay.specs.Running.{run_seen, IsRunning, Runs};

use asked_lines::{AskedByTask, AskedLine, AskedWhat};
use label_table::Labels;
use rule_fold::{Batch, Journal, RuleIndex};
use script_calls::{Act, act_of};
use script_text::Line;
use smack_base::{Bytes, Cap, Pid, RuleOps};
use smack_decide::{cases, effective};
use smack_world::{Call, Stepped, TaskCall, World};
use smackfs::{Compiled, Refusal, TextFault, compile};
use std::alloc::{AllocError, Global};
use task_creds::Cred;

/// A run so far: the rules of its newest version, the world with the trail of its calls, and what
/// else it leaves.
#[derive(Drop)]
pub struct Runner {
    pub rules: RuleIndex,
    pub journal: Journal,
    pub world: World,
    pub asked: AskedByTask,
}

impl Runner {
    /// No call has run.
    pub fn new(alloc: Global) -> Result<Runner, AllocError>
        ensures first { IfOk result (λ run. run_seen run ≡ run_first) }
        ensures running { IfOk result IsRunning }
    {
        Ok(Runner {
            rules: RuleIndex::new(alloc)?,
            journal: Journal::new(alloc),
            world: World::new(alloc)?,
            asked: AskedByTask::new(alloc)?,
        })
    }

    /// The number of the task of a line.
    fn task_of(&self, line: &Line<'_>) -> u16
        ensures number { result ≡ number_of_task (run_seen self.now) (call_seen line.now) }
        ensures limit { result ≤ most_script_tasks }
    {
        let made = self.world.tasks();
        match self.world.live_task(Pid(line.task)) {
            Some(task) => task,
            None => made,
        }
    }

    /// Publishes writes as one batch.
    fn publish(&mut self, line: &Line<'_>, ops: RuleOps) -> Result<(), AllocError>
        requires few { length self.old.journal < 2 ^ 32 - 1 }
        requires running { IsRunning self.old }
        ensures { OnOk result (Runs self.old self.new (published (run_seen self.old) (call_seen line.now) ops)) }
    {
        let batch = Batch {
            task: self.task_of(line),
            seq: line.seq,
            ops,
        };
        self.rules.absorb(&batch)?;
        self.journal.push(batch)?;
        Ok(())
    }

    /// Keeps a line that is neither a batch nor an object call.
    fn note(&mut self, line: &Line<'_>, what: AskedWhat) -> Result<(), AllocError>
        requires running { IsRunning self.old }
        ensures { OnOk result (Runs self.old self.new (noted (run_seen self.old) (call_seen line.now) what)) }
    {
        let task = self.task_of(line);
        let version = self.rules.version();
        self.asked.put(AskedLine {
            task,
            seq: line.seq,
            version,
            what,
        })
    }

    /// Keeps the line of a refused write.
    fn refuse(&mut self, alloc: Global, line: &Line<'_>, fault: Refusal) -> Result<(), AllocError>
        requires running { IsRunning self.old }
        ensures { OnOk result (Runs self.old self.new (noted (run_seen self.old) (call_seen line.now) (AskedWhat.Refused (word_in 1 (call_seen line.now)) fault))) }
    {
        let file = Bytes::from_slice(alloc, line.word(1))?;
        self.note(line, AskedWhat::Refused { file, fault })
    }

    /// Whether the task of a line may change rules and settings in the newest version.
    fn may_write(&self, alloc: Global, line: &Line<'_>) -> bool
        requires running { IsRunning self.now }
        ensures { result ≡ is_effective (creds_of self.now.world.world (number_of_task (run_seen self.now) (call_seen line.now))) Cap.MacAdmin (ruling self.now.journal) }
    {
        match self.world.cred(self.task_of(line)) {
            Some(cred) => effective(cred, Cap::MacAdmin, &self.rules),
            None => effective(&Cred::first(alloc), Cap::MacAdmin, &self.rules),
        }
    }

    /// Publishes the writes of a text where the task may, and else keeps the line.
    fn write_rules(
        &mut self,
        alloc: Global,
        line: &Line<'_>,
        ops: RuleOps,
    ) -> Result<(), AllocError>
        requires few { length self.old.journal < 2 ^ 32 - 1 }
        requires running { IsRunning self.old }
        ensures { OnOk result (Runs self.old self.new (written (run_seen self.old) (call_seen line.now) (Ok (Compiled.Rules ops)))) }
    {
        if self.may_write(alloc, line) {
            self.publish(line, ops)
        } else {
            self.refuse(alloc, line, Refusal::NotPrivileged)
        }
    }

    /// Writes the text of a line to its file.
    fn write(&mut self, alloc: Global, labels: &Labels, line: &Line<'_>) -> Result<(), AllocError>
        requires few { length self.old.journal < 2 ^ 32 - 1 }
        requires running { IsRunning self.old }
        requires room { length self.old.world.trail < most_entries }
        ensures { OnOk result (Runs self.old self.new (written (run_seen self.old) (call_seen line.now) (compiled labels.now (word_in 1 (call_seen line.now)) line.now.text.bytes.now))) }
    {
        match compile(alloc, labels, line.word(1), line.text.bytes) {
            Ok(Compiled::Rules(ops)) => self.write_rules(alloc, line, ops),
            Ok(Compiled::SelfRules(rules)) => {
                self.enter(alloc, line, Call::Task(TaskCall::SelfRules { rules }))
            }
            Ok(Compiled::Relabels(labels)) => {
                self.enter(alloc, line, Call::Task(TaskCall::Relabels { labels }))
            }
            Err(TextFault::Refused(fault)) => self.refuse(alloc, line, fault),
            Err(TextFault::Memory) => Err(AllocError),
        }
    }

    /// Takes a step of the world in the newest version.
    fn enter(&mut self, alloc: Global, line: &Line<'_>, call: Call) -> Result<(), AllocError>
        requires running { IsRunning self.old }
        requires room { length self.old.world.trail < most_entries }
        ensures { OnOk result (Runs self.old self.new (stepped_by (run_seen self.old) (call_seen line.now) call)) }
    {
        let task = self.task_of(line);
        match self.world.step(alloc, &self.rules, task, line.seq, call) {
            Ok(Stepped::Entered { .. }) => Ok(()),
            Ok(Stepped::TrailFull(_)) => unreachable!(),
            Err(_) => Err(AllocError),
        }
    }

    /// Does what a line does, by the labels of its script. A question is answered in the newest version.
    fn act(
        &mut self,
        alloc: Global,
        labels: &Labels,
        line: &Line<'_>,
        act: Act,
    ) -> Result<(), AllocError>
        requires few { length self.old.journal < 2 ^ 32 - 1 }
        requires running { IsRunning self.old }
        requires room { length self.old.world.trail < most_entries }
        ensures { OnOk result (Runs self.old self.new (after_act labels.now (run_seen self.old) (call_seen line.now) act)) }
    {
        match act {
            Act::Write => self.write(alloc, labels, line),
            Act::Ask { s, o, m } => {
                let verdict = cases(&self.rules, s, o, m);
                self.note(line, AskedWhat::Ask(verdict))
            }
            Act::Wait(pid) => self.note(line, AskedWhat::Wait { pid }),
            Act::Fork(pid) => self.enter(alloc, line, Call::Task(TaskCall::Fork { pid })),
            Act::Make(call) => self.enter(alloc, line, call),
        }
    }

    /// Runs one more line, by the labels of its script and the names of its tasks.
    pub fn step(
        &mut self,
        alloc: Global,
        labels: &Labels,
        names: &[Bytes],
        line: &Line<'_>,
    ) -> Result<(), AllocError>
        requires few { length self.old.journal < 2 ^ 32 - 1 }
        requires running { IsRunning self.old }
        requires room { length self.old.world.trail < most_entries }
        requires names { length names.now ≤ most_script_tasks }
        ensures { OnOk result (Runs self.old self.new (after_line labels.now names.now (run_seen self.old) (call_seen line.now))) }
    {
        match act_of(alloc, labels, names, line)? {
            Some(act) => self.act(alloc, labels, line, act),
            None => Ok(()),
        }
    }
}
