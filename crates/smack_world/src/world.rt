ghost use Rattle.std.specs.Prelude.{◌≡◌, ◌<◌, ◌≤◌, ◌-◌, [], List, length, slice_get, IfOk, IfErr, OnOk, OnErr, Some, None, IfSome, MatchOption};
ghost use Rattle.rules_spec.specs.declared.Batch.{Batch};
ghost use Rattle.rule_fold.specs.Index.{ruling_of, StandsFor};
ghost use Rattle.world_spec.specs.Worlds.{world_first, creds_in, live_task as live_task_of, most_tasks};
ghost use Rattle.world_spec.specs.Replays.{StandsOver};
ghost use Rattle.smack_world.specs.Stepping.{IsStepped, most_entries};

use crate::acting::{Acted, act};
use rule_fold::RuleIndex;
use rules_spec::Checks;
use smack_base::Pid;
use std::alloc::{AllocError, Global};
use std::marker::Model;
use task_creds::Cred;
use task_table::Tasks;
use world_spec::{Call, Entry, Reply, Trail};
use world_state::{RootFiles, State};

/// The most entries of a trail.
const MOST_ENTRIES: u32 = 131_072;

/// The world that calls act on, and the trail of the calls.
#[derive(Drop)]
pub struct World {
    state: State,
    trail: Vec<Entry>,
}

impl Model for World {
    ghost use Rattle.std.specs.Prelude.{◌≤◌, length};
    ghost use Rattle.world_state.specs.Seen.{world_seen};
    ghost use Rattle.smack_world.specs.Stepping.{WorldValue, most_entries};

    ghost Value = { WorldValue };

    ghost view = { λ w. record { world = world_seen w.state; trail = w.trail.items } };

    ghost invariant = { λ w. length w.trail.items ≤ most_entries };
}

/// What a step came to.
#[derive(Drop)]
pub enum Stepped {
    /// The call was taken: the place of its entry in the trail, counted from 1, the checks and the
    /// reply of the entry once more, and the credentials that the caller has after the call; `None`
    /// where it has those that it had before.
    Entered {
        place: u32,
        checks: Checks,
        reply: Reply,
        creds: Option<Cred>,
    },
    /// The trail has 131,072 entries, its most: nothing was done, and the call comes back.
    TrailFull(Call),
}

impl World {
    /// The first task, an empty root directory with the label `_`, and an empty trail.
    pub fn new(alloc: Global) -> Result<World, AllocError>
        ensures world { IfOk result (λ w. w.world ≡ world_first) }
        ensures trail { IfOk result (λ w. w.trail ≡ []) }
    {
        Ok(World {
            state: State {
                tasks: Tasks::first(alloc)?,
                files: RootFiles::new(alloc),
            },
            trail: Vec::new(alloc),
        })
    }

    /// Takes a call of a task in the version of `rules` and puts its entry last in the trail.
    /// `TrailFull` comes exactly where the trail has 131,072 entries. On want of memory all is as
    /// before. In both cases the call comes back. Where the rules are the newest version of a journal,
    /// and the world is the one that its trail leaves over it, so it is after the step.
    pub fn step(
        &mut self,
        alloc: Global,
        rules: &RuleIndex,
        task: u16,
        seq: u32,
        call: Call,
    ) -> Result<Stepped, (AllocError, Call)>
        ensures stepped { IfOk result (IsStepped self.old self.new (ruling_of rules.now) task seq call) }
        ensures stands { OnOk result ((journal : List Batch) → StandsFor rules.now journal
            → StandsOver journal self.old.trail self.old.world → StandsOver journal self.new.trail self.new.world) }
        ensures back { IfErr result (λ e. e.1 ≡ call) }
        ensures err { OnErr result (self.new ≡ self.old) }
        ensures not_full { OnErr result (length self.old.trail < most_entries) }
    {
        if self.entries() == MOST_ENTRIES {
            return Ok(Stepped::TrailFull(call));
        }
        if let Err(error) = self.trail.reserve(1) {
            return Err((error, call));
        }
        match act(alloc, &mut self.state, rules, task, &call) {
            Err(error) => Err((error, call)),
            // A copy has no room to spare, so the trail keeps the copies.
            Ok(Acted { told, kept, creds }) => {
                self.trail
                    .push(Entry {
                        task,
                        seq,
                        call,
                        version: rules.version(),
                        checks: kept.checks,
                        reply: kept.reply,
                    })
                    .unwrap();
                Ok(Stepped::Entered {
                    place: self.entries(),
                    checks: told.checks,
                    reply: told.reply,
                    creds,
                })
            }
        }
    }

    /// How many entries the trail has.
    pub fn entries(&self) -> u32
        ensures { result ≡ length self.now.trail }
    {
        self.trail.len() as u32
    }

    /// The entry at a place, counted from 1.
    pub fn entry(&self, place: u32) -> &Entry
        requires from_one { 1 ≤ place }
        requires within { place ≤ length self.now.trail }
        ensures { Some result.now ≡ slice_get self.now.trail (place - 1) }
    {
        &self.trail[place as usize - 1]
    }

    /// The credentials of a task, live or not; `None` exactly where no task ever had the number.
    pub fn cred(&self, task: u16) -> Option<&Cred>
        ensures { MatchOption result (creds_in self.now.world.tasks task ≡ None) (λ cred. creds_in self.now.world.tasks task ≡ Some cred.now) }
    {
        self.state.tasks.cred(task)
    }

    /// The number of the live task that has a pid; `None` exactly where no live task has it.
    pub fn live_task(&self, pid: Pid) -> Option<u16>
        ensures number { result ≡ live_task_of self.now.world.tasks pid }
        ensures within { IfSome result (λ task. task < length self.now.world.tasks) }
    {
        self.state.tasks.of_pid(pid)
    }

    /// How many tasks were ever made, at most 64; the next number.
    pub fn tasks(&self) -> u16
        ensures tasks { result ≡ length self.now.world.tasks }
        ensures limit { length self.now.world.tasks ≤ most_tasks }
    {
        self.state.tasks.made()
    }

    /// The entries in the order in which the calls were made.
    pub fn into_trail(self) -> Trail
        ensures { result ≡ self.trail }
    {
        Trail::from_vec(self.trail)
    }
}
