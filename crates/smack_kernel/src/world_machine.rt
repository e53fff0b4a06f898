ghost use Rattle.std.specs.Prelude.{◌≡◌, [], List, IfOk, IfErr, OnOk, OnErr};
ghost use Rattle.rules_spec.specs.declared.Batch.{Batch};
ghost use Rattle.rule_fold.specs.Index.{ruling_of, StandsFor};
ghost use Rattle.world_spec.specs.Worlds.{world_first};
ghost use Rattle.world_spec.specs.Replays.{StandsOver};
ghost use Rattle.smack_world.specs.Stepping.{IsStepped};

use live_table::Machine;
use rule_fold::RuleIndex;
use smack_world::{Stepped, World};
use std::alloc::{AllocError, Global};
use std::marker::Model;
use world_spec::{Call, Entry, Trail};

/// The world as the machine of a table: its trail is the history.
#[derive(Drop)]
pub struct WorldMachine {
    world: World,
}

impl Model for WorldMachine {
    ghost use Rattle.smack_world.specs.Stepping.{WorldValue};

    ghost Value = { WorldValue };

    ghost view = { λ m. m.world };
}

impl Machine for WorldMachine {
    ghost use Rattle.smack_kernel.specs.Histories.{world_means};
    ghost use Rattle.smack_kernel.specs.Replays.{lawful};

    type Entry = Entry;

    ghost means = { world_means };

    ghost lawful = { lawful };
}

impl WorldMachine {
    /// The first world.
    pub fn new(alloc: Global) -> Result<WorldMachine, AllocError>
        ensures world { IfOk result (λ m. m.world ≡ world_first) }
        ensures trail { IfOk result (λ m. m.trail ≡ []) }
    {
        Ok(WorldMachine {
            world: World::new(alloc)?,
        })
    }

    /// Takes a call of a task in the version of `rules`, as the world does.
    pub fn step(
        &mut self,
        alloc: Global,
        rules: &RuleIndex,
        task: u16,
        seq: u32,
        call: Call,
    ) -> Result<Stepped, (AllocError, Call)>
        ensures stepped { IfOk result (IsStepped self.old self.new (ruling_of rules.now) task seq call) }
        ensures stands { OnOk result ((journal : List Batch) → StandsFor rules.now journal
            → StandsOver journal self.old.trail self.old.world → StandsOver journal self.new.trail self.new.world) }
        ensures back { IfErr result (λ e. e.1 ≡ call) }
        ensures err { OnErr result (self.new ≡ self.old) }
    {
        self.world.step(alloc, rules, task, seq, call)
    }

    /// The entries in the order in which the calls were made.
    pub fn into_trail(self) -> Trail
        ensures { result ≡ self.trail }
    {
        let WorldMachine { world } = self;
        world.into_trail()
    }
}
