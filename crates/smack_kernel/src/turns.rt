//! What a task does in a turn.
ghost use Rattle.std.specs.Prelude.{◌≡◌, ◌≤◌, ◌<◌, ◌+◌, List, length, false, IfOk, IfErr, OnOk, OnErr};
ghost use Rattle.std.specs.Option.{unwrap_or};
ghost use Rattle.rules_spec.specs.declared.Batch.{Batch};
ghost use Rattle.rules_spec.specs.Rulings.{ruling};
ghost use Rattle.rule_fold.specs.Index.{ruling_of, StandsFor};
ghost use Rattle.world_spec.specs.Worlds.{creds_of};
ghost use Rattle.world_spec.specs.Replays.{StandsOver};
ghost use Rattle.live_table.specs.Batches.{rows_of};
ghost use Rattle.live_table.specs.Seats.{with_loads};
ghost use Rattle.smack_kernel.specs.Indexes.{StandsAt};
ghost use Rattle.smack_kernel.specs.Tasks.{IsTaskState, Stays, task_of};
ghost use Rattle.smack_kernel.specs.Turns.{IsMade, IsTurned};
ghost use Rattle.smack_kernel.specs.Answers.{is_fork_call};

use crate::basis::Basis;
use crate::index::read_up;
use crate::world_machine::WorldMachine;
use live_table::{LiveTable, TaskSeat};
use rule_fold::RuleIndex;
use rules_spec::Checks;
use smack_world::Stepped;
use std::alloc::{AllocError, Global};
use std::sync::Wait;
use task_creds::Cred;
use world_spec::{Call, Reply};

/// An entry of the history, as its caller is told of it.
#[derive(Drop)]
pub struct Entered {
    /// The place of the entry in the history, counted from 1.
    pub place: u32,
    /// The version that the call was judged in.
    pub version: u32,
    /// The verdicts in the order in which the questions were asked; a denial is the last.
    pub checks: Checks,
    /// The answer.
    pub reply: Reply,
}

/// What came of a call in a turn.
#[derive(Drop)]
pub(crate) enum Turned {
    /// The call is an entry of the history.
    Entry(Entered),
    /// The history is full: nothing was done, and the call comes back.
    TrailFull(Call),
}

/// Credentials that a step hands out take the place of those that the task had.
fn take_over(creds: &mut Cred, next: Option<Cred>)
    ensures { creds.new ≡ unwrap_or next creds.old }
{
    if let Some(next) = next {
        *creds = next;
    }
}

/// Makes a call of a task on the world, in the version of `rules`. The credentials are those of the
/// task in the world, before and after it. On want of memory nothing changes.
#[tactic(auto, using(crate::proofs::OwnCreds::taken_over))]
pub(crate) fn make_call(
    alloc: Global,
    rules: &RuleIndex,
    creds: &mut Cred,
    machine: &mut WorldMachine,
    task: u16,
    seq: u32,
    call: Call,
) -> Result<Turned, (AllocError, Call)>
    requires alive { task < length machine.old.world.tasks }
    requires creds { creds.old ≡ creds_of machine.old.world task }
    ensures made { IfOk result (IsMade machine.old machine.new (ruling_of rules.now) task seq call) }
    ensures stands { (journal : List Batch) → StandsFor rules.now journal
        → StandsOver journal machine.old.trail machine.old.world → StandsOver journal machine.new.trail machine.new.world }
    ensures creds { creds.new ≡ creds_of machine.new.world task }
    ensures back { IfErr result (λ e. e.1 ≡ call) }
    ensures err { OnErr result (machine.new ≡ machine.old) }
{
    match machine.step(alloc, rules, task, seq, call) {
        Err(error) => Err(error),
        Ok(Stepped::TrailFull(call)) => Ok(Turned::TrailFull(call)),
        Ok(
            Stepped::Entered {
                place,
                checks,
                reply,
                creds: next,
            },
        ) => {
            take_over(creds, next);
            Ok(Turned::Entry(Entered {
                place,
                version: rules.version(),
                checks,
                reply,
            }))
        }
    }
}

/// Reads up and makes a call, while the seat has the turn.
fn call_in_turn(
    alloc: Global,
    table: &LiveTable<WorldMachine>,
    seat: &mut TaskSeat<WorldMachine>,
    basis: &mut Basis,
    machine: &mut WorldMachine,
    seq: u32,
    call: Call,
) -> Result<Turned, (AllocError, Call)>
    requires table { seat.old.table ≡ table.now }
    requires stands { StandsAt basis.old.index.rules basis.old.index.rows seat.old.view.journal }
    requires world { StandsOver seat.old.view.journal machine.old.trail machine.old.world }
    requires alive { seat.old.number < length machine.old.world.tasks }
    requires creds { basis.old.creds ≡ creds_of machine.old.world seat.old.number }
    ensures same { seat.new ≡ with_loads seat.new.view.loads seat.old }
    ensures stands { StandsAt basis.new.index.rules basis.new.index.rows seat.old.view.journal }
    ensures later { basis.old.index.rules.version ≤ basis.new.index.rules.version }
    ensures whole { OnOk result (basis.new.index.rules.version ≡ length seat.old.view.journal) }
    ensures made { IfOk result (IsMade machine.old machine.new (ruling seat.old.view.journal) seat.old.number seq call) }
    ensures world { StandsOver seat.old.view.journal machine.new.trail machine.new.world }
    ensures creds { basis.new.creds ≡ creds_of machine.new.world seat.old.number }
    ensures back { IfErr result (λ e. e.1 ≡ call) }
    ensures err { OnErr result (machine.new ≡ machine.old) }
    ensures cost { seat.new.view.loads + basis.old.index.rows ≤ seat.old.view.loads + rows_of seat.old.view.journal }
    ensures once { OnOk result (seat.new.view.loads + basis.old.index.rows ≤ seat.old.view.loads + basis.new.index.rows) }
{
    if let Err(fault) = read_up(alloc, table, seat, &mut basis.index) {
        return Err((fault, call));
    }
    make_call(
        alloc,
        &basis.index.rules,
        &mut basis.creds,
        machine,
        seat.number(),
        seq,
        call,
    )
}

/// Takes the turn, makes a call that is no fork, and gives the turn back. On want of memory there is
/// no entry.
pub(crate) fn enter<R: Wait>(
    rt: &R,
    alloc: Global,
    table: &LiveTable<WorldMachine>,
    seat: &mut TaskSeat<WorldMachine>,
    basis: &mut Basis,
    made: u32,
    call: Call,
) -> Result<Turned, (AllocError, Call)>
    requires table { seat.old.table ≡ table.now }
    requires task { IsTaskState seat.old basis.old.index.rules basis.old.index.rows basis.old.creds }
    requires few { made < 1048575 }
    requires plain { is_fork_call call ≡ false }
    ensures same { (seat.new.table ≡ seat.old.table) × (seat.new.number ≡ seat.old.number) }
    ensures task { IsTaskState seat.new basis.new.index.rules basis.new.index.rows basis.new.creds }
    ensures turned { IfOk result (IsTurned (task_of seat.old basis.old.index.rules made basis.old.creds) (task_of seat.new basis.new.index.rules made basis.new.creds) call) }
    ensures back { IfErr result (λ e. (e.1 ≡ call)
        × Stays (task_of seat.old basis.old.index.rules made basis.old.creds) (task_of seat.new basis.new.index.rules made basis.new.creds)) }
    ensures looks { seat.old.view.looks < seat.new.view.looks }
    ensures penless { seat.new.view.pens ≡ seat.old.view.pens }
    ensures cost { seat.new.view.loads + basis.old.index.rows ≤ seat.old.view.loads + rows_of seat.new.view.journal }
    ensures once { OnOk result (seat.new.view.loads + basis.old.index.rows ≤ seat.old.view.loads + basis.new.index.rows) }
{
    let mut machine = table.take_turn(rt, seat);
    let turned = call_in_turn(alloc, table, seat, basis, &mut machine, made + 1, call);
    table.give_turn(seat, machine);
    turned
}
