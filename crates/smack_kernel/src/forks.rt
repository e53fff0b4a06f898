//! What a task does in a turn that makes another task.
ghost use Rattle.std.specs.Prelude.{◌≡◌, ◌≤◌, ◌<◌, ◌+◌, ◌++◌, ◌∷◌, [], length, is_some, true, false, IfOk, OnOk, OnErr};
ghost use Rattle.rules_spec.specs.Rulings.{ruling};
ghost use Rattle.world_spec.specs.declared.Entry.{Entry};
ghost use Rattle.world_spec.specs.Worlds.{creds_of};
ghost use Rattle.world_spec.specs.Replays.{StandsOver};
ghost use Rattle.live_table.specs.Batches.{rows_of};
ghost use Rattle.live_table.specs.Lists.{Begins};
ghost use Rattle.live_table.specs.Machines.{made as tasks_made};
ghost use Rattle.world_spec.specs.Replies.{child_of};
ghost use Rattle.live_table.specs.Seats.{SameCounts, with_loads};
ghost use Rattle.smack_kernel.specs.Histories.{world_means};
ghost use Rattle.smack_kernel.specs.Indexes.{StandsAt};
ghost use Rattle.smack_kernel.specs.Tasks.{IsTaskState, Stays, task_of};
ghost use Rattle.smack_kernel.specs.Turns.{IsMade};
ghost use Rattle.smack_kernel.specs.Forks.{task_made, IsBranched, MayFork, Drew, Forks};

use crate::basis::Basis;
use crate::index::read_up;
use crate::task::Task;
use crate::turns::{Turned, make_call};
use crate::world_machine::WorldMachine;
use live_table::{LiveTable, TaskSeat};
use smack_base::Pid;
use std::alloc::{AllocError, Global};
use std::sync::Wait;
use world_spec::{Call, TaskCall};

/// Whether a call made a task.
fn makes_task(turned: &Turned) -> bool
    ensures { result ≡ is_some (task_made turned.now) }
{
    match turned {
        Turned::Entry(entered) => entered.reply.child().is_some(),
        Turned::TrailFull(_) => false,
    }
}

/// Reads up, copies what a child is to have, and makes the fork, while the seat has the turn.
fn fork_in_turn(
    alloc: Global,
    table: &LiveTable<WorldMachine>,
    seat: &mut TaskSeat<WorldMachine>,
    basis: &mut Basis,
    machine: &mut WorldMachine,
    seq: u32,
    pid: Pid,
) -> Result<(Turned, Basis), AllocError>
    requires table { seat.old.table ≡ table.now }
    requires stands { StandsAt basis.old.index.rules basis.old.index.rows seat.old.view.journal }
    requires world { StandsOver seat.old.view.journal machine.old.trail machine.old.world }
    requires alive { seat.old.number < length machine.old.world.tasks }
    requires creds { basis.old.creds ≡ creds_of machine.old.world seat.old.number }
    ensures same { seat.new ≡ with_loads seat.new.view.loads seat.old }
    ensures stands { StandsAt basis.new.index.rules basis.new.index.rows seat.old.view.journal }
    ensures later { basis.old.index.rules.version ≤ basis.new.index.rules.version }
    ensures whole { OnOk result (basis.new.index.rules.version ≡ length seat.old.view.journal) }
    ensures made { IfOk result (λ r. IsMade machine.old machine.new (ruling seat.old.view.journal) seat.old.number seq (Call.Task (TaskCall.Fork pid)) r.0) }
    ensures heritage { IfOk result (λ r. (r.1.index ≡ basis.new.index) × (r.1.creds ≡ basis.old.creds)) }
    ensures world { StandsOver seat.old.view.journal machine.new.trail machine.new.world }
    ensures creds { basis.new.creds ≡ creds_of machine.new.world seat.old.number }
    ensures err { OnErr result (machine.new ≡ machine.old) }
    ensures cost { seat.new.view.loads + basis.old.index.rows ≤ seat.old.view.loads + rows_of seat.old.view.journal }
    ensures once { OnOk result (seat.new.view.loads + basis.old.index.rows ≤ seat.old.view.loads + basis.new.index.rows) }
{
    read_up(alloc, table, seat, &mut basis.index)?;
    let heritage = basis.copy()?;
    let call = Call::Task(TaskCall::Fork { pid });
    match make_call(
        alloc,
        &basis.index.rules,
        &mut basis.creds,
        machine,
        seat.number(),
        seq,
        call,
    ) {
        Ok(turned) => Ok((turned, heritage)),
        Err((fault, _)) => Err(fault),
    }
}

/// Draws the number of a child in a turn, before any other notice of it, and lets the seat hear that
/// it is drawn.
fn draw(
    table: &LiveTable<WorldMachine>,
    seat: &mut TaskSeat<WorldMachine>,
) -> TaskSeat<WorldMachine>
    requires table { seat.old.table ≡ table.now }
    requires turn { (seat.old.view.turn ≡ true) × (seat.old.view.noticed ≡ false) }
    requires few { tasks_made world_means seat.old.view.history + 1 < 4096 }
    ensures same { (seat.new.table ≡ seat.old.table) × (seat.new.number ≡ seat.old.number) × (result.table ≡ seat.old.table) }
    ensures drew { Drew seat.old.view seat.new.view result.view result.number }
{
    let note = table.notice(seat);
    let mut child = table.enrol(seat, note);
    let drawn = table.notice(&mut child);
    table.hear(seat, drawn);
    child
}

/// Gives the turn back with an entry that makes a task: the seat of that task, which has then heard
/// of the entry.
fn give_with_child(
    table: &LiveTable<WorldMachine>,
    seat: &mut TaskSeat<WorldMachine>,
    machine: WorldMachine,
) -> TaskSeat<WorldMachine>
    requires table { seat.old.table ≡ table.now }
    requires turn { (seat.old.view.turn ≡ true) × (seat.old.view.noticed ≡ false) }
    requires may { (e : Entry) × MayFork seat.old.view machine e }
    ensures same { (seat.new.table ≡ seat.old.table) × (seat.new.number ≡ seat.old.number) × (result.table ≡ seat.old.table) }
    ensures forks { (e : Entry) → machine.trail ≡ seat.old.view.history ++ e ∷ []
        → Forks seat.old.view seat.new.view result.view result.number e }
    ensures seen { Begins seat.new.view.journal seat.old.view.journal }
    ensures counted { SameCounts seat.old.view seat.new.view }
{
    let mut child = draw(table, seat);
    table.give_turn(seat, machine);
    let told = table.notice(seat);
    table.hear(&mut child, told);
    child
}

/// Takes the turn, makes a fork, and gives the turn back: the child, where one was made. On want of
/// memory there is no entry.
pub(crate) fn branch<R: Wait>(
    rt: &R,
    alloc: Global,
    table: &LiveTable<WorldMachine>,
    seat: &mut TaskSeat<WorldMachine>,
    basis: &mut Basis,
    made: u32,
    pid: Pid,
) -> Result<(Turned, Option<Task>), AllocError>
    requires table { seat.old.table ≡ table.now }
    requires task { IsTaskState seat.old basis.old.index.rules basis.old.index.rows basis.old.creds }
    requires few { made < 1048575 }
    ensures same { (seat.new.table ≡ seat.old.table) × (seat.new.number ≡ seat.old.number) }
    ensures task { IsTaskState seat.new basis.new.index.rules basis.new.index.rows basis.new.creds }
    ensures branched { IfOk result (λ r. IsBranched (task_of seat.old basis.old.index.rules made basis.old.creds) (task_of seat.new basis.new.index.rules made basis.new.creds) pid r.0 r.1) }
    ensures stays { OnErr result (Stays (task_of seat.old basis.old.index.rules made basis.old.creds) (task_of seat.new basis.new.index.rules made basis.new.creds)) }
    ensures looks { seat.old.view.looks < seat.new.view.looks }
    ensures penless { seat.new.view.pens ≡ seat.old.view.pens }
    ensures cost { seat.new.view.loads + basis.old.index.rows ≤ seat.old.view.loads + rows_of seat.new.view.journal }
    ensures once { OnOk result (seat.new.view.loads + basis.old.index.rows ≤ seat.old.view.loads + basis.new.index.rows) }
{
    let mut machine = table.take_turn(rt, seat);
    let forked = fork_in_turn(alloc, table, seat, basis, &mut machine, made + 1, pid);
    match forked {
        Err(fault) => {
            table.give_turn(seat, machine);
            Err(fault)
        }
        Ok((turned, heritage)) => {
            if !makes_task(&turned) {
                table.give_turn(seat, machine);
                return Ok((turned, None));
            }
            let child = give_with_child(table, seat, machine);
            Ok((
                turned,
                Some(Task {
                    seat: child,
                    basis: heritage,
                    made: 0,
                }),
            ))
        }
    }
}
