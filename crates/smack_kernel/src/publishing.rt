ghost use Rattle.std.specs.Prelude.{◌≡◌, ◌≤◌, ◌<◌, ◌+◌, ◌++◌, ◌∷◌, List, length, map, take, [], OnOk, OnErr, IfOk, IfErr, true, false};
ghost use Rattle.smack_base.specs.declared.rule_op.RuleOp.{RuleOp};
ghost use Rattle.rule_word.specs.Layout.{op_word, IsPackable};
ghost use Rattle.live_table.specs.Lists.{Has, rest_of};
ghost use Rattle.live_table.specs.Batches.{IsPacked, rows_of};
ghost use Rattle.live_table.specs.Core.{row_count};
ghost use Rattle.live_table.specs.Seats.{Rests, with_loads};
ghost use Rattle.smack_kernel.specs.Indexes.{StandsAt};
ghost use Rattle.smack_kernel.specs.Growth.{Grows, IsBatchJudged, IsPublished, journal_after};

use crate::index::{Index, read_up};
use crate::world_machine::WorldMachine;
use live_table::{LiveTable, ROW_COUNT, TaskSeat};
use rule_word::{Head, pack, pack_head};
use rules_spec::Batch;
use smack_base::{Cap, RuleOp};
use smack_decide::effective;
use std::alloc::{AllocError, Global};
use std::sync::Wait;
use task_creds::Cred;

/// What came of writes.
#[derive(Clone, Copy, PartialEq, Eq)]
pub(crate) enum Published {
    /// They are a batch of the journal.
    Batch,
    /// The writer lacks CAP_MAC_ADMIN.
    NotPrivileged,
    /// The journal, which has so many rows, has no room.
    JournalFull { rows: u32 },
}

/// Fills a row with each write.
fn fill_ops(table: &LiveTable<WorldMachine>, seat: &mut TaskSeat<WorldMachine>, ops: &[RuleOp])
    requires table { seat.old.table ≡ table.now }
    requires pen { seat.old.view.pen ≡ true }
    requires room { rows_of seat.old.view.journal + length seat.old.view.filled + length ops.now ≤ row_count }
    requires packed { (op : RuleOp) → Has op ops.now → IsPackable op }
    ensures filled { seat.new ≡ record seat.old { view = record seat.old.view { filled = seat.old.view.filled ++ map op_word ops.now } } }
{
    for op in ops {
        table.fill(seat, pack(op));
    }
}

/// Fills the rows of a batch and publishes them, with one store.
fn publish_batch(table: &LiveTable<WorldMachine>, seat: &mut TaskSeat<WorldMachine>, batch: &Batch)
    requires table { seat.old.table ≡ table.now }
    requires pen { seat.old.view.pen ≡ true }
    requires none { seat.old.view.filled ≡ [] }
    requires room { rows_of seat.old.view.journal + 1 + length batch.now.ops ≤ row_count }
    requires own { batch.now.task ≡ seat.old.number }
    requires packed { IsPacked batch.now }
    ensures published { seat.new ≡ record seat.old { view = record seat.old.view { journal = seat.old.view.journal ++ batch.now ∷ []; pen = false; filled = [] } } }
{
    let head = Head {
        task: batch.task,
        seq: batch.seq,
        len: batch.ops.items().len() as u16,
    };
    table.fill(seat, pack_head(&head));
    fill_ops(table, seat, batch.ops.items());
    table.publish(seat);
}

/// Gives the pen back with nothing filled.
fn give_pen_back(table: &LiveTable<WorldMachine>, seat: &mut TaskSeat<WorldMachine>)
    requires table { seat.old.table ≡ table.now }
    requires pen { seat.old.view.pen ≡ true }
    requires none { seat.old.view.filled ≡ [] }
    ensures same { (seat.new.table ≡ seat.old.table) × (seat.new.number ≡ seat.old.number) }
    ensures view { seat.new.view ≡ record seat.old.view { pen = false } }
{
    table.publish(seat);
}

/// Judges a batch in the version that the seat sees now. Where it may be published the index has
/// taken it, so nothing that follows can fail.
fn judge(
    alloc: Global,
    table: &LiveTable<WorldMachine>,
    seat: &mut TaskSeat<WorldMachine>,
    index: &mut Index,
    creds: &Cred,
    batch: &Batch,
) -> Result<Published, AllocError>
    requires table { seat.old.table ≡ table.now }
    requires stands { StandsAt index.old.rules index.old.rows seat.old.view.journal }
    requires short { length batch.now.ops < 65536 }
    ensures same { seat.new ≡ with_loads seat.new.view.loads seat.old }
    ensures judged { IfOk result (IsBatchJudged seat.old.view.journal creds.now batch.now.ops) }
    ensures stands { IfOk result (λ p. StandsAt index.new.rules index.new.rows (journal_after seat.old.view.journal batch.now p)) }
    ensures whole { IfOk result (λ p. index.new.rules.version ≡ length (journal_after seat.old.view.journal batch.now p)) }
    ensures later { index.old.rules.version ≤ index.new.rules.version }
    ensures err { OnErr result (StandsAt index.new.rules index.new.rows seat.old.view.journal) }
    ensures cost { seat.new.view.loads + index.old.rows ≤ seat.old.view.loads + rows_of seat.old.view.journal }
    ensures once { OnOk result (seat.new.view.loads + index.old.rows ≤ seat.old.view.loads + index.new.rows) }
{
    read_up(alloc, table, seat, index)?;
    if !effective(creds, Cap::MacAdmin, &index.rules) {
        return Ok(Published::NotPrivileged);
    }
    let rows = seat.rows_seen();
    if rows + batch.ops.items().len() as u32 + 1 > ROW_COUNT {
        return Ok(Published::JournalFull { rows });
    }
    index.absorb(batch)?;
    Ok(Published::Batch)
}

/// Publishes a batch, which is judged with the pen, or gives the pen back with nothing. Want of
/// memory comes before anything is published.
pub(crate) fn publish<R: Wait>(
    rt: &R,
    alloc: Global,
    table: &LiveTable<WorldMachine>,
    seat: &mut TaskSeat<WorldMachine>,
    index: &mut Index,
    creds: &Cred,
    batch: &Batch,
) -> Result<Published, AllocError>
    requires table { seat.old.table ≡ table.now }
    requires rests { Rests seat.old.view }
    requires stands { StandsAt index.old.rules index.old.rows seat.old.view.journal }
    requires numbered { seat.old.view.numbers ≡ seat.old.number ∷ rest_of seat.old.view.numbers }
    requires apart { Has seat.old.number (rest_of seat.old.view.numbers) → ⊥ }
    requires own { batch.now.task ≡ seat.old.number }
    requires packed { IsPacked batch.now }
    ensures same { (seat.new.table ≡ seat.old.table) × (seat.new.number ≡ seat.old.number)
        × Rests seat.new.view × (seat.new.view.numbers ≡ seat.old.view.numbers) × (seat.new.view.history ≡ seat.old.view.history)
        × (seat.new.view.ended_loads ≡ seat.old.view.ended_loads) }
    ensures stands { StandsAt index.new.rules index.new.rows seat.new.view.journal }
    ensures later { index.old.rules.version ≤ index.new.rules.version }
    ensures whole { OnOk result (index.new.rules.version ≡ length seat.new.view.journal) }
    ensures published { IfOk result (IsPublished seat.old.number (rest_of seat.old.view.numbers) seat.old.view.journal seat.new.view.journal
        seat.old.view.history seat.new.view.history batch.now creds.now) }
    ensures err { OnErr result (Grows seat.old.number (rest_of seat.old.view.numbers) seat.old.view.journal seat.new.view.journal
        seat.old.view.history seat.new.view.history [] []) }
    ensures pens { seat.new.view.pens ≡ seat.old.view.pens + 1 }
    ensures cost { seat.new.view.loads + index.old.rows ≤ seat.old.view.loads + rows_of seat.new.view.journal }
    ensures once { OnOk result (seat.new.view.loads + index.old.rows ≤ seat.old.view.loads + index.new.rows) }
{
    table.take_pen(rt, seat);
    match judge(alloc, table, seat, index, creds, batch) {
        Ok(Published::Batch) => {
            publish_batch(table, seat, batch);
            Ok(Published::Batch)
        }
        Ok(Published::NotPrivileged) => {
            give_pen_back(table, seat);
            Ok(Published::NotPrivileged)
        }
        Ok(Published::JournalFull { rows }) => {
            give_pen_back(table, seat);
            Ok(Published::JournalFull { rows })
        }
        Err(fault) => {
            give_pen_back(table, seat);
            Err(fault)
        }
    }
}
