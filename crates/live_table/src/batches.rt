ghost use Rattle.std.specs.Prelude.{◌≡◌, ◌≤◌, ◌<◌, ◌+◌, List, length, IfOk, IfSome, OnOk, OnErr};
ghost use Rattle.smack_base.specs.declared.rule_op.RuleOp.{RuleOp};
ghost use Rattle.rules_spec.specs.declared.Batch.{Batch};
ghost use Rattle.live_table.specs.Batches.{journal_words, rows_of, Cut, OpsAt, first_batch, first_rows};
ghost use Rattle.live_table.specs.Core.{row_count};
ghost use Rattle.live_table.specs.Seats.{with_loads};

use crate::machine::Machine;
use crate::seat::TaskSeat;
use crate::table::LiveTable;
use rule_word::{unpack, unpack_head};
use rules_spec::Batch;
use smack_base::RuleOps;
use std::alloc::{AllocError, Global};

impl<M: Machine> LiveTable<M> {
    /// So many writes, from this row on; one load for each.
    fn ops_at(
        &self,
        alloc: Global,
        seat: &mut TaskSeat<M>,
        at: u32,
        len: u16,
    ) -> Result<RuleOps, AllocError>
        requires table { seat.old.table ≡ self.now }
        requires room { at + len ≤ row_count }
        requires ops { (ops : List RuleOp) × OpsAt (journal_words seat.old.view.journal) at ops × (len ≡ length ops) }
        ensures same { seat.new ≡ with_loads seat.new.view.loads seat.old }
        ensures ops { (ops : List RuleOp) → OpsAt (journal_words seat.old.view.journal) at ops → len ≡ length ops → IfOk result (λ r. r ≡ ops) }
        ensures few { (seat.old.view.loads ≤ seat.new.view.loads) × (seat.new.view.loads ≤ seat.old.view.loads + len) }
        ensures loaded { OnOk result (seat.new.view.loads ≡ seat.old.view.loads + len) }
    {
        let mut ops = RuleOps::new(alloc);
        for i in 0..u32::from(len) {
            let op = match unpack(self.row(seat, at + i)) {
                Some(op) => op,
                None => unreachable!(),
            };
            ops.push(op)?;
        }
        Ok(ops)
    }

    /// The batch whose head stands in this row, with one load for each of its rows; `None` where the
    /// row is the end of those that the seat has seen. Want of memory comes only where there is a
    /// batch, and then not all of its rows may have been loaded.
    pub fn batch(
        &self,
        alloc: Global,
        seat: &mut TaskSeat<M>,
        at: u32,
    ) -> Result<Option<Batch>, AllocError>
        requires table { seat.old.table ≡ self.now }
        requires cut { (front : List Batch) × (rest : List Batch) × Cut seat.old.view.journal front rest at }
        ensures same { seat.new ≡ with_loads seat.new.view.loads seat.old }
        ensures batch { (front rest : List Batch) → Cut seat.old.view.journal front rest at → IfOk result (λ b. b ≡ first_batch rest) }
        ensures some { OnErr result (at < rows_of seat.old.view.journal) }
        ensures room { IfOk result (λ b. IfSome b (λ batch. at + 1 + length batch.ops ≤ row_count)) }
        ensures few { (front rest : List Batch) → Cut seat.old.view.journal front rest at
            → (seat.old.view.loads ≤ seat.new.view.loads) × (seat.new.view.loads ≤ seat.old.view.loads + first_rows rest) }
        ensures loaded { (front rest : List Batch) → Cut seat.old.view.journal front rest at
            → OnOk result (seat.new.view.loads ≡ seat.old.view.loads + first_rows rest) }
    {
        if at >= seat.rows_seen() {
            return Ok(None);
        }
        let head = match unpack_head(self.row(seat, at)) {
            Some(head) => head,
            None => unreachable!(),
        };
        let ops = self.ops_at(alloc, seat, at + 1, head.len)?;
        Ok(Some(Batch {
            task: head.task,
            seq: head.seq,
            ops,
        }))
    }
}
