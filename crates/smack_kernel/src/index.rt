ghost use Rattle.std.specs.Prelude.{◌≡◌, ◌≤◌, ◌<◌, ◌+◌, ◌++◌, ◌∷◌, List, [], length, nat_lt, if◌then◌else◌, OnOk, OnErr, IfOk};
ghost use Rattle.rules_spec.specs.declared.Batch.{Batch};
ghost use Rattle.rule_fold.specs.Index.{StandsFor};
ghost use Rattle.live_table.specs.Batches.{rows_of};
ghost use Rattle.live_table.specs.Core.{row_count};
ghost use Rattle.live_table.specs.Seats.{Sees, with_loads};
ghost use Rattle.smack_kernel.specs.Indexes.{StandsAt};

use live_table::{LiveTable, Machine, TaskSeat};
use rule_fold::RuleIndex;
use rules_spec::Batch;
use std::alloc::{AllocError, Global};

/// The rules of a version of the journal, and how many rows that version has.
#[derive(Drop)]
pub(crate) struct Index {
    pub(crate) rules: RuleIndex,
    pub(crate) rows: u32,
}

impl Index {
    /// The index of version 0.
    pub(crate) fn new(alloc: Global) -> Result<Index, AllocError>
        ensures rules { IfOk result (λ i. StandsFor i.rules []) }
        ensures rows { IfOk result (λ i. i.rows ≡ 0) }
    {
        Ok(Index {
            rules: RuleIndex::new(alloc)?,
            rows: 0,
        })
    }

    /// Takes the next batch; unchanged on want of memory.
    pub(crate) fn absorb(&mut self, batch: &Batch) -> Result<(), AllocError>
        requires room { self.old.rows + 1 + length batch.now.ops ≤ row_count }
        requires counted { self.old.rules.version ≤ self.old.rows }
        ensures rules { OnOk result ((version : List _) → StandsFor self.old.rules version → StandsFor self.new.rules (version ++ batch.now ∷ [])) }
        ensures rows { OnOk result (self.new.rows ≡ self.old.rows + (1 + length batch.now.ops)) }
        ensures err { OnErr result (self.new ≡ self.old) }
    {
        self.rules.absorb(batch)?;
        self.rows += 1 + batch.ops.items().len() as u32;
        Ok(())
    }

    /// Takes the other index where that has the greater version.
    pub(crate) fn keep_newer(&mut self, other: Index)
        ensures { self.new ≡ (if nat_lt self.old.rules.version other.rules.version then other else self.old) }
    {
        if self.rules.version() < other.rules.version() {
            *self = other;
        }
    }
}

/// Brings an index to all that the seat has seen, batch by batch, and loads only the rows behind
/// those that it has taken. On want of memory it stands for a version in between.
pub(crate) fn read_up<M: Machine>(
    alloc: Global,
    table: &LiveTable<M>,
    seat: &mut TaskSeat<M>,
    index: &mut Index,
) -> Result<(), AllocError>
    requires table { seat.old.table ≡ table.now }
    requires stands { StandsAt index.old.rules index.old.rows seat.old.view.journal }
    ensures same { seat.new ≡ with_loads seat.new.view.loads seat.old }
    ensures stands { StandsAt index.new.rules index.new.rows seat.old.view.journal }
    ensures later { index.old.rules.version ≤ index.new.rules.version }
    ensures whole { OnOk result (index.new.rules.version ≡ length seat.old.view.journal) }
    ensures lacks { OnErr result (index.new.rules.version < length seat.old.view.journal) }
    ensures cost { seat.new.view.loads + index.old.rows ≤ seat.old.view.loads + rows_of seat.old.view.journal }
    ensures once { OnOk result (seat.new.view.loads + index.old.rows ≤ seat.old.view.loads + index.new.rows) }
{
    while let Some(batch) = table.batch(alloc, seat, index.rows)? {
        index.absorb(&batch)?;
    }
    Ok(())
}

/// Looks at the published rows, and brings an index to them.
pub(crate) fn look<M: Machine>(
    alloc: Global,
    table: &LiveTable<M>,
    seat: &mut TaskSeat<M>,
    index: &mut Index,
) -> Result<(), AllocError>
    requires table { seat.old.table ≡ table.now }
    requires stands { StandsAt index.old.rules index.old.rows seat.old.view.journal }
    ensures same { (seat.new.table ≡ seat.old.table) × (seat.new.number ≡ seat.old.number) }
    ensures sees { Sees seat.old.view seat.new.view }
    ensures looked { seat.new.view.looks ≡ seat.old.view.looks + 1 }
    ensures stands { StandsAt index.new.rules index.new.rows seat.new.view.journal }
    ensures later { index.old.rules.version ≤ index.new.rules.version }
    ensures whole { OnOk result (index.new.rules.version ≡ length seat.new.view.journal) }
    ensures lacks { OnErr result (index.new.rules.version < length seat.new.view.journal) }
    ensures cost { seat.new.view.loads + index.old.rows ≤ seat.old.view.loads + rows_of seat.new.view.journal }
    ensures once { OnOk result (seat.new.view.loads + index.old.rows ≤ seat.old.view.loads + index.new.rows) }
{
    table.see(seat);
    read_up(alloc, table, seat, index)
}
