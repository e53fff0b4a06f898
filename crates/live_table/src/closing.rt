ghost use Rattle.std.specs.Prelude.{◌≡◌, ◌<◌, IfOk, IfErr};
ghost use Rattle.live_table.specs.Seats.{IsWhole, Closes, with_loads};

use crate::machine::Machine;
use crate::seat::TaskSeat;
use crate::table::{LiveTable, SLOT};
use rules_spec::Journal;
use std::alloc::{AllocError, Global};

impl<M: Machine> LiveTable<M> {
    /// The journal that the seat has seen, read from the rows.
    fn read_journal(&self, alloc: Global, seat: &mut TaskSeat<M>) -> Result<Journal, AllocError>
        requires { seat.old.table ≡ self.now }
        ensures same { seat.new ≡ with_loads seat.new.view.loads seat.old }
        ensures journal { IfOk result (λ journal. journal ≡ seat.old.view.journal) }
    {
        let mut journal = Journal::new(alloc);
        let mut at = 0;
        while let Some(batch) = self.batch(alloc, seat, at)? {
            at += 1 + batch.ops.items().len() as u32;
            journal.push(batch)?;
        }
        Ok(journal)
    }

    /// Ends the table: the journal that the seat has seen, and the value of the machine. The seat is
    /// whole, so these are all that was published and entered. Each row is loaded once more. On want of
    /// memory the table and the seat come back as they were, but for the rows that were loaded.
    pub fn close(
        self,
        alloc: Global,
        seat: TaskSeat<M>,
    ) -> Result<(Journal, M), (AllocError, LiveTable<M>, TaskSeat<M>)>
        requires table { seat.table ≡ self }
        requires whole { IsWhole M.means seat.view }
        ensures journal { IfOk result (λ r. r.0 ≡ seat.view.journal) }
        ensures value { IfOk result (λ r. Closes M.means seat.view r.1) }
        ensures back { IfErr result (λ e. (e.1 ≡ self) × (e.2 ≡ with_loads e.2.view.loads seat)) }
    {
        let mut seat = seat;
        let journal = match self.read_journal(alloc, &mut seat) {
            Ok(journal) => journal,
            Err(fault) => return Err((fault, self, seat)),
        };
        let TaskSeat {
            seat: last,
            number: _,
            rows: _,
            filled: _,
        } = seat;
        let LiveTable { table } = self;
        let mut closed = table.close_with(last);
        let value = closed.take(SLOT);
        closed.free();
        match value {
            Some(value) => Ok((journal, value)),
            None => unreachable!(),
        }
    }
}
