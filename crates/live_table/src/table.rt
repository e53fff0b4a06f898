ghost use Rattle.std.specs.Prelude.{◌≡◌, ◌<◌, length, [], IfOk, slice_index, ◌+◌};
ghost use Rattle.live_table.specs.Batches.{journal_words, rows_of};
ghost use Rattle.live_table.specs.Core.{opening_view};
ghost use Rattle.live_table.specs.Seats.{IsOpening, Sees, with_loads};

use crate::law::Law;
use crate::machine::Machine;
use crate::plays::{Read, See};
use crate::seat::TaskSeat;
use crate::view::View;
use atomic_table::Table;
use std::alloc::{AllocError, Global};
use std::marker::Model;

/// How many rows a table has.
pub const ROW_COUNT: u32 = 1_048_576;

/// The word of how many numbers are drawn.
pub(crate) const DRAWN: usize = 0;

/// The word of the published rows, twice, and the pen's bit.
pub(crate) const PUBLISHED: usize = 1;

/// The word of the turn.
pub(crate) const TURN: usize = 2;

/// The rows follow the three words.
pub(crate) const FIRST_ROW: usize = 3;

/// The slot of the machine's value.
pub(crate) const SLOT: usize = 0;

/// Rows that any number of seats read while one of them writes, and the turn of a machine.
#[derive(Drop)]
pub struct LiveTable<M: Machine> {
    pub(crate) table: Table<Option<M>, View<M::Entry>, (), Law<M>, Global>,
}

impl<M: Machine> Model for LiveTable<M> {
    ghost use Rattle.std.specs.Prelude.{◌≡◌};
    ghost use Rattle.atomic_table.specs.Seated.{TableId};

    ghost Value = { TableId };

    ghost view = { λ t. t.table.shared.table_id };

    ghost invariant = { λ t. (t.table.shared.table_id.words ≡ 1048579) × (t.table.shared.table_id.slots ≡ 1) };
}

fn zeros(alloc: Global, n: usize) -> Result<Vec<u64>, AllocError>
    ensures { IfOk result (λ v. length v.items ≡ n) }
{
    Ok(vec![in alloc; 0; n]?)
}

/// The words of a new table: number 0 is drawn.
fn opening_words(alloc: Global) -> Result<Vec<u64>, AllocError>
    ensures { IfOk result (λ v. IsOpening v.items) }
{
    let mut words = zeros(alloc, 1_048_579)?;
    words[0] = 1;
    words[1] = 0;
    words[2] = 0;
    Ok(words)
}

impl<M: Machine> LiveTable<M> {
    /// A table without published rows, whose slot has this value, and the seat of number 0.
    pub fn new(alloc: Global, first: M) -> Result<(LiveTable<M>, TaskSeat<M>), AllocError>
        requires { (M.means.history first ≡ []) × M.means.stands first [] }
        ensures { IfOk result (λ r. r.1 ≡ record { table = r.0; number = 0; view = opening_view }) }
    {
        let words = opening_words(alloc)?;
        let mut slots = Vec::with_capacity(alloc, 1)?;
        slots.push(Some(first))?;
        let Ok((table, seat)) = Table::new(alloc, words.as_slice(), slots, &()) else {
            return Err(AllocError);
        };
        let seat = TaskSeat {
            seat,
            number: 0,
            rows: 0,
            filled: 0,
        };
        Ok((LiveTable { table }, seat))
    }

    /// How many rows are published now. The seat has seen them all from here on.
    pub fn see(&self, seat: &mut TaskSeat<M>) -> u32
        requires { seat.old.table ≡ self.now }
        ensures same { (seat.new.table ≡ seat.old.table) × (seat.new.number ≡ seat.old.number) }
        ensures seen { Sees seat.old.view seat.new.view × (result ≡ rows_of seat.new.view.journal) }
        ensures counted { (seat.new.view.loads ≡ seat.old.view.loads) × (seat.new.view.looks ≡ seat.old.view.looks + 1) }
    {
        let word = self.table.shared.load::<See>(&mut seat.seat, PUBLISHED);
        seat.rows = (word / 2) as u32;
        seat.rows
    }

    /// The word of a row that the seat has seen: one row more that it has loaded.
    pub fn row(&self, seat: &mut TaskSeat<M>, at: u32) -> u64
        requires table { seat.old.table ≡ self.now }
        requires seen { at < rows_of seat.old.view.journal }
        ensures loaded { seat.new ≡ with_loads (seat.old.view.loads + 1) seat.old }
        ensures word { result ≡ slice_index (journal_words seat.old.view.journal) at }
    {
        self.table
            .shared
            .load::<Read>(&mut seat.seat, at as usize + FIRST_ROW)
    }
}
