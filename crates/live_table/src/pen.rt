ghost use Rattle.std.specs.Prelude.{◌≡◌, ◌<◌, ◌+◌, ◌++◌, ◌∷◌, [], List, length, true, false};
ghost use Rattle.std.specs.Bool.{OnTrue, OnFalse};
ghost use Rattle.rules_spec.specs.declared.Batch.{Batch};
ghost use Rattle.live_table.specs.Batches.{ArePacked, journal_words, rows_of};
ghost use Rattle.live_table.specs.Core.{row_count};
ghost use Rattle.live_table.specs.Plays.{with_pen};
ghost use Rattle.live_table.specs.Seats.{AreWhole, Sees};

use crate::machine::Machine;
use crate::plays::{Fill, Pen, Publish, See};
use crate::seat::TaskSeat;
use crate::table::{FIRST_ROW, LiveTable, PUBLISHED};
use std::sync::Wait;

impl<M: Machine> LiveTable<M> {
    /// Takes the pen where it is free. The seat has seen all published rows either way; where it did
    /// not take the pen it met another seat with it, or a word that had changed.
    fn try_pen(&self, seat: &mut TaskSeat<M>) -> bool
        requires { seat.old.table ≡ self.now }
        ensures same { (seat.new.table ≡ seat.old.table) × (seat.new.number ≡ seat.old.number) }
        ensures pen { OnTrue result (Sees (with_pen seat.old.view) seat.new.view) }
        ensures none { OnFalse result (Sees seat.old.view seat.new.view × (seat.old.view.misses < seat.new.view.misses)) }
        ensures counted { (seat.new.view.loads ≡ seat.old.view.loads) × (seat.old.view.looks < seat.new.view.looks) }
    {
        let word = self.table.shared.load::<See>(&mut seat.seat, PUBLISHED);
        seat.rows = (word / 2) as u32;
        if word % 2 == 1 {
            return false;
        }
        let found = self
            .table
            .shared
            .compare_exchange::<Pen>(&mut seat.seat, PUBLISHED, word, word + 1);
        if found == word {
            seat.filled = 0;
            true
        } else {
            false
        }
    }

    /// Waits for the pen and takes it: how many rows are published. The seat has seen them all, and
    /// nobody else publishes until it gives the pen back.
    pub fn take_pen<R: Wait>(&self, rt: &R, seat: &mut TaskSeat<M>) -> u32
        requires { seat.old.table ≡ self.now }
        ensures same { (seat.new.table ≡ seat.old.table) × (seat.new.number ≡ seat.old.number) }
        ensures seen { Sees (with_pen seat.old.view) seat.new.view × (result ≡ rows_of seat.new.view.journal) }
        ensures counted { (seat.new.view.loads ≡ seat.old.view.loads) × (seat.old.view.looks < seat.new.view.looks) }
    {
        for _ in rt.forever() {
            if self.try_pen(seat) {
                return seat.rows_seen();
            }
        }
        unreachable!()
    }

    /// Fills the next row behind the published and the filled ones. Nobody sees it before it is
    /// published.
    pub fn fill(&self, seat: &mut TaskSeat<M>, word: u64)
        requires table { seat.old.table ≡ self.now }
        requires pen { seat.old.view.pen ≡ true }
        requires room { rows_of seat.old.view.journal + length seat.old.view.filled < row_count }
        ensures same { (seat.new.table ≡ seat.old.table) × (seat.new.number ≡ seat.old.number) }
        ensures filled { seat.new.view ≡ record seat.old.view { filled = seat.old.view.filled ++ word ∷ [] } }
    {
        let at = (seat.rows + seat.filled) as usize + FIRST_ROW;
        self.table.shared.store::<Fill>(&mut seat.seat, at, word);
        seat.filled += 1;
    }

    /// Publishes what was filled, by one store, and gives the pen back.
    pub fn publish(&self, seat: &mut TaskSeat<M>)
        requires table { seat.old.table ≡ self.now }
        requires pen { seat.old.view.pen ≡ true }
        requires whole { AreWhole seat.old.view.filled seat.old.number }
        ensures same { (seat.new.table ≡ seat.old.table) × (seat.new.number ≡ seat.old.number) }
        ensures published { (bs : List Batch) → seat.old.view.filled ≡ journal_words bs → ArePacked bs
            → seat.new.view ≡ record seat.old.view { journal = seat.old.view.journal ++ bs; pen = false; filled = [] } }
    {
        let rows = seat.rows + seat.filled;
        self.table
            .shared
            .store::<Publish>(&mut seat.seat, PUBLISHED, 2 * u64::from(rows));
        seat.rows = rows;
        seat.filled = 0;
    }
}
