ghost use Rattle.std.specs.Prelude.{◌≡◌, ◌<◌, ◌+◌, ◌++◌, List, true, false, IfSome, IfNone};
ghost use Rattle.live_table.specs.Plays.{given as given_with, MayGive};
ghost use Rattle.live_table.specs.Seats.{Rests, Turns, SameCounts, with_misses};

use crate::machine::Machine;
use crate::plays::{Give, See, Take};
use crate::seat::TaskSeat;
use crate::table::{LiveTable, PUBLISHED, SLOT, TURN};
use std::sync::Wait;

impl<M: Machine> LiveTable<M> {
    /// Takes the turn where it is free: the value of the machine. Where it did not take it, another
    /// seat had it.
    fn try_turn(&self, seat: &mut TaskSeat<M>) -> Option<M>
        requires table { seat.old.table ≡ self.now }
        requires rests { Rests seat.old.view }
        ensures turn { IfSome result (λ value. (seat.new.table ≡ seat.old.table) × (seat.new.number ≡ seat.old.number)
            × Turns M.means seat.old.view seat.new.view value
            × (seat.new.view.loads ≡ seat.old.view.loads) × (seat.new.view.looks ≡ seat.old.view.looks + 1)
            × (seat.new.view.pens ≡ seat.old.view.pens)) }
        ensures none { IfNone result ((seat.new ≡ with_misses seat.new.view.misses seat.old) × (seat.old.view.misses < seat.new.view.misses)) }
    {
        let found = self
            .table
            .shared
            .compare_exchange::<Take<M>>(&mut seat.seat, TURN, 0, 1);
        if found != 0 {
            return None;
        }
        let value = self.table.shared.exchange(&mut seat.seat, SLOT, None);
        let word = self.table.shared.load::<See>(&mut seat.seat, PUBLISHED);
        seat.rows = (word / 2) as u32;
        value
    }

    /// Waits for the turn and takes it: the value of the machine. The seat has met its whole
    /// history and has seen all rows that are published now.
    pub fn take_turn<R: Wait>(&self, rt: &R, seat: &mut TaskSeat<M>) -> M
        requires table { seat.old.table ≡ self.now }
        requires rests { Rests seat.old.view }
        ensures same { (seat.new.table ≡ seat.old.table) × (seat.new.number ≡ seat.old.number) }
        ensures turn { Turns M.means seat.old.view seat.new.view result }
        ensures counted { (seat.new.view.loads ≡ seat.old.view.loads) × (seat.new.view.looks ≡ seat.old.view.looks + 1)
            × (seat.new.view.pens ≡ seat.old.view.pens) }
    {
        for _ in rt.forever() {
            if let Some(value) = self.try_turn(seat) {
                return value;
            }
        }
        unreachable!()
    }

    /// Gives the turn back with a value that has the history which was met, and one entry more or
    /// none.
    pub fn give_turn(&self, seat: &mut TaskSeat<M>, value: M)
        requires table { seat.old.table ≡ self.now }
        requires turn { seat.old.view.turn ≡ true }
        requires may { (es : List M.Entry) × MayGive M.means seat.old.view value es }
        ensures same { (seat.new.table ≡ seat.old.table) × (seat.new.number ≡ seat.old.number) }
        ensures given { (es : List M.Entry) → M.means.history value ≡ seat.old.view.history ++ es
            → seat.new.view ≡ given_with seat.old.view es }
        ensures seen { seat.new.view.journal ≡ seat.old.view.journal }
        ensures counted { SameCounts seat.old.view seat.new.view }
    {
        drop(
            self.table
                .shared
                .exchange(&mut seat.seat, SLOT, Some(value)),
        );
        self.table.shared.store::<Give<M>>(&mut seat.seat, TURN, 0);
    }
}
