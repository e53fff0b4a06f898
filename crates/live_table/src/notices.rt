ghost use Rattle.std.specs.Prelude.{◌≡◌, ◌<◌, ◌≤◌, ◌+◌, ℕ, [], true};
ghost use Rattle.live_table.specs.Lists.{Has};
ghost use Rattle.live_table.specs.Batches.{batches_by};
ghost use Rattle.live_table.specs.Machines.{made, entries_by};
ghost use Rattle.live_table.specs.Plays.{notified, knowing, notice_of, enrolled};
ghost use Rattle.live_table.specs.Seats.{Rests, Hears};

use crate::machine::Machine;
use crate::plays::{Count, Draw, Hear, Merge, Notify};
use crate::seat::{Notice, TaskSeat};
use crate::table::{DRAWN, LiveTable, PUBLISHED};

impl<M: Machine> LiveTable<M> {
    /// A notice: it has seen and met what the seat has, and tells it where it is heard.
    pub fn notice(&self, seat: &mut TaskSeat<M>) -> Notice<M>
        requires { seat.old.table ≡ self.now }
        ensures same { (seat.new.table ≡ seat.old.table) × (seat.new.number ≡ seat.old.number) × (result.table ≡ seat.old.table) }
        ensures told { (n : ℕ) × (seat.old.view.known ≤ n) × ((k : ℕ) → Has k seat.old.view.numbers → k < n)
            × (seat.new.view ≡ notified (knowing n seat.old.view)) × (result.view ≡ notice_of (knowing n seat.old.view)) }
    {
        self.table.shared.load::<Count>(&mut seat.seat, DRAWN);
        let note = self.table.shared.split_seat::<Notify>(&mut seat.seat);
        Notice {
            seat: note,
            rows: seat.rows,
        }
    }

    /// Hears a notice: the seat has then seen and met what the notice had.
    pub fn hear(&self, seat: &mut TaskSeat<M>, note: Notice<M>)
        requires table { (seat.old.table ≡ self.now) × (note.table ≡ self.now) }
        ensures same { (seat.new.table ≡ seat.old.table) × (seat.new.number ≡ seat.old.number) }
        ensures heard { Hears M.means seat.old.view note.view seat.new.view }
    {
        let Notice {
            seat: other,
            rows: _,
        } = note;
        self.table.shared.join_seat::<Merge>(&mut seat.seat, other);
        let word = self.table.shared.load::<Hear<M>>(&mut seat.seat, PUBLISHED);
        seat.rows = (word / 2) as u32;
    }

    /// Adopts a seat that is at rest: the seat has then seen and met what that one had, and its
    /// numbers, with their batches and entries, are numbers of this one.
    pub fn adopt(&self, seat: &mut TaskSeat<M>, ended: TaskSeat<M>)
        requires table { (seat.old.table ≡ self.now) × (ended.table ≡ self.now) }
        requires rests { Rests ended.view }
        ensures same { (seat.new.table ≡ seat.old.table) × (seat.new.number ≡ seat.old.number) }
        ensures heard { Hears M.means seat.old.view ended.view seat.new.view }
    {
        let TaskSeat {
            seat: other,
            number: _,
            rows: _,
            filled: _,
        } = ended;
        self.table.shared.join_seat::<Merge>(&mut seat.seat, other);
        let word = self.table.shared.load::<Hear<M>>(&mut seat.seat, PUBLISHED);
        seat.rows = (word / 2) as u32;
    }

    /// Draws a number for the first notice of the present turn, which becomes a seat with it. The
    /// seat that has the turn is handed in to show that it has; fewer than 4,096 numbers are drawn.
    pub fn enrol(&self, seat: &TaskSeat<M>, note: Notice<M>) -> TaskSeat<M>
        requires table { note.table ≡ self.now }
        requires turn { (seat.now.view.turn ≡ true) × (note.view.marked ≡ true) }
        requires few { made M.means note.view.history + 1 < 4096 }
        ensures table { result.table ≡ note.table }
        ensures number { result.number ≡ made M.means note.view.history + 1 }
        ensures view { result.view ≡ enrolled result.number note.view }
        ensures none { (batches_by result.number note.view.journal ≡ [])
            × (entries_by M.means result.number note.view.history ≡ []) }
    {
        let _ = seat;
        let Notice {
            seat: mut child,
            rows,
        } = note;
        let number = self.table.shared.fetch_add::<Draw<M>>(&mut child, DRAWN, 1);
        TaskSeat {
            seat: child,
            number: number as u16,
            rows,
            filled: 0,
        }
    }
}
