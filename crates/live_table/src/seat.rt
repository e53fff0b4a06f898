ghost use Rattle.std.specs.Prelude.{◌≡◌, ◌≤◌};
ghost use Rattle.live_table.specs.Batches.{ArePacked, rows_of};
ghost use Rattle.live_table.specs.Core.{row_count};

use crate::machine::Machine;
use crate::view::View;
use atomic_table::Seat;
use std::marker::Model;

/// A seat with a number: what a task steps with. It may go from thread to thread.
#[derive(Drop)]
pub struct TaskSeat<M: Machine> {
    pub(crate) seat: Seat<Option<M>, View<M::Entry>>,
    pub(crate) number: u16,
    pub(crate) rows: u32,
    pub(crate) filled: u32,
}

impl<M: Machine> Model for TaskSeat<M> {
    ghost use Rattle.live_table.specs.Seats.{SeatValue, IsSeat};

    ghost Value = { SeatValue M.Entry };

    ghost view = { λ s. record { table = s.seat.table_id; number = s.number; view = s.seat.me.0 } };

    ghost invariant = { λ s. IsSeat s.seat.me s.number s.rows s.filled };
}

impl<M: Machine> TaskSeat<M> {
    /// The seat's number: 0 is the first task's.
    pub fn number(&self) -> u16
        ensures { result ≡ self.now.number }
    {
        self.number
    }

    /// How many rows the seat has seen.
    pub fn rows_seen(&self) -> u32
        ensures rows { result ≡ rows_of self.now.view.journal }
        ensures few { result ≤ row_count }
        ensures packed { ArePacked self.now.view.journal }
    {
        self.rows
    }
}

/// A seat without a number. It has seen what its maker had, and it holds neither pen nor turn.
#[derive(Drop)]
pub struct Notice<M: Machine> {
    pub(crate) seat: Seat<Option<M>, View<M::Entry>>,
    pub(crate) rows: u32,
}

impl<M: Machine> Model for Notice<M> {
    ghost use Rattle.live_table.specs.Seats.{NoticeValue, IsNotice};

    ghost Value = { NoticeValue M.Entry };

    ghost view = { λ n. record { table = n.seat.table_id; view = n.seat.me.0 } };

    ghost invariant = { λ n. IsNotice n.seat.me n.rows };
}
