//! What each step of a table tells the seat that takes it (`specs/Plays.antt`).
ghost use Rattle.live_table.specs.Plays.{saw, read, penned, filled, published, counted};

use crate::machine::Machine;
use crate::view::View;
use atomic_table::{Join, Play, Split};
use std::marker::PhantomData;

/// A look at the published rows.
pub(crate) struct See;

impl<S, E> Play<Option<S>, View<E>> for See {
    ghost then = { saw };
}

/// A look at one row.
pub(crate) struct Read;

impl<S, E> Play<Option<S>, View<E>> for Read {
    ghost then = { read };
}

/// Taking the pen.
pub(crate) struct Pen;

impl<S, E> Play<Option<S>, View<E>> for Pen {
    ghost then = { penned };
}

/// Filling a row.
pub(crate) struct Fill;

impl<S, E> Play<Option<S>, View<E>> for Fill {
    ghost then = { filled };
}

/// Publishing what is filled.
pub(crate) struct Publish;

impl<S, E> Play<Option<S>, View<E>> for Publish {
    ghost then = { published };
}

/// A look at how many numbers are drawn.
pub(crate) struct Count;

impl<S, E> Play<Option<S>, View<E>> for Count {
    ghost then = { counted };
}

/// Making a notice.
pub(crate) struct Notify;

impl<E> Split<View<E>> for Notify {
    ghost use Rattle.live_table.specs.Plays.{notified, notice_of};

    ghost left = { notified };

    ghost right = { notice_of };
}

/// Joining a view into another.
pub(crate) struct Merge;

impl<E> Join<View<E>> for Merge {
    ghost use Rattle.live_table.specs.Plays.{joined, spent};

    ghost both = { joined };

    ghost spent = { spent };
}

/// The look at the rows that follows a join.
pub(crate) struct Hear<M> {
    machine: PhantomData<M>,
}

impl<M: Machine> Play<Option<M>, View<M::Entry>> for Hear<M> {
    ghost use Rattle.live_table.specs.Plays.{heard};

    ghost then = { heard M.means };
}

/// Taking the turn.
pub(crate) struct Take<M> {
    machine: PhantomData<M>,
}

impl<M: Machine> Play<Option<M>, View<M::Entry>> for Take<M> {
    ghost use Rattle.live_table.specs.Plays.{took};

    ghost then = { took M.means };
}

/// Giving the turn back.
pub(crate) struct Give<M> {
    machine: PhantomData<M>,
}

impl<M: Machine> Play<Option<M>, View<M::Entry>> for Give<M> {
    ghost use Rattle.live_table.specs.Plays.{gave};

    ghost then = { gave M.means };
}

/// Drawing a number.
pub(crate) struct Draw<M> {
    machine: PhantomData<M>,
}

impl<M: Machine> Play<Option<M>, View<M::Entry>> for Draw<M> {
    ghost use Rattle.live_table.specs.Plays.{drew};

    ghost then = { drew M.means };
}
