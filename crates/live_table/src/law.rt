use crate::machine::Machine;
use crate::view::View;
use atomic_table::TableRule;
use std::marker::PhantomData;

/// The rule of a table: what holds of it between any two steps (`specs/Core.antt`).
pub struct Law<M> {
    machine: PhantomData<M>,
}

impl<M: Machine> TableRule<Option<M>, View<M::Entry>, ()> for Law<M> {
    ghost use Rattle.live_table.specs.Core.{Rule, opening_view};

    ghost holds = { λ _. Rule M.means };

    ghost first = { λ _. opening_view };
}
