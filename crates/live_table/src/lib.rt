//! The rows of published rules, which every task reads for itself without a lock, and the turn of a
//! machine, which one task at a time has.
//!
//! A `LiveTable` holds a word that counts the published rows, the rows, and one slot with the
//! machine's value. A task steps with a `TaskSeat`; contracts see what it knows, its `View`: the
//! journal that it has seen, the history that it has met, its numbers, and whether it has the pen or
//! the turn. To publish, a seat takes the pen, fills rows that nobody sees yet, and stores the new
//! count once: a batch is visible whole or not at all. A `Notice` carries what one seat has seen to
//! another. `close` hands out the journal and the value.
//!
//! Between any two steps a rule ties the words, the slot and all views (`specs/Core.antt`, `Rule`).
//! So every seen journal is a beginning of the one journal. The machine is generic: nothing here
//! knows labels or calls. Stands on `rule_word` for the words of a batch and on `atomic_table` for
//! the steps; only `new`, `batch` and `close` take memory, and only `take_pen` and `take_turn` wait.
#![tactic(auto)]

mod batches;
mod closing;
mod law;
mod machine;
mod notices;
mod pen;
mod plays;
mod seat;
mod table;
mod turn;
mod view;

pub use law::Law;
pub use machine::Machine;
pub use rules_spec::{Batch, Journal};
pub use seat::{Notice, TaskSeat};
pub use table::{LiveTable, ROW_COUNT};
pub use view::View;
