//! The kernel: tasks that share rules and a world, each with its own copy of what it has seen.
//!
//! Contracts see a `Task` as its kernel, its number, how many calls it made, the version of its
//! rules, its credentials, the numbers that it adopted, and the journal and the history that it has
//! seen; its own batches and entries are those of its number there (`specs/Tasks.antt`). What a call
//! does to it is one record for each act: `Stays`, `Answers`, `Wrote`, `Calls`, `Starts`, `Hears`,
//! `Adopts`. A task is sound (`IsSound`): its credentials are those that its number has in the world
//! that the seen history leaves.
//!
//! `ask` and `catch_up` wait for nobody: they look at the published rows once, and load those that
//! the task's rules lack, whole batches in order, each row once. `write` judges a text first, then
//! waits for the pen, and publishes its writes as one batch or not at all. `call` and `fork` wait for
//! the turn, look at the published rows, let the world step in that version, and give the turn back
//! with one entry, or with none where memory or the history ends. A child of a fork has seen its
//! fork. After `hear` and `adopt` a task has seen what both had. `close` hands out the journal and
//! the history that were made, each entry being what its call came to. That pen or turn is ever had
//! is not promised.
//!
//! Stands on `live_table` for the rows and the turn, on `smack_world` for the machine (`WorldMachine`
//! alone knows it), and on `smackfs`, `rule_fold` and `smack_decide` for texts, rules and decisions.
#![tactic(auto)]

mod basis;
mod closed;
mod forks;
mod index;
mod kernel;
mod publishing;
mod task;
mod turns;
mod world_machine;

pub use closed::Closed;
pub use file_spec::Refusal;
pub use kernel::{Asked, Called, Kernel, SeqFull, Written};
pub use task::{Notice, Task};
pub use turns::Entered;
