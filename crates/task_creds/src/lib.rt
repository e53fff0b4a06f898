//! The credentials of a task: its label, the capabilities that bear on Smack, its self rules
//! (Smack guide, "load-self2") and the labels that it may take ("relabel-self").
//!
//! A contract sees a `Cred` as the record `Creds` of `rules_spec`, and each call changes it exactly
//! as the definition that the call is named for. At most 256 self rules stand, each of a pair of
//! its own, and at most 256 labels; a call that would go beyond says so and changes nothing. A
//! `CredRoom` is memory for a copy that is to be made where nothing may fail.
//!
//! Stands on the words of `smack_base` and the definitions of `rules_spec`. Only the calls that look
//! at or change self rules (`self_full`, `add_self`, `put_self`), those that set the labels
//! (`set_list`, `put_list`), `copy` and `CredRoom::new` take memory.
#![tactic(auto)]

mod cred;
mod fault;
mod room;
mod self_rules;

pub use cred::Cred;
pub use fault::CredFault;
pub use room::CredRoom;
