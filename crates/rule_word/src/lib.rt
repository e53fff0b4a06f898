//! Rule writes and batch heads as words of 64 bits: how a published batch lies in the rows that all
//! tasks read.
//!
//! A word has fields of fixed width, and `specs/Layout.antt` says which, as numbers: `op_word` of a
//! write, `head_word` of a head. `unpack` and `unpack_head` are the inverses: they give the value
//! that packs to a word, and `None` exactly where no value does.
//!
//! Stands on the words of `smack_base`. Nothing here takes memory.
#![tactic(auto)]

mod fields;
mod head;
mod op;

pub use head::{Head, pack_head, unpack_head};
pub use op::{pack, unpack};
