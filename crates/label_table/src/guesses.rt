ghost use Rattle.std.specs.Prelude.{◌+◌, ◌≤◌, length};

use smack_base::LabelId;
use std::alloc::{AllocError, Global};

/// How many numbers texts have.
const NUMBERS: usize = 16_384;

/// Two large odd numbers.
const FIRST_FACTOR: u64 = 0x9e37_79b9_7f4a_7c15;

const LAST_FACTOR: u64 = 0xd6e8_feb8_6659_fd93;

/// The eight bytes at a place, as one number.
fn eight_at(bytes: &[u8], at: usize) -> u64
    requires { at + 8 ≤ length bytes.now }
{
    u64::from_be_bytes([
        bytes[at],
        bytes[at + 1],
        bytes[at + 2],
        bytes[at + 3],
        bytes[at + 4],
        bytes[at + 5],
        bytes[at + 6],
        bytes[at + 7],
    ])
}

/// A few bytes as one number.
fn few_bytes(bytes: &[u8]) -> u64 {
    let mut n = 0u64;
    for b in bytes {
        n = n.wrapping_mul(251).wrapping_add(u64::from(*b));
    }
    n
}

/// The number of a text, of its first and its last eight bytes and its length.
fn number_of(bytes: &[u8]) -> usize {
    let len = bytes.len();
    let (first, last) = if len >= 8 {
        (eight_at(bytes, 0), eight_at(bytes, len - 8))
    } else {
        (few_bytes(bytes), 0)
    };
    let mixed = (first.wrapping_mul(FIRST_FACTOR) ^ last)
        .wrapping_add(len as u64)
        .wrapping_mul(LAST_FACTOR);
    (mixed >> 50) as usize % NUMBERS
}

/// For the number of a text, the label that came last with it. What is guessed may be the id of
/// another text, or of none.
#[derive(Drop)]
pub(crate) struct Guesses {
    ids: Vec<LabelId>,
}

impl Guesses {
    /// No label came.
    pub(crate) fn new(alloc: Global) -> Result<Guesses, AllocError> {
        Ok(Guesses {
            ids: vec![in alloc; LabelId::FLOOR; NUMBERS]?,
        })
    }

    /// The id that a text may have.
    pub(crate) fn guess(&self, text: &[u8]) -> LabelId {
        match self.ids.as_slice().get(number_of(text)) {
            Some(id) => *id,
            None => LabelId::FLOOR,
        }
    }

    /// A label came.
    pub(crate) fn note(&mut self, text: &[u8], id: LabelId) {
        if let Some(place) = self.ids.as_mut_slice().get_mut(number_of(text)) {
            *place = id;
        }
    }

    pub(crate) fn copy(&self) -> Result<Guesses, AllocError> {
        Ok(Guesses {
            ids: self.ids.clone()?,
        })
    }
}
