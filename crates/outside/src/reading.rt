ghost use Rattle.std.specs.Prelude.{◌≡◌, ◌≢◌, ◌+◌, ◌<◌, ◌≤◌, ◌⊎◌, ℕ, List, Err, length, vec_len, IsOk, IfOk, OnOk, IfSome, IsSomeAnd};
ghost use Rattle.outside.specs.Faults.{Rose};
ghost use Rattle.outside.specs.Source.{Takes, AtEnd};
ghost use Rattle.outside.specs.Reading.{taken_count, ReadsAtMost};

use crate::source::Source;
use std::alloc::Global;

/// Why a source was not read to its end.
#[derive(Clone, Copy, Debug, PartialEq, Eq)]
pub enum Unread {
    /// A read failed, and the source's count of faults rose.
    Failed,
    /// More bytes came than may.
    TooMany,
    /// There was no memory for the bytes.
    Memory,
}

/// The most bytes that are read at once.
const PIECE: usize = 4096;

/// Reads a source to its end, at most `most` bytes. After an error the bytes that were taken are lost.
pub fn read_all<S: Source>(alloc: Global, source: &mut S, most: u32) -> Result<Vec<u8>, Unread>
    ensures ok { IfOk result (λ bytes. Takes (S.left source.old) (S.left source.new) bytes.items) }
    ensures end { OnOk result (AtEnd (S.left source.new)) }
    ensures few { IfOk result (λ bytes. vec_len bytes ≤ most) }

    // Whatever the answer, the bytes that were taken were the next ones.
    ensures front { (came : List ℕ) × Takes (S.left source.old) (S.left source.new) came }
    ensures later { S.faults source.old ≤ S.faults source.new }
    ensures failed { result ≡ Err Unread.Failed → Rose (S.faults source.old) (S.faults source.new) }
    ensures told { result ≢ Err Unread.Failed → S.faults source.new ≡ S.faults source.old }

    // Each read but the last takes a byte, and none comes after more than may.
    ensures reads { ReadsAtMost (S.reads source.old) (S.reads source.new) (most + 2) }

    // TooMany is the answer exactly where more bytes were taken, unless memory ran out.
    ensures many { result ≡ Err Unread.TooMany
        → IfSome (taken_count (S.left source.old) (S.left source.new)) (λ n. most < n) }
    ensures exceeded { IsSomeAnd (taken_count (S.left source.old) (S.left source.new)) (λ n. most < n)
        → (result ≡ Err Unread.TooMany) ⊎ (result ≡ Err Unread.Memory) }

    // Without a fault the bytes left decide the answer, unless memory runs out.
    ensures over { ¬ Rose (S.faults source.old) (S.faults source.new)
        → IsSomeAnd (S.left source.old) (λ bytes. most < length bytes)
        → (result ≡ Err Unread.TooMany) ⊎ (result ≡ Err Unread.Memory) }
    ensures within { ¬ Rose (S.faults source.old) (S.faults source.new)
        → IsSomeAnd (S.left source.old) (λ bytes. length bytes ≤ most)
        → IsOk result ⊎ (result ≡ Err Unread.Memory) }
{
    let mut bytes = Vec::new(alloc);
    let mut piece = [0; PIECE];
    loop {
        let Ok(n) = source.read(&mut piece) else {
            return Err(Unread::Failed);
        };
        if n == 0 {
            return Ok(bytes);
        }
        if bytes.extend_from_slice(&piece[..n]).is_err() {
            return Err(Unread::Memory);
        }
        if bytes.len() > most as usize {
            return Err(Unread::TooMany);
        }
    }
}
