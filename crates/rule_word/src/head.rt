ghost use Rattle.std.specs.Prelude.{◌≡◌, ◌<◌, ◌^◌, IfSome, Some};
ghost use Rattle.rule_word.specs.declared.head.Head.{Head};
ghost use Rattle.rule_word.specs.Layout.{head_word, IsHead};

/// What a batch is headed by: whose it is, and how many writes follow.
#[derive(Clone, Copy, Debug, PartialEq, Eq)]
pub struct Head {
    /// The number of the task, below 4,096.
    pub task: u16,
    /// The number of the task's call, at most 1,048,575.
    pub seq: u32,
    /// The number of writes.
    pub len: u16,
}

/// The word of a head.
pub fn pack_head(head: &Head) -> u64
    requires { IsHead head.now.task head.now.seq head.now.len }
    ensures { result ≡ head_word head.now.task head.now.seq head.now.len }
{
    (15 << 60)
        + (u64::from(head.task) << 48)
        + (u64::from(head.seq) << 28)
        + (u64::from(head.len) << 12)
}

/// The head whose word this is; `None` exactly where no head packs to it.
#[tactic(auto, using(crate::proofs::Words::head_back))]
pub fn unpack_head(word: u64) -> Option<Head>
    ensures packs { IfSome result (λ head. IsHead head.task head.seq head.len
        × (head_word head.task head.seq head.len ≡ word)) }
    ensures inverts { (head : Head) → IsHead head.task head.seq head.len
        → head_word head.task head.seq head.len ≡ word → result ≡ Some head }
{
    let head = Head {
        task: ((word >> 48) % 4_096) as u16,
        seq: ((word >> 28) % 1_048_576) as u32,
        len: ((word >> 12) % 65_536) as u16,
    };
    if pack_head(&head) == word {
        Some(head)
    } else {
        None
    }
}
