ghost use Rattle.std.specs.Prelude.{◌≡◌, ◌<◌, ◌≤◌, ◌↔◌, IsTrue, IfSome, Some};
ghost use Rattle.smack_base.specs.declared.rule_op.RuleOp.{RuleOp};
ghost use Rattle.rule_word.specs.Layout.{packed_word, op_word, IsId, IsPackable};
ghost use Rattle.rule_word.specs.Fields.{op_in};

use crate::fields::{allowed, denied, first, modes_number, number, second, tag};
use smack_base::{LabelId, RuleOp};

fn shifted(tag: u64, first: LabelId, second: LabelId, allow: u8, deny: u8) -> u64
    requires { tag < 16 }
    ensures { result ≡ packed_word tag first.0 second.0 allow deny }
{
    (tag << 60)
        + (u64::from(first.0) << 44)
        + (u64::from(second.0) << 28)
        + (u64::from(allow) << 20)
        + (u64::from(deny) << 12)
}

/// The word of a write, whose label ids are at most 65,534, whose ptrace policy is at most 2 and
/// whose logging mode is at most 3.
pub fn pack(op: &RuleOp) -> u64
    requires { IsPackable op.now }
    ensures { result ≡ op_word op.now }
{
    let none = LabelId(0);
    match *op {
        RuleOp::Set { s, o, m } => shifted(1, s, o, modes_number(m), 0),
        RuleOp::Change { s, o, allow, deny } => {
            shifted(2, s, o, modes_number(allow), modes_number(deny))
        }
        RuleOp::Revoke { s } => shifted(3, s, none, 0, 0),
        RuleOp::OnlyClear => shifted(4, none, none, 0, 0),
        RuleOp::OnlyAdd { l } => shifted(5, l, none, 0, 0),
        RuleOp::Ambient { l } => shifted(6, l, none, 0, 0),
        RuleOp::Ptrace { n } => shifted(7, none, none, n, 0),
        RuleOp::Logging { n } => shifted(8, none, none, n, 0),
    }
}

fn is_id(l: LabelId) -> bool
    ensures { IsTrue result ↔ IsId l }
{
    l.0 <= 65_534
}

/// Whether a write has a word.
fn is_packable(op: &RuleOp) -> bool
    ensures { IsTrue result ↔ IsPackable op.now }
{
    match *op {
        RuleOp::Set { s, o, m: _ } => is_id(s) && is_id(o),
        RuleOp::Change {
            s,
            o,
            allow: _,
            deny: _,
        } => is_id(s) && is_id(o),
        RuleOp::Revoke { s } => is_id(s),
        RuleOp::OnlyClear => true,
        RuleOp::OnlyAdd { l } => is_id(l),
        RuleOp::Ambient { l } => is_id(l),
        RuleOp::Ptrace { n } => n <= 2,
        RuleOp::Logging { n } => n <= 3,
    }
}

/// What the fields of a word say.
fn op_of(word: u64) -> Option<RuleOp>
    ensures { result ≡ op_in word }
{
    match tag(word) {
        1 => Some(RuleOp::Set {
            s: first(word),
            o: second(word),
            m: allowed(word),
        }),
        2 => Some(RuleOp::Change {
            s: first(word),
            o: second(word),
            allow: allowed(word),
            deny: denied(word),
        }),
        3 => Some(RuleOp::Revoke { s: first(word) }),
        4 => Some(RuleOp::OnlyClear),
        5 => Some(RuleOp::OnlyAdd { l: first(word) }),
        6 => Some(RuleOp::Ambient { l: first(word) }),
        7 => Some(RuleOp::Ptrace { n: number(word) }),
        8 => Some(RuleOp::Logging { n: number(word) }),
        _ => None,
    }
}

/// The write whose word this is; `None` exactly where no write packs to it.
#[tactic(auto, using(crate::proofs::Words::op_back))]
pub fn unpack(word: u64) -> Option<RuleOp>
    ensures packs { IfSome result (λ op. IsPackable op × (op_word op ≡ word)) }
    ensures inverts { (op : RuleOp) → IsPackable op → op_word op ≡ word → result ≡ Some op }
{
    let op = op_of(word)?;
    if is_packable(&op) && pack(&op) == word {
        Some(op)
    } else {
        None
    }
}
