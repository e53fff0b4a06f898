ghost use Rattle.std.specs.Prelude.{◌≡◌, ◌++◌, ◌∷◌, [], OnOk};
ghost use Rattle.log_spec.specs.Numerals.{numeral};
ghost use Rattle.log_spec.specs.Words.{word, words, call_number, version_word, over_words, decision};

use call_words::{put_decimal, put_number, put_word};
use rules_spec::Verdict;
use std::alloc::AllocError;

/// A word, and a decimal number behind it.
pub fn put_numbered(out: &mut Vec<u8>, text: &[u8], n: u64) -> Result<(), AllocError>
    ensures { OnOk result (out.new.items ≡ out.old.items ++ words (text.now ∷ numeral n ∷ [])) }
{
    put_word(out, text)?;
    put_number(out, n)
}

/// A call: the number of its task, a dot, and its number.
pub fn put_call_number(out: &mut Vec<u8>, task: u16, seq: u32) -> Result<(), AllocError>
    ensures { OnOk result (out.new.items ≡ out.old.items ++ word (call_number task seq)) }
{
    out.extend_from_slice(b" ")?;
    put_decimal(out, u64::from(task))?;
    out.extend_from_slice(b".")?;
    put_decimal(out, u64::from(seq))
}

/// A rule version.
pub fn put_version(out: &mut Vec<u8>, version: u32) -> Result<(), AllocError>
    ensures { OnOk result (out.new.items ≡ out.old.items ++ word (version_word version)) }
{
    out.extend_from_slice(b" v")?;
    put_decimal(out, u64::from(version))
}

/// The denying case that an answer went over, where there is one.
fn put_over(out: &mut Vec<u8>, case: u8) -> Result<(), AllocError>
    ensures { OnOk result (out.new.items ≡ out.old.items ++ words (over_words case)) }
{
    if case == 0 {
        return Ok(());
    }
    put_numbered(out, b"over", u64::from(case))
}

/// The answer to a question, and the case that decided it.
pub fn put_decision(out: &mut Vec<u8>, v: &Verdict) -> Result<(), AllocError>
    ensures { OnOk result (out.new.items ≡ out.old.items ++ words (decision v.now)) }
{
    if v.allowed {
        put_numbered(out, b"allow", u64::from(v.case))?;
    } else {
        put_numbered(out, b"deny", u64::from(v.case))?;
    }
    put_over(out, v.over)
}
