ghost use Rattle.std.specs.Prelude.{◌≡◌, ◌++◌, codes, OnOk};
ghost use Rattle.std.specs.List.{flat_map};
ghost use Rattle.smack_base.specs.Modes.{letters_of};
ghost use Rattle.log_spec.specs.Numerals.{numeral};
ghost use Rattle.log_spec.specs.Words.{word, name_at, task_name as name_of_task};
ghost use Rattle.log_spec.specs.Shown.{triple};
ghost use Rattle.verb_spec.specs.Values.{path_text, cap_text as text_of_cap};
ghost use Rattle.call_words.specs.Spelling.{words_by};

use crate::spelling::Spelling;
use itoa::Buffer;
use smack_base::{Bytes, Cap, LabelId, Modes, Path, Pid};
use std::alloc::AllocError;

/// A decimal number, with no space before it.
#[tactic(auto, using(log_spec::proofs::Numerals::numeral_is_decimal))]
pub fn put_decimal(out: &mut Vec<u8>, n: u64) -> Result<(), AllocError>
    ensures { OnOk result (out.new.items ≡ out.old.items ++ numeral n) }
{
    let mut buffer = Buffer::new();
    out.extend_from_slice(buffer.format(n).as_bytes())
}

/// A word of these bytes, behind a space.
pub fn put_word(out: &mut Vec<u8>, text: &[u8]) -> Result<(), AllocError>
    ensures { OnOk result (out.new.items ≡ out.old.items ++ word text.now) }
{
    out.extend_from_slice(b" ")?;
    out.extend_from_slice(text)
}

/// A decimal number.
pub fn put_number(out: &mut Vec<u8>, n: u64) -> Result<(), AllocError>
    ensures { OnOk result (out.new.items ≡ out.old.items ++ word (numeral n)) }
{
    out.extend_from_slice(b" ")?;
    put_decimal(out, n)
}

/// A label; a word of no bytes where the table does not have the id.
pub fn put_label(out: &mut Vec<u8>, by: &Spelling, id: LabelId) -> Result<(), AllocError>
    ensures { OnOk result (out.new.items ≡ out.old.items ++ word (name_at by.now.labels.now id)) }
{
    put_word(out, by.labels.name_or_empty(id))
}

fn task_name(names: &[Bytes], pid: Pid) -> &[u8]
    ensures { result.now ≡ name_of_task names.now pid }
{
    match names.get(usize::from(pid.0)) {
        Some(name) => name.items(),
        None => b"",
    }
}

/// The name of a task by its pid; a word of no bytes where there is none.
pub fn put_name(out: &mut Vec<u8>, by: &Spelling, pid: Pid) -> Result<(), AllocError>
    ensures { OnOk result (out.new.items ≡ out.old.items ++ word (name_of_task by.now.names.now pid)) }
{
    put_word(out, task_name(by.names, pid))
}

/// A mode set, as its letters or a dash.
pub fn put_modes(out: &mut Vec<u8>, m: Modes) -> Result<(), AllocError>
    ensures { OnOk result (out.new.items ≡ out.old.items ++ word (letters_of m)) }
{
    put_word(out, m.text().bytes())
}

/// A subject, an object and modes.
pub fn put_triple(
    out: &mut Vec<u8>,
    by: &Spelling,
    s: LabelId,
    o: LabelId,
    m: Modes,
) -> Result<(), AllocError>
    ensures { OnOk result (out.new.items ≡ out.old.items ++ words_by by.now (triple s o m)) }
{
    put_label(out, by, s)?;
    put_label(out, by, o)?;
    put_modes(out, m)
}

/// Names, each behind a slash.
fn put_slashed(out: &mut Vec<u8>, names: &[Bytes]) -> Result<(), AllocError>
    ensures { OnOk result (out.new.items ≡ out.old.items ++ flat_map (λ name. codes "/" ++ name) names.now) }
{
    for name in names {
        out.extend_from_slice(b"/")?;
        out.extend_from_slice(name.items())?;
    }
    Ok(())
}

/// A path as a word.
pub fn put_path(out: &mut Vec<u8>, path: &Path) -> Result<(), AllocError>
    ensures { OnOk result (out.new.items ≡ out.old.items ++ word (path_text path.now)) }
{
    out.extend_from_slice(b" ")?;
    match path.names() {
        [] => out.extend_from_slice(b"/"),
        names => put_slashed(out, names),
    }
}

/// The name of a capability.
pub fn cap_text(cap: Cap) -> &'static [u8]
    ensures { result.now ≡ text_of_cap cap }
{
    match cap {
        Cap::MacAdmin => b"mac-admin",
        Cap::MacOverride => b"mac-override",
        Cap::SysPtrace => b"sys-ptrace",
    }
}
