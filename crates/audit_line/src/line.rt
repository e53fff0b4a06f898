ghost use Rattle.std.specs.Prelude.{◌≡◌, ◌++◌, codes, OnOk, OnErr};
ghost use Rattle.log_spec.specs.Words.{word};
ghost use Rattle.log_spec.specs.Numerals.{numeral};
ghost use Rattle.log_spec.specs.Audits.{pair, outcome, action_text, audit_line, is_selected};
ghost use Rattle.audit_line.specs.Words.{checked_words, words_of_line};

use itoa::Buffer;
use label_table::Labels;
use rules_spec::Verdict;
use std::alloc::AllocError;

/// Whether a check is logged in a logging mode: in mode 1 the denied ones are, in 2 the granted
/// ones, in 3 both, and in any other none.
pub fn selected(logging: u8, allowed: bool) -> bool
    ensures { result ≡ is_selected logging allowed }
{
    if allowed {
        logging == 2 || logging == 3
    } else {
        logging == 1 || logging == 3
    }
}

fn action(allowed: bool) -> &'static [u8]
    ensures { result.now ≡ action_text (outcome allowed) }
{
    if allowed { b"granted" } else { b"denied" }
}

fn put_pair(out: &mut Vec<u8>, key: &[u8], value: &[u8]) -> Result<(), AllocError>
    ensures { OnOk result (out.new.items ≡ out.old.items ++ word (pair key.now value.now)) }
{
    out.extend_from_slice(b" ")?;
    out.extend_from_slice(key)?;
    out.extend_from_slice(b"=")?;
    out.extend_from_slice(value)
}

#[tactic(auto, using(log_spec::proofs::Numerals::numeral_is_decimal))]
fn put_case(out: &mut Vec<u8>, case: u8) -> Result<(), AllocError>
    ensures { OnOk result (out.new.items ≡ out.old.items ++ word (pair (codes "case") (numeral case))) }
{
    let mut buffer = Buffer::new();
    put_pair(out, b"case", buffer.format(case).as_bytes())
}

/// The pairs of a question and of the case that decided it.
fn put_checked(out: &mut Vec<u8>, labels: &Labels, v: &Verdict) -> Result<(), AllocError>
    ensures { OnOk result (out.new.items ≡ out.old.items ++ checked_words labels.now v.now) }
{
    put_pair(out, b"subject", labels.name_or_empty(v.subject))?;
    put_pair(out, b"object", labels.name_or_empty(v.object))?;
    put_pair(out, b"requested", v.modes.text().bytes())?;
    put_case(out, v.case)
}

fn put_words(out: &mut Vec<u8>, labels: &Labels, verb: &[u8], v: &Verdict) -> Result<(), AllocError>
    ensures { OnOk result (out.new.items ≡ out.old.items ++ words_of_line labels.now verb.now v.now) }
{
    out.extend_from_slice(b"a")?;
    put_pair(out, b"action", action(v.allowed))?;
    put_pair(out, b"fn", verb)?;
    put_checked(out, labels, v)?;
    out.extend_from_slice(b"\n")
}

/// Appends the line of a check that a call of this verb asked, as granted or denied, with its line
/// feed. A label whose id is not in the table is printed as no bytes. On want of memory `out` is as
/// before.
#[tactic(auto, using(crate::proofs::Printed::line_printed))]
pub fn put_line(
    out: &mut Vec<u8>,
    labels: &Labels,
    verb: &[u8],
    v: &Verdict,
) -> Result<(), AllocError>
    ensures ok { OnOk result (out.new.items ≡ out.old.items ++ audit_line labels.now verb.now v.now (outcome v.now.allowed)) }
    ensures err { OnErr result (out.new.items ≡ out.old.items) }
{
    let mut line = Vec::new(*out.allocator());
    put_words(&mut line, labels, verb, v)?;
    out.extend_from_slice(line.as_slice())
}
