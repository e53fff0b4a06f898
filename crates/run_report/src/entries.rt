ghost use Rattle.std.specs.Prelude.{◌≡◌, [], ◌∷◌, ◌++◌, map, OnOk};
ghost use Rattle.log_spec.specs.Audits.{outcome, selected_as};
ghost use Rattle.log_spec.specs.Shown.{Logs, audit_lines};
ghost use Rattle.record_spec.specs.Entries.{entry_head, check_line as check_text, reply_line as reply_text, entry_lines as lines_of_entry};
ghost use Rattle.verb_spec.specs.Verbs.{call_verb as verb_of_call};
ghost use Rattle.run_report.specs.Spelling.{line_by, lines_spelled_by};

use crate::page::Page;
use crate::replies::put_reply;
use crate::words::{put_call_number, put_decision, put_version};
use audit_line::{put_line, selected};
use call_words::{Spelling, call_verb, put_call, put_number, put_triple};
use rules_spec::Verdict;
use std::alloc::AllocError;
use world_spec::{Entry, Reply};

fn entry_line(page: &mut Page, by: &Spelling, place: u64, entry: &Entry) -> Result<(), AllocError>
    ensures { OnOk result (page.new ≡ page.old ++ line_by by.now (entry_head place entry.now) ∷ []) }
{
    let mut out = page.begin(b"h")?;
    put_number(&mut out, place)?;
    put_call_number(&mut out, entry.task, entry.seq)?;
    put_version(&mut out, entry.version)?;
    put_call(&mut out, by, &entry.call)?;
    page.end(out)
}

#[tactic(auto, using(log_spec::proofs::Spelling::plain_spelled))]
fn check_line(page: &mut Page, by: &Spelling, v: &Verdict) -> Result<(), AllocError>
    ensures { OnOk result (page.new ≡ page.old ++ line_by by.now (check_text v.now) ∷ []) }
{
    let mut out = page.begin(b"c")?;
    put_triple(&mut out, by, v.subject, v.object, v.modes)?;
    put_decision(&mut out, v)?;
    page.end(out)
}

fn check_lines(page: &mut Page, by: &Spelling, checks: &[Verdict]) -> Result<(), AllocError>
    ensures { OnOk result (page.new ≡ page.old ++ lines_spelled_by by.now (map check_text checks.now)) }
{
    for v in checks {
        check_line(page, by, v)?;
    }
    Ok(())
}

/// What the system's log says of a check.
fn logged_line(page: &mut Page, by: &Spelling, verb: &[u8], v: &Verdict) -> Result<(), AllocError>
    ensures { OnOk result (page.new ≡ page.old ++ line_by by.now (Logs verb.now v.now (outcome v.now.allowed)) ∷ []) }
{
    let mut out = page.begin(b"")?;
    put_line(&mut out, by.labels, verb, v)?;
    page.keep(out)
}

fn logged_lines(page: &mut Page, by: &Spelling, mode: u8, entry: &Entry) -> Result<(), AllocError>
    ensures { OnOk result (page.new ≡ page.old ++ lines_spelled_by by.now (audit_lines (selected_as mode) (verb_of_call entry.now.call) entry.now.checks)) }
{
    let verb = call_verb(&entry.call);
    for v in entry.checks.items() {
        if selected(mode, v.allowed) {
            logged_line(page, by, verb, v)?;
        }
    }
    Ok(())
}

fn reply_line(page: &mut Page, by: &Spelling, reply: &Reply) -> Result<(), AllocError>
    ensures { OnOk result (page.new ≡ page.old ++ line_by by.now (reply_text reply.now) ∷ []) }
{
    let mut out = page.begin(b"=")?;
    put_reply(&mut out, by, reply)?;
    page.end(out)
}

/// The lines of an object call: the call, its checks, what is logged of them in a logging mode, and
/// its reply.
pub fn entry_lines(
    page: &mut Page,
    by: &Spelling,
    mode: u8,
    place: u64,
    entry: &Entry,
) -> Result<(), AllocError>
    ensures { OnOk result (page.new ≡ page.old ++ lines_spelled_by by.now (lines_of_entry (selected_as mode) place entry.now)) }
{
    entry_line(page, by, place, entry)?;
    check_lines(page, by, entry.checks.items())?;
    logged_lines(page, by, mode, entry)?;
    reply_line(page, by, &entry.reply)
}
