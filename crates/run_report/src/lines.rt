ghost use Rattle.std.specs.Prelude.{◌≡◌, ◌++◌, ◌∷◌, [], length, map, codes, OnOk};
ghost use Rattle.log_spec.specs.Words.{words, line};
ghost use Rattle.log_spec.specs.Shown.{Says};
ghost use Rattle.record_spec.specs.Show.{op_words, op_line as op_text, batch_head, batch_lines as lines_of_batch, asked_head, what_words, answer_words, asked_lines as lines_of_asked, task_line as task_text, task_lines as lines_of_tasks, head_lines as head_of_record, end_line as end_text};
ghost use Rattle.call_words.specs.Spelling.{words_by};
ghost use Rattle.run_report.specs.Spelling.{line_by, plain_line, lines_spelled_by};

use crate::page::Page;
use crate::refusals::put_refusal;
use crate::tasks::run_tasks;
use crate::words::{put_call_number, put_decision, put_numbered, put_version};
use call_words::{Spelling, put_label, put_modes, put_name, put_number, put_triple, put_word};
use record_spec::{AskedLine, AskedWhat, NumberedTask, RunRecord};
use rules_spec::Batch;
use smack_base::RuleOp;
use std::alloc::{AllocError, Global};

fn put_op(out: &mut Vec<u8>, by: &Spelling, op: &RuleOp) -> Result<(), AllocError>
    ensures { OnOk result (out.new.items ≡ out.old.items ++ words_by by.now (op_words op.now)) }
{
    match op {
        RuleOp::Set { s, o, m } => {
            put_word(out, b"set")?;
            put_triple(out, by, *s, *o, *m)
        }
        RuleOp::Change { s, o, allow, deny } => {
            put_word(out, b"change")?;
            put_triple(out, by, *s, *o, *allow)?;
            put_modes(out, *deny)
        }
        RuleOp::Revoke { s } => {
            put_word(out, b"revoke")?;
            put_label(out, by, *s)
        }
        RuleOp::OnlyClear => put_word(out, b"only-clear"),
        RuleOp::OnlyAdd { l } => {
            put_word(out, b"only-add")?;
            put_label(out, by, *l)
        }
        RuleOp::Ambient { l } => {
            put_word(out, b"ambient")?;
            put_label(out, by, *l)
        }
        RuleOp::Ptrace { n } => put_numbered(out, b"ptrace", u64::from(*n)),
        RuleOp::Logging { n } => put_numbered(out, b"logging", u64::from(*n)),
    }
}

fn op_line(page: &mut Page, by: &Spelling, op: &RuleOp) -> Result<(), AllocError>
    ensures { OnOk result (page.new ≡ page.old ++ line_by by.now (op_text op.now) ∷ []) }
{
    let mut out = page.begin(b"o")?;
    put_op(&mut out, by, op)?;
    page.end(out)
}

fn batch_line(page: &mut Page, version: u64, batch: &Batch) -> Result<(), AllocError>
    ensures { OnOk result (page.new ≡ page.old ++ plain_line (batch_head version batch.now) ∷ []) }
{
    let mut out = page.begin(b"j")?;
    put_number(&mut out, version)?;
    put_call_number(&mut out, batch.task, batch.seq)?;
    put_number(&mut out, batch.ops.items().len() as u64)?;
    page.end(out)
}

fn op_lines(page: &mut Page, by: &Spelling, ops: &[RuleOp]) -> Result<(), AllocError>
    ensures { OnOk result (page.new ≡ page.old ++ lines_spelled_by by.now (map op_text ops.now)) }
{
    for op in ops {
        op_line(page, by, op)?;
    }
    Ok(())
}

/// The lines of a batch that makes a version.
pub fn batch_lines(
    page: &mut Page,
    by: &Spelling,
    version: u64,
    batch: &Batch,
) -> Result<(), AllocError>
    ensures { OnOk result (page.new ≡ page.old ++ lines_spelled_by by.now (lines_of_batch version batch.now)) }
{
    batch_line(page, version, batch)?;
    op_lines(page, by, batch.ops.items())
}

/// What was asked: a question, a write to a file, or the end of a task.
fn put_what(out: &mut Vec<u8>, by: &Spelling, what: &AskedWhat) -> Result<(), AllocError>
    ensures { OnOk result (out.new.items ≡ out.old.items ++ words_by by.now (what_words what.now)) }
{
    match what {
        AskedWhat::Ask(v) => {
            put_word(out, b"ask")?;
            put_triple(out, by, v.subject, v.object, v.modes)
        }
        AskedWhat::Refused { file, fault: _ } => {
            put_word(out, b"write")?;
            put_word(out, file.items())
        }
        AskedWhat::Wait { pid } => {
            put_word(out, b"wait")?;
            put_name(out, by, *pid)
        }
    }
}

/// What was answered.
fn put_answer(out: &mut Vec<u8>, what: &AskedWhat) -> Result<(), AllocError>
    ensures { OnOk result (out.new.items ≡ out.old.items ++ words (answer_words what.now)) }
{
    match what {
        AskedWhat::Ask(v) => put_decision(out, v),
        AskedWhat::Refused { file: _, fault } => put_refusal(out, *fault),
        AskedWhat::Wait { pid: _ } => put_word(out, b"ok"),
    }
}

fn question_line(page: &mut Page, by: &Spelling, asked: &AskedLine) -> Result<(), AllocError>
    ensures { OnOk result (page.new ≡ page.old
        ++ line_by by.now (Says (codes "q") (asked_head asked.now ++ what_words asked.now.what)) ∷ []) }
{
    let mut out = page.begin(b"q")?;
    put_call_number(&mut out, asked.task, asked.seq)?;
    put_version(&mut out, asked.version)?;
    put_what(&mut out, by, &asked.what)?;
    page.end(out)
}

fn answer_line(page: &mut Page, what: &AskedWhat) -> Result<(), AllocError>
    ensures { OnOk result (page.new ≡ page.old ++ line (codes "=") (answer_words what.now) ∷ []) }
{
    let mut out = page.begin(b"=")?;
    put_answer(&mut out, what)?;
    page.end(out)
}

/// The lines of an asked, refused or waited line and its answer.
#[tactic(auto, using(log_spec::proofs::Spelling::plain_spelled))]
pub fn asked_lines(page: &mut Page, by: &Spelling, asked: &AskedLine) -> Result<(), AllocError>
    ensures { OnOk result (page.new ≡ page.old ++ lines_spelled_by by.now (lines_of_asked asked.now)) }
{
    question_line(page, by, asked)?;
    answer_line(page, &asked.what)
}

fn task_line(page: &mut Page, by: &Spelling, task: NumberedTask) -> Result<(), AllocError>
    ensures { OnOk result (page.new ≡ page.old ++ line_by by.now (task_text task) ∷ []) }
{
    let mut out = page.begin(b"task")?;
    put_number(&mut out, u64::from(task.number))?;
    put_name(&mut out, by, task.pid)?;
    page.end(out)
}

fn task_lines(page: &mut Page, by: &Spelling, tasks: &[NumberedTask]) -> Result<(), AllocError>
    ensures { OnOk result (page.new ≡ page.old ++ lines_spelled_by by.now (map task_text tasks.now)) }
{
    for task in tasks {
        task_line(page, by, *task)?;
    }
    Ok(())
}

/// The first lines of a record: its format, and its tasks.
pub fn head_lines(
    page: &mut Page,
    by: &Spelling,
    alloc: Global,
    r: &RunRecord,
) -> Result<(), AllocError>
    ensures { OnOk result (page.new ≡ page.old ++ lines_spelled_by by.now (head_of_record r.now)) }
{
    let tasks = run_tasks(alloc, r.history.items())?;
    let out = page.begin(b"smack 1")?;
    page.end(out)?;
    task_lines(page, by, tasks.as_slice())
}

/// The last line of a record.
pub fn end_line(page: &mut Page, r: &RunRecord) -> Result<(), AllocError>
    ensures { OnOk result (page.new ≡ page.old ++ plain_line (end_text r.now) ∷ []) }
{
    let mut out = page.begin(b"end")?;
    put_number(&mut out, r.journal.items().len() as u64)?;
    put_number(&mut out, r.history.items().len() as u64)?;
    put_number(&mut out, r.asked.items().len() as u64)?;
    page.end(out)
}
