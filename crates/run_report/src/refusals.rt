ghost use Rattle.std.specs.Prelude.{◌≡◌, ◌++◌, OnOk};
ghost use Rattle.log_spec.specs.Words.{words};
ghost use Rattle.record_spec.specs.Refusals.{label_fault_words, line_fault_words, bad_line_words, refusal_words};

use crate::words::put_numbered;
use call_words::{put_number, put_word};
use file_spec::Refusal;
use smack_base::LabelFault;
use std::alloc::AllocError;
use text_spec::{BadLine, LineFault};

fn put_label_fault(out: &mut Vec<u8>, fault: LabelFault) -> Result<(), AllocError>
    ensures { OnOk result (out.new.items ≡ out.old.items ++ words (label_fault_words fault)) }
{
    match fault {
        LabelFault::Empty => put_word(out, b"empty"),
        LabelFault::TooLong => put_word(out, b"too-long"),
        LabelFault::LeadingDash => put_word(out, b"dash"),
        LabelFault::BadByte { at } => put_numbered(out, b"byte", u64::from(at)),
    }
}

fn put_line_fault(out: &mut Vec<u8>, fault: LineFault) -> Result<(), AllocError>
    ensures { OnOk result (out.new.items ≡ out.old.items ++ words (line_fault_words fault)) }
{
    match fault {
        LineFault::Fields { n } => put_numbered(out, b"fields", u64::from(n)),
        LineFault::Width { n } => put_numbered(out, b"width", u64::from(n)),
        LineFault::Subject(fault) => {
            put_word(out, b"subject")?;
            put_label_fault(out, fault)
        }
        LineFault::Object(fault) => {
            put_word(out, b"object")?;
            put_label_fault(out, fault)
        }
        LineFault::Allow { at } => put_numbered(out, b"allow", u64::from(at)),
        LineFault::Deny { at } => put_numbered(out, b"deny", u64::from(at)),
        LineFault::Label(fault) => {
            put_word(out, b"label")?;
            put_label_fault(out, fault)
        }
        LineFault::Number => put_word(out, b"number"),
    }
}

fn put_bad_line(out: &mut Vec<u8>, bad: BadLine) -> Result<(), AllocError>
    ensures { OnOk result (out.new.items ≡ out.old.items ++ words (bad_line_words bad)) }
{
    put_word(out, b"bad-line")?;
    put_number(out, u64::from(bad.line))?;
    put_line_fault(out, bad.fault)
}

/// Why a write was refused.
pub fn put_refusal(out: &mut Vec<u8>, refusal: Refusal) -> Result<(), AllocError>
    ensures { OnOk result (out.new.items ≡ out.old.items ++ words (refusal_words refusal)) }
{
    match refusal {
        Refusal::NoSuchFile => put_word(out, b"no-such-file"),
        Refusal::TooLong => put_word(out, b"too-long"),
        Refusal::BadLine(bad) => put_bad_line(out, bad),
        Refusal::UnknownLabel { line } => put_numbered(out, b"unknown-label", u64::from(line)),
        Refusal::NotPrivileged => put_word(out, b"not-privileged"),
        Refusal::JournalFull { rows } => put_numbered(out, b"journal-full", u64::from(rows)),
    }
}
