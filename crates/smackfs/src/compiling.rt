ghost use Rattle.std.specs.Prelude.{◌≡◌, ◌≤◌, length, map, IfOk};
ghost use Rattle.std.specs.List.{flat_map};
ghost use Rattle.text_spec.specs.Names.{id_of};
ghost use Rattle.file_spec.specs.Writes.{rule_file as rule_file_of_name, self_file as self_file_of_name, file_of as file_of_name, read_as as is_read_as, line_of, writes_of_text};
ghost use Rattle.file_spec.specs.Files.{op_of, ops_of, ops_of_writes, pair_set, label_added, becomes, compiled};
ghost use Rattle.smackfs.specs.Gives.{Gives, Compiles};
ghost use Rattle.smackfs.specs.Named.{named_write, both};

use crate::named_op::NamedOp;
use crate::text_writes::{WritesFault, line_at, read_writes};
use file_spec::{Compiled, Refusal, RuleFile, SelfFile, SmackFile};
use label_table::Labels;
use rule_text::Part;
use smack_base::{Ids, LabelId, Pair, Pairs, RuleOp, RuleOps};
use std::alloc::{AllocError, Global};

/// Why a text was not compiled.
#[derive(Clone, Copy, PartialEq, Eq)]
pub enum TextFault {
    /// The text is refused.
    Refused(Refusal),
    /// Want of memory.
    Memory,
}

/// The file with this name; None where no file of rules or settings has it.
pub fn rule_file(name: &[u8]) -> Option<RuleFile>
    ensures { result ≡ rule_file_of_name name.now }
{
    if name == b"load2".as_slice() {
        Some(RuleFile::Load2)
    } else if name == b"load".as_slice() {
        Some(RuleFile::Load)
    } else if name == b"change-rule".as_slice() {
        Some(RuleFile::ChangeRule)
    } else if name == b"revoke-subject".as_slice() {
        Some(RuleFile::RevokeSubject)
    } else if name == b"onlycap".as_slice() {
        Some(RuleFile::Onlycap)
    } else if name == b"ambient".as_slice() {
        Some(RuleFile::Ambient)
    } else if name == b"ptrace".as_slice() {
        Some(RuleFile::Ptrace)
    } else if name == b"logging".as_slice() {
        Some(RuleFile::Logging)
    } else {
        None
    }
}

/// The file of the writing task with this name; None where none has it.
fn self_file(name: &[u8]) -> Option<SelfFile>
    ensures { result ≡ self_file_of_name name.now }
{
    if name == b"load-self2".as_slice() {
        Some(SelfFile::LoadSelf2)
    } else if name == b"load-self".as_slice() {
        Some(SelfFile::LoadSelf)
    } else if name == b"relabel-self".as_slice() {
        Some(SelfFile::RelabelSelf)
    } else {
        None
    }
}

/// The file with this name; None where no smackfs file has it.
pub fn file_of(name: &[u8]) -> Option<SmackFile>
    ensures { result ≡ file_of_name name.now }
{
    if let Some(file) = rule_file(name) {
        return Some(SmackFile::Rule(file));
    }
    match self_file(name) {
        Some(file) => Some(SmackFile::Own(file)),
        None => None,
    }
}

/// The file of rules by whose form a file's text is read.
pub fn read_as(file: SmackFile) -> RuleFile
    ensures { result ≡ is_read_as file }
{
    match file {
        SmackFile::Rule(file) => file,
        SmackFile::Own(SelfFile::LoadSelf2) => RuleFile::Load2,
        SmackFile::Own(SelfFile::LoadSelf) => RuleFile::Load,
        SmackFile::Own(SelfFile::RelabelSelf) => RuleFile::Onlycap,
    }
}

/// The refusal of a label that the table lacks.
fn unknown(text: &[u8], label: Part<'_>) -> Refusal
    requires { length text.now ≤ 65536 }
    ensures { result ≡ Refusal.UnknownLabel (line_of text.now label.entry.at) }
{
    Refusal::UnknownLabel {
        line: line_at(text, label.at),
    }
}

/// The ids of the labels of a pair, where the table has both.
fn pair_in(labels: &Labels, s: Part<'_>, o: Part<'_>) -> Option<(LabelId, LabelId)>
    ensures { result ≡ both (id_of labels.now s.entry.bytes.now) (id_of labels.now o.entry.bytes.now) }
{
    match (labels.id(s.bytes), labels.id(o.bytes)) {
        (Some(s), Some(o)) => Some((s, o)),
        _ => None,
    }
}

/// The write by the ids of its labels, or the refusal where the table lacks one.
fn op_in(labels: &Labels, text: &[u8], op: NamedOp<'_>) -> Result<RuleOp, Refusal>
    requires { length text.now ≤ 65536 }
    ensures { result ≡ op_of labels.now text.now (named_write op.entry) }
{
    match op {
        NamedOp::Set { s, o, m } => match pair_in(labels, s, o) {
            Some((s, o)) => Ok(RuleOp::Set { s, o, m }),
            None => Err(unknown(text, s)),
        },
        NamedOp::Change { s, o, allow, deny } => match pair_in(labels, s, o) {
            Some((s, o)) => Ok(RuleOp::Change { s, o, allow, deny }),
            None => Err(unknown(text, s)),
        },
        NamedOp::Revoke { s } => match labels.id(s.bytes) {
            Some(s) => Ok(RuleOp::Revoke { s }),
            None => Err(unknown(text, s)),
        },
        NamedOp::OnlyClear => Ok(RuleOp::OnlyClear),
        NamedOp::OnlyAdd { l } => match labels.id(l.bytes) {
            Some(l) => Ok(RuleOp::OnlyAdd { l }),
            None => Err(unknown(text, l)),
        },
        NamedOp::Ambient { l } => match labels.id(l.bytes) {
            Some(l) => Ok(RuleOp::Ambient { l }),
            None => Err(unknown(text, l)),
        },
        NamedOp::Ptrace { n } => Ok(RuleOp::Ptrace { n }),
        NamedOp::Logging { n } => Ok(RuleOp::Logging { n }),
    }
}

/// The writes by the ids of their labels, or the refusal of the first with a label that the table
/// lacks.
fn ops_in(
    alloc: Global,
    labels: &Labels,
    text: &[u8],
    writes: &[NamedOp<'_>],
) -> Result<RuleOps, TextFault>
    requires { length text.now ≤ 65536 }
    ensures { Gives result (ops_of labels.now text.now (map named_write writes.now)) }
{
    let mut ops = RuleOps::new(alloc);
    if ops.reserve(writes.len()).is_err() {
        return Err(TextFault::Memory);
    }
    for write in writes {
        match op_in(labels, text, *write) {
            Ok(op) => {
                if ops.push(op).is_err() {
                    return Err(TextFault::Memory);
                }
            }
            Err(refusal) => return Err(TextFault::Refused(refusal)),
        }
    }
    Ok(ops)
}

/// What a text becomes that is written to a file.
fn compile_text(
    alloc: Global,
    labels: &Labels,
    file: RuleFile,
    text: &[u8],
) -> Result<RuleOps, TextFault>
    requires { length text.now ≤ 65536 }
    ensures { Gives result (ops_of_writes labels.now text.now (writes_of_text file text.now)) }
{
    match read_writes(alloc, file, text) {
        Ok(writes) => ops_in(alloc, labels, text, writes.items()),
        Err(WritesFault::Bad(bad)) => Err(TextFault::Refused(Refusal::BadLine(bad))),
        Err(WritesFault::Memory) => Err(TextFault::Memory),
    }
}

/// The pairs of the writes that set a rule.
fn pairs_set(alloc: Global, ops: &[RuleOp]) -> Result<Pairs, AllocError>
    ensures { IfOk result (λ pairs. pairs ≡ flat_map pair_set ops.now) }
{
    let mut pairs = Pairs::new(alloc);
    for op in ops {
        if let RuleOp::Set { s, o, m } = *op {
            pairs.push(Pair { s, o, m })?;
        }
    }
    Ok(pairs)
}

/// The labels of the writes that add one to a list.
fn labels_added(alloc: Global, ops: &[RuleOp]) -> Result<Ids, AllocError>
    ensures { IfOk result (λ labels. labels ≡ flat_map label_added ops.now) }
{
    let mut labels = Ids::new(alloc);
    for op in ops {
        if let RuleOp::OnlyAdd { l } = *op {
            labels.push(l)?;
        }
    }
    Ok(labels)
}

/// What the writes of an accepted text become.
fn compiled_as(alloc: Global, file: SmackFile, ops: RuleOps) -> Result<Compiled, AllocError>
    ensures { IfOk result (λ it. it ≡ becomes file ops) }
{
    match file {
        SmackFile::Rule(_) => Ok(Compiled::Rules(ops)),
        SmackFile::Own(SelfFile::LoadSelf2 | SelfFile::LoadSelf) => {
            Ok(Compiled::SelfRules(pairs_set(alloc, ops.items())?))
        }
        SmackFile::Own(SelfFile::RelabelSelf) => {
            Ok(Compiled::Relabels(labels_added(alloc, ops.items())?))
        }
    }
}

/// What a text becomes that is written to a smackfs file. The answers in their order:
/// `NoSuchFile` for a name that is no file; `TooLong` for more than 65,536 bytes; `BadLine` for the
/// first bad line and its first fault; `UnknownLabel` for the first line with a label that the
/// table lacks. No other refusal comes; `Memory` is want of memory.
pub fn compile(
    alloc: Global,
    labels: &Labels,
    name: &[u8],
    text: &[u8],
) -> Result<Compiled, TextFault>
    ensures { Compiles result (compiled labels.now name.now text.now) }
{
    let Some(file) = file_of(name) else {
        return Err(TextFault::Refused(Refusal::NoSuchFile));
    };
    if text.len() > 65_536 {
        return Err(TextFault::Refused(Refusal::TooLong));
    }
    let ops = match compile_text(alloc, labels, read_as(file), text) {
        Ok(ops) => ops,
        Err(fault) => return Err(fault),
    };
    match compiled_as(alloc, file, ops) {
        Ok(it) => Ok(it),
        Err(_) => Err(TextFault::Memory),
    }
}
