ghost use Rattle.std.specs.Prelude.{◌≡◌, ◌<◌, ◌≤◌, ◌∷◌, [], length, map, true, Err, OnOk};
ghost use Rattle.smack_base.specs.Labels.{is_label};
ghost use Rattle.text_spec.specs.Names.{with_name, with_names};
ghost use Rattle.rule_text.specs.Parts.{placed};
ghost use Rattle.file_spec.specs.Writes.{labels_named};
ghost use Rattle.verb_spec.specs.Kinds.{label_words};
ghost use Rattle.script_spec.specs.Lines.{labels_of};
ghost use Rattle.script_spec.specs.Grammar.{most_labels};
ghost use Rattle.smackfs.specs.Named.{named_write, HasGoodNames};
ghost use Rattle.script_text.specs.Spelled.{spelled_seen, AreLabels, IsSpelledCall};
ghost use Rattle.script_text.specs.WrittenTexts.{names_of_ops, AreGoodOps, IsTextOfCall};

use crate::spelled::Spelled;
use crate::texts::WrittenText;
use label_table::{Labels, LabelsFault};
use rule_text::Part;
use smack_base::Label;
use smackfs::NamedOp;
use verb_spec::WordKind;

/// Adds the label that a text is.
fn add_label(labels: &mut Labels, text: &[u8]) -> Result<(), LabelsFault>
    requires label { is_label text.now ≡ true }
    requires limit { length labels.old ≤ most_labels }
    ensures ok { OnOk result (labels.new ≡ with_name labels.old text.now) }
    ensures limit { OnOk result (length labels.new ≤ most_labels) }
    ensures many { result ≡ Err LabelsFault.TooMany → most_labels < length (with_name labels.old text.now) }
{
    if labels.id(text).is_some() {
        return Ok(());
    }
    match Label::read(text) {
        Ok(label) => match labels.add(&label) {
            Ok(_) => Ok(()),
            Err(fault) => Err(fault),
        },
        Err(_) => unreachable!(),
    }
}

fn add_both(labels: &mut Labels, one: &[u8], two: &[u8]) -> Result<(), LabelsFault>
    requires one { is_label one.now ≡ true }
    requires two { is_label two.now ≡ true }
    requires limit { length labels.old ≤ most_labels }
    ensures ok { OnOk result (labels.new ≡ with_names labels.old (one.now ∷ two.now ∷ [])) }
    ensures limit { OnOk result (length labels.new ≤ most_labels) }
    ensures many { result ≡ Err LabelsFault.TooMany → most_labels < length (with_names labels.old (one.now ∷ two.now ∷ [])) }
{
    if let Err(fault) = add_label(labels, one) {
        return Err(fault);
    }
    if let Err(fault) = add_label(labels, two) {
        return Err(fault);
    }
    Ok(())
}

/// Adds the labels that a write names.
fn add_names(labels: &mut Labels, op: NamedOp<'_>) -> Result<(), LabelsFault>
    requires good { HasGoodNames (named_write op) }
    requires limit { length labels.old ≤ most_labels }
    ensures ok { OnOk result (labels.new ≡ with_names labels.old (labels_named (named_write op.entry))) }
    ensures limit { OnOk result (length labels.new ≤ most_labels) }
    ensures many { result ≡ Err LabelsFault.TooMany → most_labels < length (with_names labels.old (labels_named (named_write op.entry))) }
{
    match op {
        NamedOp::Set { s, o, m: _ } => add_both(labels, s.bytes, o.bytes),
        NamedOp::Change {
            s,
            o,
            allow: _,
            deny: _,
        } => add_both(labels, s.bytes, o.bytes),
        NamedOp::Revoke { s } => add_label(labels, s.bytes),
        NamedOp::OnlyClear => Ok(()),
        NamedOp::OnlyAdd { l } => add_label(labels, l.bytes),
        NamedOp::Ambient { l } => add_label(labels, l.bytes),
        NamedOp::Ptrace { n: _ } => Ok(()),
        NamedOp::Logging { n: _ } => Ok(()),
    }
}

/// Adds the labels that writes name.
fn add_ops(labels: &mut Labels, ops: &[NamedOp<'_>]) -> Result<(), LabelsFault>
    requires good { AreGoodOps ops.now }
    requires limit { length labels.old ≤ most_labels }
    ensures ok { OnOk result (labels.new ≡ with_names labels.old (names_of_ops ops.now)) }
    ensures limit { OnOk result (length labels.new ≤ most_labels) }
    ensures many { result ≡ Err LabelsFault.TooMany → most_labels < length (with_names labels.old (names_of_ops ops.now)) }
{
    for op in ops {
        if let Err(fault) = add_names(labels, *op) {
            return Err(fault);
        }
    }
    Ok(())
}

/// Adds the words that stand for labels, by the kinds of the words.
fn add_label_words(
    labels: &mut Labels,
    kinds: &[WordKind],
    words: &[Part<'_>],
) -> Result<(), LabelsFault>
    requires are { AreLabels (label_words kinds.now (map placed words.now)) }
    requires limit { length labels.old ≤ most_labels }
    ensures ok { OnOk result (labels.new ≡ with_names labels.old (label_words kinds.now (map placed words.now))) }
    ensures limit { OnOk result (length labels.new ≤ most_labels) }
    ensures many { result ≡ Err LabelsFault.TooMany → most_labels < length (with_names labels.old (label_words kinds.now (map placed words.now))) }
{
    let mut kinds = kinds;
    let mut words = words;
    while let [kind, more @ ..] = kinds {
        let [word, behind @ ..] = words else {
            return Ok(());
        };
        if let WordKind::Label = *kind {
            if let Err(fault) = add_label(labels, word.bytes) {
                return Err(fault);
            }
        }
        kinds = more;
        words = behind;
    }
    Ok(())
}

/// Adds the labels of a call and of what its text spells. `TooMany` comes where more than 65,535
/// would stand.
pub fn add_labels(
    labels: &mut Labels,
    call: &Spelled<'_, '_>,
    text: &WrittenText<'_>,
) -> Result<(), LabelsFault>
    requires call { IsSpelledCall call.now }
    requires text { IsTextOfCall (spelled_seen call.now) text.now }
    requires limit { length labels.old ≤ most_labels }
    ensures ok { OnOk result (labels.new ≡ with_names labels.old (labels_of (spelled_seen call.now))) }
    ensures limit { OnOk result (length labels.new ≤ most_labels) }
    ensures many { result ≡ Err LabelsFault.TooMany → most_labels < length (with_names labels.old (labels_of (spelled_seen call.now))) }
{
    if let Err(fault) = add_label_words(labels, call.kinds(), call.behind()) {
        return Err(fault);
    }
    add_ops(labels, text.ops.items())
}
