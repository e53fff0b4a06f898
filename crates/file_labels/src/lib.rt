//! The attributes of a node: how one is set, taken away and told, and which a new node has. Nothing
//! here takes memory.
#![tactic(auto)]

ghost use Rattle.std.specs.Prelude.{◌≡◌, List};
ghost use Rattle.rule_fold.specs.Index.{ruling_of, StandsFor};
ghost use Rattle.rules_spec.specs.Rulings.{ruling};
ghost use Rattle.rules_spec.specs.declared.Batch.{Batch};
ghost use Rattle.tree_spec.specs.Trees.{is_file_kind};
ghost use Rattle.tree_spec.specs.Attributes.{new_label as new_label_of, new_labels as new_labels_of, rule_transmutes as rule_transmutes_of, is_of_nodes as is_of_nodes_of, value_fault as value_fault_of, set_fault as set_fault_of, with_attr as with_attr_of, absence_fault as absence_fault_of, without_attr as without_attr_of, or_fault, attr_value as attr_value_of};

use rule_fold::RuleIndex;
use smack_base::{LabelId, Modes};
use tree_spec::{Attr, AttrFault, AttrValue, Kind, NodeLabels};

fn rule_transmutes(rights: Option<Modes>) -> bool
    ensures { result ≡ rule_transmutes_of rights }
{
    match rights {
        Some(modes) => modes.transmute,
        None => false,
    }
}

/// The label of a new node in a directory, and whether a new directory transmutes.
pub fn new_label(creator: LabelId, rules: &RuleIndex, dir: &NodeLabels) -> (LabelId, bool)
    ensures exact { result ≡ new_label_of creator (ruling_of rules.now) dir.now }
    ensures stands { (version : List Batch) → StandsFor rules.now version → result ≡ new_label_of creator (ruling version) dir.now }
{
    if dir.transmute && rule_transmutes(rules.rights(creator, dir.label)) {
        (dir.label, true)
    } else {
        (creator, false)
    }
}

fn is_file(kind: Kind) -> bool
    ensures { result ≡ is_file_kind kind }
{
    match kind {
        Kind::File => true,
        Kind::Dir => false,
    }
}

/// The attributes of a new node in a directory.
pub fn new_labels(kind: Kind, creator: LabelId, rules: &RuleIndex, dir: &NodeLabels) -> NodeLabels
    ensures { result ≡ new_labels_of kind creator (ruling_of rules.now) dir.now }
{
    let (label, transmutes) = new_label(creator, rules, dir);
    NodeLabels {
        label,
        exec: None,
        map: None,
        transmute: transmutes && !is_file(kind),
    }
}

/// Whether nodes have the attribute.
pub fn is_of_nodes(attr: Attr) -> bool
    ensures { result ≡ is_of_nodes_of attr }
{
    match attr {
        Attr::IpIn | Attr::IpOut => false,
        _ => true,
    }
}

fn value_fault(kind: Kind, attr: Attr, value: AttrValue) -> Option<AttrFault>
    ensures { result ≡ value_fault_of kind attr value }
{
    match (attr, value) {
        (Attr::Transmute, AttrValue::Label(_)) => Some(AttrFault::BadValue),
        (Attr::Transmute, AttrValue::True) => {
            if is_file(kind) {
                Some(AttrFault::NotDirectory)
            } else {
                None
            }
        }
        (_, AttrValue::True) => Some(AttrFault::BadValue),
        (Attr::Main, AttrValue::Label(_)) => None,
        (_, AttrValue::Label(_)) => {
            if is_file(kind) {
                None
            } else {
                Some(AttrFault::NotRegular)
            }
        }
    }
}

/// Why an attribute of a node of a kind can't be set to a value, where it can't.
pub fn set_fault(kind: Kind, attr: Attr, value: AttrValue) -> Option<AttrFault>
    ensures { result ≡ set_fault_of kind attr value }
{
    if is_of_nodes(attr) {
        value_fault(kind, attr, value)
    } else {
        Some(AttrFault::BadAttribute)
    }
}

fn with_attr(labels: NodeLabels, attr: Attr, value: AttrValue) -> NodeLabels
    ensures { result ≡ with_attr_of labels attr value }
{
    match (attr, value) {
        (Attr::Main, AttrValue::Label(label)) => NodeLabels { label, ..labels },
        (Attr::Exec, AttrValue::Label(label)) => NodeLabels {
            exec: Some(label),
            ..labels
        },
        (Attr::Mmap, AttrValue::Label(label)) => NodeLabels {
            map: Some(label),
            ..labels
        },
        (Attr::Transmute, AttrValue::True) => NodeLabels {
            transmute: true,
            ..labels
        },
        _ => labels,
    }
}

/// The attributes of a node of a kind when one is set.
pub fn set_attr(
    kind: Kind,
    labels: NodeLabels,
    attr: Attr,
    value: AttrValue,
) -> Result<NodeLabels, AttrFault>
    ensures { result ≡ or_fault (set_fault_of kind attr value) (with_attr_of labels attr value) }
{
    match set_fault(kind, attr, value) {
        Some(fault) => Err(fault),
        None => Ok(with_attr(labels, attr, value)),
    }
}

/// Why an attribute of a node can't be taken away, where it can't.
pub fn absence_fault(attr: Attr) -> Option<AttrFault>
    ensures { result ≡ absence_fault_of attr }
{
    match attr {
        Attr::Exec | Attr::Mmap | Attr::Transmute => None,
        _ => Some(AttrFault::BadAttribute),
    }
}

fn without_attr(labels: NodeLabels, attr: Attr) -> NodeLabels
    ensures { result ≡ without_attr_of labels attr }
{
    match attr {
        Attr::Exec => NodeLabels {
            exec: None,
            ..labels
        },
        Attr::Mmap => NodeLabels {
            map: None,
            ..labels
        },
        Attr::Transmute => NodeLabels {
            transmute: false,
            ..labels
        },
        _ => labels,
    }
}

/// The attributes of a node when one is taken away.
pub fn del_attr(labels: NodeLabels, attr: Attr) -> Result<NodeLabels, AttrFault>
    ensures { result ≡ or_fault (absence_fault_of attr) (without_attr_of labels attr) }
{
    match absence_fault(attr) {
        Some(fault) => Err(fault),
        None => Ok(without_attr(labels, attr)),
    }
}

/// What an attribute of a node is, where it has one.
pub fn attr_value(labels: &NodeLabels, attr: Attr) -> Option<AttrValue>
    ensures { result ≡ attr_value_of labels.now attr }
{
    match attr {
        Attr::Main => Some(AttrValue::Label(labels.label)),
        Attr::Exec => labels.exec.map(|label| AttrValue::Label(label)),
        Attr::Mmap => labels.map.map(|label| AttrValue::Label(label)),
        Attr::Transmute => {
            if labels.transmute {
                Some(AttrValue::True)
            } else {
                None
            }
        }
        _ => None,
    }
}
