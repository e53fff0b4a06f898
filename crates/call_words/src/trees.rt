ghost use Rattle.std.specs.Prelude.{◌≡◌, ◌≤◌, ◌++◌, length, map, IfOk, OnOk};
ghost use Rattle.rule_text.specs.Parts.{placed};
ghost use Rattle.verb_spec.specs.Values.{value_shown};
ghost use Rattle.verb_spec.specs.TreeVerbs.{tree_verb_of as tree_verb_of_name, tree_kinds as kinds_of_tree_verb, tree_call_from as tree_call_from_values, tree_spoken};
ghost use Rattle.call_words.specs.Spelling.{words_by};

use crate::printing::{put_number, put_path};
use crate::spelling::Spelling;
use rule_text::Part;
use smack_base::Duplicate;
use std::alloc::AllocError;
use verb_spec::{Value, WordKind};
use world_spec::{TreeCall, TreeVerb};

/// The verbs of calls on the file tree that scripts do not have yet.
pub const UNBUILT_TREE_VERBS: &[&[u8]] = &[
    b"mkdir", b"rmdir", b"rename", b"setattr", b"delattr", b"getattr",
];

/// The verb of a call on the file tree with this name; None where there is none.
pub fn tree_verb_of(name: &[u8]) -> Option<TreeVerb>
    ensures { result ≡ tree_verb_of_name name.now }
{
    if name == b"create".as_slice() {
        Some(TreeVerb::Create)
    } else if name == b"unlink".as_slice() {
        Some(TreeVerb::Unlink)
    } else if name == b"list".as_slice() {
        Some(TreeVerb::List)
    } else {
        None
    }
}

/// The kinds of the words behind a verb of a call on the file tree; a kind may be by the words
/// themselves.
pub fn tree_kinds(verb: TreeVerb, _words: &[Part<'_>]) -> &'static [WordKind]
    ensures kinds { result.now ≡ kinds_of_tree_verb verb (map placed _words.now) }
    ensures few { length result.now ≤ 3 }
{
    match verb {
        TreeVerb::Create => &[WordKind::Path],
        TreeVerb::Unlink => &[WordKind::Path],
        TreeVerb::List => &[WordKind::Path, WordKind::Number],
    }
}

/// The call on the file tree that a verb with these values makes; None where they are not those of
/// the verb. A path is copied: a copy has no room to spare, and a record keeps its paths.
pub fn tree_call_from(verb: TreeVerb, values: &[Value]) -> Result<Option<TreeCall>, AllocError>
    ensures { IfOk result (λ call. call ≡ tree_call_from_values verb values.now) }
{
    match (verb, values) {
        (TreeVerb::Create, [Value::Path(path)]) => Ok(Some(TreeCall::Create {
            path: path.copy()?,
        })),
        (TreeVerb::Unlink, [Value::Path(path)]) => Ok(Some(TreeCall::Unlink {
            path: path.copy()?,
        })),
        (TreeVerb::List, [Value::Path(path), Value::Number(at)]) => Ok(Some(TreeCall::ListDir {
            path: path.copy()?,
            at: *at,
        })),
        _ => Ok(None),
    }
}

/// The name of the verb of a call on the file tree.
pub fn tree_verb_text(call: &TreeCall) -> &'static [u8]
    ensures { result.now ≡ (tree_spoken call.now).name }
{
    match call {
        TreeCall::Create { path: _ } => b"create",
        TreeCall::Unlink { path: _ } => b"unlink",
        TreeCall::ListDir { path: _, at: _ } => b"list",
    }
}

/// The words of a call on the file tree behind its verb.
pub fn put_tree_values(out: &mut Vec<u8>, _by: &Spelling, call: &TreeCall) -> Result<(), AllocError>
    ensures { OnOk result (out.new.items ≡ out.old.items ++ words_by _by.now (map value_shown (tree_spoken call.now).values)) }
{
    match call {
        TreeCall::Create { path } => put_path(out, path),
        TreeCall::Unlink { path } => put_path(out, path),
        TreeCall::ListDir { path, at } => {
            put_path(out, path)?;
            put_number(out, u64::from(*at))
        }
    }
}
