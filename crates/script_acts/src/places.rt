ghost use Rattle.std.specs.Prelude.{◌≡◌, ◌≤◌, ◌<◌, ◌+◌, [], ◌∷◌, ℕ, List, length, map, MatchOption, IfSome};
ghost use Rattle.std.specs.Bool.{OnTrue, OnFalse};
ghost use Rattle.script_spec.specs.Grammar.{most_script_tasks};
ghost use Rattle.script_text.specs.Lines.{call_seen};
ghost use Rattle.record_spec.specs.declared.AskedWhat.TheVariants as AskedWhat;
ghost use Rattle.legal_spec.specs.Calls.{Stands};
ghost use Rattle.legal_spec.specs.Lines.{IsAskedOfLine};
ghost use Rattle.runs_spec.specs.Scripts.{segment};
ghost use Rattle.runs_spec.specs.Orders.{NoneWaits};
ghost use Rattle.script_acts.specs.Places.{IsWaitAt};

use call_words::{pid_in, verb_of};
use script_text::Line;
use smack_base::{Bytes, Pid};
use verb_spec::Verb;

/// The next line of a script task between two places, and the place behind it; None where there is
/// none.
pub fn line_between<'a>(
    lines: &[Line<'a>],
    pid: u16,
    from: usize,
    to: usize,
) -> Option<(Line<'a>, usize)>
    requires { (from ≤ to) × (to ≤ length lines.now) }
    ensures line { MatchOption result (segment pid from to (map call_seen lines.now) ≡ [])
        (λ r. segment pid from to (map call_seen lines.now) ≡ call_seen r.0 ∷ segment pid r.1 to (map call_seen lines.now)) }
    ensures at { IfSome result (λ r. (n : ℕ) × Stands (map call_seen lines.now) n (call_seen r.0) × (r.1 ≡ n + 1)) }
    ensures place { IfSome result (λ r. (from < r.1) × (r.1 ≤ to)) }
{
    for at in from..to {
        let line = lines[at];
        if line.task == pid {
            return Some((line, at + 1));
        }
    }
    None
}

/// Whether a line waits for the task with a pid.
fn awaits(names: &[Bytes], line: &Line<'_>, child: Pid) -> bool
    requires { length names.now ≤ most_script_tasks }
    ensures is { OnTrue result ((labels : List (List ℕ)) → IsAskedOfLine labels names.now (call_seen line.now) (AskedWhat.Wait child)) }
    ensures is_not { OnFalse result ((labels : List (List ℕ)) → IsAskedOfLine labels names.now (call_seen line.now) (AskedWhat.Wait child) → ⊥) }
{
    match verb_of(line.verb.bytes) {
        Some(Verb::Wait) => pid_in(names, line.word(1)) == Some(child),
        _ => false,
    }
}

/// The place of the line between two places by which a script task waits for a child; the second
/// place where none does.
pub fn wait_between(
    names: &[Bytes],
    lines: &[Line<'_>],
    pid: u16,
    child: Pid,
    from: usize,
    to: usize,
) -> usize
    requires names { length names.now ≤ most_script_tasks }
    requires place { (from ≤ to) × (to ≤ length lines.now) }
    ensures place { (from ≤ result) × (result ≤ to) }
    ensures line { result < to → IsWaitAt names.now (map call_seen lines.now) pid child result to }
    ensures none { NoneWaits names.now child (segment pid from result (map call_seen lines.now)) }
{
    for at in from..to {
        let line = lines[at];
        if line.task == pid && awaits(names, &line, child) {
            return at;
        }
    }
    to
}
