ghost use Rattle.std.specs.Prelude.{◌≡◌, ◌≤◌, ◌<◌, ◌+◌, [], ◌∷◌, ℕ, List, length, take, drop, map, MatchOption, IfOk, IfSome};
ghost use Rattle.script_spec.specs.Grammar.{most_script_tasks};
ghost use Rattle.script_spec.specs.Lines.{ScriptLine};
ghost use Rattle.script_text.specs.Lines.{call_seen};
ghost use Rattle.legal_spec.specs.Calls.{Stands};
ghost use Rattle.runs_spec.specs.Scripts.{segment};
ghost use Rattle.runs_spec.specs.Orders.{NoneWaits};
ghost use Rattle.script_acts.specs.Places.{IsWaitAt};
ghost use Rattle.script_run.specs.Waits.{AreNoWaits, WaitStands};

use crate::waits::{least_between, wait_places};
use script_acts::{line_between, wait_between};
use script_text::Line;
use smack_base::{Bytes, Pid};
use smack_kernel::Kernel;
use std::alloc::{AllocError, Global};
use std::marker::Model;

/// The calls of a script, as workers see them. They know the script by this trait alone, since a
/// closure that is joined loses its contract where the type of what it captures names a lifetime.
pub trait ScriptLines {
    /// Its calls, in written order.
    ghost told: { Self → List ScriptLine };

    /// Its calls, in written order.
    fn calls(&self) -> &[Line<'_>]
        ensures { map call_seen result.now ≡ told self.now };

    /// The place of the first call between two places that waits for a task; the second place where
    /// none does.
    fn next_wait(&self, from: usize, to: usize) -> usize
        requires { from ≤ to }
        ensures place { (from ≤ result) × (result ≤ to) }
        ensures wait { result < to → WaitStands (told self.now) result }
        ensures none { AreNoWaits (drop from (take result (told self.now))) };
}

/// The calls of a script, with the places of those that wait for a task, so that a fork need not look
/// through all calls for the one that waits for its child. A contract sees the list of the calls.
#[derive(Drop)]
pub struct PlacedLines<'a> {
    lines: &'a [Line<'a>],
    waits: Vec<usize>,
}

impl<'a> Model for PlacedLines<'a> {
    ghost use Rattle.std.specs.Prelude.{◌≡◌, List, map};
    ghost use Rattle.script_spec.specs.Lines.{ScriptLine};
    ghost use Rattle.script_text.specs.Lines.{call_seen};
    ghost use Rattle.script_run.specs.Waits.{waits_from};

    ghost Value = { List ScriptLine };

    ghost view = { λ p. map call_seen p.lines.now };

    ghost invariant = { λ p. p.waits.items ≡ waits_from 0 (map call_seen p.lines.now) };
}

impl<'a> PlacedLines<'a> {
    /// These calls, with the places.
    pub fn new(alloc: Global, lines: &'a [Line<'a>]) -> Result<PlacedLines<'a>, AllocError>
        ensures { IfOk result (λ placed. placed ≡ map call_seen lines.now) }
    {
        let waits = wait_places(alloc, lines)?;
        Ok(PlacedLines { lines, waits })
    }
}

impl<'a> ScriptLines for PlacedLines<'a> {
    ghost told = { λ lines. lines };

    fn calls(&self) -> &[Line<'_>] {
        self.lines
    }

    fn next_wait(&self, from: usize, to: usize) -> usize {
        least_between(self.waits.as_slice(), from, to)
    }
}

/// What all workers of a run share: where memory is found, the gate, the kernel, and of the script the
/// names of the tasks by pid and the calls.
pub struct Stage<'a, G, S> {
    pub alloc: Global,
    pub gate: &'a G,
    pub kernel: &'a Kernel,
    pub names: &'a [Bytes],
    pub script: &'a S,
}

impl<'a, G, S> Clone for Stage<'a, G, S> {
    fn clone(&self) -> Result<Stage<'a, G, S>, AllocError> {
        Ok(*self)
    }
}

impl<'a, G, S> Copy for Stage<'a, G, S> {}

/// The lines of a script task from one place of the script on, up to another.
#[derive(Clone, Copy)]
pub struct Span {
    pub pid: u16,
    pub from: usize,
    pub to: usize,
}

/// How many calls a script has.
pub fn count<S: ScriptLines>(script: &S) -> usize
    ensures { result ≡ length (S.told script.now) }
{
    script.calls().len()
}

/// The next line of a script task between two places of the script, and the place behind it.
pub fn next_line<S: ScriptLines>(
    script: &S,
    pid: u16,
    from: usize,
    to: usize,
) -> Option<(Line<'_>, usize)>
    requires { (from ≤ to) × (to ≤ length (S.told script.now)) }
    ensures line { MatchOption result (segment pid from to (S.told script.now) ≡ [])
        (λ r. segment pid from to (S.told script.now) ≡ call_seen r.0 ∷ segment pid r.1 to (S.told script.now)) }
    ensures at { IfSome result (λ r. (n : ℕ) × Stands (S.told script.now) n (call_seen r.0) × (r.1 ≡ n + 1)) }
    ensures place { IfSome result (λ r. (from < r.1) × (r.1 ≤ to)) }
{
    line_between(script.calls(), pid, from, to)
}

/// The place of the line between two places of the script by which a script task waits for a child;
/// the second place where none does.
pub fn wait_place<G, S: ScriptLines>(
    stage: Stage<'_, G, S>,
    pid: u16,
    child: Pid,
    from: usize,
    to: usize,
) -> usize
    requires names { length stage.names.now ≤ most_script_tasks }
    requires place { (from ≤ to) × (to ≤ length (S.told stage.script.now)) }
    ensures place { (from ≤ result) × (result ≤ to) }
    ensures line { result < to → IsWaitAt stage.entry.names.now (S.told stage.entry.script.now) pid child result to }
    ensures none { NoneWaits stage.entry.names.now child (segment pid from result (S.told stage.entry.script.now)) }
{
    let first = stage.script.next_wait(from, to);
    wait_between(stage.names, stage.script.calls(), pid, child, first, to)
}
