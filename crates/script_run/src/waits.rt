ghost use Rattle.std.specs.Prelude.{◌≡◌, ◌≤◌, ◌<◌, ◌++◌, [], ◌∷◌, map, IfOk, OnOk};
ghost use Rattle.script_text.specs.Lines.{call_seen};
ghost use Rattle.live_table.specs.Lists.{Has};
ghost use Rattle.script_run.specs.Waits.{waits_from, AreOutside};

use script_text::Line;
use std::alloc::{AllocError, Global};

/// Puts the place of a line behind those of others, if the line waits for a task.
fn put_wait(places: &mut Vec<usize>, line: &Line<'_>, at: usize) -> Result<(), AllocError>
    ensures { OnOk result (places.new.items ≡ places.old.items ++ waits_from at (call_seen line.now ∷ [])) }
{
    if line.verb.bytes == b"wait".as_slice() {
        places.push(at)?;
    }
    Ok(())
}

/// The places of the lines that wait for a task, rising.
#[tactic(auto, using(crate::proofs::WaitPlaces::all_waits))]
pub fn wait_places(alloc: Global, lines: &[Line<'_>]) -> Result<Vec<usize>, AllocError>
    ensures { IfOk result (λ places. places.items ≡ waits_from 0 (map call_seen lines.now)) }
{
    let mut places = Vec::new(alloc);
    for at in 0..lines.len() {
        put_wait(&mut places, &lines[at], at)?;
    }
    Ok(places)
}

/// The least of some places from one place on, below another; the other where none is.
pub fn least_between(places: &[usize], from: usize, to: usize) -> usize
    requires { from ≤ to }
    ensures place { (from ≤ result) × (result ≤ to) }
    ensures found { result < to → Has result places.now }
    ensures none { AreOutside from result places.now }
{
    let mut least = to;
    for place in places {
        if from <= *place && *place < least {
            least = *place;
        }
    }
    least
}
