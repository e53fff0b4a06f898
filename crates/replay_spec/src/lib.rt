//! What the lines of a script do, and what the replay of a script is. Plain data; the definitions
//! stand in `specs/`.
//!
//! `Calls` says which object call the words of a line are, and `Acts` what a line does. `Replays` takes the lines of a script in
//! written order, each judged at the newest version, and says which record that makes. `Plain` says
//! what stands in records that scripts leave, and `Laws` what follows for their texts.
#![tactic(auto)]

use smack_base::{LabelId, Modes, Pid};
use world_spec::Call;

/// What a line of a script does.
#[derive(Drop)]
pub enum Act {
    /// It writes its text to its file.
    Write,
    /// It asks whether a subject has modes on an object.
    Ask { s: LabelId, o: LabelId, m: Modes },
    /// It waits for the task with this pid.
    Wait(Pid),
    /// It forks the task with this pid.
    Fork(Pid),
    /// It makes another object call.
    Make(Call),
}
