ghost use Rattle.std.specs.Prelude.{◌≡◌};
ghost use Rattle.world_spec.specs.Worlds.{creds_of};
ghost use Rattle.world_state.specs.Seen.{world_seen};

use crate::files::RootFiles;
use smack_base::LabelId;
use task_table::Tasks;

/// The label of the root directory.
pub const ROOT: LabelId = LabelId::FLOOR;

/// What calls act on: the tasks that were ever made, and the files of the root.
#[derive(Drop)]
pub struct State {
    pub tasks: Tasks,
    pub files: RootFiles,
}

impl State {
    /// The label of a task, live or not; that of the floor where no task ever had the number.
    pub fn label_of(&self, task: u16) -> LabelId
        ensures { result ≡ (creds_of (world_seen self.now) task).label }
    {
        match self.tasks.cred(task) {
            Some(cred) => cred.label(),
            None => LabelId::FLOOR,
        }
    }
}
