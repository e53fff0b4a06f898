ghost use Rattle.std.specs.Prelude.{◌≡◌, false};
ghost use Rattle.world_spec.specs.Worlds.{task_begun};

use signal_box::Pending;
use smack_base::Pid;
use std::marker::Model;
use task_creds::Cred;

/// A task: its pid, whether it is live, its credentials, and the signals that wait for it.
#[derive(Drop)]
pub(crate) struct Row {
    pid: Pid,
    live: bool,
    cred: Cred,
    pending: Pending,
}

impl Model for Row {
    ghost use Rattle.world_spec.specs.Worlds.{TaskRow};

    ghost Value = { TaskRow };

    ghost view = { λ r. record { pid = r.pid; live = r.live; creds = r.cred; pending = r.pending } };
}

impl Row {
    /// A task that begins.
    pub(crate) fn begun(pid: Pid, cred: Cred) -> Row
        ensures { result ≡ task_begun pid cred }
    {
        Row {
            pid,
            live: true,
            cred,
            pending: Pending::new(),
        }
    }

    pub(crate) fn pid(&self) -> Pid
        ensures { result ≡ self.now.pid }
    {
        self.pid
    }

    pub(crate) fn live(&self) -> bool
        ensures { result ≡ self.now.live }
    {
        self.live
    }

    pub(crate) fn cred(&self) -> &Cred
        ensures { result.now ≡ self.now.creds }
    {
        &self.cred
    }

    pub(crate) fn pending(&self) -> &Pending
        ensures { result.now ≡ self.now.pending }
    {
        &self.pending
    }

    /// The task is not live any more.
    pub(crate) fn exit(&mut self)
        ensures { self.new ≡ record self.old { live = false } }
    {
        self.live = false;
    }
}

impl Row {
    ghost use Rattle.std.specs.Borrow.{Lends, sem};
    ghost use Rattle.task_table.specs.contracts.row.Row.{the_row};
    ghost use Rattle.task_creds.specs.contracts.cred.Cred.{the_row as cred_row};
    ghost use Rattle.signal_box.specs.contracts.pending.Pending.{the_row as pending_row};

    pub(crate) fn cred_mut(&mut self) -> &mut Cred
        ensures* writes_back { sem 𝓛 (Lends the_row cred_row self.entry result (λ c. record self.old { creds = c })) }
        ensures value { result.now ≡ self.old.creds }
    {
        &mut self.cred
    }

    pub(crate) fn pending_mut(&mut self) -> &mut Pending
        ensures* writes_back { sem 𝓛 (Lends the_row pending_row self.entry result (λ p. record self.old { pending = p })) }
        ensures value { result.now ≡ self.old.pending }
    {
        &mut self.pending
    }
}
