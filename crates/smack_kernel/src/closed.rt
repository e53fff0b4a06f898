ghost use Rattle.std.specs.Prelude.{◌≡◌};
ghost use Rattle.smack_kernel.specs.Histories.{AreOneHistory};

use label_table::Labels;
use rules_spec::Journal;
use std::marker::Model;
use world_spec::Trail;

/// What a closed kernel hands out. Only `Kernel::close` makes it. Its journal and its history are one
/// history.
#[derive(Drop)]
pub struct Closed {
    pub(crate) labels: Labels,
    pub(crate) journal: Journal,
    pub(crate) history: Trail,
}

impl Model for Closed {
    ghost use Rattle.smack_kernel.specs.Histories.{AreOneHistory};
    ghost use Rattle.smack_kernel.specs.Answers.{ClosedValue};

    ghost Value = { ClosedValue };

    ghost view = { λ c. record { labels = c.labels; journal = c.journal; history = c.history } };

    ghost invariant = { λ c. AreOneHistory c.journal c.history };
}

impl Closed {
    /// The labels of the kernel.
    pub fn labels(&self) -> &Labels
        ensures { result.now ≡ self.now.labels }
    {
        &self.labels
    }

    /// The batches that were published, the oldest first.
    pub fn journal(&self) -> &Journal
        ensures journal { result.now ≡ self.now.journal }
        ensures one { AreOneHistory self.now.journal self.now.history }
    {
        &self.journal
    }

    /// The entries of the calls that were made, the oldest first.
    pub fn history(&self) -> &Trail
        ensures history { result.now ≡ self.now.history }
        ensures one { AreOneHistory self.now.journal self.now.history }
    {
        &self.history
    }
}
