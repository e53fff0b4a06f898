ghost use Rattle.live_table.specs.Machines.{Means, IsLawful};

/// What takes turns in a table: a value with a history of entries.
pub trait Machine: Drop {
    /// One step of the history.
    type Entry;

    ghost means: { Means Self Self.Entry };

    ghost lawful: { IsLawful means };
}
