ghost use Rattle.std.specs.Prelude.{◌≡◌, ◌<◌, ℕ, List, ◌++◌, length, OnOk};
ghost use Rattle.log_spec.specs.Shown.{PrintedLine};
ghost use Rattle.run_report.specs.Spelling.{lines_spelled_by};

use crate::entries::entry_lines;
use crate::lines::{asked_lines, batch_lines};
use crate::modes::mode_in;
use crate::page::Page;
use call_words::Spelling;
use record_spec::AskedLine;
use rules_spec::Batch;
use std::alloc::AllocError;
use world_spec::Entry;

/// What a record lists, each with lines of its own.
pub trait Printed {
    /// Its lines, from the logging modes of the versions, and its place among its like, from 1.
    ghost lines_of: { List ℕ → ℕ → Self → List PrintedLine };

    /// Puts its lines last on a page.
    fn put_lines(
        &self,
        page: &mut Page,
        by: &Spelling,
        modes: &[u8],
        place: u64,
    ) -> Result<(), AllocError>
        requires { 0 < length modes.now }
        ensures { OnOk result (page.new ≡ page.old ++ lines_spelled_by by.now (lines_of modes.now place self.now)) };
}

/// A batch; its place is the version that it makes.
impl Printed for Batch {
    ghost use Rattle.record_spec.specs.Show.{batch_lines as lines_of_batch};

    ghost lines_of = { λ modes place batch. lines_of_batch place batch };

    fn put_lines(
        &self,
        page: &mut Page,
        by: &Spelling,
        _modes: &[u8],
        place: u64,
    ) -> Result<(), AllocError> {
        batch_lines(page, by, place, self)
    }
}

impl Printed for Entry {
    ghost use Rattle.log_spec.specs.Audits.{selected_as};
    ghost use Rattle.record_spec.specs.Entries.{entry_lines as lines_of_entry};
    ghost use Rattle.run_report.specs.Modes.{mode_in as mode_in_list};

    ghost lines_of = { λ modes place entry. lines_of_entry (selected_as (mode_in_list modes entry.version)) place entry };

    fn put_lines(
        &self,
        page: &mut Page,
        by: &Spelling,
        modes: &[u8],
        place: u64,
    ) -> Result<(), AllocError> {
        entry_lines(page, by, mode_in(modes, self.version), place, self)
    }
}

impl Printed for AskedLine {
    ghost use Rattle.record_spec.specs.Show.{asked_lines as lines_of_asked};

    ghost lines_of = { λ modes place asked. lines_of_asked asked };

    fn put_lines(
        &self,
        page: &mut Page,
        by: &Spelling,
        _modes: &[u8],
        _place: u64,
    ) -> Result<(), AllocError> {
        asked_lines(page, by, self)
    }
}
