ghost use Rattle.std.specs.Prelude.{◌≡◌, ◌<◌, [], ◌∷◌, length, OnOk};
ghost use Rattle.outside.specs.Seen.{seen};
ghost use Rattle.run_report.specs.Put.{IsPut};
ghost use Rattle.run_report.specs.Modes.{modes_from};
ghost use Rattle.run_report.specs.Spelling.{plain_line, lines_spelled_by};
ghost use Rattle.record_spec.specs.Show.{joined, lines_in_turn, head_lines as lines_of_head, end_line as end_text, show};

use crate::fault::ReportFault;
use crate::lines::{end_line, head_lines};
use crate::modes::logging_modes;
use crate::page::Page;
use crate::printed::Printed;
use call_words::Spelling;
use outside::{Sink, SinkFault, offer};
use record_spec::RunRecord;
use smack_base::Bytes;
use std::alloc::{AllocError, Global};

/// Offers a line; its faults are those of the report.
fn put_line<K: Sink>(sink: &mut K, line: &[u8]) -> Result<(), ReportFault>
    ensures { IsPut line.now (seen K.taken K.faults sink.old) (seen K.taken K.faults sink.new) result }
{
    match offer(sink, line) {
        Ok(()) => Ok(()),
        Err(SinkFault::Failed) => Err(ReportFault::Failed),
        Err(SinkFault::Memory) => Err(ReportFault::Memory),
    }
}

/// Offers lines, one piece each.
fn put_lines<K: Sink>(sink: &mut K, lines: &[Bytes]) -> Result<(), ReportFault>
    ensures { IsPut (joined lines.now) (seen K.taken K.faults sink.old) (seen K.taken K.faults sink.new) result }
{
    for line in lines {
        put_line(sink, line.items())?;
    }
    Ok(())
}

/// Makes the lines of an item the only ones of a page.
fn item_page<T: Printed>(
    page: &mut Page,
    item: &T,
    by: &Spelling,
    modes: &[u8],
    place: u64,
) -> Result<(), AllocError>
    requires { 0 < length modes.now }
    ensures { OnOk result (page.new ≡ lines_spelled_by by.now (T.lines_of modes.now place item.now)) }
{
    page.clear()?;
    item.put_lines(page, by, modes, place)
}

/// Writes the lines of items, of which the first has the place 1.
fn put_items<K: Sink, T: Printed>(
    sink: &mut K,
    page: &mut Page,
    by: &Spelling,
    modes: &[u8],
    items: &[T],
) -> Result<(), ReportFault>
    requires { 0 < length modes.now }
    ensures { IsPut (joined (lines_spelled_by by.now (lines_in_turn (T.lines_of modes.now) 1 items.now))) (seen K.taken K.faults sink.old) (seen K.taken K.faults sink.new) result }
{
    for (i, item) in items.iter().enumerate() {
        let place = i as u64 + 1;
        let Ok(()) = item_page(page, item, by, modes, place) else {
            return Err(ReportFault::Memory);
        };
        put_lines(sink, page.lines())?;
    }
    Ok(())
}

fn head_page(page: &mut Page, by: &Spelling, alloc: Global, r: &RunRecord) -> Result<(), AllocError>
    ensures { OnOk result (page.new ≡ lines_spelled_by by.now (lines_of_head r.now)) }
{
    page.clear()?;
    head_lines(page, by, alloc, r)
}

fn end_page(page: &mut Page, r: &RunRecord) -> Result<(), AllocError>
    ensures { OnOk result (page.new ≡ plain_line (end_text r.now) ∷ []) }
{
    page.clear()?;
    end_line(page, r)
}

/// Writes the first lines of a record.
fn put_head<K: Sink>(
    sink: &mut K,
    page: &mut Page,
    by: &Spelling,
    alloc: Global,
    r: &RunRecord,
) -> Result<(), ReportFault>
    ensures { IsPut (joined (lines_spelled_by by.now (lines_of_head r.now))) (seen K.taken K.faults sink.old) (seen K.taken K.faults sink.new) result }
{
    match head_page(page, by, alloc, r) {
        Ok(()) => put_lines(sink, page.lines()),
        Err(_) => Err(ReportFault::Memory),
    }
}

/// Writes the last line of a record.
fn put_end<K: Sink>(sink: &mut K, page: &mut Page, r: &RunRecord) -> Result<(), ReportFault>
    ensures { IsPut (joined (plain_line (end_text r.now) ∷ [])) (seen K.taken K.faults sink.old) (seen K.taken K.faults sink.new) result }
{
    match end_page(page, r) {
        Ok(()) => put_lines(sink, page.lines()),
        Err(_) => Err(ReportFault::Memory),
    }
}

/// Writes the text of a record, by the logging modes of its versions.
fn put_parts<K: Sink>(
    sink: &mut K,
    alloc: Global,
    modes: &[u8],
    r: &RunRecord,
) -> Result<(), ReportFault>
    requires modes { modes.now ≡ modes_from 1 r.now.journal }
    requires some { 0 < length modes.now }
    ensures { IsPut (show r.now) (seen K.taken K.faults sink.old) (seen K.taken K.faults sink.new) result }
{
    let mut page = Page::new(alloc);
    let by = Spelling {
        labels: &r.labels,
        names: r.names.items(),
    };
    put_head(sink, &mut page, &by, alloc, r)?;
    put_items(sink, &mut page, &by, modes, r.journal.items())?;
    put_items(sink, &mut page, &by, modes, r.history.items())?;
    put_items(sink, &mut page, &by, modes, r.asked.items())?;
    put_end(sink, &mut page, r)
}

/// Writes the text of a record to a sink, line by line. After a fault a front of it was taken;
/// `Failed` comes only where the sink's count of faults rose.
pub fn put_record<K: Sink>(alloc: Global, r: &RunRecord, sink: &mut K) -> Result<(), ReportFault>
    ensures { IsPut (show r.now) (seen K.taken K.faults sink.old) (seen K.taken K.faults sink.new) result }
{
    match logging_modes(alloc, r.journal.items()) {
        Ok(modes) => put_parts(sink, alloc, modes.as_slice(), r),
        Err(_) => Err(ReportFault::Memory),
    }
}
