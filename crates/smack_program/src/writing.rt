ghost use Rattle.std.specs.Prelude.{◌≡◌, [], OnOk, IfErr};
ghost use Rattle.outside.specs.Seen.{seen};
ghost use Rattle.run_report.specs.Put.{IsPut};
ghost use Rattle.record_spec.specs.Show.{show};
ghost use Rattle.smack_program.specs.Parts.{IsTextWritten, IsUnwritten};

use crate::status::Status;
use outside::{Sink, SinkFault};
use record_spec::RunRecord;
use run_report::{ReportFault, put_record};
use std::alloc::Global;

/// Writes the text of a record, and hands on all that the sink keeps back.
fn put_whole<K: Sink>(alloc: Global, r: &RunRecord, sink: &mut K) -> Result<(), ReportFault>
    ensures put { IsPut (show r.now) (seen K.taken K.faults sink.old) (seen K.taken K.faults sink.new) result }
    ensures handed_on { OnOk result (K.kept sink.new ≡ []) }
{
    put_record(alloc, r, sink)?;
    match sink.flush() {
        Ok(()) => Ok(()),
        Err(SinkFault::Failed) => Err(ReportFault::Failed),
        Err(SinkFault::Memory) => Err(ReportFault::Memory),
    }
}

/// Writes the text of a record, and keeps none of it back; or the status of a text that was not
/// written whole.
pub fn write_record<K: Sink>(alloc: Global, r: &RunRecord, sink: &mut K) -> Result<(), Status>
    ensures written { OnOk result (IsTextWritten (show r.now) (seen K.taken K.faults sink.old) (seen K.taken K.faults sink.new)) }
    ensures handed_on { OnOk result (K.kept sink.new ≡ []) }
    ensures unwritten { IfErr result (IsUnwritten (show r.now) (seen K.taken K.faults sink.old) (seen K.taken K.faults sink.new)) }
{
    match put_whole(alloc, r, sink) {
        Ok(()) => Ok(()),
        Err(ReportFault::Failed) => Err(Status::WriteFault),
        Err(ReportFault::Memory) => Err(Status::OutOfMemory),
    }
}
