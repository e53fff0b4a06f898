ghost use Rattle.std.specs.Prelude.{◌≡◌, ◌≢◌, ◌≤◌, Err, IsTrue, OnOk, OnErr};
ghost use Rattle.outside.specs.Faults.{Rose};
ghost use Rattle.outside.specs.Sink.{Appends, AppendsFront};

use crate::sink::{Sink, SinkFault};

/// Offers a piece until all of it is taken. After a fault a front of it was taken.
pub fn offer<K: Sink>(sink: &mut K, piece: &[u8]) -> Result<(), SinkFault>
    ensures ok { OnOk result (Appends (K.taken sink.old) (K.taken sink.new) piece.now) }
    ensures err { OnErr result (AppendsFront (K.taken sink.old) (K.taken sink.new) piece.now) }
    ensures later { K.faults sink.old ≤ K.faults sink.new }
    ensures failed { result ≡ Err SinkFault.Failed → Rose (K.faults sink.old) (K.faults sink.new) }
    ensures told { result ≢ Err SinkFault.Failed → K.faults sink.new ≡ K.faults sink.old }
    ensures memory { result ≡ Err SinkFault.Memory → IsTrue K.takes_memory }
{
    let mut rest = piece;
    while !rest.is_empty() {
        let n = sink.write(rest)?;
        rest = &rest[n..];
    }
    Ok(())
}
