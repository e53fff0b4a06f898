ghost use Rattle.std.specs.Prelude.{◌≡◌, ◌≢◌, ◌≤◌, ◌++◌, Err, IsTrue, OnOk, OnErr, decimal};
ghost use Rattle.outside.specs.Faults.{Rose};
ghost use Rattle.outside.specs.Sink.{Appends, AppendsFront};
ghost use Rattle.smack_program.specs.Errors.{line_end, cause_text, error_text};

use crate::status::Status;
use itoa::Buffer;
use outside::{Sink, SinkFault, offer};
use script_text::{Cause, What};

/// Offers one text, and another behind it.
fn put_both<E: Sink>(errors: &mut E, first: &[u8], second: &[u8]) -> Result<(), SinkFault>
    ensures ok { OnOk result (Appends (E.taken errors.old) (E.taken errors.new) (first.now ++ second.now)) }
    ensures err { OnErr result (AppendsFront (E.taken errors.old) (E.taken errors.new) (first.now ++ second.now)) }
    ensures later { E.faults errors.old ≤ E.faults errors.new }
    ensures failed { result ≡ Err SinkFault.Failed → Rose (E.faults errors.old) (E.faults errors.new) }
    ensures told { result ≢ Err SinkFault.Failed → E.faults errors.new ≡ E.faults errors.old }
    ensures memory { result ≡ Err SinkFault.Memory → IsTrue E.takes_memory }
{
    offer(errors, first)?;
    offer(errors, second)
}

/// Offers a text and a decimal number behind it.
fn put_number<E: Sink>(errors: &mut E, text: &[u8], n: u32) -> Result<(), SinkFault>
    ensures ok { OnOk result (Appends (E.taken errors.old) (E.taken errors.new) (text.now ++ decimal n)) }
    ensures err { OnErr result (AppendsFront (E.taken errors.old) (E.taken errors.new) (text.now ++ decimal n)) }
    ensures later { E.faults errors.old ≤ E.faults errors.new }
    ensures failed { result ≡ Err SinkFault.Failed → Rose (E.faults errors.old) (E.faults errors.new) }
    ensures told { result ≢ Err SinkFault.Failed → E.faults errors.new ≡ E.faults errors.old }
    ensures memory { result ≡ Err SinkFault.Memory → IsTrue E.takes_memory }
{
    let mut buffer = Buffer::new();
    put_both(errors, text, buffer.format(n).as_bytes())
}

/// Offers a text, a decimal number behind it, and another text behind that.
fn put_numbered<E: Sink>(errors: &mut E, text: &[u8], n: u32, rest: &[u8]) -> Result<(), SinkFault>
    ensures ok { OnOk result (Appends (E.taken errors.old) (E.taken errors.new) ((text.now ++ decimal n) ++ rest.now)) }
    ensures err { OnErr result (AppendsFront (E.taken errors.old) (E.taken errors.new) ((text.now ++ decimal n) ++ rest.now)) }
    ensures later { E.faults errors.old ≤ E.faults errors.new }
    ensures failed { result ≡ Err SinkFault.Failed → Rose (E.faults errors.old) (E.faults errors.new) }
    ensures told { result ≢ Err SinkFault.Failed → E.faults errors.new ≡ E.faults errors.old }
    ensures memory { result ≡ Err SinkFault.Memory → IsTrue E.takes_memory }
{
    put_number(errors, text, n)?;
    offer(errors, rest)
}

/// Offers why a line of a script is bad, and a line feed.
fn put_cause<E: Sink>(errors: &mut E, cause: Cause) -> Result<(), SinkFault>
    ensures ok { OnOk result (Appends (E.taken errors.old) (E.taken errors.new) (cause_text cause ++ line_end)) }
    ensures err { OnErr result (AppendsFront (E.taken errors.old) (E.taken errors.new) (cause_text cause ++ line_end)) }
    ensures later { E.faults errors.old ≤ E.faults errors.new }
    ensures failed { result ≡ Err SinkFault.Failed → Rose (E.faults errors.old) (E.faults errors.new) }
    ensures told { result ≢ Err SinkFault.Failed → E.faults errors.new ≡ E.faults errors.old }
    ensures memory { result ≡ Err SinkFault.Memory → IsTrue E.takes_memory }
{
    match cause {
        Cause::Task => offer(errors, b"task\n"),
        Cause::Verb => offer(errors, b"verb\n"),
        Cause::Words => offer(errors, b"words\n"),
        Cause::Word { k } => put_numbered(errors, b"word ", k, b"\n"),
        Cause::Text => offer(errors, b"text\n"),
        Cause::Name => offer(errors, b"name\n"),
        Cause::Wait => offer(errors, b"wait\n"),
        Cause::NotBuilt => offer(errors, b"not-built\n"),
    }
}

/// Offers the line of a line of a script that is bad.
fn put_malformed<E: Sink>(errors: &mut E, line: u32, cause: Cause) -> Result<(), SinkFault>
    ensures ok { OnOk result (Appends (E.taken errors.old) (E.taken errors.new) (error_text (Status.Malformed line cause))) }
    ensures err { OnErr result (AppendsFront (E.taken errors.old) (E.taken errors.new) (error_text (Status.Malformed line cause))) }
    ensures later { E.faults errors.old ≤ E.faults errors.new }
    ensures failed { result ≡ Err SinkFault.Failed → Rose (E.faults errors.old) (E.faults errors.new) }
    ensures told { result ≢ Err SinkFault.Failed → E.faults errors.new ≡ E.faults errors.old }
    ensures memory { result ≡ Err SinkFault.Memory → IsTrue E.takes_memory }
{
    put_numbered(errors, b"smack: line ", line, b": ")?;
    put_cause(errors, cause)
}

fn limit_line(what: What) -> &'static [u8]
    ensures { result.now ≡ error_text (Status.TooLarge what) }
{
    match what {
        What::Bytes => b"smack: too large: bytes\n",
        What::Lines => b"smack: too large: lines\n",
        What::Tasks => b"smack: too large: tasks\n",
        What::Labels => b"smack: too large: labels\n",
        What::Text => b"smack: too large: text\n",
        What::Rows => b"smack: too large: rows\n",
    }
}

/// Tells a status on standard error, by its line; `Done` has none. After a fault a front of the
/// line was taken. It takes no memory.
pub fn tell<E: Sink>(errors: &mut E, status: Status) -> Result<(), SinkFault>
    ensures ok { OnOk result (Appends (E.taken errors.old) (E.taken errors.new) (error_text status)) }
    ensures err { OnErr result (AppendsFront (E.taken errors.old) (E.taken errors.new) (error_text status)) }
    ensures later { E.faults errors.old ≤ E.faults errors.new }
    ensures failed { result ≡ Err SinkFault.Failed → Rose (E.faults errors.old) (E.faults errors.new) }
    ensures told { result ≢ Err SinkFault.Failed → E.faults errors.new ≡ E.faults errors.old }
    ensures memory { result ≡ Err SinkFault.Memory → IsTrue E.takes_memory }
{
    match status {
        Status::Done => Ok(()),
        Status::Usage => offer(errors, b"smack: usage\n"),
        Status::Malformed { line, cause } => put_malformed(errors, line, cause),
        Status::ReadFault => offer(errors, b"smack: read fault\n"),
        Status::WriteFault => offer(errors, b"smack: write fault\n"),
        Status::OutOfMemory => offer(errors, b"smack: out of memory\n"),
        Status::TooLarge { what } => offer(errors, limit_line(what)),
    }
}
