ghost use Rattle.std.specs.Prelude.{◌≡◌, ◌≢◌, ◌+◌, [], None, false, map, string_bytes, option_map, IfSome};
ghost use Rattle.outside.specs.Seen.{seen, unfailed};
ghost use Rattle.outside.specs.Standard.{source_seen, sink_seen, direct_seen};
ghost use Rattle.outside.specs.Reading.{ReadsAtMost};
ghost use Rattle.script_spec.specs.Grammar.{most_bytes};
ghost use Rattle.smack_program.specs.declared.status.Status.{Status as StatusOf};
ghost use Rattle.smack_program.specs.Given.{words_given};
ghost use Rattle.smack_program.specs.Program.{IsTold, ProgramEnds, GivenEnds, StdEnds};
ghost use Rattle.smack_program.specs.Statuses.{code_of};

use crate::given::words_of;
use crate::status::Status;
use crate::telling::tell;
use crate::top::smack_main;
use outside::{DirectSink, Gate, OpenGate, Sink, SinkFault, Source, StdSink, StdSource};
use smack_kernel::Closed;
use std::alloc::Global;
use std::env::Args;
use std::io;
use std::io::{Read, Write};
use std::sync::Wait;
use std::thread::Threads;

/// The end of the program.
#[derive(Drop)]
pub struct Ending {
    /// The exit status.
    pub code: u8,
    /// Whether the line on standard error was written.
    pub told: Result<(), SinkFault>,
}

/// The end of a program with this status, which is told on standard error.
fn end<E: Sink>(errors: &mut E, status: Status) -> Ending
    ensures { IsTold E.takes_memory (seen E.taken E.faults errors.old) (seen E.taken E.faults errors.new) status result }
{
    Ending {
        code: status.code(),
        told: tell(errors, status),
    }
}

/// The program: does what the words of the command line say, tells the status on standard error,
/// and gives the exit status. `kept` has what the kernel of a run handed out. At exit status 2 nothing
/// is read, at each but 0, 5 and 6 nothing is written, and at 0 the sink keeps nothing back.
pub fn told_main<R: Threads + Wait + Sync, S: Source, K: Sink, E: Sink, G: Gate + Sync>(
    rt: &R,
    alloc: Global,
    words: &[String],
    source: &mut S,
    sink: &mut K,
    errors: &mut E,
    gate: &G,
    kept: &mut Option<Closed>,
) -> Ending
    requires { kept.old ≡ None }
    ensures ends { (status : StatusOf)
        × ProgramEnds (map string_bytes words.now) kept.new (seen S.left S.faults source.old) (seen S.left S.faults source.new) (seen K.taken K.faults sink.old) (seen K.taken K.faults sink.new) status
        × IsTold E.takes_memory (seen E.taken E.faults errors.old) (seen E.taken E.faults errors.new) status result }
    ensures unread { result.code ≡ code_of Status.Usage → source.new ≡ source.old }
    ensures handed_on { result.code ≡ code_of Status.Done → K.kept sink.new ≡ [] }
    ensures untouched { result.code ≢ code_of Status.Done → result.code ≢ code_of Status.WriteFault → result.code ≢ code_of Status.OutOfMemory → sink.new ≡ sink.old }
    ensures reads { ReadsAtMost (S.reads source.old) (S.reads source.new) (most_bytes + 2) }
{
    let status = smack_main(rt, alloc, words, source, sink, gate, kept);
    end(errors, status)
}

/// The program over the words of the command line as the system gave them, with a gate that holds
/// nobody up. Where they cannot be had, or there is no memory for them, nothing is read or written but
/// the line on standard error.
pub fn given_main<R: AllocGlobal + Threads + Wait + Sync, S: Source, K: Sink, E: Sink>(
    rt: &R,
    given: io::Result<Args>,
    source: &mut S,
    sink: &mut K,
    errors: &mut E,
    kept: &mut Option<Closed>,
) -> Ending
    requires { kept.old ≡ None }
    ensures ends { (status : StatusOf)
        × GivenEnds (words_given given) kept.new (seen S.left S.faults source.old) (seen S.left S.faults source.new) (seen K.taken K.faults sink.old) (seen K.taken K.faults sink.new) status
        × IsTold E.takes_memory (seen E.taken E.faults errors.old) (seen E.taken E.faults errors.new) status result }
    ensures unread { result.code ≡ code_of Status.Usage → source.new ≡ source.old }
    ensures handed_on { result.code ≡ code_of Status.Done → K.kept sink.new ≡ [] }
    ensures untouched { result.code ≢ code_of Status.Done → result.code ≢ code_of Status.WriteFault → result.code ≢ code_of Status.OutOfMemory → sink.new ≡ sink.old }
{
    match words_of(rt.alloc(), given) {
        Ok(words) => told_main(
            rt,
            rt.alloc(),
            words.items(),
            source,
            sink,
            errors,
            &OpenGate,
            kept,
        ),
        Err(status) => end(errors, status),
    }
}

/// How the program over streams of std ended, and the streams after it.
#[derive(Drop)]
pub struct Finished<I, O: Write + Drop, E> {
    /// The exit status, and what came of the line on standard error.
    pub ending: Ending,
    /// What the kernel of a run handed out.
    pub kept: Option<Closed>,
    /// The input.
    pub source: StdSource<I>,
    /// The output, where there was memory for what it keeps back.
    pub sink: Option<StdSink<O>>,
    /// Standard error.
    pub errors: DirectSink<E>,
}

/// The program over the words of the command line as the system gave them, and over these streams.
/// What is read, written and told is promised by the bytes that the streams' types tell. Where there is
/// no memory for what the output keeps back, nothing is read or written but the line on standard error.
pub fn program<
    R: AllocGlobal + Threads + Wait + Sync,
    I: Read + Drop,
    O: Write + Drop,
    E: Write + Drop,
>(rt: &R, given: io::Result<Args>, input: I, output: O, errors: E) -> Finished<I, O, E>
    ensures ends { (status : StatusOf)
        × StdEnds (words_given given) result.kept (unfailed (I.remaining input)) (source_seen I.remaining result.source) (unfailed (O.contents output)) (option_map (sink_seen O.contents) result.sink) status
        × IsTold false (unfailed (E.contents errors)) (direct_seen E.contents result.errors) status result.ending }
    ensures unread { result.ending.code ≡ code_of Status.Usage → result.source ≡ record { inner = input; faults = 0 } }
    ensures handed_on { result.ending.code ≡ code_of Status.Done → IfSome result.sink (λ sink. sink.kept ≡ []) }
    ensures untouched { result.ending.code ≢ code_of Status.Done → result.ending.code ≢ code_of Status.WriteFault → result.ending.code ≢ code_of Status.OutOfMemory
        → IfSome result.sink (λ sink. sink ≡ record { inner = output; kept = []; faults = 0 }) }
{
    let mut source = StdSource::new(input);
    let mut errors = DirectSink::new(errors);
    let mut kept = None;
    let Ok(mut sink) = StdSink::new(rt.alloc(), output) else {
        let ending = end(&mut errors, Status::OutOfMemory);
        return Finished {
            ending,
            kept,
            source,
            sink: None,
            errors,
        };
    };
    let ending = given_main(rt, given, &mut source, &mut sink, &mut errors, &mut kept);
    Finished {
        ending,
        kept,
        source,
        sink: Some(sink),
        errors,
    }
}
