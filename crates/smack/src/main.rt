//! The program: reads a script from standard input, runs it, and prints its record.
//!
//! All of it is in smack_program, over any streams.
#![tactic(auto)]

use smack_program::program;
use std::env;
use std::process::ExitCode;

fn main(rt: HostRuntime) -> ExitCode {
    let finished = program(&rt, env::args(&rt), rt.stdin(), rt.stdout(), rt.stderr());
    ExitCode::from(finished.ending.code)
}
