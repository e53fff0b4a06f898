//! The program, run without words: its exit status is 2, and it prints nothing.
#![tactic(auto)]

use smack_program::program;
use std::env;
use std::process::ExitCode;

fn main(rt: HostRuntime) -> ExitCode {
    let finished = program(&rt, env::args(&rt), rt.stdin(), rt.stdout(), rt.stderr());
    ExitCode::from(finished.ending.code)
}
