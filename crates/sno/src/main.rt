//! The program `sno`. [`run`] says what it does with its arguments and its streams, and with which status it ends. Here it only gets
//! its streams.
#![tactic(auto)]

use sno_commands::run;
use std::env;
use std::process::ExitCode;

fn main(rt: HostRuntime) -> ExitCode {
    let words = env::args(&rt);
    let status = run(
        &rt,
        rt.alloc(),
        words,
        &mut rt.stdin(),
        &mut rt.stdout(),
        &mut rt.stderr(),
    );
    ExitCode::from(status)
}
