//! Lowers a program: reads its tree as JSON from standard input, and writes the lowered tree to standard
//! output. docs/JSON.md has the format of both.
#![tactic(auto)]

use lower_edge::arguments::{NO_ARGUMENTS, arguments_of};
use lower_es2022::run::run;
use lower_io::standard::{StdinSource, StdoutSink};
use std::process::ExitCode;

fn main(rt: HostRuntime) -> ExitCode {
    let Ok(arguments) = arguments_of(&rt) else {
        return ExitCode::from(NO_ARGUMENTS);
    };
    let mut source = StdinSource::new(rt.stdin());
    let mut sink = StdoutSink::new(rt.stdout());
    let status = run(rt.alloc(), arguments.as_slice(), &mut source, &mut sink);
    ExitCode::from(status.number())
}
