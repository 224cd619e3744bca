//! Holds a lowered program against its source: reads both as JSON from standard input, and writes to standard output whether
//! they agree. docs/JSON.md has the format.
#![tactic(auto)]

use check_run::run::check_run;
use lower_edge::arguments::{NO_ARGUMENTS, arguments_of};
use lower_io::standard::{StdinSource, StdoutSink};
use std::process::ExitCode;

fn main(rt: HostRuntime) -> ExitCode {
    let Ok(arguments) = arguments_of(&rt) else {
        return ExitCode::from(NO_ARGUMENTS);
    };
    let mut source = StdinSource::new(rt.stdin());
    let mut sink = StdoutSink::new(rt.stdout());
    let status = check_run(rt.alloc(), arguments.as_slice(), &mut source, &mut sink);
    ExitCode::from(status.number())
}
