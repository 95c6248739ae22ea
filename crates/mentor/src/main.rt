//! Does what its arguments say: runs an exercise, judges a trace, or writes a ready-made exercise.
#![tactic(auto)]

use std::process::ExitCode;
use std::{env, io};
use tm_mentor::run_process;
use tm_outside::{StdSink, StdSource};
use tm_watch::{Tally, Watcher};

fn main(rt: HostRuntime) -> ExitCode {
    let mut watchers: Vec<Box<dyn Watcher>> = Vec::new(rt.alloc());
    let Ok(tally) = Box::new(rt.alloc(), Tally::make()) else {
        return ExitCode::from(9);
    };
    if watchers.push(tally).is_err() {
        return ExitCode::from(9);
    }
    let mut source = StdSource::make(rt.reader());
    let mut sink = StdSink::make(io::writer(&rt));
    run_process(
        rt.alloc(),
        env::args(&rt),
        &mut source,
        &mut sink,
        &mut watchers,
    )
}
