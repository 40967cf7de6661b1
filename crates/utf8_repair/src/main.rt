//! Reads standard input to its end, and writes it to standard output as well-formed UTF-8.
#![tactic(auto)]

mod service;
mod streams;
#[cfg(test)]
mod tests;

pub use service::serve;
use service::{NO_ARGUMENTS, report};
use std::cell::Cell;
use std::env;
use std::process::ExitCode;
use streams::{BufferedWriter, FlushPolicy, PIPE_CAPACITY, ReadAhead};

/// Serves the standard streams, each through an array: they are unbuffered, and each of their calls is a system call.
fn main(rt: HostRuntime) -> ExitCode {
    let mut errors = rt.stderr();
    let Ok(arguments) = env::args(&rt) else {
        report(NO_ARGUMENTS, &mut errors);
        return ExitCode::from(NO_ARGUMENTS);
    };
    let count = arguments.count().saturating_sub(1);
    let due = Cell::new(FlushPolicy::Each);
    let mut reader: ReadAhead<'_, _, PIPE_CAPACITY> = ReadAhead::new(rt.stdin(), &due);
    let mut writer: BufferedWriter<'_, _, PIPE_CAPACITY> = BufferedWriter::new(rt.stdout(), &due);
    ExitCode::from(serve(count, &mut reader, &mut writer, &mut errors))
}
