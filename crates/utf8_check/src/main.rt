//! Reports each malformed sequence of UTF-8 in files or standard input: its line and column, its bytes, why it is
//! malformed, and its offset.
#![tactic(auto)]

mod service;

use service::run;
use std::process::ExitCode;

fn main(rt: HostRuntime) -> ExitCode {
    ExitCode::from(run(&rt))
}
