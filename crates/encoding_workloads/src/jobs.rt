//! The workloads.

mod check;
mod decode;
mod encode;
mod everyday;
mod legacy;
mod repair;
mod short;
mod windows;

use crate::digest::Digest;
use crate::random::Random;
use std::alloc::{AllocError, Global};

/// The length of the texts that a workload takes its windows from, in bytes.
const TEXT: usize = 0x40000;

/// A workload.
#[derive(Clone, Copy)]
pub(crate) enum Job {
    /// Documents are converted to UTF-16, as an engine needs them.
    Decode,
    /// The engine saves or sends them.
    Encode,
    /// A service checks and measures what it takes in.
    Check,
    /// A filter repairs streams. Some are no UTF-8 at all.
    Repair,
    /// Names, keys and short fields go through the same calls.
    Short,
    /// Old files and engines: Latin1 and bytes of UTF-16.
    Legacy,
    /// Messages, prose, code and JSON, in buffers of 16 bytes to 16 KiB.
    Everyday,
    /// All of them.
    All,
}

impl Job {
    /// Returns the workload of that name.
    pub(crate) fn named(name: &str) -> Option<Job> {
        match name {
            "decode" => Some(Job::Decode),
            "encode" => Some(Job::Encode),
            "check" => Some(Job::Check),
            "repair" => Some(Job::Repair),
            "short" => Some(Job::Short),
            "legacy" => Some(Job::Legacy),
            "everyday" => Some(Job::Everyday),
            "all" => Some(Job::All),
            _ => None,
        }
    }

    /// Runs it.
    pub(crate) fn run(
        self,
        alloc: Global,
        rounds: u64,
        random: &mut Random,
        digest: &mut Digest,
    ) -> Result<(), AllocError> {
        match self {
            Job::Decode => decode::run(alloc, rounds, random, digest),
            Job::Encode => encode::run(alloc, rounds, random, digest),
            Job::Check => check::run(alloc, rounds, random, digest),
            Job::Repair => repair::run(alloc, rounds, random, digest),
            Job::Short => short::run(alloc, rounds, random, digest),
            Job::Legacy => legacy::run(alloc, rounds, random, digest),
            Job::Everyday => everyday::run(alloc, rounds, random, digest),
            Job::All => {
                decode::run(alloc, rounds, random, digest)?;
                encode::run(alloc, rounds, random, digest)?;
                check::run(alloc, rounds, random, digest)?;
                repair::run(alloc, rounds, random, digest)?;
                short::run(alloc, rounds, random, digest)?;
                legacy::run(alloc, rounds, random, digest)?;
                everyday::run(alloc, rounds, random, digest)
            }
        }
    }
}
