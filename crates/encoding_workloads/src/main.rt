//! The benchmark's workloads: each does what users of the library wait for, over texts that it makes from a seed, and
//! prints a digest of all results.
#![tactic(auto)]

mod digest;
mod jobs;
mod pages;
mod random;
mod text;

use digest::Digest;
use jobs::Job;
use random::Random;
use std::alloc::{AllocError, Global};
use std::process::ExitCode;
use std::{env, io};

/// The status if the arguments are none of those that the usage names.
const USAGE: u8 = 2;

/// Which workload to run, and how much of it.
#[derive(Drop)]
struct Order {
    job: Job,
    seed: u64,
    rounds: u64,
}

/// Returns what the arguments after the program's name ask for.
fn order_of(name: &str, seed: &str, rounds: &str) -> Option<Order> {
    let job = Job::named(name)?;
    let seed = seed.parse::<u64>().ok()?;
    let rounds = rounds.parse::<u64>().ok()?;
    Some(Order { job, seed, rounds })
}

/// Reads the arguments.
fn read_order(mut arguments: env::Args<Global>) -> Option<Order> {
    let _program = arguments.next()?;
    let name = arguments.next()?;
    let seed = arguments.next()?;
    let rounds = arguments.next()?;
    order_of(name.as_str(), seed.as_str(), rounds.as_str())
}

/// Runs the workload and returns the digest of its results.
fn run(alloc: Global, order: Order) -> Result<u64, AllocError> {
    let mut digest = Digest::new();
    let mut random = Random::seeded(order.seed);
    order
        .job
        .run(alloc, order.rounds, &mut random, &mut digest)?;
    Ok(digest.value())
}

fn main(rt: HostRuntime) -> io::Result<ExitCode> {
    let Some(order) = read_order(env::args(&rt)?) else {
        eprintln!(rt;
            "usage: encoding_workloads decode|encode|check|repair|short|legacy|everyday|all SEED ROUNDS"
        )?;
        return Ok(ExitCode::from(USAGE));
    };
    let digest = run(rt.alloc(), order)?;
    println!(rt; "{digest:016x}")?;
    Ok(ExitCode::from(0))
}
