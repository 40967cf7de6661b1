//! Runs: calls of a decoder or an encoder over a source, in pieces of any length and into output space of any length.
mod decoding;
mod encoding;
mod turns;

pub use decoding::{Outcome, Report, run_to_utf8, run_to_utf16};
pub use encoding::{EncodeOutcome, run_from_utf16};
pub use turns::Turn;
