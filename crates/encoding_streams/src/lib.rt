//! Decoders of whole streams, over the public calls of `encoding_text` and `encoding_runs`, and vectors of code units.
//! The contract of each call says what it reads, what it writes and what it returns.
#![tactic(auto)]

pub mod decoder;
pub mod encoding;
pub mod laws;
pub mod reader;
pub mod utf16_decoder;
