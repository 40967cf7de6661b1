//! What tests of several crates share: rows as text, vectors of the decoder and of the encoder, the parts of bytes,
//! streams over arrays, long streams of a pattern, and exhausted memory.
#![tactic(auto)]

pub mod decoder_vectors;
pub mod encoder_vectors;
pub mod memory;
pub mod mixed_text;
pub mod parts;
pub mod patterns;
pub mod rows;
pub mod streams;
pub mod texts;
