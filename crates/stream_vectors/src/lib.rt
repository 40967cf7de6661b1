//! Tests only: the decoders of `encoding_streams` over vectors, with every set of cuts and into every short
//! destination. The search of a stream for malformed sequences, and decoding into the start of a text.
#![tactic(auto)]

#[cfg(test)]
mod assertions;
#[cfg(test)]
mod decoder_streams;
#[cfg(test)]
mod decoder_vectors;
#[cfg(test)]
mod search_rows;
#[cfg(test)]
mod text_rows;
#[cfg(test)]
mod utf16_streams;
#[cfg(test)]
mod utf16_vectors;
