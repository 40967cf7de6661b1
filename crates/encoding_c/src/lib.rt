//! The calls of `encoding_text`, the runs, the search for malformed sequences and the repair for C and C++, as a static
//! library. `c/include/encoding_text.h` documents each function in terms of C.
//!
//! A slice is a pointer, followed by its length. If the length is 0, C may pass `NULL`: the compiler replaces it by an
//! address before the body begins, so that no slice here is `NULL`.
//!
//! A function here checks each precondition of `encoding_text` that a caller in C can violate. If one is violated,
//! nothing is read or written, and the result is one that no other call returns. Only the calls of `known_texts` leave
//! the precondition to the caller.
#![tactic(auto)]

pub mod ascii;
pub mod bidi;
pub mod blocks;
pub mod checks;
pub mod conversions;
pub mod counted;
pub mod counts;
pub mod decoder;
pub mod encoder;
pub mod known_texts;
pub mod latin1;
pub mod lengths;
pub mod malformed;
pub mod repair;
pub mod replacing;
pub mod runs;
pub mod search;
pub mod status;
pub mod stream_decoder;
pub mod surrogates;
pub mod text_destinations;
pub mod utf16_decoder;
pub mod utf_16;
pub mod utf_8;
pub mod version;
