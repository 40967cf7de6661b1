//! Private steps of the text encodings, by vectors and by single units. Nothing here is promised to users:
//! `encoding_text` relies on these contracts and exposes none of them.
#![tactic(auto)]

pub mod bidi;
pub mod latin1;
pub mod lengths;
pub mod scalar;
pub mod simd;
pub mod tuning;
pub mod utf16;
pub mod utf16_to_utf8;
pub mod utf8;
pub mod utf8_to_utf16;
