//! The text encodings of the Unicode and Encoding Standards. The contract of each call says what it reads, what it
//! writes and what it returns.
#![tactic(auto)]

pub mod ascii;
pub mod code_unit;
pub mod count;
pub mod decoder;
pub mod mem;
pub mod utf_16;
pub mod utf_8;
