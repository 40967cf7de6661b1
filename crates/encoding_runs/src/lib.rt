//! What the calls of `encoding_text` yield over whole streams: repaired text and malformed sequences. Also the laws of
//! the definitions.
#![tactic(auto)]

pub mod laws;
pub mod malformed;
pub mod reader;
pub mod repair;
pub mod run;
pub mod search;
