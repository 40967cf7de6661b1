//! What the program `utf8_check` does, apart from files and messages: it reads its arguments, and checks a stream.
//! Reports each malformed sequence: its line and column, its bytes, why it is malformed, and its offset.
#![tactic(auto)]

pub mod arguments;
mod input;
mod line;
pub mod names;
mod place;

pub use input::{Fault, Mode, check};
pub use place::Columns;
