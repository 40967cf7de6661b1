//! Repairs UTF-8: writes the text of the input, with U+FFFD for each malformed sequence. The input is a stream, a slice
//! or a block of a stream.
mod blocks;
mod engine;
mod streams;

pub use blocks::{RepairedBlock, repair_block};
pub use engine::{RepairFault, Repaired, repair, repair_slice};
pub use streams::{Sink, Source, Watch};
