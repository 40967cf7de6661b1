//! Right-to-left characters by blocks: one test of vectors shows that none begins in a block.

pub mod bytes;
pub mod units;
