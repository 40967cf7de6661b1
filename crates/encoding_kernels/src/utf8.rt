//! UTF-8 by itself.

pub mod count;
pub mod known;
pub mod length;
mod lookups;
pub mod repaired;
pub mod validate;
