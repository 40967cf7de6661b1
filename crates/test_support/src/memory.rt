//! Exhausted memory.

use std::alloc::{AllocError, Global};

/// Allocates memory until none is left, in ever smaller blocks, and returns them. The last ones are the smallest.
pub fn exhaust(alloc: Global) -> Result<Vec<Vec<u8>>, AllocError> {
    let mut held = Vec::with_capacity(alloc, 1_000_000)?;
    let mut size: usize = 1 << 46;
    for _ in 0..1_000_000 {
        match Vec::with_capacity(alloc, size) {
            Ok(block) => held.push(block)?,
            Err(_) if size == 1 => break,
            Err(_) => size /= 2,
        }
    }
    Ok(held)
}
