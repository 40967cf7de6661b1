//! Classes of lengths, each with a name. They decide which steps take a text and not what a call returns.

use crate::simd::width::{BLOCK, HALF_STRIDE, STRIDE, TWO_BLOCKS};

/// In bytes: the least length that vectors take. A shorter text goes character by character.
pub const LEAST_FOR_VECTORS: usize = HALF_STRIDE;

/// In bytes: the greatest length of a short text. Two vectors cover it, and no loop over blocks begins.
pub const SHORT: usize = BLOCK;

/// In bytes: the greatest length that two of the widest vectors cover, which test or copy ASCII at once.
pub const TWO_WIDEST_VECTORS: usize = TWO_BLOCKS;

/// In bytes: the least length of a text whose UTF-16 has at least as many code units as a block.
pub const BLOCK_OF_TEXT: usize = 3 * BLOCK;

/// In bytes: the least length of a text whose UTF-16 has at least as many code units as a stride.
pub const STRIDE_OF_TEXT: usize = 3 * STRIDE;
