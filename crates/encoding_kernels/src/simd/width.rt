//! The widths of vectors and of groups of them, the indices of their lanes, and the bounds of ASCII.

/// The number of bytes in a block.
pub const BLOCK: usize = 64;

/// The number of bytes in half a block, a vector of AVX2.
pub const HALF_BLOCK: usize = 32;

/// The number of bytes in two blocks.
pub const TWO_BLOCKS: usize = 128;

/// The number of bytes in four blocks.
pub const FOUR_BLOCKS: usize = 256;

/// The number of units in a stride, a vector of bytes.
pub const STRIDE: usize = 16;

/// The number of strides in a block.
pub const FOUR: usize = 4;

/// The number of strides in four blocks.
pub const SIXTEEN: usize = 16;

/// The number of units in half a stride.
pub const HALF_STRIDE: usize = 8;

/// The number of units in a quarter of a stride.
pub const QUARTER_STRIDE: usize = 4;

/// The number of UTF-16 code units that one test covers.
pub const UNIT_BLOCK: usize = 64;

/// The number of UTF-16 code units in half a block, which one test of a search or for right-to-left units covers.
pub const HALF_UNIT_BLOCK: usize = 32;

/// The number of UTF-16 code units in a vector.
pub const UNIT_STRIDE: usize = 8;

/// The least byte that isn't ASCII.
pub const ASCII_END: u8 = 0x80;

/// The least UTF-16 code unit that isn't ASCII.
pub const BASIC_LATIN_END: u16 = 0x80;

/// The indices of the lanes of a stride.
pub(crate) const LANE_INDICES: [u8; STRIDE] = [
    0, 1, 2, 3, 4, 5, 6, 7, 8, 9, 10, 11, 12, 13, 14, 15,
];
