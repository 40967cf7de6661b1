//! The tables of the look-ups that find the bytes that may not follow those before them: Keiser and Lemire,
//! "Validating UTF-8 In Less Than One Instruction Per Byte". Three tables, by the nibbles of two adjacent bytes, each
//! leave some errors possible. An error has a bit, and is there if all three leave it.

use crate::simd::lookup::table;

/// A first byte of several is followed by a byte that isn't a continuation byte.
const TOO_SHORT: u8 = 1;

/// A continuation byte follows ASCII.
const TOO_LONG: u8 = 1 << 1;

/// A continuation byte below A0 follows E0.
const OVERLONG_3: u8 = 1 << 2;

/// A continuation byte from 90 on follows a byte from F4 on.
const TOO_LARGE: u8 = 1 << 3;

/// A continuation byte from A0 on follows ED.
const SURROGATE: u8 = 1 << 4;

/// A continuation byte follows C0 or C1.
const OVERLONG_2: u8 = 1 << 5;

/// A continuation byte below 90 follows F0 or a byte above F4.
const OVERLONG_4: u8 = 1 << 6;

/// A continuation byte follows another. This is an error unless a sequence of three or four bytes is open.
const TWO_CONTINUATIONS: u8 = 1 << 7;

/// The errors that don't depend on the low nibble of the previous byte.
const ANY_LOW: u8 = TOO_SHORT | TOO_LONG | TWO_CONTINUATIONS;

/// The errors that the low nibble of a byte above F4 leaves possible.
const ABOVE_F4: u8 = ANY_LOW | TOO_LARGE | OVERLONG_4;

/// The errors that the high nibble of the previous byte leaves possible.
pub(super) const BYTE_1_HIGH: [u8; 32] = table![nibbles
    TOO_LONG,
    TOO_LONG,
    TOO_LONG,
    TOO_LONG,
    TOO_LONG,
    TOO_LONG,
    TOO_LONG,
    TOO_LONG,
    TWO_CONTINUATIONS,
    TWO_CONTINUATIONS,
    TWO_CONTINUATIONS,
    TWO_CONTINUATIONS,
    TOO_SHORT | OVERLONG_2,
    TOO_SHORT,
    TOO_SHORT | OVERLONG_3 | SURROGATE,
    TOO_SHORT | TOO_LARGE | OVERLONG_4,
];

/// The errors that the low nibble of the previous byte leaves possible.
pub(super) const BYTE_1_LOW: [u8; 32] = table![nibbles
    ANY_LOW | OVERLONG_2 | OVERLONG_3 | OVERLONG_4,
    ANY_LOW | OVERLONG_2,
    ANY_LOW,
    ANY_LOW,
    ANY_LOW | TOO_LARGE,
    ABOVE_F4,
    ABOVE_F4,
    ABOVE_F4,
    ABOVE_F4,
    ABOVE_F4,
    ABOVE_F4,
    ABOVE_F4,
    ABOVE_F4,
    ABOVE_F4 | SURROGATE,
    ABOVE_F4,
    ABOVE_F4,
];

/// The errors that the high nibble of the byte itself leaves possible.
pub(super) const BYTE_2_HIGH: [u8; 32] = table![nibbles
    TOO_SHORT,
    TOO_SHORT,
    TOO_SHORT,
    TOO_SHORT,
    TOO_SHORT,
    TOO_SHORT,
    TOO_SHORT,
    TOO_SHORT,
    TOO_LONG | OVERLONG_2 | TWO_CONTINUATIONS | OVERLONG_3 | OVERLONG_4,
    TOO_LONG | OVERLONG_2 | TWO_CONTINUATIONS | OVERLONG_3 | TOO_LARGE,
    TOO_LONG | OVERLONG_2 | TWO_CONTINUATIONS | SURROGATE | TOO_LARGE,
    TOO_LONG | OVERLONG_2 | TWO_CONTINUATIONS | SURROGATE | TOO_LARGE,
    TOO_SHORT,
    TOO_SHORT,
    TOO_SHORT,
    TOO_SHORT,
];
