//! The parts of bytes, by the table of well-formed sequences: Table 3-7 of the Unicode Standard.

use crate::decoder_vectors::{Expected, Vector};

/// The ranges of the bytes of each row. If a row has fewer bytes, empty ranges follow.
const SEQUENCES: [[(u8, u8); 4]; 9] = [
    [(0x00, 0x7F), (1, 0), (1, 0), (1, 0)],
    [(0xC2, 0xDF), (0x80, 0xBF), (1, 0), (1, 0)],
    [(0xE0, 0xE0), (0xA0, 0xBF), (0x80, 0xBF), (1, 0)],
    [(0xE1, 0xEC), (0x80, 0xBF), (0x80, 0xBF), (1, 0)],
    [(0xED, 0xED), (0x80, 0x9F), (0x80, 0xBF), (1, 0)],
    [(0xEE, 0xEF), (0x80, 0xBF), (0x80, 0xBF), (1, 0)],
    [(0xF0, 0xF0), (0x90, 0xBF), (0x80, 0xBF), (0x80, 0xBF)],
    [(0xF1, 0xF3), (0x80, 0xBF), (0x80, 0xBF), (0x80, 0xBF)],
    [(0xF4, 0xF4), (0x80, 0x8F), (0x80, 0xBF), (0x80, 0xBF)],
];

/// The number of a malformed sequence is this and its length. It is greater than any scalar value.
const MALFORMED: u32 = 0x11_0000;

/// Returns the number of a malformed sequence.
pub fn malformed(length: usize) -> u32 {
    MALFORMED.saturating_add(u32::try_from(length).unwrap_or(u32::MAX))
}

/// Parts in order, each by its number: a scalar value, or that of a malformed sequence.
#[derive(PartialEq, Drop)]
pub struct Parts {
    numbers: [u32; 16],
    /// How many parts there are.
    pub count: usize,
}

impl Parts {
    /// Returns no parts.
    pub fn none() -> Parts {
        Parts {
            numbers: [0; 16],
            count: 0,
        }
    }

    /// Adds a part. Those above sixteen are only counted.
    pub fn push(&mut self, number: u32) {
        if self.count < 16 {
            self.numbers[self.count] = number;
        }
        self.count = self.count.saturating_add(1);
    }

    /// Returns the parts of a vector.
    pub fn of_vector(vector: &Vector) -> Parts {
        let mut parts = Parts::none();
        for part in &vector.parts {
            parts.push(match part {
                Expected::Character(scalar) => u32::from(*scalar),
                Expected::IllFormed(length) => malformed(*length),
            });
        }
        parts
    }

    /// Returns the parts of bytes, by the table.
    pub fn of(bytes: &[u8]) -> Parts {
        let mut parts = Parts::none();
        let mut next = 0;
        for at in 0..bytes.len() {
            if at == next {
                let part = first_part(&bytes[at..]);
                parts.push(part.number);
                next = at.saturating_add(part.length);
            }
        }
        parts
    }

    /// Returns the number of malformed sequences.
    pub fn malformed_count(&self) -> u64 {
        let mut count = 0u64;
        for number in &self.numbers {
            if *number >= MALFORMED {
                count = count.saturating_add(1);
            }
        }
        count
    }
}

/// The first part of bytes.
#[derive(Drop)]
struct Part {
    /// Its number.
    number: u32,
    /// How many bytes it takes.
    length: usize,
    /// Whether it is an incomplete sequence at the end: more bytes may complete a character.
    is_open: bool,
}

/// Returns how many of the first bytes are in the ranges of a row, one after another.
fn matched(ranges: &[(u8, u8); 4], bytes: &[u8]) -> usize {
    let mut count = 0usize;
    for (at, range) in ranges.iter().enumerate() {
        if let Some(byte) = bytes.get(at) {
            if count == at && range.0 <= *byte && *byte <= range.1 {
                count = count.saturating_add(1);
            }
        }
    }
    count
}

/// Returns the length of the sequences of a row.
fn length_of(ranges: &[(u8, u8); 4]) -> usize {
    let mut length = 0usize;
    for range in ranges {
        if range.0 <= range.1 {
            length = length.saturating_add(1);
        }
    }
    length
}

/// Returns the scalar value of a sequence, by `std`.
fn scalar_of_part16(sequence: &[u8]) -> u32 {
    let mut scalar = 0;
    if let Ok(text) = std::str::from_utf8(sequence) {
        for character in text.chars() {
            scalar = u32::from(character);
        }
    }
    scalar
}

/// Returns the first part of the bytes: a sequence of the table, or the longest prefix of one, or a byte.
fn first_part(bytes: &[u8]) -> Part {
    let mut longest = 0;
    for ranges in &SEQUENCES {
        let count = matched(ranges, bytes);
        if count == length_of(ranges) {
            return Part {
                number: scalar_of_part16(bytes.get(..count).unwrap_or(&[])),
                length: count,
                is_open: false,
            };
        }
        longest = longest.max(count);
    }
    Part {
        number: malformed(longest.max(1)),
        length: longest.max(1),
        is_open: longest > 0 && longest == bytes.len(),
    }
}

/// Returns the length of the text of the final parts of bytes: of all parts but an open one.
pub fn final_length(bytes: &[u8]) -> usize {
    let (mut length, mut next) = (0usize, 0);
    for at in 0..bytes.len() {
        if at == next {
            let part = first_part(&bytes[at..]);
            next = at.saturating_add(part.length);
            length = length.saturating_add(if part.is_open {
                0
            } else if part.number >= MALFORMED {
                3
            } else {
                part.length
            });
        }
    }
    length
}
