//! The decoder's vectors: bytes, and their parts. UTF-8 decoder of the Encoding Standard.

use crate::rows::Row;
use crate::texts::Output;
use Expected::{Character, IllFormed};
use std::alloc::{AllocError, Global};

/// An expected part: a character, or the length of a malformed sequence.
#[derive(Drop)]
pub enum Expected {
    Character(char),
    IllFormed(usize),
}

/// Bytes and their expected parts.
#[derive(Drop)]
pub struct Vector {
    pub bytes: Vec<u8>,
    pub parts: Vec<Expected>,
}

/// What decoding yields: the code units, and for each report the number of them before it, and its length.
pub type Delivered<U> = (Vec<U>, Vec<(usize, usize)>);

/// Bytes and their parts: characters by their scalar values, and `?` with the length of a malformed sequence.
const ROWS: &str = "\
|
C3 A4 | U+00E4
E2 98 83 | U+2603
F0 9F 92 A9 | U+1F4A9
C3 | ?1
E2 98 | ?2
F0 9F 92 | ?3
BF | ?1
BF BF | ?1 ?1
C3 A4 80 | U+00E4 ?1
C3 A4 BF | U+00E4 ?1
E2 98 83 80 | U+2603 ?1
E2 98 83 BF | U+2603 ?1
F0 9F 92 A9 80 | U+1F4A9 ?1
F0 9F 92 A9 BF | U+1F4A9 ?1
00 | U+0000
C0 80 | ?1 ?1
E0 80 80 | ?1 ?1 ?1
F0 80 80 80 | ?1 ?1 ?1 ?1
FF | ?1
7F | U+007F
C1 BF | ?1 ?1
E0 81 BF | ?1 ?1 ?1
F0 80 81 BF | ?1 ?1 ?1 ?1
80 | ?1
80 80 | ?1 ?1
80 80 80 | ?1 ?1 ?1
80 80 80 80 | ?1 ?1 ?1 ?1
C2 80 | U+0080
E0 82 80 | ?1 ?1 ?1
F0 80 82 80 | ?1 ?1 ?1 ?1
C1 80 | ?1 ?1
C2 7F | ?1 U+007F
DF BF | U+07FF
E0 9F BF | ?1 ?1 ?1
F0 80 9F BF | ?1 ?1 ?1 ?1
E0 A0 80 | U+0800
F0 80 A0 80 | ?1 ?1 ?1 ?1
ED 9F BF | U+D7FF
F0 8D 9F BF | ?1 ?1 ?1 ?1
ED A0 80 | ?1 ?1 ?1
F0 8D A0 80 | ?1 ?1 ?1 ?1
ED BF BF | ?1 ?1 ?1
F0 8D BF BF | ?1 ?1 ?1 ?1
EE 80 80 | U+E000
F0 8E 80 80 | ?1 ?1 ?1 ?1
EF BF BF | U+FFFF
F0 8F BF BF | ?1 ?1 ?1 ?1
F0 90 80 80 | U+10000
F4 8F BF BF | U+10FFFF
F4 90 80 80 | ?1 ?1 ?1 ?1
F4 8F BF FF | ?3 ?1";

/// What is tried with each vector.
pub trait VectorTest {
    /// Returns whether a vector passes.
    fn holds(&mut self, alloc: Global, vector: &Vector) -> Result<bool, AllocError>;
}

/// Tries the vectors: each of the 52 rows with `61` before it, once without and once with `5A` after it. Returns the
/// first row that is misspelt or doesn't pass, if any.
pub fn failing_vector<T: VectorTest>(
    alloc: Global,
    test: &mut T,
) -> Result<Option<&'static str>, AllocError> {
    let mut count = 0usize;
    for line in ROWS.lines() {
        for following in ["", "Z"] {
            let Some(vector) = vector_of(alloc, line, following)? else {
                return Ok(Some(line));
            };
            if !test.holds(alloc, &vector)? {
                return Ok(Some(line));
            }
            count = count.saturating_add(1);
        }
    }
    if count == 104 {
        Ok(None)
    } else {
        Ok(Some("there is another number of vectors"))
    }
}

/// Returns the vector of a row, with letters after it, or `None` if it is misspelt.
fn vector_of(
    alloc: Global,
    line: &'static str,
    following: &str,
) -> Result<Option<Vector>, AllocError> {
    let mut row = Row::of(line);
    let mut bytes = Vec::new(alloc);
    bytes.push(b'a')?;
    bytes.extend_from_slice(row.bytes().as_slice())?;
    bytes.extend_from_slice(following.as_bytes())?;
    let mut parts = Vec::new(alloc);
    parts.push(Character('a'))?;
    for word in row.word().split_whitespace() {
        let Some(part) = part_of(word) else {
            return Ok(None);
        };
        parts.push(part)?;
    }
    for letter in following.chars() {
        parts.push(Character(letter))?;
    }
    let vector = Vector { bytes, parts };
    Ok(if row.is_misspelt() {
        None
    } else {
        Some(vector)
    })
}

/// Returns the part that a word names.
fn part_of(word: &str) -> Option<Expected> {
    match word {
        "?1" => Some(IllFormed(1)),
        "?2" => Some(IllFormed(2)),
        "?3" => Some(IllFormed(3)),
        _ => Some(Character(scalar_of_part16(word)?)),
    }
}

/// Returns the scalar value that a word such as `U+00E4` names.
pub fn scalar_of_part16(word: &str) -> Option<char> {
    char::from_u32(u32::from_str_radix(word.strip_prefix("U+")?, 16).ok()?)
}

/// Returns the repaired text: the characters, and U+FFFD for each malformed sequence.
pub fn lossy_utf8(alloc: Global, vector: &Vector) -> Result<Vec<u8>, AllocError> {
    let mut text = Vec::new(alloc);
    for part in &vector.parts {
        match part {
            Character(scalar) => {
                text.extend_from_slice(scalar.encode_utf8(&mut [0; 4]).as_bytes())?;
            }
            IllFormed(_) => text.extend_from_slice(&[0xEF, 0xBF, 0xBD])?,
        }
    }
    Ok(text)
}

/// Returns what decoding has to yield.
pub fn delivered<U: Output>(alloc: Global, vector: &Vector) -> Result<Delivered<U>, AllocError> {
    let mut text = Vec::new(alloc);
    let mut reports = Vec::new(alloc);
    for part in &vector.parts {
        match part {
            Character(scalar) => U::push(&mut text, *scalar)?,
            IllFormed(length) => reports.push((text.len(), *length))?,
        }
    }
    Ok((text, reports))
}

/// Returns the number of bytes of a part.
pub fn length_of(part: &Expected) -> usize {
    match part {
        Character(scalar) => scalar.len_utf8(),
        IllFormed(length) => *length,
    }
}
