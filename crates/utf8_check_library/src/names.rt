//! Names of files, which need not be UTF-8: the arguments, and how a name is written.
ghost use Rattle.std.specs.Prelude.{◌≤◌};

use encoding_text::decoder::{Piece, Utf8Decoder};
use std::alloc::{AllocError, Global};
use std::env::{Env, FillError};

/// The name of standard input in lines and messages.
pub const STANDARD_INPUT: &[u8] = b"(standard input)";

/// Returns the argument of this number, `None` if there are fewer.
fn argument(rt: &HostRuntime, number: usize) -> Result<Option<Vec<u8>>, AllocError> {
    let mut size: usize = 256;
    for _ in 0..usize::BITS {
        let mut bytes = vec![in rt.alloc(); 0u8; size]?;
        match rt.arg(number, bytes.as_mut_slice()) {
            Ok(length) => {
                bytes.truncate(length);
                return Ok(Some(bytes));
            }
            Err(FillError::NotPresent) => return Ok(None),
            Err(FillError::TooLong) => size = size.saturating_mul(2),
        }
    }
    Err(AllocError)
}

/// Returns the arguments after the program's name.
pub fn arguments(rt: &HostRuntime) -> Result<Vec<Vec<u8>>, AllocError> {
    let mut words = Vec::new(rt.alloc());
    for number in 1..usize::MAX {
        match argument(rt, number)? {
            Some(word) => words.push(word)?,
            None => break,
        }
    }
    Ok(words)
}

/// Returns the digit of a number below 16.
fn digit(n: u8) -> char {
    char::from_digit(u32::from(n), 16)
        .unwrap_or('0')
        .to_ascii_uppercase()
}

/// Returns a name as it is written: a line feed as `\n`, and each byte of a malformed sequence as `\xE9`.
pub fn shown(alloc: Global, name: &[u8]) -> Result<String, AllocError> {
    let mut text = String::new(alloc);
    let mut decoder = Utf8Decoder::new_inner();
    let mut rest = name;
    for _ in 0..usize::MAX {
        let (piece, read) = decoder.decode_borrowed_raw(rest, true);
        let (bytes, later) = rest.split_at(read.min(rest.len()));
        rest = later;
        match piece {
            Piece::Text(part) => push_line(&mut text, part)?,
            Piece::Char(character) => text.push(character)?,
            Piece::Malformed(_) => push_bytes(&mut text, bytes)?,
            Piece::InputEmpty => break,
        }
    }
    Ok(text)
}

/// Appends a text, and for a line feed `\n`.
fn push_line(text: &mut String, part: &str) -> Result<(), AllocError> {
    for character in part.chars() {
        if character == '\n' {
            text.push_str("\\n")?;
        } else {
            text.push(character)?;
        }
    }
    Ok(())
}

/// Appends each byte in two digits.
fn push_bytes(text: &mut String, bytes: &[u8]) -> Result<(), AllocError> {
    for byte in bytes {
        text.push_str("\\x")?;
        text.push(digit(*byte / 16))?;
        text.push(digit(*byte % 16))?;
    }
    Ok(())
}
