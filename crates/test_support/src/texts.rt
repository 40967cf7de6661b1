//! What a decoder writes, bytes or code units, as one kind.

ghost use Rattle.std.specs.Prelude.{◌↔◌, IsTrue};
ghost use Rattle.std.specs.Str.{IsUtf8};

use encoding_text::decoder::{DecoderResult, Utf8Decoder};
use std::alloc::{AllocError, Global};

/// A byte or a code unit.
pub trait Unit: Copy + PartialEq {
    /// Fills a destination. No row writes it.
    const UNWRITTEN: Self;
}

impl Unit for u8 {
    const UNWRITTEN: u8 = 0x71;
}

impl Unit for u16 {
    const UNWRITTEN: u16 = 0x71;
}

/// Returns whether these bytes or code units start a destination that was filled with `71`, which is unchanged after
/// the first `written`.
pub fn are_written<U: Unit>(text: &[U], dst: &[U], written: usize) -> bool {
    dst.get(..written) == Some(text)
        && are_all(dst.get(written..).unwrap_or_default(), U::UNWRITTEN)
}

/// Returns whether all are this byte or code unit.
pub fn are_all<U: Unit>(units: &[U], wanted: U) -> bool {
    for unit in units {
        if *unit != wanted {
            return false;
        }
    }
    true
}

/// Returns whether bytes are well-formed, by `std`.
pub fn is_text(bytes: &[u8]) -> bool
    ensures { IsTrue result ↔ IsUtf8 bytes.now }
{
    std::str::from_utf8(bytes).is_ok()
}

/// A byte or a code unit, with the decoder's call that writes it.
pub trait Output: Unit {
    /// Makes a decoder's call.
    fn decode(
        decoder: &mut Utf8Decoder,
        src: &[u8],
        dst: &mut [Self],
        last: bool,
    ) -> (DecoderResult, usize, usize);

    /// Appends a character.
    fn push(text: &mut Vec<Self>, scalar: char) -> Result<(), AllocError>;
}

impl Output for u8 {
    fn decode(
        decoder: &mut Utf8Decoder,
        src: &[u8],
        dst: &mut [u8],
        last: bool,
    ) -> (DecoderResult, usize, usize) {
        decoder.decode_to_utf8_raw(src, dst, last)
    }

    fn push(text: &mut Vec<u8>, scalar: char) -> Result<(), AllocError> {
        text.extend_from_slice(scalar.encode_utf8(&mut [0; 4]).as_bytes())
    }
}

impl Output for u16 {
    fn decode(
        decoder: &mut Utf8Decoder,
        src: &[u8],
        dst: &mut [u16],
        last: bool,
    ) -> (DecoderResult, usize, usize) {
        decoder.decode_to_utf16_raw(src, dst, last)
    }

    fn push(text: &mut Vec<u16>, scalar: char) -> Result<(), AllocError> {
        text.extend_from_slice(scalar.encode_utf16(&mut [0; 2]))
    }
}

/// Returns a destination of `length` units that nothing was written into.
pub fn unwritten<U: Unit>(alloc: Global, length: usize) -> Result<Vec<U>, AllocError> {
    let mut dst = Vec::new(alloc);
    for _ in 0..length {
        dst.push(U::UNWRITTEN)?;
    }
    Ok(dst)
}
