//! Whole bytes with U+FFFD for each malformed sequence, into a destination of any length. Only U+FFFD has to fit,
//! though the decoder reports a malformed sequence only into space for any character.
ghost use Rattle.std.specs.Prelude.{◌≡◌, ℕ, List, ◌≤◌, true, [], length, take, drop, IfSome, IfNone};
ghost use Rattle.encoding_definitions.specs.Parts.{BeginsWithNoCharacter};
ghost use Rattle.encoding_definitions.specs.Prefixes.{WritesPrefix};
ghost use Rattle.encoding_text.specs.Decoding.{IsMalformed};
ghost use Rattle.encoding_text.specs.Replacing.{ConvertsParts};

use super::pending::Pending;
use super::{DecoderResult, decode};
use crate::utf_8::FromUtf8;
use crate::utf_8::first::First;
use encoding_kernels::scalar::{REPLACEMENT_CHARACTER, REPLACEMENT_UNIT, write_scalar};
use encoding_kernels::simd::width::ASCII_END;

/// Code units that text with U+FFFD for each malformed sequence is written in.
pub(crate) trait Replacing: FromUtf8 {
    fn replacement_length() -> usize
        ensures length { result ≡ length (Self.encode REPLACEMENT_CHARACTER) }
        ensures at_most { result ≤ Self.MAX_UNITS };

    fn write_replacement(dst: &mut [Self]) -> usize
        requires dst_length { length (Self.encode REPLACEMENT_CHARACTER) ≤ length dst.old }
        ensures { WritesPrefix dst.old dst.new result (Self.encode REPLACEMENT_CHARACTER) };
}

impl Replacing for u16 {
    #[inline]
    fn replacement_length() -> usize {
        1
    }

    #[inline]
    fn write_replacement(dst: &mut [u16]) -> usize {
        dst[0] = REPLACEMENT_UNIT;
        1
    }
}

impl Replacing for u8 {
    #[inline]
    fn replacement_length() -> usize {
        3
    }

    #[inline]
    fn write_replacement(dst: &mut [u8]) -> usize {
        write_scalar(REPLACEMENT_CHARACTER, dst)
    }
}

#[tactic(auto, using(crate::proofs::ReplacingLemmas::malformed_at_end))]
#[inline(always)]
pub(crate) fn malformed_length(bytes: &[u8]) -> Option<usize>
    ensures if_some { IfSome result (λ n. (n ≤ length bytes.now)
        × IsMalformed (take n bytes.now) (drop n bytes.now) true) }
    ensures if_none { IfNone result (BeginsWithNoCharacter bytes.now → bytes.now ≡ []) }
{
    if bytes.is_empty() {
        return None;
    }
    if bytes[0] < ASCII_END {
        return None;
    }
    let first = match First::of_two(bytes) {
        Some(first) => first,
        None => First::by_bytes(bytes),
    };
    match first {
        First::Malformed(length) => Some(length),
        First::Incomplete => Some(bytes.len()),
        First::Ascii => None,
        First::Character(_) => None,
    }
}

#[inline(always)]
pub(crate) fn convert_parts<U: Replacing>(src: &[u8], dst: &mut [U]) -> (usize, usize, usize)
    ensures { ConvertsParts U.encode src.now dst.old dst.new result.0 result.1 result.2 }
{
    let replacement = U::replacement_length();
    let mut pending = Pending::none();
    let mut read = 0;
    let mut written = 0;
    let mut replaced = 0;
    loop {
        let (result, bytes, units) = decode::<U>(
            &mut pending,
            &src[read..],
            &mut dst[written..],
            true,
        );
        read += bytes;
        written += units;
        match result {
            DecoderResult::InputEmpty => return (read, written, replaced),
            DecoderResult::Malformed(..) => {
                written += U::write_replacement(&mut dst[written..]);
                replaced += 1;
            }
            DecoderResult::OutputFull => {
                let Some(length) = malformed_length(&src[read..]) else {
                    return (read, written, replaced);
                };
                if dst.len() - written < replacement {
                    return (read, written, replaced);
                }
                read += length;
                written += U::write_replacement(&mut dst[written..]);
                replaced += 1;
            }
        }
    }
}
