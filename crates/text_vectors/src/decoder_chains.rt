//! Decode calls in a chain. The decoder's vectors go through calls of each form, and of all forms in turn: with every
//! set of cuts, into every short destination, and whole, marked last.

use crate::assertions::assert_vectors;
use Form::{Borrowed, Utf8, Utf16};
use encoding_text::decoder::{DecoderResult, Piece, Utf8Decoder};
use std::alloc::{AllocError, Global};
use test_support::decoder_vectors::{Delivered, Vector, VectorTest, delivered, failing_vector};
use test_support::parts::{Parts, malformed};
use test_support::texts::{Output, are_all, unwritten};

/// The form of a decode call.
#[derive(Clone, Copy)]
pub enum Form {
    Utf16,
    Utf8,
    Borrowed,
}

/// How bytes are passed.
#[derive(Clone, Copy)]
pub struct Way {
    /// A bit for each index that is cut at, the lowest for the one before the first byte.
    pub cuts: u32,
    /// The length of a call's destination. A call that makes no progress is followed by one into a destination that any
    /// character fits.
    pub room: usize,
    /// The forms of the calls, in turn.
    pub forms: [Form; 3],
}

/// How many calls a piece takes at most.
const CALLS: usize = 32;

/// Calls of a decoder, and what they yielded.
#[derive(Drop)]
struct Chain {
    decoder: Utf8Decoder,
    delivered: Parts,
    calls: usize,
}

impl Chain {
    /// Records a result, and returns whether it is `InputEmpty`.
    fn ends(&mut self, outcome: &DecoderResult) -> bool {
        if let DecoderResult::Malformed(length, following) = outcome {
            let length = usize::from(*length).saturating_add(usize::from(*following));
            self.delivered.push(malformed(length));
        }
        *outcome == DecoderResult::InputEmpty
    }

    /// Records the characters of a text.
    fn note(&mut self, text: &str) {
        for character in text.chars() {
            self.delivered.push(u32::from(character));
        }
    }

    /// Decodes to UTF-16. Returns the number of bytes read, and whether the call ended with `InputEmpty`, or `None` if
    /// what is written is no text, or more was written.
    fn call_utf16(&mut self, src: &[u8], room: usize, last: bool) -> Option<(usize, bool)> {
        let mut dst = [0x71; 8];
        let space = dst.get_mut(..room)?;
        let (result, read, written) = self.decoder.decode_to_utf16_raw(src, space, last);
        for unit in char::decode_utf16(dst.get(..written)?.iter().copied()) {
            self.delivered.push(u32::from(unit.ok()?));
        }
        let unchanged = are_all(dst.get(written..)?, 0x71);
        unchanged.then_some((read, self.ends(&result)))
    }

    /// Decodes to UTF-8. Returns the number of bytes read, and whether the call ended with `InputEmpty`, or `None` if
    /// what is written is no text, or more was written.
    fn call_utf8(&mut self, src: &[u8], room: usize, last: bool) -> Option<(usize, bool)> {
        let mut dst = [0x71; 8];
        let space = dst.get_mut(..room)?;
        let (result, read, written) = self.decoder.decode_to_utf8_raw(src, space, last);
        self.note(std::str::from_utf8(dst.get(..written)?).ok()?);
        let unchanged = are_all(dst.get(written..)?, 0x71);
        unchanged.then_some((read, self.ends(&result)))
    }

    /// Decodes without a destination. A text is what was read. Returns the number of bytes read, and whether the call
    /// ended with `InputEmpty`, or `None` if the piece is no text.
    fn call_borrowed(&mut self, src: &[u8], last: bool) -> Option<(usize, bool)> {
        let (piece, read) = self.decoder.decode_borrowed_raw(src, last);
        let mut ended = false;
        match piece {
            Piece::Text(text) if src.get(..read) == Some(text.as_bytes()) => self.note(text),
            Piece::Text(_) => return None,
            Piece::Char(character) => self.delivered.push(u32::from(character)),
            Piece::Malformed(length) => self.delivered.push(malformed(usize::from(length))),
            Piece::InputEmpty => ended = true,
        }
        Some((read, ended))
    }

    /// Makes the next call, of the form whose turn it is, into a destination of the way's length, or one that is long
    /// enough.
    fn call(&mut self, src: &[u8], last: bool, way: &Way, enough: bool) -> Option<(usize, bool)> {
        let form = way.forms[self.calls % 3];
        self.calls = self.calls.saturating_add(1);
        match form {
            Form::Utf16 => self.call_utf16(src, if enough { 2 } else { way.room }, last),
            Form::Utf8 => self.call_utf8(src, if enough { 4 } else { way.room }, last),
            Form::Borrowed => self.call_borrowed(src, last),
        }
    }

    /// Passes a piece until `InputEmpty` is returned. Returns whether all of it is read then.
    fn reads(&mut self, piece: &[u8], last: bool, way: &Way) -> bool {
        let mut unread = piece;
        let mut rejected = false;
        for _ in 0..CALLS {
            let count = self.delivered.count;
            let Some((read, ended)) = self.call(unread, last, way, rejected) else {
                return false;
            };
            let Some(rest) = unread.get(read..) else {
                return false;
            };
            if ended {
                return rest.is_empty();
            }
            rejected = read == 0 && self.delivered.count == count;
            unread = rest;
        }
        false
    }
}

/// Returns whether the bytes, passed this way, are decoded to these parts, and nothing is pending then.
pub fn decodes_to(bytes: &[u8], way: &Way, parts: &Parts) -> bool {
    let mut chain = Chain {
        decoder: Utf8Decoder::new_inner(),
        delivered: Parts::none(),
        calls: 0,
    };
    let mut cuts = way.cuts;
    let mut rest = bytes;
    for place in 0..bytes.len().saturating_add(1) {
        let start = bytes.len().saturating_sub(rest.len());
        if cuts % 2 == 1 {
            let (Some(piece), Some(following)) = (bytes.get(start..place), bytes.get(place..))
            else {
                return false;
            };
            if !chain.reads(piece, false, way) {
                return false;
            }
            rest = following;
        }
        cuts /= 2;
    }
    chain.reads(rest, true, way) && chain.delivered == *parts && chain.decoder.in_neutral_state()
}

/// Calls of one form, and of all forms in turn, in each order.
const FORMS: [[Form; 3]; 9] = [
    [Utf16, Utf16, Utf16],
    [Utf8, Utf8, Utf8],
    [Borrowed, Borrowed, Borrowed],
    [Utf16, Utf8, Borrowed],
    [Utf16, Borrowed, Utf8],
    [Utf8, Utf16, Borrowed],
    [Utf8, Borrowed, Utf16],
    [Borrowed, Utf16, Utf8],
    [Borrowed, Utf8, Utf16],
];

/// Returns the number of sets of cuts: before the first byte, between two, and after the last.
fn cut_sets(vector: &Vector) -> u32 {
    let mut sets = 2u32;
    for _ in &vector.bytes {
        sets = sets.saturating_mul(2);
    }
    sets
}

/// All sets of cuts, so also each cut in two, each in three, and one byte per piece, into destinations of each length,
/// in all forms of the calls. If a vector fails, its cuts and the length of the destination are here.
#[derive(Drop)]
struct CutEverywhere {
    cuts: u32,
    room: usize,
}

impl VectorTest for CutEverywhere {
    fn holds(&mut self, _alloc: Global, vector: &Vector) -> Result<bool, AllocError> {
        let parts = Parts::of_vector(vector);
        for cuts in 0..cut_sets(vector) {
            for room in 0..6 {
                for forms in FORMS {
                    let way = Way { cuts, room, forms };
                    if !decodes_to(&vector.bytes, &way, &parts) {
                        self.cuts = cuts;
                        self.room = room;
                        return Ok(false);
                    }
                }
            }
        }
        Ok(true)
    }
}

#[test]
fn every_cut_and_room(rt: HostRuntime) -> Result<(), AllocError> {
    let mut test = CutEverywhere { cuts: 0, room: 0 };
    let failing = failing_vector(rt.alloc(), &mut test)?;
    let row = failing.unwrap_or_default();
    assert!(rt; failing.is_none(), "{row}, {}, {}", test.cuts, test.room);
    Ok(())
}

/// Returns whether the next report has this length, after as many code units as came.
fn report_is(wanted: &[(usize, usize)], came: (usize, usize), length: u8) -> bool {
    wanted.get(came.1) == Some(&(came.0, usize::from(length)))
}

/// Decodes, and passes the unread bytes again after each report. Returns whether all is read, and that yields what is
/// expected.
fn decodes<U: Output>(
    alloc: Global,
    src: &[u8],
    wanted: &Delivered<U>,
) -> Result<bool, AllocError> {
    let mut decoder = Utf8Decoder::new_inner();
    let mut unread = src;
    let mut came = (0, 0);
    for _ in 0..8 {
        let mut dst = unwritten(alloc, 16)?;
        let (result, read, written) = U::decode(&mut decoder, unread, &mut dst, true);
        let end = written.saturating_add(came.0);
        let (Some(rest), Some(prefix)) = (unread.get(read..), dst.get(..written)) else {
            return Ok(false);
        };
        if wanted.0.get(came.0..end) != Some(prefix) {
            return Ok(false);
        }
        unread = rest;
        came.0 = end;
        match result {
            DecoderResult::Malformed(length, 0) if report_is(&wanted.1, came, length) => {
                came.1 = came.1.saturating_add(1);
            }
            DecoderResult::InputEmpty => {
                return Ok(
                    unread.is_empty()
                        && decoder.in_neutral_state()
                        && came == (wanted.0.len(), wanted.1.len()),
                );
            }
            _ => return Ok(false),
        }
    }
    Ok(false)
}

/// Decoding to UTF-16 and to UTF-8 yields what a vector expects.
#[derive(Drop)]
struct Whole;

impl VectorTest for Whole {
    fn holds(&mut self, alloc: Global, vector: &Vector) -> Result<bool, AllocError> {
        let units = delivered::<u16>(alloc, vector)?;
        let bytes = delivered::<u8>(alloc, vector)?;
        Ok(decodes(alloc, &vector.bytes, &units)? && decodes(alloc, &vector.bytes, &bytes)?)
    }
}

#[test]
fn delivers_the_parts(rt: HostRuntime) -> Result<(), AllocError> {
    assert_vectors(&rt, rt.alloc(), &mut Whole)
}
