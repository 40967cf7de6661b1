//! The decoder over the vectors, with every set of cuts and into every short destination.

use crate::assertions::assert_rows;
use crate::decoder_vectors::{ROWS, Vector, vector_of};
use encoding_streams::decoder::Decoder;
use encoding_streams::encoding::{BomHandling, CoderResult, Encoding};
use test_support::rows::{Row, Table};
use test_support::texts::are_all;

/// How many calls a piece takes at most.
const CALLS: usize = 32;

/// What calls of a decoder wrote, as code units of UTF-16, and how many malformed sequences they replaced.
#[derive(Drop)]
struct Chain {
    decoder: Decoder,
    units: [u16; 8],
    count: usize,
    replaced: usize,
}

impl Chain {
    fn push(&mut self, unit: u16) {
        if let Some(slot) = self.units.get_mut(self.count) {
            *slot = unit;
        }
        self.count = self.count.saturating_add(1);
    }

    /// Decodes to UTF-16. Returns the number of bytes read, and whether the call ended with `InputEmpty`, or `None` if
    /// more was written.
    fn call_utf16(&mut self, src: &[u8], room: usize, last: bool) -> Option<(usize, bool)> {
        let mut dst = [0x71; 8];
        let space = dst.get_mut(..room)?;
        let (result, read, written, replaced) = self.decoder.decode_to_utf16(src, space, last);
        for unit in dst.get(..written)? {
            self.push(*unit);
        }
        self.replaced = self.replaced.saturating_add(replaced);
        let unchanged = are_all(dst.get(written..)?, 0x71);
        unchanged.then_some((read, result == CoderResult::InputEmpty))
    }

    /// Decodes to UTF-8. Returns the number of bytes read, and whether the call ended with `InputEmpty`, or `None` if
    /// what is written is no text, or more was written.
    fn call_utf8(&mut self, src: &[u8], room: usize, last: bool) -> Option<(usize, bool)> {
        let mut dst = [0x71; 8];
        let space = dst.get_mut(..room)?;
        let (result, read, written, replaced) = self.decoder.decode_to_utf8(src, space, last);
        for unit in std::str::from_utf8(dst.get(..written)?)
            .ok()?
            .encode_utf16()
        {
            self.push(unit);
        }
        self.replaced = self.replaced.saturating_add(replaced);
        let unchanged = are_all(dst.get(written..)?, 0x71);
        unchanged.then_some((read, result == CoderResult::InputEmpty))
    }

    /// Passes a piece until `InputEmpty` is returned. A call that makes no progress is followed by one into four units.
    /// Returns whether all of it is read then.
    fn reads(&mut self, piece: &[u8], last: bool, room: usize, to_utf8: bool) -> bool {
        let mut unread = piece;
        let mut rejected = false;
        for _ in 0..CALLS {
            let count = self.count;
            let space = if rejected { 4 } else { room };
            let called = if to_utf8 {
                self.call_utf8(unread, space, last)
            } else {
                self.call_utf16(unread, space, last)
            };
            let Some((read, ended)) = called else {
                return false;
            };
            let Some(rest) = unread.get(read..) else {
                return false;
            };
            if ended {
                return rest.is_empty();
            }
            rejected = read == 0 && self.count == count;
            unread = rest;
        }
        false
    }
}

/// Returns a decoder of a new stream.
fn new_decoder(encoding: Encoding, bom: BomHandling) -> Decoder {
    match bom {
        BomHandling::Off => encoding.new_decoder_without_bom_handling(),
        BomHandling::Remove => encoding.new_decoder_with_bom_removal(),
        BomHandling::Sniff => encoding.new_decoder(),
    }
}

/// Returns whether the bytes of a vector, cut at each index whose bit is set, are decoded to its text, and nothing is
/// pending then.
fn decodes_to(vector: &Vector, cuts: u32, room: usize, to_utf8: bool) -> bool {
    let bytes = vector.bytes.as_slice();
    let mut chain = Chain {
        decoder: new_decoder(vector.encoding, vector.bom),
        units: [0; 8],
        count: 0,
        replaced: 0,
    };
    let mut cuts = cuts;
    let mut rest = bytes;
    for place in 1..bytes.len() {
        let start = bytes.len().saturating_sub(rest.len());
        if cuts % 2 == 1 {
            let (Some(piece), Some(following)) = (bytes.get(start..place), bytes.get(place..))
            else {
                return false;
            };
            if !chain.reads(piece, false, room, to_utf8) {
                return false;
            }
            rest = following;
        }
        cuts /= 2;
    }
    let (_, pending) = chain.decoder.pending();
    let read = chain.reads(rest, true, room, to_utf8);
    read && chain.units.get(..chain.count) == Some(vector.units.as_slice())
        && chain.replaced == vector.replaced
        && chain.decoder.encoding() == vector.decided
        && chain.decoder.bom_handling() == BomHandling::Off
        && pending <= 3
}

/// Returns the number of sets of cuts between two bytes.
fn cut_sets(length: usize) -> u32 {
    let mut sets = 1u32;
    for _ in 1..length {
        sets = sets.saturating_mul(2);
    }
    sets
}

/// Every set of cuts, and destinations of every length below `rooms`.
#[derive(Drop)]
struct EveryCut {
    rooms: usize,
    to_utf8: bool,
}

impl Table for EveryCut {
    const ROWS: &'static str = ROWS;

    const COUNT: usize = 216;

    fn holds(&mut self, row: &mut Row<'_>) -> bool {
        let Some(vector) = vector_of(row) else {
            return false;
        };
        let mut holds = true;
        for cuts in 0..cut_sets(vector.bytes.length) {
            for room in 0..self.rooms {
                holds = holds && decodes_to(&vector, cuts, room, self.to_utf8);
            }
        }
        holds
    }
}

#[test]
fn every_cut_to_utf16(rt: HostRuntime) {
    let (rooms, to_utf8) = (6, false);
    assert_rows(&rt, &mut EveryCut { rooms, to_utf8 });
}

#[test]
fn every_cut_to_utf8(rt: HostRuntime) {
    let (rooms, to_utf8) = (6, true);
    assert_rows(&rt, &mut EveryCut { rooms, to_utf8 });
}

/// A character comes out of the call that reads its last byte, also where just this character fits.
#[test]
fn holds_nothing_back(rt: HostRuntime) {
    let mut decoder = Encoding::Utf8.new_decoder_without_bom_handling();
    let mut text = [0; 1];
    let result = decoder.decode_to_utf8(b"a", &mut text, false);
    assert!(rt; result == (CoderResult::InputEmpty, 1, 1, 0));
    assert!(rt; text == *b"a");
}

/// The start of a mark, the bytes that show it to be none, and the text of both.
const STARTS: [(Encoding, &[u8], &[u8], &[u16]); 8] = [
    (Encoding::Utf8, b"\xEF", b"a", &[0xFFFD, 0x61]),
    (Encoding::Utf8, b"\xEF\xBB", b"a", &[0xFFFD, 0x61]),
    (Encoding::Utf8, b"\xFE", b"a", &[0xFFFD, 0x61]),
    (Encoding::Utf8, b"\xFF", b"a", &[0xFFFD, 0x61]),
    (Encoding::Utf16Le, b"\xEF", b"a", &[0x61EF]),
    (Encoding::Utf16Le, b"\xEF\xBB", b"a\0", &[0xBBEF, 0x61]),
    (Encoding::Utf16Be, b"\xFE", b"a", &[0xFE61]),
    (Encoding::Utf16Be, b"\xEF\xBB", b"\0a", &[0xEFBB, 0x61]),
];

/// A call with no space leaves the decoder as it was, and looks for the mark again.
#[test]
fn a_full_destination_changes_nothing(rt: HostRuntime) {
    for (encoding, start, src, text) in &STARTS {
        let mut decoder = encoding.new_decoder();
        let mut units = [0; 2];
        let result = decoder.decode_to_utf16(start, &mut units, false);
        assert!(rt; result == (CoderResult::InputEmpty, start.len(), 0, 0));
        let result = decoder.decode_to_utf16(src, &mut [], false);
        assert!(rt; result == (CoderResult::OutputFull, 0, 0, 0));
        let (pending, count) = decoder.pending();
        assert!(rt; pending.get(..count) == Some(*start));
        assert!(rt; decoder.bom_handling() == BomHandling::Sniff);
        let (result, _, written, _) = decoder.decode_to_utf16(src, &mut units, true);
        assert!(rt; result == CoderResult::InputEmpty);
        assert!(rt; units.get(..written) == Some(*text));
        assert!(rt; decoder.encoding() == *encoding);
    }
}

/// With nothing to read a call ends, also if a character is pending and nothing fits.
#[test]
fn ends_with_nothing_to_read(rt: HostRuntime) {
    let mut decoder = Encoding::Utf8.new_decoder_without_bom_handling();
    let mut text = [0; 4];
    let result = decoder.decode_to_utf8(b"\xE2\x98", &mut text, false);
    assert!(rt; result == (CoderResult::InputEmpty, 2, 0, 0));
    let result = decoder.decode_to_utf8(b"", &mut [], false);
    assert!(rt; result == (CoderResult::InputEmpty, 0, 0, 0));
    let result = decoder.decode_to_utf8(b"\x83", &mut text, true);
    assert!(rt; result == (CoderResult::InputEmpty, 1, 3, 0));
    assert!(rt; text == *b"\xE2\x98\x83\0");
}
