//! The UTF-16 decoder over the vectors, with every set of cuts and into every short destination; and its queries.

use crate::assertions::assert_rows;
use crate::utf16_vectors::{ROWS, parts_of};
use encoding_streams::utf16_decoder::Utf16Decoder;
use encoding_text::decoder::DecoderResult;
use encoding_text::utf_16::ByteOrder;
use std::process::Abort;
use test_support::rows::{Row, Table};
use test_support::texts::are_all;

/// How many calls a piece takes at most.
const CALLS: usize = 32;

/// What calls of a decoder yielded: scalar values, and `0x200000` plus the length of a malformed sequence.
#[derive(Drop)]
struct Chain {
    decoder: Utf16Decoder,
    parts: [u32; 8],
    count: usize,
}

impl Chain {
    fn push(&mut self, part: u32) {
        if let Some(slot) = self.parts.get_mut(self.count) {
            *slot = part;
        }
        self.count = self.count.saturating_add(1);
    }

    /// Records a result. Returns whether it is `InputEmpty`.
    fn ends(&mut self, outcome: &DecoderResult) -> bool {
        if let DecoderResult::Malformed(length, _) = outcome {
            self.push(0x20_0000u32.saturating_add(u32::from(*length)));
        }
        *outcome == DecoderResult::InputEmpty
    }

    /// Decodes to UTF-16. Returns the number of bytes read, and whether the call ended with `InputEmpty`, or `None` if
    /// what is written is no text, or more was written.
    fn call_utf16(&mut self, src: &[u8], room: usize, last: bool) -> Option<(usize, bool)> {
        let mut dst = [0x71; 8];
        let space = dst.get_mut(..room)?;
        let (result, read, written) = self.decoder.decode_to_utf16_raw(src, space, last);
        for unit in char::decode_utf16(dst.get(..written)?.iter().copied()) {
            self.push(u32::from(unit.ok()?));
        }
        let unchanged = are_all(dst.get(written..)?, 0x71);
        unchanged.then_some((read, self.ends(&result)))
    }

    /// Decodes to UTF-8. Returns the number of bytes read, and whether the call ended with `InputEmpty`, or `None` if
    /// what is written is no text, or more was written.
    fn call_utf8(&mut self, src: &[u8], room: usize, last: bool) -> Option<(usize, bool)> {
        let mut dst = [0x71; 8];
        let space = dst.get_mut(..room)?;
        let (result, read, written) = self.decoder.decode_to_utf8_raw(src, space, last);
        for character in std::str::from_utf8(dst.get(..written)?).ok()?.chars() {
            self.push(u32::from(character));
        }
        let unchanged = are_all(dst.get(written..)?, 0x71);
        unchanged.then_some((read, self.ends(&result)))
    }

    /// Passes a piece until `InputEmpty` is returned. A call that makes no progress is followed by one into four units.
    /// Returns whether all of it is read then.
    fn reads(&mut self, piece: &[u8], last: bool, room: usize, to_utf8: bool) -> bool {
        let mut unread = piece;
        let mut rejected = false;
        for _ in 0..CALLS {
            let count = self.count;
            let space = if rejected { 4 } else { room };
            let called = if to_utf8 {
                self.call_utf8(unread, space, last)
            } else {
                self.call_utf16(unread, space, last)
            };
            let Some((read, ended)) = called else {
                return false;
            };
            let Some(rest) = unread.get(read..) else {
                return false;
            };
            if ended {
                return rest.is_empty();
            }
            rejected = read == 0 && self.count == count;
            unread = rest;
        }
        false
    }
}

/// Returns whether the bytes, cut at each index whose bit is set, are decoded to these parts, and nothing is pending
/// then.
fn decodes_to(
    order: ByteOrder,
    bytes: &[u8],
    cuts: u32,
    room: usize,
    to_utf8: bool,
    parts: &[u32],
) -> bool {
    let mut chain = Chain {
        decoder: Utf16Decoder::new(order),
        parts: [0; 8],
        count: 0,
    };
    let mut cuts = cuts;
    let mut rest = bytes;
    for place in 1..bytes.len() {
        let start = bytes.len().saturating_sub(rest.len());
        if cuts % 2 == 1 {
            let (Some(piece), Some(following)) = (bytes.get(start..place), bytes.get(place..))
            else {
                return false;
            };
            if !chain.reads(piece, false, room, to_utf8) {
                return false;
            }
            rest = following;
        }
        cuts /= 2;
    }
    chain.reads(rest, true, room, to_utf8)
        && chain.parts.get(..chain.count) == Some(parts)
        && chain.decoder.in_neutral_state()
}

/// Returns the number of sets of cuts between two bytes.
fn cut_sets(bytes: &[u8]) -> u32 {
    let mut sets = 1u32;
    for _ in 1..bytes.len() {
        sets = sets.saturating_mul(2);
    }
    sets
}

/// Every set of cuts, and destinations of every length below `rooms`.
#[derive(Drop)]
struct EveryCut {
    order: ByteOrder,
    rooms: usize,
    to_utf8: bool,
}

impl Table for EveryCut {
    const ROWS: &'static str = ROWS;

    const COUNT: usize = 168;

    fn holds(&mut self, row: &mut Row<'_>) -> bool {
        let (little, big) = (row.bytes(), row.bytes());
        let bytes = match self.order {
            ByteOrder::LittleEndian => little.as_slice(),
            ByteOrder::BigEndian => big.as_slice(),
        };
        let Some(all) = parts_of(row) else {
            return false;
        };
        let parts = all.parts.get(..all.count).unwrap_or_default();
        let mut holds = true;
        for cuts in 0..cut_sets(bytes) {
            for room in 0..self.rooms {
                holds = holds && decodes_to(self.order, bytes, cuts, room, self.to_utf8, parts);
            }
        }
        holds
    }
}

/// Asserts that they are decoded to their parts in this byte order.
fn assert_every_cut(rt: &impl Abort, order: ByteOrder, rooms: usize, to_utf8: bool) {
    assert_rows(
        rt,
        &mut EveryCut {
            order,
            rooms,
            to_utf8,
        },
    );
}

#[test]
fn every_cut_of_utf16le_to_utf16(rt: HostRuntime) {
    assert_every_cut(&rt, ByteOrder::LittleEndian, 3, false);
}

#[test]
fn every_cut_of_utf16be_to_utf16(rt: HostRuntime) {
    assert_every_cut(&rt, ByteOrder::BigEndian, 3, false);
}

#[test]
fn every_cut_of_utf16le_to_utf8(rt: HostRuntime) {
    assert_every_cut(&rt, ByteOrder::LittleEndian, 5, true);
}

#[test]
fn every_cut_of_utf16be_to_utf8(rt: HostRuntime) {
    assert_every_cut(&rt, ByteOrder::BigEndian, 5, true);
}

/// Returns whether a high surrogate and an odd byte that stay pending are reported where the next byte shows it: two
/// bytes, and one read after them.
fn tells_what_follows() -> bool {
    let mut decoder = Utf16Decoder::new(ByteOrder::LittleEndian);
    let mut dst = [0x71; 4];
    decoder.decode_to_utf16_raw(&[0x3D, 0xD8, 0x61], &mut dst, false)
        == (DecoderResult::InputEmpty, 3, 0)
        && !decoder.in_neutral_state()
        && decoder.decode_to_utf16_raw(&[0x00], &mut dst, true)
            == (DecoderResult::Malformed(2, 1), 0, 0)
        && !decoder.in_neutral_state()
        && decoder.decode_to_utf16_raw(&[0x00], &mut dst, true) == (DecoderResult::InputEmpty, 1, 1)
        && decoder.in_neutral_state()
        && dst == [0x61, 0x71, 0x71, 0x71]
}

/// Returns whether all that is pending at the end is one malformed sequence, into any destination.
fn ends_once() -> bool {
    let mut decoder = Utf16Decoder::new(ByteOrder::BigEndian);
    decoder.decode_to_utf8_raw(&[0xD8, 0x3D, 0xDC], &mut [], false)
        == (DecoderResult::InputEmpty, 3, 0)
        && decoder.decode_to_utf8_raw(&[], &mut [], true) == (DecoderResult::Malformed(3, 0), 0, 0)
        && decoder.in_neutral_state()
        && decoder.decode_to_utf8_raw(&[], &mut [], true) == (DecoderResult::InputEmpty, 0, 0)
}

/// Returns whether the queries answer as those of the crate `encoding_rs` do, with nothing and with three bytes
/// pending.
fn queries_count_pending_bytes() -> bool {
    let mut decoder = Utf16Decoder::new(ByteOrder::LittleEndian);
    decoder.max_utf16_buffer_length(10) == Some(6)
        && decoder.max_utf8_buffer_length(10) == Some(16)
        && decoder.max_utf8_buffer_length_without_replacement(10) == Some(16)
        && decoder.max_utf16_buffer_length(usize::MAX) == None
        && decoder.max_utf8_buffer_length(usize::MAX - 1) == None
        && decoder.decode_to_utf16_raw(&[0x3D, 0xD8, 0x61], &mut [], false)
            == (DecoderResult::InputEmpty, 3, 0)
        && decoder.max_utf16_buffer_length(10) == Some(8)
        && decoder.max_utf8_buffer_length(10) == Some(22)
}

#[test]
fn rows_hold(rt: HostRuntime) {
    assert!(rt; tells_what_follows());
    assert!(rt; ends_once());
    assert!(rt; queries_count_pending_bytes());
}

/// Returns the code unit at an index of a long text, whose lines have one pair and one unpaired surrogate.
fn unit_at(place: usize) -> u16 {
    match place % 100 {
        17 => 0xD83D,
        18 => 0xDC69,
        63 => 0xDC00,
        99 => 0x000A,
        _ => 0x20AC,
    }
}

/// Decodes a text of 100,000 code units in pieces of 4,099 bytes into 1,000 code units a call. Returns how many were
/// written and how many malformed sequences were reported, or `None` at another code unit.
fn decodes_long() -> Option<(usize, usize)> {
    let mut decoder = Utf16Decoder::new(ByteOrder::LittleEndian);
    let mut came = 0usize;
    let mut reports = 0usize;
    let mut next = 0usize;
    for _ in 0..10_000 {
        let mut piece = [0; 4_099];
        for offset in 0..4_099 {
            let place = next.saturating_add(offset);
            let [low, high] = unit_at(place / 2).to_le_bytes();
            piece[offset] = if place % 2 == 0 { low } else { high };
        }
        let length = 200_000usize.saturating_sub(next).min(4_099);
        let mut dst = [0; 1_000];
        let last = next.saturating_add(length) == 200_000;
        let (result, read, written) = decoder.decode_to_utf16_raw(
            piece.get(..length)?,
            &mut dst,
            last,
        );
        for unit in dst.get(..written)? {
            if unit_at(came) == 0xDC00 || *unit != unit_at(came) {
                return None;
            }
            came = came.saturating_add(1);
        }
        next = next.saturating_add(read);
        if let DecoderResult::Malformed(2, _) = result {
            if unit_at(came) != 0xDC00 {
                return None;
            }
            came = came.saturating_add(1);
            reports = reports.saturating_add(1);
        }
        if last && result == DecoderResult::InputEmpty {
            return Some((came, reports));
        }
    }
    None
}

#[test]
fn decodes_a_long_text(rt: HostRuntime) {
    assert!(rt; decodes_long() == Some((100_000, 1_000)));
}
