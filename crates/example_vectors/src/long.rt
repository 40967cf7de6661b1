//! Each example on more than 1 MiB, which is longer than every buffer: copies of one row, whose result is as many
//! copies of the row's.

use crate::cuts::are_repaired;
use crate::engine::are_converted;
use cuts_example::malformed_indices;
use decoder_example::decode_stream;
use encoding_runs::reader::{Utf8Reader, Utf16Reader};
use encoding_streams::encoding::{CoderResult, Encoding};
use engine_example::block_of_text;
use engine_example::turns::utf8_by_turns;
use engine_example::units::{has_right_to_left, is_repaired, is_text, utf8_of_units};
use legacy_example::{windows_1252_to_utf8, windows_1252_to_utf16};
use reader_example::{is_well_formed, read_text};
use std::alloc::{AllocError, Global};
use std::io::Read;
use std::test::Fail;

/// How many copies of thirteen bytes are longer than 1 MiB by seventeen.
const COPIES: usize = 80_661;

/// A letter, U+2603, a letter, three bytes of an incomplete sequence, a letter, and U+1F4A9.
const BYTES: [u8; 13] = [
    0x61, 0xE2, 0x98, 0x83, 0x62, 0xF0, 0x9F, 0x92, 0x63, 0xF0, 0x9F, 0x92, 0xA9,
];

/// Their text by the Encoding Standard's UTF-8 decoder.
const TEXT: &str = "a\u{2603}b\u{FFFD}c\u{1F4A9}";

/// The UTF-16 of that.
const UNITS: [u16; 7] = [0x61, 0x2603, 0x62, 0xFFFD, 0x63, 0xD83D, 0xDCA9];

/// These code units with an unpaired surrogate in place of each U+FFFD.
const UNPAIRED: [u16; 7] = [0x61, 0x2603, 0x62, 0xD83D, 0x63, 0xD83D, 0xDCA9];

/// Returns the copies of some bytes.
fn bytes_of(alloc: Global, row: &[u8]) -> Result<Vec<u8>, AllocError> {
    let mut bytes = Vec::new(alloc);
    for _ in 0..COPIES {
        bytes.extend_from_slice(row)?;
    }
    Ok(bytes)
}

/// Returns the copies of some code units.
fn units_of(alloc: Global, row: &[u16]) -> Result<Vec<u16>, AllocError> {
    let mut units = Vec::new(alloc);
    for _ in 0..COPIES {
        units.extend_from_slice(row)?;
    }
    Ok(units)
}

#[test]
fn repairs_in_pieces(rt: HostRuntime) -> Result<(), Fail> {
    let bytes = bytes_of(rt.alloc(), &BYTES)?;
    let text = bytes_of(rt.alloc(), TEXT.as_bytes())?;
    assert!(rt;
        are_repaired(rt.alloc(), &bytes, &text, COPIES, 1_000)?,
        "in pieces of 1,000"
    );
    assert!(rt;
        are_repaired(rt.alloc(), &bytes, &text, COPIES, 2_000_000)?,
        "in one piece"
    );
    let found = malformed_indices(rt.alloc(), &bytes)?;
    assert!(rt; found.len() == COPIES, "as many malformed sequences");
    let mut place: usize = 5;
    let mut same = true;
    for sequence in &found {
        same = same && *sequence == (place, 3);
        place = place.saturating_add(13);
    }
    assert!(rt; same, "one in each copy");
    Ok(())
}

#[test]
fn decodes_a_stream(rt: HostRuntime) -> Result<(), Fail> {
    let bytes = bytes_of(rt.alloc(), &BYTES)?;
    let text = bytes_of(rt.alloc(), TEXT.as_bytes())?;
    let stream = decode_stream(rt.alloc(), Encoding::Utf8, &bytes, 1_000)?;
    assert!(rt;
        stream.text == text && stream.replaced == COPIES,
        "in pieces of 1,000"
    );
    let stream = decode_stream(rt.alloc(), Encoding::Utf8, &bytes, 2_000_000)?;
    assert!(rt;
        stream.text == text && stream.replaced == COPIES,
        "in one piece"
    );
    let mut decoder = Encoding::Utf8.new_decoder();
    let mut room = Vec::new(rt.alloc());
    let length = decoder.max_utf16_buffer_length(bytes.len());
    room.resize(length.unwrap_or(0), 0u16)?;
    let (ends, read, written, replaced) = decoder.decode_to_utf16(&bytes, &mut room, true);
    assert!(rt;
        ends == CoderResult::InputEmpty && read == bytes.len() && replaced == COPIES,
        "all of it to UTF-16"
    );
    room.truncate(written);
    let units = units_of(rt.alloc(), &UNITS)?;
    assert!(rt; room == units, "to UTF-16");
    Ok(())
}

#[test]
fn reads_a_text(rt: HostRuntime) -> Result<(), Fail> {
    let bytes = bytes_of(rt.alloc(), &BYTES)?;
    let text = bytes_of(rt.alloc(), TEXT.as_bytes())?;
    let units = units_of(rt.alloc(), &UNITS)?;
    let read = read_text(rt.alloc(), bytes.as_slice())?;
    assert!(rt; read.as_bytes() == text.as_slice(), "as a text");
    let mut all = Vec::new(rt.alloc());
    Utf8Reader::new(bytes.as_slice()).read_to_end(&mut all)?;
    assert!(rt; all == text, "as UTF-8");
    let mut all = Vec::new(rt.alloc());
    let mut reader = Utf16Reader::new(bytes.as_slice());
    let mut room = [0; 4096];
    for _ in 0..units.len() {
        let count = reader.read(&mut room)?;
        all.extend_from_slice(&room[..count])?;
    }
    assert!(rt; all == units, "as UTF-16");
    assert!(rt; is_well_formed(&mut text.as_slice())?, "the repaired text");
    assert!(rt; !is_well_formed(&mut bytes.as_slice())?, "the bytes");
    Ok(())
}

#[test]
fn converts_blocks(rt: HostRuntime) -> Result<(), Fail> {
    let bytes = bytes_of(rt.alloc(), &BYTES)?;
    let text = bytes_of(rt.alloc(), TEXT.as_bytes())?;
    let units = units_of(rt.alloc(), &UNITS)?;
    let holds = are_converted(rt.alloc(), &bytes, &units, &text, 1_000)?;
    assert!(rt; holds, "in pieces of 1,000");
    let holds = are_converted(rt.alloc(), &bytes, &units, &text, 2_000_000)?;
    assert!(rt; holds, "in one piece");
    let whole = read_text(rt.alloc(), bytes.as_slice())?;
    assert!(rt; block_of_text(rt.alloc(), &whole)? == units, "as one text");
    Ok(())
}

#[test]
fn converts_units(rt: HostRuntime) -> Result<(), Fail> {
    let text = bytes_of(rt.alloc(), TEXT.as_bytes())?;
    let units = units_of(rt.alloc(), &UNITS)?;
    let mut unpaired = units_of(rt.alloc(), &UNPAIRED)?;
    assert!(rt;
        utf8_of_units(rt.alloc(), &unpaired)? == text,
        "through a small buffer"
    );
    assert!(rt; utf8_by_turns(rt.alloc(), &unpaired)? == text, "by turns");
    assert!(rt;
        is_repaired(rt.alloc(), &unpaired, &units)?,
        "as they were kept"
    );
    assert!(rt;
        !is_text(&unpaired) && is_text(&units),
        "unpaired surrogates"
    );
    assert!(rt;
        !has_right_to_left(&mut unpaired) && unpaired == units,
        "repaired"
    );
    Ok(())
}

#[test]
fn decodes_windows_1252(rt: HostRuntime) -> Result<(), Fail> {
    let bytes = bytes_of(rt.alloc(), b"\x80 5, \x93caf\xE9\x94 \x99")?;
    let row = "\u{20AC} 5, \u{201C}caf\u{E9}\u{201D} \u{2122}";
    let text = bytes_of(rt.alloc(), row.as_bytes())?;
    let mut room = Vec::new(rt.alloc());
    room.resize(bytes.len().saturating_mul(3), 0u8)?;
    assert!(rt; room.len() / 3 == bytes.len(), "as much space");
    let written = windows_1252_to_utf8(&bytes, &mut room);
    room.truncate(written);
    assert!(rt; room == text, "to UTF-8");
    let units = units_of(
        rt.alloc(),
        &[
            0x20AC, 0x20, 0x35, 0x2C, 0x20, 0x201C, 0x63, 0x61, 0x66, 0xE9, 0x201D, 0x20, 0x2122,
        ],
    )?;
    let mut room = Vec::new(rt.alloc());
    room.resize(bytes.len(), 0u16)?;
    windows_1252_to_utf16(&bytes, &mut room);
    assert!(rt; room == units, "to UTF-16");
    Ok(())
}
