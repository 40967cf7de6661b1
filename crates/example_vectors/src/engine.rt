//! Blocks of UTF-16 from pieces of UTF-8, and back. And the repair of code units, their UTF-8, at once and by turns,
//! and whether they have right-to-left characters.

ghost use Rattle.std.specs.Prelude.{◌<◌};

use engine_example::turns::{text_by_turns, utf8_by_turns};
use engine_example::units::{
    has_right_to_left, is_repaired, is_text, text_has_right_to_left, text_of_units, utf8_of_units,
};
use engine_example::{block_of_text, blocks_of_utf8, utf8_of_blocks};
use std::alloc::{AllocError, Global};
use std::test::Fail;

/// UTF-8, and its code units by the Encoding Standard's UTF-8 decoder.
const ROWS: [(&[u8], &[u16], &str); 4] = [
    (b"", &[], ""),
    (
        b"a\xC3\xA9\xE2\x98\x83\xF0\x9F\x92\xA9b",
        &[0x61, 0xE9, 0x2603, 0xD83D, 0xDCA9, 0x62],
        "a\u{E9}\u{2603}\u{1F4A9}b",
    ),
    (
        b"\xE2\x98\xF0\x9F\x92x\xC3",
        &[0xFFFD, 0xFFFD, 0x78, 0xFFFD],
        "\u{FFFD}\u{FFFD}x\u{FFFD}",
    ),
    (
        b"\xED\xA0\xBD\xF4\x8F\xBF\xBF",
        &[0xFFFD, 0xFFFD, 0xFFFD, 0xDBFF, 0xDFFF],
        "\u{FFFD}\u{FFFD}\u{FFFD}\u{10FFFF}",
    ),
];

/// Returns whether bytes in pieces of this length become blocks of the code units, and these the text, as they came
/// and in blocks of this length.
pub(crate) fn are_converted(
    alloc: Global,
    bytes: &[u8],
    units: &[u16],
    text: &[u8],
    length: usize,
) -> Result<bool, AllocError>
    requires { 0 < length }
{
    let mut pieces = Vec::new(alloc);
    for piece in bytes.chunks(length) {
        pieces.push(piece)?;
    }
    let came = blocks_of_utf8(alloc, &pieces)?;
    let mut all = Vec::new(alloc);
    for block in &came {
        all.extend_from_slice(block)?;
    }
    let mut blocks = Vec::new(alloc);
    for block in all.chunks(length) {
        let mut own = Vec::new(alloc);
        own.extend_from_slice(block)?;
        blocks.push(own)?;
    }
    let back = utf8_of_blocks(alloc, &came)?;
    let again = utf8_of_blocks(alloc, &blocks)?;
    Ok(all.as_slice() == units && back.as_slice() == text && again.as_slice() == text)
}

#[test]
fn goes_there_and_back_in_pieces_of_each_length(rt: HostRuntime) -> Result<(), AllocError> {
    for (bytes, units, text) in &ROWS {
        let mut holds = block_of_text(rt.alloc(), text)?.as_slice() == *units;
        for length in 1..12 {
            let text = text.as_bytes();
            holds = holds && are_converted(rt.alloc(), bytes, units, text, length)?;
        }
        assert!(rt; holds, "{text}");
    }
    Ok(())
}

#[test]
fn replaces_surrogates_in_no_pair(rt: HostRuntime) -> Result<(), Fail> {
    let mut blocks = Vec::new(rt.alloc());
    for units in [[0x61, 0xD83D], [0xD83D, 0xDCA9], [0xDCA9, 0xD83D]] {
        let mut block = Vec::new(rt.alloc());
        block.extend_from_slice(&units)?;
        blocks.push(block)?;
    }
    let bytes = utf8_of_blocks(rt.alloc(), &blocks)?;
    assert!(rt;
        bytes.as_slice() == "a\u{FFFD}\u{1F4A9}\u{FFFD}\u{FFFD}".as_bytes(),
        "cut and unpaired surrogates"
    );
    Ok(())
}

/// Code units, the repaired ones, their text, and whether it has a right-to-left character.
const UNIT_ROWS: [(&[u16], &[u16], &str, bool); 5] = [
    (&[], &[], "", false),
    (
        &[0x61, 0xD83D, 0xDCA9, 0xD83D],
        &[0x61, 0xD83D, 0xDCA9, 0xFFFD],
        "a\u{1F4A9}\u{FFFD}",
        false,
    ),
    (&[0xD802], &[0xFFFD], "\u{FFFD}", false),
    (
        &[0xD802, 0xD802, 0xDC00],
        &[0xFFFD, 0xD802, 0xDC00],
        "\u{FFFD}\u{10800}",
        true,
    ),
    (&[0xDC00, 0x5D0], &[0xFFFD, 0x5D0], "\u{FFFD}\u{5D0}", true),
];

/// Returns what of a row doesn't hold, or nothing.
fn failing_part(
    alloc: Global,
    units: &[u16],
    repaired: &[u16],
    text: &str,
    right_to_left: bool,
) -> Result<&'static str, AllocError> {
    let mut own = Vec::new(alloc);
    own.extend_from_slice(units)?;
    let bytes = text.as_bytes();
    Ok(if utf8_of_units(alloc, &own)?.as_slice() != bytes {
        "UTF-8"
    } else if text_of_units(alloc, &own)?.as_bytes() != bytes {
        "the text of its units"
    } else if utf8_by_turns(alloc, &own)?.as_slice() != bytes {
        "UTF-8 by turns"
    } else if text_by_turns(alloc, &own)?.as_bytes() != bytes {
        "the text by turns"
    } else if is_text(&own) != (units == repaired) {
        "valid units"
    } else if !is_repaired(alloc, &own, repaired)? {
        "as it was kept"
    } else if text_has_right_to_left(text) != right_to_left {
        "right to left"
    } else if has_right_to_left(&mut own) != right_to_left {
        "units right to left"
    } else if own.as_slice() != repaired {
        "repaired units"
    } else {
        ""
    })
}

#[test]
fn repairs_and_writes_each_row(rt: HostRuntime) -> Result<(), AllocError> {
    for (units, repaired, text, right_to_left) in &UNIT_ROWS {
        let failing = failing_part(rt.alloc(), units, repaired, text, *right_to_left)?;
        assert!(rt; failing.is_empty(), "{failing} of {text}");
    }
    Ok(())
}

#[test]
fn writes_a_character_across_the_end_of_the_room(rt: HostRuntime) -> Result<(), Fail> {
    for before in 59..66 {
        let mut units = Vec::new(rt.alloc());
        units.resize(before, 0x61)?;
        units.extend_from_slice(&[0xD83D, 0xDCA9, 0xE9])?;
        let mut text = Vec::new(rt.alloc());
        text.resize(before, b'a')?;
        text.extend_from_slice("\u{1F4A9}\u{E9}".as_bytes())?;
        let bytes = utf8_of_units(rt.alloc(), &units)?;
        assert!(rt; bytes == text, "{before} bytes before the character");
    }
    Ok(())
}

#[test]
fn repairs_and_writes_a_long_text(rt: HostRuntime) -> Result<(), Fail> {
    let mut units = Vec::new(rt.alloc());
    units.resize(70_000, 0x61)?;
    units.extend_from_slice(&[0xD83D, 0x5D0])?;
    let mut text = Vec::new(rt.alloc());
    text.resize(70_000, b'a')?;
    text.extend_from_slice("\u{FFFD}\u{5D0}".as_bytes())?;
    let bytes = utf8_of_units(rt.alloc(), &units)?;
    assert!(rt; bytes == text, "UTF-8 of a long text");
    assert!(rt; has_right_to_left(&mut units), "a long text");
    assert!(rt; units[70_000..] == [0xFFFD, 0x5D0], "the last units");
    Ok(())
}
