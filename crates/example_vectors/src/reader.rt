//! Readers of UTF-8 and of UTF-16, into destinations of each length and past errors.

use encoding_runs::reader::{Utf8Reader, Utf16Reader};
use reader_example::{is_well_formed, read_text};
use std::alloc::{AllocError, Global};
use std::io::{Error, ErrorKind, Read};
use std::test::Fail;
use std::{io, str};

/// Returns its bytes, `step` per read, and fails at each second read.
#[derive(Drop)]
pub(crate) struct Faulty<'a> {
    pub(crate) rest: &'a [u8],
    pub(crate) step: usize,
    pub(crate) fails: bool,
}

impl Read for Faulty<'_> {
    fn read(&mut self, buffer: &mut [u8]) -> io::Result<usize> {
        self.fails = !self.fails;
        if self.fails {
            return Err(Error::from(ErrorKind::Other));
        }
        let count = self.rest.len().min(self.step).min(buffer.len());
        let (now, later) = self.rest.split_at(count);
        buffer[..count].copy_from_slice(now);
        self.rest = later;
        Ok(count)
    }
}

/// Bytes, their text by the Encoding Standard's UTF-8 decoder, and the UTF-16 of that.
const ROWS: [(&[u8], &str, &[u16]); 6] = [
    (b"", "", &[]),
    (
        b"a\xE2\x98\x83\xC3\xA9",
        "a\u{2603}\u{E9}",
        &[0x61, 0x2603, 0xE9],
    ),
    (
        b"\xF0\x9F\x92\xA9\xF0\x9F\x92",
        "\u{1F4A9}\u{FFFD}",
        &[0xD83D, 0xDCA9, 0xFFFD],
    ),
    (
        b"\xE2\x98a\xE0\x80\xFF",
        "\u{FFFD}a\u{FFFD}\u{FFFD}\u{FFFD}",
        &[0xFFFD, 0x61, 0xFFFD, 0xFFFD, 0xFFFD],
    ),
    (
        b"\xEF\xBB\xBFab\xED\xA0\x80",
        "\u{FEFF}ab\u{FFFD}\u{FFFD}\u{FFFD}",
        &[0xFEFF, 0x61, 0x62, 0xFFFD, 0xFFFD, 0xFFFD],
    ),
    (
        b"\xF4\x90\x80\x80\xF4\x8F\xBF\xBF",
        "\u{FFFD}\u{FFFD}\u{FFFD}\u{FFFD}\u{10FFFF}",
        &[0xFFFD, 0xFFFD, 0xFFFD, 0xFFFD, 0xDBFF, 0xDFFF],
    ),
];

#[test]
fn reads_texts(rt: HostRuntime) -> Result<(), Fail> {
    for (bytes, text, _) in &ROWS {
        let read = read_text(rt.alloc(), *bytes)?;
        assert!(rt; read.as_str() == *text, "{text}");
        let mut rest = *bytes;
        let whole = is_well_formed(&mut rest)?;
        assert!(rt; whole == (text.as_bytes() == *bytes), "{text}");
    }
    Ok(())
}

#[test]
fn reads_texts_longer_than_each_buffer(rt: HostRuntime) -> Result<(), Fail> {
    let mut bytes = Vec::new(rt.alloc());
    for _ in 0..7_000 {
        bytes.extend_from_slice("a\u{E9}\u{2603}\u{1F4A9}".as_bytes())?;
    }
    let mut rest = bytes.as_slice();
    assert!(rt; is_well_formed(&mut rest)?, "all of a long text");
    assert!(rt; rest.is_empty(), "bytes left of a long text");
    let text = read_text(rt.alloc(), bytes.as_slice())?;
    assert!(rt; text.as_bytes() == bytes.as_slice(), "a long text");
    bytes.push(0xF0)?;
    let mut rest = bytes.as_slice();
    assert!(rt; !is_well_formed(&mut rest)?, "a long text cut short");
    Ok(())
}

/// Returns whether a reader that fails now and then yields the text into destinations of this length, and no part of a
/// character into one of at least four bytes.
fn yields_utf8(
    alloc: Global,
    bytes: &[u8],
    text: &str,
    step: usize,
    room: usize,
) -> Result<bool, AllocError> {
    let mut reader = Utf8Reader::new(Faulty {
        rest: bytes,
        step,
        fails: false,
    });
    let mut yielded = Vec::new(alloc);
    let mut buffer = [0; 8];
    let mut whole = true;
    for _ in 0..48 {
        let Some(space) = buffer.get_mut(..room) else {
            return Ok(false);
        };
        if let Ok(count) = reader.read(space) {
            let came = buffer.get(..count).unwrap_or_default();
            yielded.extend_from_slice(came)?;
            whole = whole && (room < 4 || str::from_utf8(came).is_ok());
        }
    }
    Ok(whole && yielded.as_slice() == text.as_bytes())
}

#[test]
fn yields_utf8_into_each_room_past_faults(rt: HostRuntime) -> Result<(), AllocError> {
    for (bytes, text, _) in &ROWS {
        for step in 1..6 {
            for room in 1..9 {
                assert!(rt;
                    yields_utf8(rt.alloc(), bytes, text, step, room)?,
                    "{text} into {room}"
                );
            }
        }
    }
    Ok(())
}

/// Returns whether such a reader yields the code units into destinations of this length.
fn yields_utf16(
    alloc: Global,
    bytes: &[u8],
    units: &[u16],
    step: usize,
    room: usize,
) -> Result<bool, AllocError> {
    let mut reader = Utf16Reader::new(Faulty {
        rest: bytes,
        step,
        fails: false,
    });
    let mut yielded = Vec::new(alloc);
    let mut buffer = [0; 6];
    for _ in 0..48 {
        let Some(space) = buffer.get_mut(..room) else {
            return Ok(false);
        };
        if let Ok(count) = reader.read(space) {
            yielded.extend_from_slice(buffer.get(..count).unwrap_or_default())?;
        }
    }
    Ok(yielded.as_slice() == units)
}

#[test]
fn yields_utf16_into_each_room_past_faults(rt: HostRuntime) -> Result<(), AllocError> {
    for (bytes, text, units) in &ROWS {
        for step in 1..6 {
            for room in 1..7 {
                assert!(rt;
                    yields_utf16(rt.alloc(), bytes, units, step, room)?,
                    "{text} into {room}"
                );
            }
        }
    }
    Ok(())
}
