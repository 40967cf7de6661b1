//! Streams with and without byte order marks and malformed sequences, in pieces of every length.

use decoder_example::{decode_stream, read_marked_text};
use encoding_streams::encoding::Encoding;
use std::test::Fail;

/// Bytes of a stream whose encoding is UTF-8 unless its mark says otherwise, the encoding, the text by the Encoding
/// Standard's decode, and the number of malformed sequences.
const ROWS: [(&[u8], Encoding, &str, usize); 10] = [
    (b"", Encoding::Utf8, "", 0),
    (b"\xEF\xBB\xBF", Encoding::Utf8, "", 0),
    (b"\xEF\xBB\xBFa\xE2\x98\x83", Encoding::Utf8, "a\u{2603}", 0),
    (b"\xEF\xBB\xBF\xEF\xBB\xBFa", Encoding::Utf8, "\u{FEFF}a", 0),
    (b"ab\xEF\xBB\xBF", Encoding::Utf8, "ab\u{FEFF}", 0),
    (b"\xEF\xBB", Encoding::Utf8, "\u{FFFD}", 1),
    (
        b"\xEF\xBBa\xF0\x9F\x92\xA9",
        Encoding::Utf8,
        "\u{FFFD}a\u{1F4A9}",
        1,
    ),
    (
        b"\xEF\xBB\xBF\xE2\x98\xF0\x9F\x92\xA9\xFF\xE0\x80",
        Encoding::Utf8,
        "\u{FFFD}\u{1F4A9}\u{FFFD}\u{FFFD}\u{FFFD}",
        4,
    ),
    (
        b"\xFF\xFEa\x00\x3D\xD8\xA9\xDC",
        Encoding::Utf16Le,
        "a\u{1F4A9}",
        0,
    ),
    (b"\xFE\xFF\x00a\xD8\x3D", Encoding::Utf16Be, "a\u{FFFD}", 1),
];

#[test]
fn decodes_pieces_of_every_length(rt: HostRuntime) -> Result<(), Fail> {
    for (bytes, encoding, text, replaced) in &ROWS {
        for length in 1..bytes.len() + 2 {
            let stream = decode_stream(rt.alloc(), Encoding::Utf8, *bytes, length)?;
            assert!(rt;
                stream.text.as_slice() == text.as_bytes()
                    && stream.encoding == *encoding
                    && stream.replaced == *replaced,
                "{text} in pieces of {length}"
            );
        }
    }
    Ok(())
}

#[test]
fn reads_marked_texts(rt: HostRuntime) -> Result<(), Fail> {
    for (bytes, _, text, _) in &ROWS {
        let read = read_marked_text(rt.alloc(), *bytes, Encoding::Utf8)?;
        assert!(rt; read.as_str() == *text, "{text}");
    }
    Ok(())
}

/// A text that is longer than the reader's blocks, which cut its characters.
#[test]
fn reads_a_long_marked_text(rt: HostRuntime) -> Result<(), Fail> {
    let mut bytes = Vec::new(rt.alloc());
    bytes.extend_from_slice(b"\xFF\xFEa")?;
    let mut text = String::new(rt.alloc());
    for _ in 0..1_100 {
        bytes.extend_from_slice(b"\0\x3D\xD8\xA9\xDCa")?;
        text.push_str("a\u{1F4A9}")?;
    }
    bytes.push(0)?;
    text.push_str("a")?;
    let read = read_marked_text(rt.alloc(), bytes.as_slice(), Encoding::Utf8)?;
    assert!(rt; read.as_bytes() == text.as_bytes());
    Ok(())
}
