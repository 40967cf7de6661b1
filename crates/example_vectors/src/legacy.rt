//! Rows of windows-1252.

use legacy_example::{windows_1252_to_utf8, windows_1252_to_utf16};
use std::alloc::{AllocError, Global};
use std::test::Fail;

/// Bytes, and their text by the Encoding Standard's index windows-1252.
const ROWS: [(&[u8], &str); 5] = [
    (b"", ""),
    (
        b"plain text, longer than one vector of sixteen bytes",
        "plain text, longer than one vector of sixteen bytes",
    ),
    (
        b"\x80 5, \x93caf\xE9\x94 \x96 \xA9 \x99",
        "\u{20AC} 5, \u{201C}caf\u{E9}\u{201D} \u{2013} \u{A9} \u{2122}",
    ),
    (
        b"\x80\x81\x82\x83\x84\x85\x86\x87\x88\x89\x8A\x8B\x8C\x8D\x8E\x8F",
        "\u{20AC}\u{81}\u{201A}\u{192}\u{201E}\u{2026}\u{2020}\u{2021}\u{2C6}\u{2030}\u{160}\u{2039}\u{152}\u{8D}\u{17D}\u{8F}",
    ),
    (
        b"\x90\x91\x92\x93\x94\x95\x96\x97\x98\x99\x9A\x9B\x9C\x9D\x9E\x9F\xA0\xFF",
        "\u{90}\u{2018}\u{2019}\u{201C}\u{201D}\u{2022}\u{2013}\u{2014}\u{2DC}\u{2122}\u{161}\u{203A}\u{153}\u{9D}\u{17E}\u{178}\u{A0}\u{FF}",
    ),
];

/// Returns whether bytes are decoded to this text in UTF-8 and in UTF-16, and what is after it is unchanged.
fn are_decoded(alloc: Global, bytes: &[u8], text: &str) -> Result<bool, AllocError> {
    if bytes.len() >= 128 {
        return Ok(false);
    }
    let mut expected = Vec::new(alloc);
    for unit in text.encode_utf16() {
        expected.push(unit)?;
    }
    expected.push(0x2A)?;
    let (mut utf8, mut units) = ([0x2A; 384], [0x2A; 128]);
    let written = windows_1252_to_utf8(bytes, &mut utf8);
    windows_1252_to_utf16(bytes, &mut units);
    Ok(
        utf8.starts_with(text.as_bytes())
            && written == text.len()
            && utf8.get(written) == Some(&0x2A)
            && units.starts_with(&expected),
    )
}

#[test]
fn decodes_concatenated_rows(rt: HostRuntime) -> Result<(), Fail> {
    for (first, first_text) in &ROWS {
        for (second, second_text) in &ROWS {
            let mut bytes = Vec::new(rt.alloc());
            bytes.extend_from_slice(first)?;
            bytes.extend_from_slice(second)?;
            let text = format!(in rt.alloc(); "{first_text}{second_text}")?;
            assert!(rt; are_decoded(rt.alloc(), &bytes, &text)?, "{text}");
        }
    }
    Ok(())
}
