//! Bytes in pieces of each length, repaired separately and joined, and the offsets of their malformed sequences.

ghost use Rattle.std.specs.Prelude.{◌<◌};

use cuts_example::{malformed_indices, repair_apart, text_of_pieces};
use std::alloc::{AllocError, Global};
use std::test::Fail;

/// Bytes, their text by the Encoding Standard's UTF-8 decoder, and the offsets and lengths of their malformed
/// sequences.
const ROWS: [(&[u8], &str, &[(usize, usize)]); 5] = [
    (b"", "", &[]),
    (b"plain\ntext\n", "plain\ntext\n", &[]),
    (
        b"a\xE2\x98\nb\xF0\x9F\x92\n\xC3\xA9",
        "a\u{FFFD}\nb\u{FFFD}\n\u{E9}",
        &[(1, 2), (5, 3)],
    ),
    (
        b"\xE0\x80\x80\n\xC2\x7F\xE2\x98",
        "\u{FFFD}\u{FFFD}\u{FFFD}\n\u{FFFD}\u{7F}\u{FFFD}",
        &[(0, 1), (1, 1), (2, 1), (4, 1), (6, 2)],
    ),
    (b"\xE2\x98\x83\xF0\x9F\x92\xA9", "\u{2603}\u{1F4A9}", &[]),
];

/// Returns whether bytes in pieces of this length are repaired to the text, with as many malformed sequences.
pub(crate) fn are_repaired(
    alloc: Global,
    bytes: &[u8],
    text: &[u8],
    count: usize,
    least: usize,
) -> Result<bool, AllocError>
    requires { 0 < least }
{
    let whole = repair_apart(alloc, bytes, least)?;
    let joined = text_of_pieces(alloc, bytes, least)?;
    Ok(whole.text.as_slice() == text && whole.replaced == count as u64 && joined.as_bytes() == text)
}

#[test]
fn repairs_in_pieces_of_each_length(rt: HostRuntime) -> Result<(), AllocError> {
    for (bytes, text, places) in &ROWS {
        let found = malformed_indices(rt.alloc(), bytes)?;
        let mut holds = found.as_slice() == *places;
        for least in 1..14 {
            let (text, count) = (text.as_bytes(), places.len());
            holds = holds && are_repaired(rt.alloc(), bytes, text, count, least)?;
        }
        assert!(rt; holds, "{text}");
    }
    Ok(())
}

#[test]
fn repairs_a_long_text(rt: HostRuntime) -> Result<(), Fail> {
    let mut bytes = Vec::new(rt.alloc());
    bytes.resize(70_000, b'a')?;
    bytes.push(0xFF)?;
    let mut text = Vec::new(rt.alloc());
    text.resize(70_000, b'a')?;
    text.extend_from_slice("\u{FFFD}".as_bytes())?;
    let found = malformed_indices(rt.alloc(), &bytes)?;
    assert!(rt;
        found.as_slice() == [(70_000, 1)].as_slice(),
        "the last byte is malformed"
    );
    let whole = repair_apart(rt.alloc(), &bytes, 1_000)?;
    assert!(rt; whole.text == text && whole.replaced == 1, "in pieces");
    Ok(())
}
