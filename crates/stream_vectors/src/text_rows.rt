//! Decoding into the start of a text, by rows: what the text is after the calls. The characters are those of the
//! Encoding Standard's decoders, and the zeros are set by hand.

ghost use Rattle.std.specs.Prelude.{◌↔◌, IsTrue};
ghost use Rattle.std.specs.Str.{IsUtf8};

use encoding_streams::decoder::Decoder;
use encoding_streams::encoding::{CoderResult, Encoding};
use encoding_text::decoder::DecoderResult;

/// A stream, the text before it is decoded, how many bytes are written and how many malformed sequences are replaced,
/// and the text after that.
const ROWS: [(&[u8], &[u8], usize, usize, &[u8]); 7] = [
    (b"", b"\xC3\xA9", 0, 0, b"\xC3\xA9"),
    (b"a", b"\xC3\xA9b", 1, 0, b"a\0b"),
    (
        b"\xE2\x98\x83",
        b"\xF0\x9F\x92\xA9b",
        3,
        0,
        b"\xE2\x98\x83\0b",
    ),
    (b"a", b"\xF0\x9F\x92\xA9\xC3\xA9", 1, 0, b"a\0\0\0\xC3\xA9"),
    (b"\xFF", b"\xC3\xA9\xC3\xA9b", 3, 1, b"\xEF\xBF\xBD\0b"),
    (
        b"\xFF\xFE\x3D\xD8\xA9\xDC",
        b"\xC3\xA9ab\xC3\xA9b",
        4,
        0,
        b"\xF0\x9F\x92\xA9\xC3\xA9b",
    ),
    (
        b"\xFE\xFF\0a\xD8\0",
        b"\xE2\x98\x83\xE2\x98\x83b",
        4,
        1,
        b"a\xEF\xBF\xBD\0\0b",
    ),
];

/// Returns whether bytes are well-formed, by `std`.
fn is_text(bytes: &[u8]) -> bool
    ensures { IsTrue result ↔ IsUtf8 bytes.now }
{
    std::str::from_utf8(bytes).is_ok()
}

/// Decodes into the start of a text, or returns `None` if it isn't well-formed before and after.
fn replaced(
    decoder: &mut Decoder,
    src: &[u8],
    dst: &mut [u8],
    last: bool,
) -> Option<(CoderResult, usize, usize, usize)> {
    if !is_text(dst) {
        return None;
    }
    let result = decoder.decode_to_str(src, dst, last);
    is_text(dst).then_some(result)
}

/// Does the same with a call that reports.
fn reported(
    decoder: &mut Decoder,
    src: &[u8],
    dst: &mut [u8],
) -> Option<(DecoderResult, usize, usize)> {
    if !is_text(dst) {
        return None;
    }
    let result = decoder.decode_to_str_without_replacement(src, dst, true);
    is_text(dst).then_some(result)
}

/// Decodes a stream cut at this index, and returns whether the text is `after` then, and the numbers of bytes written
/// and of malformed sequences replaced are `counts`. Returns `None` if it can't be cut there, or isn't decoded to a
/// text.
fn decodes_to(
    source: &[u8],
    before: &[u8],
    counts: (usize, usize),
    after: &[u8],
    cut: usize,
) -> Option<bool> {
    let (first, second) = source.split_at_checked(cut)?;
    let mut space = [b'q'; 8];
    let text = space.get_mut(..before.len())?;
    text.copy_from_slice(before);
    let mut decoder = Encoding::Utf8.new_decoder();
    let one = replaced(&mut decoder, first, text, false)?;
    let rest = text.get_mut(one.2..)?;
    let two = replaced(&mut decoder, second, rest, true)?;
    Some(
        one.0 == CoderResult::InputEmpty
            && one.1 == cut
            && two.0 == CoderResult::InputEmpty
            && two.1 == second.len()
            && (one.2.saturating_add(two.2), one.3.saturating_add(two.3)) == counts
            && &*text == after,
    )
}

/// Each row, whole and cut at each byte.
#[test]
fn rows_hold(rt: HostRuntime) {
    let mut count = 0u32;
    for (source, before, written, malformed, after) in &ROWS {
        for cut in 0..=source.len() {
            let holds = decodes_to(source, before, (*written, *malformed), after, cut);
            assert!(rt; holds == Some(true), "row {count}, {cut}");
        }
        count = count.saturating_add(1);
    }
    assert!(rt; count == 7);
}

#[test]
fn stops_in_a_full_text(rt: HostRuntime) {
    let mut decoder = Encoding::Utf8.new_decoder_without_bom_handling();
    let mut text = *b"\xC3\xA9b";
    let result = replaced(&mut decoder, b"a\xE2\x98\x83", &mut text, true);
    assert!(rt; result == Some((CoderResult::OutputFull, 1, 1, 0)));
    assert!(rt; text == *b"a\0b");
}

#[test]
fn reports_into_a_text(rt: HostRuntime) {
    let mut decoder = Encoding::Utf8.new_decoder();
    let mut text = *b"\xC3\xA9\xC3\xA9b";
    let result = reported(&mut decoder, b"a\xFFb", &mut text);
    assert!(rt; result == Some((DecoderResult::Malformed(1, 0), 2, 1)));
    assert!(rt; text == *b"a\0\xC3\xA9b");
    let result = reported(&mut decoder, b"b", &mut text);
    assert!(rt; result == Some((DecoderResult::InputEmpty, 1, 1)));
    assert!(rt; text == *b"b\0\xC3\xA9b");

    let mut decoder = Encoding::Utf16Be.new_decoder_without_bom_handling();
    let mut text = *b"\xE2\x98\x83\xC3\xA9";
    let result = reported(&mut decoder, b"\0a\xDC\0", &mut text);
    assert!(rt; result == Some((DecoderResult::Malformed(2, 0), 4, 1)));
    assert!(rt; text == *b"a\0\0\xC3\xA9");
}
