//! The line for a malformed sequence.
ghost use Rattle.std.specs.Prelude.{◌≡◌, ◌+◌, ◌*◌, ◌<◌, ◌≤◌, ◌++◌, length, take, drop, IfOk, OnOk, OnErr};
ghost use Rattle.std.specs.List.{flat_map};
ghost use Rattle.std.specs.Fmt.{decimal};
ghost use Rattle.std.specs.Io.{WritesAtMost};
ghost use Rattle.std.specs.Io.KnownBytes.{Appends, Keeps};
ghost use Rattle.utf8_check_library.specs.Lines.{hex_digit, hex_of, words_of, line_end, line_of};
ghost use Rattle.utf8_check_library.specs.Checks.{WritesPrefixOf};

use crate::place::Place;
use encoding_runs::malformed::Malformation;
use std::io::{self, ErrorKind, Write};

/// The most digits of a `u64`.
const DIGITS: usize = 20;

/// The length of an array for what a line has after the name.
const LINE_END: usize = 160;

/// Returns the digit of a number below 16.
fn hex_digit(n: u8) -> u8
    requires { n < 16 }
    ensures { result ≡ hex_digit n }
{
    if n < 10 { b'0' + n } else { b'A' - 10 + n }
}

/// Returns the decimal digits of the number at the end of an array, and where they start.
fn decimal_of(number: u64) -> ([u8; DIGITS], usize)
    ensures within { result.1 ≤ 20 }
    ensures digits { drop result.1 result.0 ≡ decimal number }
{
    let mut text = [b'0'; DIGITS];
    let mut start = DIGITS - 1;
    let mut rest = number;
    while rest >= 10 {
        text[start] = b'0' + (rest % 10) as u8;
        rest /= 10;
        start -= 1;
    }
    text[start] = b'0' + (rest % 10) as u8;
    (text, start)
}

/// Returns the words for why a sequence is malformed.
fn words_of(kind: Malformation) -> &'static str
    ensures words { result.now ≡ words_of kind }
    ensures few { length result.now ≤ 28 }
{
    match kind {
        Malformation::UnexpectedContinuation => "unexpected continuation byte",
        Malformation::DisallowedByte => "byte of no character",
        Malformation::Overlong => "overlong form",
        Malformation::Surrogate => "surrogate",
        Malformation::TooLarge => "above U+10FFFF",
        Malformation::Truncated => "cut short",
        Malformation::IncompleteAtEnd => "cut short at the end",
    }
}

/// Puts the bytes into the text at an index, and returns the index after them.
fn put(text: &mut [u8; LINE_END], at: usize, bytes: &[u8]) -> usize
    requires { at + length bytes.now ≤ 160 }
    ensures index { result ≡ at + length bytes.now }
    ensures put { take result text.new ≡ take at text.old ++ bytes.now }
{
    text[at..at + bytes.len()].copy_from_slice(bytes);
    at + bytes.len()
}

/// Puts a space and two digits for each byte into the text at an index, and returns the index after them.
fn put_hex(text: &mut [u8; LINE_END], at: usize, bytes: &[u8]) -> usize
    requires { at + 3 * length bytes.now ≤ 160 }
    ensures few { result ≤ at + 3 * length bytes.now }
    ensures put { take result text.new ≡ take at text.old ++ flat_map hex_of bytes.now }
{
    let mut at = at;
    for byte in bytes {
        at = put(
            text,
            at,
            &[b' ', hex_digit(*byte / 16), hex_digit(*byte % 16)],
        );
    }
    at
}

/// Puts words and then a number into the text at an index, and returns the index after them.
fn put_number(text: &mut [u8; LINE_END], at: usize, words: &[u8], number: u64) -> usize
    requires { at + length words.now + 20 ≤ 160 }
    ensures few { result ≤ at + length words.now + 20 }
    ensures put { take result text.new ≡ take at text.old ++ words.now ++ decimal number }
{
    let (digits, start) = decimal_of(number);
    let next = put(text, at, words);
    put(text, next, &digits[start..])
}

/// Returns what the line has after the name, and its length.
fn line_end(place: Place, offset: u64, bytes: &[u8], kind: Malformation) -> ([u8; LINE_END], usize)
    requires few { length bytes.now ≤ 3 }
    ensures within { result.1 ≤ 160 }
    ensures text { take result.1 result.0
        ≡ line_end place.line place.column offset bytes.now kind }
{
    let mut text = [0; LINE_END];
    let line = put_number(&mut text, 0, b":", place.line);
    let column = put_number(&mut text, line, b":", place.column);
    let error = put(&mut text, column, b": error: malformed UTF-8:");
    let sequence = put_hex(&mut text, error, bytes);
    let colon = put(&mut text, sequence, b": ");
    let words = put(&mut text, colon, words_of(kind).as_bytes());
    let number = put_number(&mut text, words, b" (offset ", offset);
    let end = put(&mut text, number, b")\n");
    (text, end)
}

/// Writes once, and again as long as the write is interrupted.
fn write_some<W: Write>(bytes: &[u8], writer: &mut W) -> io::Result<usize>
    ensures bound { WritesAtMost result bytes.now }
    ensures ok { IfOk result
        (λ n. Appends (W.contents writer.old) (W.contents writer.new) (take n bytes.now)) }
    ensures err { OnErr result (Keeps (W.contents writer.old) (W.contents writer.new)) }
{
    for _ in 0..u64::MAX {
        match writer.write(bytes) {
            Ok(count) => return Ok(count),
            Err(error) => {
                if error.kind() != ErrorKind::Interrupted {
                    return Err(error);
                }
            }
        }
    }
    Err(io::Error::from(ErrorKind::TimedOut))
}

/// Writes all of the bytes.
fn write_bytes<W: Write>(bytes: &[u8], writer: &mut W) -> io::Result<()>
    ensures ok { OnOk result (Appends (W.contents writer.old) (W.contents writer.new) bytes.now) }
    ensures err { OnErr result
        (WritesPrefixOf bytes.now (W.contents writer.old) (W.contents writer.new)) }
{
    let mut at = 0;
    while at < bytes.len() {
        let count = write_some(&bytes[at..], writer)?;
        if count == 0 {
            return Err(io::Error::from(ErrorKind::WriteZero));
        }
        at += count;
    }
    Ok(())
}

/// Writes the line for the malformed sequence at this place and offset.
pub(crate) fn write_line<W: Write>(
    name: &str,
    place: Place,
    offset: u64,
    bytes: &[u8],
    kind: Malformation,
    writer: &mut W,
) -> io::Result<()>
    requires few { length bytes.now ≤ 3 }
    ensures ok { OnOk result (Appends (W.contents writer.old) (W.contents writer.new)
        (line_of name.now place.line place.column offset bytes.now kind)) }
    ensures err { OnErr result
        (WritesPrefixOf (line_of name.now place.line place.column offset bytes.now kind)
        (W.contents writer.old) (W.contents writer.new)) }
{
    let (text, length) = line_end(place, offset, bytes, kind);
    write_bytes(name.as_bytes(), writer)?;
    write_bytes(&text[..length], writer)
}
