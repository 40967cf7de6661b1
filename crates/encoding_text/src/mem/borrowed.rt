//! Conversions from and to Latin1 that borrow their input if it is ASCII. Otherwise they allocate once, for the longest
//! result.

ghost use Rattle.std.specs.Prelude.{◌≡◌, ◌+◌, ◌-◌, ◌*◌, ◌≤◌, length, take, encode_utf8_all, IfOk};
ghost use Rattle.std.specs.Str.{IsAscii, chars};
ghost use Rattle.std.specs.String.{string_bytes};
ghost use Rattle.encoding_text.specs.Borrowed.{DecodesLatin1, EncodesLatin1};
ghost use Rattle.encoding_definitions.specs.Prefixes.{WritesPrefix};
ghost use Rattle.encoding_definitions.specs.Latin1.{IsUtf8Latin1};

use crate::ascii::prefixes::ascii_valid_up_to_by_length;
use crate::mem::{latin1, utf8_to_latin1};
use std::alloc::{AllocError, Global};

/// A text that is borrowed or owned.
#[derive(Debug, PartialEq, Eq, Drop)]
pub enum CowStr<'a> {
    /// The text of the input. Nothing is allocated.
    Borrowed(&'a str),
    /// An allocated text.
    Owned(String),
}

/// Bytes that are borrowed or owned.
#[derive(Debug, PartialEq, Eq, Drop)]
pub enum CowBytes<'a> {
    /// The bytes of the input. Nothing is allocated.
    Borrowed(&'a [u8]),
    /// Allocated bytes.
    Owned(Vec<u8>),
}

/// Returns the text whose characters are the bytes. It is borrowed if and only if they are ASCII, and then nothing is
/// allocated. Otherwise the text is owned; `AllocError` means that its one allocation failed or would exceed
/// `usize::MAX`.
#[tactic(auto, using(std::proofs::lemmas::List::take_all))]
pub fn decode_latin1<'a>(alloc: Global, bytes: &'a [u8]) -> Result<CowStr<'a>, AllocError>
    ensures { DecodesLatin1 bytes.now result }
{
    let prefix = ascii_valid_up_to_by_length::<0, true>(bytes);
    if prefix == bytes.len() {
        return Ok(CowStr::Borrowed(ascii_text(bytes)));
    }
    Ok(CowStr::Owned(utf8_of_latin1(alloc, bytes, prefix)?))
}

/// Returns the scalar values of Latin1 text as bytes. They are borrowed if and only if they are ASCII, and then nothing
/// is allocated. Otherwise they are owned; `AllocError` means that their one allocation failed.
#[tactic(auto, using(std::proofs::lemmas::List::take_all))]
pub fn encode_latin1_lossy<'a>(alloc: Global, string: &'a str) -> Result<CowBytes<'a>, AllocError>
    requires latin1 { IsUtf8Latin1 string.now }
    ensures encoded { EncodesLatin1 string.now result }
{
    let text = string.as_bytes();
    let prefix = ascii_valid_up_to_by_length::<0, true>(text);
    if prefix == text.len() {
        return Ok(CowBytes::Borrowed(text));
    }
    Ok(CowBytes::Owned(latin1_of_utf8(alloc, text, prefix)?))
}

#[tactic(auto, using(std::proofs::lemmas::Grind::common_steps, crate::proofs::WholePrefixesLemmas::ascii_texts))]
fn ascii_text<'a>(bytes: &'a [u8]) -> &'a str
    requires { IsAscii bytes.now }
    ensures { result.now ≡ bytes.now }
{
    unsafe { std::str::from_utf8_unchecked(bytes) }
}

fn utf8_of_latin1(alloc: Global, bytes: &[u8], prefix: usize) -> Result<String, AllocError>
    requires within { prefix ≤ length bytes.now }
    requires ascii { IsAscii (take prefix bytes.now) }
    ensures { IfOk result (λ text. string_bytes text ≡ encode_utf8_all bytes.now) }
{
    let Some(following) = (bytes.len() - prefix).checked_mul(2) else {
        return Err(AllocError);
    };
    let Some(room) = following.checked_add(prefix) else {
        return Err(AllocError);
    };
    let mut text = Vec::new(alloc);
    text.resize(room, 0)?;
    let written = write_utf8_of_latin1(bytes, prefix, &mut text);
    text.truncate(written);
    Ok(unsafe { String::from_utf8_unchecked(text) })
}

fn write_utf8_of_latin1(bytes: &[u8], prefix: usize, dst: &mut [u8]) -> usize
    requires within { prefix ≤ length bytes.now }
    requires ascii { IsAscii (take prefix bytes.now) }
    requires dst_length { prefix + 2 * (length bytes.now - prefix) ≤ length dst.old }
    ensures { WritesPrefix dst.old dst.new result (encode_utf8_all bytes.now) }
{
    dst[..prefix].copy_from_slice(&bytes[..prefix]);
    prefix + latin1::convert_latin1_to_utf8(&bytes[prefix..], &mut dst[prefix..])
}

fn latin1_of_utf8(alloc: Global, text: &[u8], prefix: usize) -> Result<Vec<u8>, AllocError>
    requires latin1 { IsUtf8Latin1 text.now }
    requires within { prefix ≤ length text.now }
    requires ascii { IsAscii (take prefix text.now) }
    ensures { IfOk result (λ bytes. bytes.items ≡ chars text.now) }
{
    let mut bytes = Vec::new(alloc);
    bytes.resize(text.len(), 0)?;
    let written = write_latin1_of_utf8(text, prefix, &mut bytes);
    bytes.truncate(written);
    Ok(bytes)
}

fn write_latin1_of_utf8(text: &[u8], prefix: usize, dst: &mut [u8]) -> usize
    requires latin1 { IsUtf8Latin1 text.now }
    requires within { prefix ≤ length text.now }
    requires ascii { IsAscii (take prefix text.now) }
    requires dst_length { length text.now ≤ length dst.old }
    ensures { WritesPrefix dst.old dst.new result (chars text.now) }
{
    dst[..prefix].copy_from_slice(&text[..prefix]);
    prefix + utf8_to_latin1::convert_utf8_to_latin1_lossy(&text[prefix..], &mut dst[prefix..])
}
