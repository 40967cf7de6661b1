//! An engine saves or sends documents of UTF-16: in pieces, into buffers of limited space, and whole.

ghost use Rattle.std.specs.Prelude.{◌≤◌, ◌<◌, ◌+◌, ◌-◌, length};

use super::windows::{after, first, texts, units_of, window};
use crate::digest::Digest;
use crate::random::Random;
use crate::text::{Kind, make_text};
use encoding_text::mem::{
    convert_utf16_to_str_partial, convert_utf16_to_utf8, convert_utf16_to_utf8_partial,
};
use encoding_text::utf_8::{EncoderResult, Utf8Encoder};
use std::alloc::{AllocError, Global};

const KINDS: [Kind; 6] = [
    Kind::Html,
    Kind::Json,
    Kind::Prose,
    Kind::Chinese,
    Kind::Chat,
    Kind::Cyrillic,
];

/// The longest document, in code units.
const WHOLE: usize = 0x10000;

/// The longest piece, in code units. The shortest is a sixteenth of it.
const PIECE: usize = 0x4000;

/// The space of a buffer, in bytes.
const ROOM: usize = 0x4000;

/// How many code units the last text has for each one that is made a surrogate, mostly an unpaired one.
const UNPAIRED: usize = 4000;

pub(super) fn run(
    alloc: Global,
    rounds: u64,
    random: &mut Random,
    digest: &mut Digest,
) -> Result<(), AllocError> {
    let mut all = Vec::new(alloc);
    for text in texts(alloc, &KINDS, random)? {
        all.push(units_of(alloc, text.as_str())?)?;
    }
    if let Some(units) = all.last_mut() {
        damage(units, random);
    }
    let mut bytes = vec![in alloc; 0; 3 * WHOLE]?;
    let mut text = make_text(alloc, Kind::Prose, ROOM, random)?;
    for _ in 0..rounds {
        for units in &all {
            encode_stream(window(units, WHOLE, random), &mut bytes, random, digest);
            let document = window(units, WHOLE, random);
            fill_buffers(document, &mut bytes, digest);
            let document = window(units, WHOLE, random);
            if bytes.len() / 3 >= document.len() {
                let written = convert_utf16_to_utf8(document, &mut bytes);
                digest.bytes(first(&bytes, written));
            }
            text = fill_text(window(units, WHOLE, random), text, digest);
        }
    }
    Ok(())
}

/// Makes some code units unpaired surrogates.
fn damage(units: &mut Vec<u16>, random: &mut Random) {
    let length = units.len();
    if length == 0 {
        return;
    }
    for _ in 0..length / UNPAIRED {
        let at = random.below(length);
        if let Some(unit) = units.get_mut(at) {
            *unit = 0xD800 | (random.next() & 0x7FF) as u16;
        }
    }
}

/// Encodes a document in pieces, as an engine hands them out, into a buffer that is sent when it is full.
fn encode_stream(document: &[u16], bytes: &mut [u8], random: &mut Random, digest: &mut Digest) {
    let mut encoder = Utf8Encoder::new_inner();
    let room = ROOM.min(bytes.len());
    let mut at = 0;
    for _ in 0..document.len() {
        if at >= document.len() {
            break;
        }
        let piece = random.between(PIECE / 16, PIECE).min(document.len() - at);
        let last = at + piece == document.len();
        encode_piece(
            &mut encoder,
            &document[at..at + piece],
            &mut bytes[..room],
            last,
            digest,
        );
        at += piece;
    }
}

/// Encodes a piece.
fn encode_piece(
    encoder: &mut Utf8Encoder,
    piece: &[u16],
    buffer: &mut [u8],
    last: bool,
    digest: &mut Digest,
) {
    let mut read = 0;
    for _ in 0..=piece.len() {
        let (result, units, written) = encoder.encode_from_utf16_raw(
            after(piece, read),
            buffer,
            last,
        );
        read = units.wrapping_add(read);
        digest.bytes(first(buffer, written));
        if result == EncoderResult::InputEmpty {
            break;
        }
    }
    digest.number(read);
}

/// Converts a document into one buffer after the other.
fn fill_buffers(document: &[u16], bytes: &mut [u8], digest: &mut Digest) {
    let room = ROOM.min(bytes.len());
    let mut read = 0;
    for _ in 0..document.len() {
        if read == document.len() {
            break;
        }
        let (units, written) = convert_utf16_to_utf8_partial(
            after(document, read),
            &mut bytes[..room],
        );
        read = units.wrapping_add(read);
        digest.bytes(first(bytes, written));
    }
}

/// Converts the start of a document into a text, which stays well-formed.
fn fill_text(document: &[u16], text: String, digest: &mut Digest) -> String {
    let _well_formed = text.as_str();
    let mut bytes = text.into_bytes();
    let (read, written) = convert_utf16_to_str_partial(document, &mut bytes);
    digest.number(read);
    digest.bytes(first(&bytes, written));
    unsafe { String::from_utf8_unchecked(bytes) }
}
