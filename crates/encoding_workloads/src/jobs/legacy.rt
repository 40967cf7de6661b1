//! Old files and databases, and engines with strings of one byte: Latin1, and UTF-16 in bytes.

ghost use Rattle.std.specs.Prelude.{◌≤◌, ◌<◌, ◌+◌, ◌-◌, length};

use super::windows::{first, latin1_of, text_window, units_of, window};
use crate::digest::Digest;
use crate::random::Random;
use crate::text::{Kind, make_text};
use encoding_text::mem::{
    CowBytes, CowStr, convert_latin1_to_utf8, convert_latin1_to_utf16,
    convert_utf8_to_latin1_lossy, convert_utf16_to_latin1_lossy, decode_latin1,
    encode_latin1_lossy, is_utf8_latin1,
};
use encoding_text::utf_16::{ByteOrder, decode_utf16_bytes, encode_utf16_bytes};
use std::alloc::{AllocError, Global};

/// The longest part that is converted at once, in bytes or code units.
const WHOLE: usize = 0x10000;

/// A text in the forms that old files and engines have.
#[derive(Drop)]
struct Forms {
    text: String,
    latin1: Vec<u8>,
    units: Vec<u16>,
}

/// Where results are written.
#[derive(Drop)]
struct Space {
    bytes: Vec<u8>,
    units: Vec<u16>,
}

pub(super) fn run(
    alloc: Global,
    rounds: u64,
    random: &mut Random,
    digest: &mut Digest,
) -> Result<(), AllocError> {
    let western = make_forms(alloc, Kind::Western, random)?;
    let code = make_forms(alloc, Kind::Code, random)?;
    let mixed = units_of(
        alloc,
        make_text(alloc, Kind::Html, super::TEXT, random)?.as_str(),
    )?;
    let mut space = Space {
        bytes: vec![in alloc; 0; 2 * WHOLE]?,
        units: vec![in alloc; 0; WHOLE]?,
    };
    for _ in 0..rounds {
        convert_latin1(&western, &mut space, random, digest);
        convert_latin1(&code, &mut space, random, digest);
        own_latin1(alloc, &western, random, digest)?;
        own_latin1(alloc, &code, random, digest)?;
        convert_bytes(
            window(&mixed, WHOLE, random),
            ByteOrder::LittleEndian,
            &mut space,
            digest,
        );
        convert_bytes(
            window(&mixed, WHOLE, random),
            ByteOrder::BigEndian,
            &mut space,
            digest,
        );
    }
    Ok(())
}

/// Returns a text that is Latin1, in each form.
fn make_forms(alloc: Global, kind: Kind, random: &mut Random) -> Result<Forms, AllocError> {
    let text = make_text(alloc, kind, super::TEXT, random)?;
    let units = units_of(alloc, text.as_str())?;
    let latin1 = latin1_of(alloc, text.as_str())?;
    Ok(Forms {
        text,
        latin1,
        units,
    })
}

/// Converts parts of a text between Latin1, UTF-8 and UTF-16.
fn convert_latin1(forms: &Forms, space: &mut Space, random: &mut Random, digest: &mut Digest) {
    let part = window(&forms.latin1, WHOLE, random);
    if space.bytes.len() / 2 >= part.len() {
        let written = convert_latin1_to_utf8(part, &mut space.bytes);
        digest.bytes(first(&space.bytes, written));
    }
    let part = text_window(forms.text.as_str(), WHOLE, random).as_bytes();
    if is_utf8_latin1(part) && space.bytes.len() >= part.len() {
        let written = convert_utf8_to_latin1_lossy(part, &mut space.bytes);
        digest.bytes(first(&space.bytes, written));
    }
    let part = window(&forms.latin1, WHOLE, random);
    if space.units.len() >= part.len() {
        convert_latin1_to_utf16(part, &mut space.units);
        digest.units(first(&space.units, part.len()));
    }
    let part = window(&forms.units, WHOLE, random);
    if space.bytes.len() >= part.len() {
        convert_utf16_to_latin1_lossy(part, &mut space.bytes);
        digest.bytes(first(&space.bytes, part.len()));
    }
}

/// Converts parts of a text to results of their own.
fn own_latin1(
    alloc: Global,
    forms: &Forms,
    random: &mut Random,
    digest: &mut Digest,
) -> Result<(), AllocError> {
    match decode_latin1(alloc, window(&forms.latin1, WHOLE, random))? {
        CowStr::Borrowed(text) => digest.bytes(text.as_bytes()),
        CowStr::Owned(text) => digest.bytes(text.as_bytes()),
    }
    let part = text_window(forms.text.as_str(), WHOLE, random);
    if !is_utf8_latin1(part.as_bytes()) {
        return Ok(());
    }
    match encode_latin1_lossy(alloc, part)? {
        CowBytes::Borrowed(bytes) => digest.bytes(bytes),
        CowBytes::Owned(bytes) => digest.bytes(&bytes),
    }
    Ok(())
}

/// Converts code units to bytes and back.
fn convert_bytes(units: &[u16], order: ByteOrder, space: &mut Space, digest: &mut Digest) {
    let (_, written) = encode_utf16_bytes(order, units, &mut space.bytes);
    let bytes = first(&space.bytes, written);
    digest.bytes(bytes);
    let (_, count) = decode_utf16_bytes(order, bytes, &mut space.units);
    digest.units(first(&space.units, count));
}
