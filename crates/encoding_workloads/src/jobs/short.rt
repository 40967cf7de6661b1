//! Names, keys, attributes and fields: short texts of any length and alignment go through the calls one after the other.

ghost use Rattle.std.specs.Prelude.{◌≤◌, ◌<◌, ◌+◌, ◌-◌, length};

use super::windows::{first, space_after, texts};
use crate::digest::Digest;
use crate::random::Random;
use crate::text::Kind;
use encoding_runs::repair::{Watch, repair_slice};
use encoding_text::decoder::Utf8Decoder;
use encoding_text::mem::{
    convert_latin1_to_utf8_partial, convert_str_to_utf16, convert_utf16_to_utf8_partial, is_ascii,
    is_utf8_bidi, is_utf8_latin1, utf8_length_from_utf16, utf16_length_from_utf8,
};
use encoding_text::utf_8::utf8_valid_up_to;
use std::alloc::{AllocError, Global};

/// Most names are ASCII, some Western European, some Chinese.
const KINDS: [Kind; 3] = [Kind::Names, Kind::Western, Kind::Chinese];

/// The longest name, in bytes.
const LONGEST: usize = 64;

/// How many names a round takes.
const NAMES: usize = 256;

/// The space for the names of a round, in units of any encoding.
const ARENA: usize = 4 * NAMES * LONGEST;

/// Where the converted names of a round are stored, one after the other.
#[derive(Drop)]
struct Arena {
    units: Vec<u16>,
    units_length: usize,
    bytes: Vec<u8>,
    bytes_length: usize,
    repaired: Vec<u8>,
}

pub(super) fn run(
    alloc: Global,
    rounds: u64,
    random: &mut Random,
    digest: &mut Digest,
) -> Result<(), AllocError> {
    let texts = texts(alloc, &KINDS, random)?;
    let mut arena = Arena {
        units: vec![in alloc; 0; ARENA]?,
        units_length: 0,
        bytes: vec![in alloc; 0; ARENA]?,
        bytes_length: 0,
        repaired: Vec::with_capacity(alloc, ARENA)?,
    };
    for _ in 0..rounds {
        arena.units_length = 0;
        arena.bytes_length = 0;
        arena.repaired.clear();
        let mut results = 0usize;
        for _ in 0..NAMES {
            let which = match random.below(32) {
                0..26 => 0,
                26..30 => 1,
                _ => 2,
            };
            if let Some(text) = texts.get(which) {
                let name = any_name(text.as_str(), random);
                results = results.rotate_left(7) ^ take_in(name, &mut arena);
            }
        }
        digest.number(results);
        digest.units(first(&arena.units, arena.units_length));
        digest.bytes(first(&arena.bytes, arena.bytes_length));
        digest.bytes(&arena.repaired);
    }
    Ok(())
}

/// Returns a part of 3 to 64 bytes of the text, or a little less: whole characters.
fn any_name<'a>(text: &'a str, random: &mut Random) -> &'a str {
    let numbers = random.next() as usize;
    let length = 3 + numbers % (LONGEST - 2);
    if text.len() <= LONGEST {
        return "";
    }
    let start = text.floor_char_boundary((numbers >> 16) % (text.len() - LONGEST));
    let end = text.floor_char_boundary(start + length);
    text.get(start..end).unwrap_or("")
}

/// Passes a name through the calls, and returns what they return.
fn take_in(name: &str, arena: &mut Arena) -> usize {
    let bytes = name.as_bytes();
    let mut results = utf8_valid_up_to(bytes);
    results = results.rotate_left(9) ^ utf16_length_from_utf8(bytes);
    results = results.rotate_left(9) ^ usize::from(is_ascii(bytes));
    results = results.rotate_left(9) ^ usize::from(is_utf8_latin1(bytes));
    results = results.rotate_left(9) ^ usize::from(is_utf8_bidi(bytes));
    if let Ok(replaced) = repair_slice(bytes, &mut Watch::new(&mut arena.repaired)) {
        results = results.rotate_left(9) ^ replaced as usize;
    }
    results.rotate_left(9) ^ convert(name, arena)
}

/// Converts a name there and back, and returns the lengths.
fn convert(name: &str, arena: &mut Arena) -> usize {
    let bytes = name.as_bytes();
    let at = arena.units_length;
    let units = space_after(&mut arena.units, at);
    if units.len() / 2 <= bytes.len() {
        return 0;
    }
    let written = convert_str_to_utf16(name, units);
    let space = space_after(&mut arena.bytes, arena.bytes_length);
    let converted = first(units, written);
    let length = utf8_length_from_utf16(converted);
    let (read, count) = convert_utf16_to_utf8_partial(converted, space);
    let (latin1_read, more) = convert_latin1_to_utf8_partial(bytes, space_after(space, count));
    let mut decoder = Utf8Decoder::new_inner();
    let (_, decoded, again) = decoder.decode_to_utf16_raw(bytes, space_after(units, written), true);
    arena.bytes_length = arena.bytes_length.wrapping_add(count).wrapping_add(more);
    arena.units_length = at.wrapping_add(written).wrapping_add(again);
    (length ^ (read << 8)) ^ ((latin1_read << 16) ^ (decoded << 24))
}
