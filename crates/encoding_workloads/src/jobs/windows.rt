//! Parts of a text, at any offset and of any length: no call sees one input twice.

ghost use Rattle.std.specs.Prelude.{◌≤◌, ◌<◌, ◌-◌, ◌/◌, length};

use crate::random::Random;
use crate::text::{Kind, make_text};
use encoding_text::mem::convert_str_to_utf16;
use std::alloc::{AllocError, Global};

/// Returns the units from an index on, none if it is past the last.
pub(super) fn after<T>(all: &[T], from: usize) -> &[T] {
    &all[from.min(all.len())..]
}

/// Returns the units from an index on to write to, none if it is past the last.
pub(super) fn space_after<T>(all: &mut [T], from: usize) -> &mut [T] {
    let start = from.min(all.len());
    &mut all[start..]
}

/// Returns the first units, all if there are fewer.
pub(super) fn first<T>(all: &[T], count: usize) -> &[T] {
    &all[..count.min(all.len())]
}

/// Returns a length up to `most`: each of six powers of two below it is as likely.
pub(super) fn any_length(most: usize, random: &mut Random) -> usize
    requires { 64 ≤ most }
    ensures { result ≤ most }
{
    let top = match random.below(6) {
        0 => most,
        1 => most / 2,
        2 => most / 4,
        3 => most / 8,
        4 => most / 16,
        _ => most / 32,
    };
    random.between(top / 2, top)
}

/// Returns a part of the units.
pub(super) fn window<'a, T>(all: &'a [T], most: usize, random: &mut Random) -> &'a [T]
    requires { 64 ≤ most }
    ensures { (length result.now ≤ length all.now) × (length result.now ≤ most) }
{
    let length = any_length(most, random).min(all.len());
    let start = random.between(0, all.len() - length);
    &all[start..start + length]
}

/// Returns a part of the text: whole characters.
pub(super) fn text_window<'a>(all: &'a str, most: usize, random: &mut Random) -> &'a str
    requires { 64 ≤ most }
    ensures { length result.now ≤ most }
{
    let length = any_length(most, random).min(all.len());
    let start = all.floor_char_boundary(random.between(0, all.len() - length));
    let end = all.floor_char_boundary(start + length);
    match all.get(start..end) {
        Some(text) if text.len() <= most => text,
        _ => "",
    }
}

/// Returns a text of each kind.
pub(super) fn texts(
    alloc: Global,
    kinds: &[Kind],
    random: &mut Random,
) -> Result<Vec<String>, AllocError> {
    let mut texts = Vec::new(alloc);
    for kind in kinds {
        let text = make_text(alloc, *kind, super::TEXT, random)?;
        texts.push(text)?;
    }
    Ok(texts)
}

/// Returns the code units of a text.
pub(super) fn units_of(alloc: Global, text: &str) -> Result<Vec<u16>, AllocError> {
    let mut units = vec![in alloc; 0; text.len()]?;
    if units.len() >= text.len() {
        let length = convert_str_to_utf16(text, &mut units);
        units.truncate(length);
    }
    Ok(units)
}

/// Returns a text whose characters are in Latin1 in that encoding.
pub(super) fn latin1_of(alloc: Global, text: &str) -> Result<Vec<u8>, AllocError> {
    let mut latin1 = Vec::with_capacity(alloc, text.len())?;
    for character in text.chars() {
        latin1.push((u32::from(character) & 0xFF) as u8)?;
    }
    Ok(latin1)
}
