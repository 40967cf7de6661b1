//! A service checks what it takes in before it stores it, and measures it before it converts it.

use super::windows::{after, texts, units_of, window};
use crate::digest::Digest;
use crate::random::Random;
use crate::text::Kind;
use encoding_text::count::{repaired_utf8_length, utf8_count, utf16_count};
use encoding_text::mem::{
    check_utf8_for_latin1_and_bidi, check_utf16_for_latin1_and_bidi, is_utf8_bidi, is_utf16_bidi,
    latin1_length_from_utf8, utf8_latin1_up_to, utf8_length_from_latin1, utf8_length_from_utf16,
    utf16_length_from_utf8, utf16_valid_up_to,
};
use encoding_text::utf_8::utf8_valid_up_to;
use std::alloc::{AllocError, Global};

const KINDS: [Kind; 6] = [
    Kind::Logs,
    Kind::Code,
    Kind::Json,
    Kind::Html,
    Kind::Western,
    Kind::Chinese,
];

/// The longest part that is checked at once, in bytes or code units.
const WHOLE: usize = 0x10000;

/// How many parts are checked for each that is measured.
const CHECKS: usize = 6;

/// A text in the forms that are checked.
#[derive(Drop)]
struct Forms {
    text: String,
    units: Vec<u16>,
}

pub(super) fn run(
    alloc: Global,
    rounds: u64,
    random: &mut Random,
    digest: &mut Digest,
) -> Result<(), AllocError> {
    let mut all = Vec::new(alloc);
    for text in texts(alloc, &KINDS, random)? {
        let units = units_of(alloc, text.as_str())?;
        all.push(Forms { text, units })?;
    }
    for _ in 0..rounds {
        for forms in &all {
            let bytes = forms.text.as_bytes();
            for _ in 0..CHECKS {
                check_bytes(bytes, random, digest);
                check_units(&forms.units, random, digest);
            }
            measure(bytes, &forms.units, random, digest);
        }
    }
    Ok(())
}

/// Checks a part of a text in UTF-8, whose last character may be cut.
fn check_bytes(bytes: &[u8], random: &mut Random, digest: &mut Digest) {
    let part = window(bytes, WHOLE, random);
    // a character that is cut at the start would end all checks
    let mut start = 0usize;
    for byte in part {
        if *byte & 0xC0 != 0x80 {
            break;
        }
        start = start.wrapping_add(1);
    }
    let part = after(part, start);
    digest.number(utf8_valid_up_to(part));
    digest.number(utf8_latin1_up_to(part));
    digest.flag(is_utf8_bidi(part));
    digest.number(check_utf8_for_latin1_and_bidi(part) as usize);
}

/// Checks a part of a text in UTF-16.
fn check_units(units: &[u16], random: &mut Random, digest: &mut Digest) {
    let part = window(units, WHOLE, random);
    digest.number(utf16_valid_up_to(part));
    digest.flag(is_utf16_bidi(part));
    digest.number(check_utf16_for_latin1_and_bidi(part) as usize);
}

/// Computes how much space the conversions of a part need, and how many characters it has.
fn measure(bytes: &[u8], units: &[u16], random: &mut Random, digest: &mut Digest) {
    let part = window(bytes, WHOLE, random);
    digest.number(utf16_length_from_utf8(part));
    digest.number(utf8_length_from_latin1(part));
    digest.number(utf8_count(part));
    digest.number(repaired_utf8_length(part).unwrap_or(0));
    let latin1 = &part[..utf8_latin1_up_to(part)];
    digest.number(latin1_length_from_utf8(latin1));
    let part = window(units, WHOLE, random);
    digest.number(utf8_length_from_utf16(part));
    digest.number(utf16_count(part));
}
