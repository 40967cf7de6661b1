//! Checks of text for right-to-left characters and for Latin1. A kernel skips blocks that certainly have no right-to-
//! left character, and what follows them is tested one by one.

ghost use Rattle.std.specs.Prelude.{◌≡◌, ◌<◌, ◌≤◌, ◌↔◌, ◌⊎◌, ℕ, length, IsTrue, IsFalse};
ghost use Rattle.std.specs.Str.{IsUtf8};
ghost use Rattle.std.specs.Int.{IsInRange};
ghost use Rattle.encoding_definitions.specs.Latin1.{IsLatin1, IsUtf8Latin1};
ghost use Rattle.encoding_definitions.specs.Bidi.{IsRightToLeft, IsRightToLeftUnit};
ghost use Rattle.encoding_definitions.specs.Bidi.{IsBidiUnits, IsBidiText, IsBidiBytes};
ghost use Rattle.encoding_text.specs.Classes.{Classifies};
ghost use Rattle.encoding_kernels.specs.RightToLeft.{rtl_second_end, rtl_mark_lead, RtlAt, NoRtlIn, NoneRightToLeft};
ghost use Rattle.encoding_kernels.specs.Scans.{BelowUpTo};

use super::checks::{LATIN1_END, str_latin1_up_to, utf8_latin1_up_to};
use crate::ascii::prefixes::ascii_valid_up_to_by_length;
use crate::utf_8::first::character_length;
use crate::utf_8::utf8_valid_up_to;
use encoding_kernels::bidi::bytes::{FIRST_LEAD, skip_clear};
use encoding_kernels::bidi::units::{FIRST_UNIT, skip_clear_units};
use encoding_kernels::scalar::decode_utf8_scalar;
use encoding_kernels::simd::scan::prefix_len_below;
use encoding_kernels::simd::units::skip_units_below;
use encoding_kernels::simd::width::{STRIDE, UNIT_STRIDE};
use encoding_kernels::tuning::VALIDATED_PIECE;

/// The first right-to-left scalar value.
const FIRST: u32 = 0x0590;

/// Whether a text is Latin1, and if not, whether it has right-to-left characters.
#[derive(Debug, PartialEq, Eq, Drop)]
pub enum Latin1Bidi {
    Latin1 = 0,
    LeftToRight = 1,
    Bidi = 2,
}

#[tactic(auto, using(encoding_definitions::proofs::BidiTextLemmas::right_to_left_from))]
fn is_right_to_left(scalar: u32) -> bool
    ensures { IsTrue result ↔ IsRightToLeft scalar }
{
    if scalar < FIRST {
        return false;
    }
    match scalar {
        0..=0x08FF => true,
        0x200F | 0x202B | 0x202E | 0x2067 => true,
        0xFB1D..=0xFDFF | 0xFE70..=0xFEFE => true,
        0x1_0800..=0x1_0FFF | 0x1_E800..=0x1_EFFF => true,
        _ => false,
    }
}

/// Returns whether the character is right-to-left.
pub fn is_char_bidi(c: char) -> bool
    ensures { IsTrue result ↔ IsRightToLeft c }
{
    is_right_to_left(u32::from(c))
}

/// Returns whether it is the high surrogate of right-to-left characters.
fn is_high_half(u: u16) -> bool
    ensures { IsTrue result ↔ (IsInRange 0xD802 0xD803 u ⊎ IsInRange 0xD83A 0xD83B u) }
{
    match u {
        0xD802 | 0xD803 | 0xD83A | 0xD83B => true,
        _ => false,
    }
}

/// Returns whether the UTF-16 code unit is a right-to-left character, or the high surrogate of one.
#[tactic(auto, using(crate::proofs::DefinitionRules::bidi_units))]
pub fn is_utf16_code_unit_bidi(u: u16) -> bool
    ensures { IsTrue result ↔ IsRightToLeftUnit u }
{
    let unit = u32::from(u);
    if unit < FIRST {
        return false;
    }
    if is_high_half(u) {
        return true;
    }
    is_right_to_left(unit)
}

fn may_start_right_to_left(lead: u8) -> bool
    ensures { IsFalse result → (third : ℕ) → rtl_second_end lead (rtl_mark_lead third) ≡ 0 }
{
    match lead {
        0xD6..=0xE0 | 0xE2 | 0xEF | 0xF0 => true,
        _ => false,
    }
}

fn is_right_to_left_at(bytes: &[u8], at: usize) -> bool
    requires { at < length bytes.now }
    ensures { IsTrue result ↔ RtlAt bytes.now at }
{
    if !may_start_right_to_left(bytes[at]) {
        return false;
    }
    let Some(length) = character_length(&bytes[at..]) else {
        return false;
    };
    is_right_to_left(decode_utf8_scalar(&bytes[at..at + length]))
}

fn has_right_to_left_between(bytes: &[u8], from: usize, to: usize) -> bool
    requires { (from ≤ to) × (to ≤ length bytes.now) }
    ensures found { IsTrue result → (k : ℕ) × (k < length bytes.now) × RtlAt bytes.now k }
    ensures no_right_to_left { IsFalse result → NoRtlIn bytes.now from to }
{
    for at in from..to {
        if is_right_to_left_at(bytes, at) {
            return true;
        }
    }
    false
}

fn has_right_to_left(bytes: &[u8]) -> bool
    requires { IsUtf8 bytes.now }
    ensures { IsTrue result ↔ IsBidiText bytes.now }
{
    let mut at = prefix_len_below(bytes, FIRST_LEAD);
    while at < bytes.len() {
        let from = skip_clear(bytes, at);
        at = from + STRIDE.min(bytes.len() - from);
        if has_right_to_left_between(bytes, from, at) {
            return true;
        }
    }
    false
}

/// Returns whether a character of the text is right-to-left.
pub fn is_str_bidi(buffer: &str) -> bool
    ensures { IsTrue result ↔ IsBidiText buffer.now }
{
    has_right_to_left(buffer.as_bytes())
}

/// Returns whether the bytes are not well-formed UTF-8, or one of their characters is right-to-left.
pub fn is_utf8_bidi(buffer: &[u8]) -> bool
    ensures { IsTrue result ↔ IsBidiBytes buffer.now }
{
    let mut rest = buffer;
    loop {
        // first by whole blocks: the ASCII, and a piece after it
        let prefix = ascii_valid_up_to_by_length::<0, true>(rest);
        if prefix == rest.len() {
            return false;
        }
        rest = &rest[prefix..];
        let valid = utf8_valid_up_to(&rest[..VALIDATED_PIECE.min(rest.len())]);
        if has_right_to_left(&rest[..valid]) {
            return true;
        }
        rest = &rest[valid..];
        if rest.is_empty() {
            return false;
        }
        let Some(length) = character_length(rest) else {
            return true;
        };
        if is_right_to_left(decode_utf8_scalar(&rest[..length])) {
            return true;
        }
        rest = &rest[length..];
    }
}

/// Tests fewer than eight units only if the first is low: text of other scripts seldom begins with one.
#[inline(always)]
fn skip_low_units(units: &[u16]) -> usize
    ensures within { result ≤ length units.now }
    ensures below { BelowUpTo FIRST_UNIT units.now result }
{
    if units.len() < UNIT_STRIDE && (units.is_empty() || units[0] >= FIRST_UNIT) {
        return 0;
    }
    skip_units_below(units, FIRST_UNIT)
}

/// `skip_clear_units`, except that it skips nothing in fewer than eight units: testing these one by one is cheaper.
#[inline(always)]
fn skip_by_vectors(units: &[u16], from: usize) -> usize
    requires { from ≤ length units.now }
    ensures within { (from ≤ result) × (result ≤ length units.now) }
    ensures no_right_to_left { NoneRightToLeft units.now from result }
{
    if units.len() < UNIT_STRIDE {
        return from;
    }
    skip_clear_units(units, from)
}

/// Returns whether a character of the UTF-16 code units is right-to-left, or an unpaired high surrogate may be half of
/// one.
pub fn is_utf16_bidi(buffer: &[u16]) -> bool
    ensures { IsTrue result ↔ IsBidiUnits buffer.now }
{
    let mut at = skip_low_units(buffer);
    while at < buffer.len() {
        let from = skip_by_vectors(buffer, at);
        at = from + UNIT_STRIDE.min(buffer.len() - from);
        for i in from..at {
            if is_utf16_code_unit_bidi(buffer[i]) {
                return true;
            }
        }
    }
    false
}

/// Returns `Latin1` if the bytes are the UTF-8 of scalar values up to U+00FF, otherwise `Bidi` if `is_utf8_bidi` holds,
/// and otherwise `LeftToRight`.
pub fn check_utf8_for_latin1_and_bidi(buffer: &[u8]) -> Latin1Bidi
    ensures { Classifies (IsUtf8Latin1 buffer.now) (IsBidiBytes buffer.now) result }
{
    let prefix = utf8_latin1_up_to(buffer);
    if prefix == buffer.len() {
        return Latin1Bidi::Latin1;
    }
    if is_utf8_bidi(&buffer[prefix..]) {
        Latin1Bidi::Bidi
    } else {
        Latin1Bidi::LeftToRight
    }
}

/// Returns `Latin1` if the scalar values of the text are each up to U+00FF, otherwise `Bidi` if `is_str_bidi` holds,
/// and otherwise `LeftToRight`.
pub fn check_str_for_latin1_and_bidi(buffer: &str) -> Latin1Bidi
    ensures { Classifies (IsUtf8Latin1 buffer.now) (IsBidiText buffer.now) result }
{
    let prefix = str_latin1_up_to(buffer);
    if prefix == buffer.len() {
        return Latin1Bidi::Latin1;
    }
    if is_str_bidi(&buffer[prefix..]) {
        Latin1Bidi::Bidi
    } else {
        Latin1Bidi::LeftToRight
    }
}

/// Returns `Latin1` if each UTF-16 code unit is up to 0x00FF, otherwise `Bidi` if `is_utf16_bidi` holds, and otherwise
/// `LeftToRight`.
pub fn check_utf16_for_latin1_and_bidi(buffer: &[u16]) -> Latin1Bidi
    ensures { Classifies (IsLatin1 buffer.now) (IsBidiUnits buffer.now) result }
{
    let prefix = skip_units_below(buffer, LATIN1_END);
    if prefix == buffer.len() {
        return Latin1Bidi::Latin1;
    }
    if is_utf16_bidi(&buffer[prefix..]) {
        Latin1Bidi::Bidi
    } else {
        Latin1Bidi::LeftToRight
    }
}
