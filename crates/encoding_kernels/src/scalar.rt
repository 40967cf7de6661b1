//! Single characters: the bytes of a sequence, one byte at a time (the nine rows of the Unicode Standard, Table 3-7),
//! scalar values in UTF-8 and UTF-16, and surrogates (section 3.9, UTF-16). A function that writes leaves the rest of
//! `dst` unchanged.

ghost use Rattle.std.specs.Prelude.{◌≡◌, ℕ, ◌+◌, ◌↔◌, List, [], ◌∷◌, length, IsTrue};
ghost use Rattle.std.specs.Prelude.{◌<◌, ◌≤◌, encode_utf8, IfSome, IfNone};
ghost use Rattle.encoding_definitions.specs.Sequence.{IsSequence, IsIncomplete, IsSecond, IsContinuation};
ghost use Rattle.std.specs.Char.{IsScalar, len_utf8};
ghost use Rattle.std.specs.Char.Escape.{encode_utf16};
ghost use Rattle.encoding_definitions.specs.Prefixes.{WritesPrefix};
ghost use Rattle.std.specs.Char.Utf16.{surrogate_pair_char};
ghost use Rattle.encoding_definitions.specs.Utf16.{IsHighSurrogate, IsLowSurrogate};

/// The scalar value that is written for a malformed sequence or an unpaired surrogate.
pub const REPLACEMENT_CHARACTER: u32 = 0xFFFD;

/// The code unit of U+FFFD.
pub const REPLACEMENT_UNIT: u16 = 0xFFFD;

/// The UTF-8 of U+FFFD.
pub const REPLACEMENT_UTF8: [u8; 3] = [0xEF, 0xBF, 0xBD];

pub fn begins_several(byte: u8) -> bool
    ensures { IsTrue result ↔ IsIncomplete (byte ∷ []) }
{
    byte.wrapping_sub(0xC2) < 0x33
}

pub fn is_second(lead: u8, byte: u8) -> bool
    ensures { IsTrue result ↔ IsSecond lead byte }
{
    let (least, greatest) = match lead {
        0xE0 => (0xA0, 0xBF),
        0xED => (0x80, 0x9F),
        0xF0 => (0x90, 0xBF),
        0xF4 => (0x80, 0x8F),
        0xC2..=0xF3 => (0x80, 0xBF),
        _ => return false,
    };
    least <= byte && byte <= greatest
}

pub fn is_continuation(byte: u8) -> bool
    ensures { IsTrue result ↔ IsContinuation byte }
{
    byte & 0xC0 == 0x80
}

pub fn sequence_length(lead: u8) -> usize
    ensures { (rest : List ℕ) → IsSequence (lead ∷ rest) → result ≡ 1 + length rest }
{
    match lead {
        ..=0x7F => 1,
        0x80..=0xDF => 2,
        0xE0..=0xEF => 3,
        _ => 4,
    }
}

#[inline(always)]
pub fn decode_utf8_scalar(bytes: &[u8]) -> u32
    requires sequence { IsSequence bytes.now }
    ensures scalar { IsScalar result }
    ensures spelled { encode_utf8 result ≡ bytes.now }
{
    match *bytes {
        [a] => u32::from(a),
        [a, b] => u32::from(a & 0x1F) << 6 | u32::from(b & 0x3F),
        [a, b, c] => u32::from(a & 0x0F) << 12 | u32::from(b & 0x3F) << 6 | u32::from(c & 0x3F),
        [a, b, c, d] => {
            u32::from(a & 0x07) << 18
                | u32::from(b & 0x3F) << 12
                | u32::from(c & 0x3F) << 6
                | u32::from(d & 0x3F)
        }
        _ => unreachable!(),
    }
}

#[inline(always)]
pub fn write_utf16(scalar: u32, dst: &mut [u16]) -> Option<usize>
    requires scalar { IsScalar scalar }
    ensures written { IfSome result (λ n. WritesPrefix dst.old dst.new n (encode_utf16 scalar)) }
    ensures unfit { IfNone result
        ((length dst.old < length (encode_utf16 scalar)) × (dst.new ≡ dst.old)) }
{
    if scalar < 0x10000 {
        if dst.is_empty() {
            return None;
        }
        dst[0] = scalar as u16;
        return Some(1);
    }
    if dst.len() < 2 {
        return None;
    }
    let above = scalar - 0x10000;
    dst[0] = 0xD800 | (above >> 10) as u16;
    dst[1] = 0xDC00 | (above & 0x3FF) as u16;
    Some(2)
}

#[inline(always)]
pub fn utf16_length(scalar: u32) -> usize
    ensures { result ≡ length (encode_utf16 scalar) }
{
    if scalar < 0x10000 { 1 } else { 2 }
}

#[inline(always)]
pub fn utf8_length(scalar: u32) -> usize
    ensures { result ≡ len_utf8 scalar }
{
    match scalar {
        0..0x80 => 1,
        0x80..0x800 => 2,
        0x800..0x10000 => 3,
        _ => 4,
    }
}

#[inline(always)]
pub fn write_scalar(scalar: u32, dst: &mut [u8]) -> usize
    requires scalar { scalar < 0x110000 }
    requires dst_length { len_utf8 scalar ≤ length dst.old }
    ensures { WritesPrefix dst.old dst.new result (encode_utf8 scalar) }
{
    if scalar < 0x80 {
        dst[0] = scalar as u8;
        return 1;
    }
    let last = 0x80 | (scalar & 0x3F) as u8;
    if scalar < 0x800 {
        dst[0] = 0xC0 | (scalar >> 6) as u8;
        dst[1] = last;
        return 2;
    }
    let third = 0x80 | ((scalar >> 6) & 0x3F) as u8;
    if scalar < 0x10000 {
        dst[0] = 0xE0 | (scalar >> 12) as u8;
        dst[1] = third;
        dst[2] = last;
        return 3;
    }
    dst[0] = 0xF0 | (scalar >> 18) as u8;
    dst[1] = 0x80 | ((scalar >> 12) & 0x3F) as u8;
    dst[2] = third;
    dst[3] = last;
    4
}

#[inline(always)]
pub fn is_surrogate(unit: u16) -> bool
    ensures { IsTrue result ↔ ((0xD800 ≤ unit) × (unit ≤ 0xDFFF)) }
{
    unit & 0xF800 == 0xD800
}

#[inline(always)]
pub fn is_high_surrogate(unit: u16) -> bool
    ensures { IsTrue result ↔ IsHighSurrogate unit }
{
    unit & 0xFC00 == 0xD800
}

#[inline(always)]
pub fn is_low_surrogate(unit: u16) -> bool
    ensures { IsTrue result ↔ IsLowSurrogate unit }
{
    unit & 0xFC00 == 0xDC00
}

#[inline(always)]
pub fn pair_scalar(high: u16, low: u16) -> u32
    requires high { IsHighSurrogate high }
    requires low { IsLowSurrogate low }
    ensures { result ≡ surrogate_pair_char high low }
{
    0x10000 + ((u32::from(high) - 0xD800) << 10) + (u32::from(low) - 0xDC00)
}
