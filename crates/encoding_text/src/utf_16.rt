//! UTF-16BE and UTF-16LE: Unicode Standard, section 3.10, and Encoding Standard, sections 14.2 to 14.4. Each code unit
//! is two bytes. A call leaves the rest of `dst` unchanged.

ghost use Rattle.std.specs.Prelude.{◌≡◌, ℕ, ◌+◌, ◌*◌, ◌/◌, ◌++◌, ◌<◌, ◌≤◌, true};
ghost use Rattle.std.specs.Prelude.{List, length, min, take, drop, encode_utf8};
ghost use Rattle.std.specs.Char.{IsScalar};
ghost use Rattle.std.specs.Char.Escape.{encode_utf16};
ghost use Rattle.std.specs.List.{flat_map};
ghost use Rattle.std.specs.Str.{IsAscii, all_scalars};
ghost use Rattle.encoding_definitions.specs.Prefixes.{WritesPrefix};
ghost use Rattle.encoding_text.specs.Utf16Bytes.{bytes_of_scalars, unit_bytes, utf16_bytes};

use encoding_kernels::utf16::bytes::copy_ascii_units;
use encoding_kernels::utf16::source::UnitBytes;
use encoding_kernels::utf16_to_utf8::bytes::convert_up_to_unpaired;

/// The order of the two bytes of a code unit.
#[derive(Clone, Copy, Debug, PartialEq, Eq, Drop)]
pub enum ByteOrder {
    /// UTF-16LE: the less significant byte comes first.
    LittleEndian,
    /// UTF-16BE: the more significant byte comes first.
    BigEndian,
}

#[inline(always)]
fn decode_unit(order: ByteOrder, bytes: [u8; 2]) -> u16
    ensures { unit_bytes order result ≡ bytes }
{
    match order {
        ByteOrder::LittleEndian => u16::from_le_bytes(bytes),
        ByteOrder::BigEndian => u16::from_be_bytes(bytes),
    }
}

#[inline(always)]
fn encode_unit(order: ByteOrder, unit: u16) -> [u8; 2]
    ensures { result ≡ unit_bytes order unit }
{
    match order {
        ByteOrder::LittleEndian => unit.to_le_bytes(),
        ByteOrder::BigEndian => unit.to_be_bytes(),
    }
}

/// Converts UTF-16LE or UTF-16BE to code units, as many as `dst` holds. Returns how many bytes were read and how many
/// code units were written. The last byte of an odd number is not read. No code unit is checked: surrogates may be
/// unpaired.
pub fn decode_utf16_bytes(order: ByteOrder, src: &[u8], dst: &mut [u16]) -> (usize, usize)
    ensures count { result.1 ≡ min (length src.now / 2) (length dst.old) }
    ensures read { result.0 ≡ 2 * result.1 }
    ensures code_units { (units : List ℕ) × (utf16_bytes order units ≡ take result.0 src.now)
        × WritesPrefix dst.old dst.new result.1 units }
{
    let count = (src.len() / 2).min(dst.len());
    for i in 0..count {
        dst[i] = decode_unit(order, [src[2 * i], src[2 * i + 1]]);
    }
    (2 * count, count)
}

/// Copies the longest ASCII prefix of UTF-16LE or UTF-16BE, each code unit as a byte, as far as `dst` holds it. Returns
/// how many code units it copied.
pub fn copy_utf16_bytes_to_ascii(order: ByteOrder, src: &[u8], dst: &mut [u8]) -> usize
    ensures read { 2 * result ≤ length src.now }
    ensures copied { (units : List ℕ) × (utf16_bytes order units ≡ take (2 * result) src.now)
        × IsAscii units × WritesPrefix dst.old dst.new result units }
    ensures stops { (unit : ℕ) (rest : List ℕ) → result < length dst.old
        → drop (2 * result) src.now ≡ unit_bytes order unit ++ rest → 0x80 ≤ unit }
{
    let count = (src.len() / 2).min(dst.len());
    let fitting = &mut dst[..count];
    match order {
        ByteOrder::LittleEndian => copy_ascii_units(false, src, fitting),
        ByteOrder::BigEndian => copy_ascii_units(true, src, fitting),
    }
}

/// Converts the first characters of UTF-16LE or UTF-16BE to UTF-8, up to the first that doesn't fit into `dst`, an
/// unpaired surrogate, or a character that the end of `src` cuts: a high surrogate or half a code unit. Returns how
/// many bytes it read and how many bytes it wrote. The rest of `dst` is unchanged. Encoding Standard, section 14.2,
/// shared UTF-16 decoder.
pub fn convert_utf16_bytes_to_utf8_up_to_invalid(
    order: ByteOrder,
    src: &[u8],
    dst: &mut [u8],
) -> (usize, usize)
    ensures read { result.0 ≤ length src.now }
    ensures converted { (scalars : List ℕ) × (all_scalars scalars ≡ true)
        × (bytes_of_scalars order scalars ≡ take result.0 src.now)
        × WritesPrefix dst.old dst.new result.1 (flat_map encode_utf8 scalars) }
    ensures stops { (scalar : ℕ) (rest : List ℕ) → IsScalar scalar
        → drop result.0 src.now ≡ utf16_bytes order (encode_utf16 scalar) ++ rest
        → length dst.old < result.1 + length (encode_utf8 scalar) }
{
    let (pairs, _) = src.as_chunks::<2>();
    match order {
        ByteOrder::LittleEndian => {
            let (units, written) = convert_up_to_unpaired(UnitBytes::<false> { pairs }, dst);
            (2 * units, written)
        }
        ByteOrder::BigEndian => {
            let (units, written) = convert_up_to_unpaired(UnitBytes::<true> { pairs }, dst);
            (2 * units, written)
        }
    }
}

/// Converts code units to UTF-16LE or UTF-16BE, as many as fit into `dst`. Returns how many code units were read and
/// how many bytes were written. No code unit is checked: surrogates may be unpaired.
pub fn encode_utf16_bytes(order: ByteOrder, src: &[u16], dst: &mut [u8]) -> (usize, usize)
    ensures count { result.0 ≡ min (length src.now) (length dst.old / 2) }
    ensures written { result.1 ≡ 2 * result.0 }
    ensures bytes { WritesPrefix dst.old dst.new result.1
        (utf16_bytes order (take result.0 src.now)) }
{
    let count = src.len().min(dst.len() / 2);
    for i in 0..count {
        let [first, second] = encode_unit(order, src[i]);
        dst[2 * i] = first;
        dst[2 * i + 1] = second;
    }
    (count, 2 * count)
}
