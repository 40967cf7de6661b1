//! What the next bytes start with.
ghost use Rattle.std.specs.Prelude.{◌≡◌, ◌<◌, ◌≤◌, ℕ, true, false, length, take, drop, IsTrue, IfSome};
ghost use Rattle.std.specs.Char.{IsScalar};
ghost use Rattle.std.specs.Char.Escape.{encode_utf16};
ghost use Rattle.encoding_text.specs.Utf16Bytes.{unit_bytes, utf16_bytes};
ghost use Rattle.encoding_streams.specs.Utf16Parts.{IsMalformedUtf16, IsPendingUtf16};
ghost use Rattle.encoding_streams.specs.Utf16Steps.{IsFirstOf};

use encoding_kernels::scalar::{is_low_surrogate, is_surrogate, pair_scalar};
use encoding_text::utf_16::ByteOrder;

/// How many bytes show what comes next: those of the longest character.
pub(super) const WINDOW: usize = 4;

/// What bytes start with.
#[derive(Drop)]
pub(super) enum First {
    /// Characters, of this many of these code units.
    Characters([u16; 2], usize),
    /// An unpaired surrogate.
    Unpaired,
    /// Nothing, or the start of a character, and the bytes end.
    Incomplete,
}

/// Returns the code unit of two bytes.
#[inline(always)]
fn unit_of(order: ByteOrder, bytes: [u8; 2]) -> u16
    ensures { unit_bytes order result ≡ bytes }
{
    match order {
        ByteOrder::LittleEndian => u16::from_le_bytes(bytes),
        ByteOrder::BigEndian => u16::from_be_bytes(bytes),
    }
}

/// Returns what the bytes start with.
#[inline(always)]
pub(super) fn first_of(order: ByteOrder, bytes: &[u8]) -> First
    requires at_most_four { length bytes.now ≤ 4 }
    ensures { IsFirstOf order bytes.now result }
{
    if bytes.len() < 2 {
        return First::Incomplete;
    }
    let first = unit_of(order, [bytes[0], bytes[1]]);
    if !is_surrogate(first) {
        return First::Characters([first, 0], 1);
    }
    if is_low_surrogate(first) {
        return First::Unpaired;
    }
    if bytes.len() < WINDOW {
        return First::Incomplete;
    }
    let second = unit_of(order, [bytes[2], bytes[3]]);
    if !is_low_surrogate(second) {
        return First::Unpaired;
    }
    First::Characters([first, second], 2)
}

/// Returns whether the bytes are the start of a character that isn't whole, or none.
#[inline(always)]
pub(crate) fn is_incomplete(order: ByteOrder, bytes: &[u8]) -> bool
    requires at_most_four { length bytes.now ≤ 4 }
    ensures yes { result ≡ true → IsPendingUtf16 order bytes.now }
    ensures no { result ≡ false → IsPendingUtf16 order bytes.now → ⊥ }
{
    matches!(first_of(order, bytes), First::Incomplete)
}

/// Returns whether the bytes have no character that is worth a conversion: they are fewer than four, or start with an
/// unpaired surrogate.
#[inline(always)]
pub(super) fn is_for_resume(order: ByteOrder, src: &[u8]) -> bool
    ensures { IsTrue result → 4 ≤ length src.now
        → IsMalformedUtf16 order (take 2 src.now) (drop 2 src.now) false }
{
    if src.len() < WINDOW {
        return true;
    }
    match first_of(order, &src[..WINDOW]) {
        First::Unpaired => true,
        _ => false,
    }
}

/// Returns the scalar value of the first character and its length in bytes, or `None` if the bytes start with no whole
/// one.
#[inline(always)]
pub(super) fn first_scalar(order: ByteOrder, src: &[u8]) -> Option<(u32, usize)>
    ensures { IfSome result (λ first. IsScalar first.0 × (first.1 ≤ length src.now)
        × (utf16_bytes order (encode_utf16 first.0) ≡ take first.1 src.now) × (0 < first.1)) }
{
    if src.len() < 2 {
        return None;
    }
    let first = unit_of(order, [src[0], src[1]]);
    if !is_surrogate(first) {
        return Some((u32::from(first), 2));
    }
    if is_low_surrogate(first) || src.len() < WINDOW {
        return None;
    }
    let second = unit_of(order, [src[2], src[3]]);
    if !is_low_surrogate(second) {
        return None;
    }
    Some((pair_scalar(first, second), WINDOW))
}

/// Returns whether the first code unit is ASCII.
#[inline(always)]
pub(super) fn begins_with_ascii(order: ByteOrder, src: &[u8]) -> bool
    ensures { IsTrue result
        → (unit : ℕ) × (unit < 0x80) × (unit_bytes order unit ≡ take 2 src.now) }
{
    src.len() >= 2 && unit_of(order, [src[0], src[1]]) < 0x80
}

/// Returns whether the first code unit is a surrogate.
#[inline(always)]
pub(super) fn begins_with_surrogate(order: ByteOrder, src: &[u8]) -> bool {
    src.len() >= 2 && is_surrogate(unit_of(order, [src[0], src[1]]))
}
