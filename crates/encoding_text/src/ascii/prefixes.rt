//! ASCII prefixes as conversions and validation begin with them. Two vectors test a short text. A longer one is taken
//! by whole blocks, of which the last may overlap the one before it, so that few bytes are left to a loop. One mask
//! finds the end in a block, so that no branch depends on the text.

ghost use Rattle.std.specs.Prelude.{◌≡◌, ◌+◌, ◌*◌, ◌<◌, ◌≤◌, ◌↔◌, ◌⊎◌, IsTrue, take, length};
ghost use Rattle.std.specs.Str.{IsAscii, IsUtf8};
ghost use Rattle.encoding_definitions.specs.Ascii.{IsFirstOther, prefix_length_by};
ghost use Rattle.encoding_definitions.specs.Prefixes.{IsLongestPrefix, WritesPrefix};
ghost use Rattle.encoding_kernels.specs.EndingUnits.{WritesUtf16, units_in};
ghost use Rattle.encoding_kernels.specs.Scans.{AllBelow, BelowUpTo, IsRunBelow};
ghost use Rattle.encoding_text.specs.Steps.{CopiesIfAscii};

use encoding_kernels::lengths::{BLOCK_OF_TEXT, STRIDE_OF_TEXT};
use encoding_kernels::simd::copy::{
    copy, copy_first, copy_run_of_block, pack, unpack, unpack_block, unpack_first, write_short,
};
use encoding_kernels::simd::scan::{
    BytesBelow, are_bytes_below, pass_short, prefix_after_stride, prefix_len_below,
};
pub(crate) use encoding_kernels::simd::scan::{run_len_below, run_len_by_two};
use encoding_kernels::simd::units::{UnitsBelow, are_units_below};
use encoding_kernels::simd::width::{
    ASCII_END, BASIC_LATIN_END, BLOCK, FOUR, FOUR_BLOCKS, STRIDE, TWO_BLOCKS, UNIT_BLOCK,
};

#[inline(always)]
pub(crate) fn is_short(bytes: &[u8]) -> bool
    requires { length bytes.now ≤ 128 }
    ensures { IsTrue result ↔ IsAscii bytes.now }
{
    let bound = ASCII_END;
    pass_short::<TWO_BLOCKS, _>(&BytesBelow { bytes, bound }, bytes.len())
}

#[inline(always)]
pub(crate) fn write_short_ascii<const LONGEST: usize>(src: &[u8], dst: &mut [u8]) -> bool
    requires short { (length src.now ≤ LONGEST) × (LONGEST ≤ 128) }
    requires dst_length { length src.now ≤ length dst.old }
    ensures { CopiesIfAscii src.now dst.old dst.new result }
{
    let ascii = BytesBelow {
        bytes: src,
        bound: ASCII_END,
    };
    write_short::<LONGEST, _, _>(&ascii, src.len(), dst)
}

#[inline(always)]
pub(crate) fn write_short_ascii_as_units<const LONGEST: usize>(src: &[u8], dst: &mut [u16]) -> bool
    requires short { (length src.now ≤ LONGEST) × (LONGEST ≤ 128) }
    requires dst_length { length src.now ≤ length dst.old }
    ensures { CopiesIfAscii src.now dst.old dst.new result }
{
    let ascii = BytesBelow {
        bytes: src,
        bound: ASCII_END,
    };
    write_short::<LONGEST, _, _>(&ascii, src.len(), dst)
}

#[inline(always)]
pub(crate) fn write_short_ascii_as_bytes<const LONGEST: usize>(src: &[u16], dst: &mut [u8]) -> bool
    requires short { (length src.now ≤ LONGEST) × (LONGEST ≤ 128) }
    requires dst_length { length src.now ≤ length dst.old }
    ensures { CopiesIfAscii src.now dst.old dst.new result }
{
    let ascii = UnitsBelow {
        units: src,
        bound: BASIC_LATIN_END,
    };
    write_short::<LONGEST, _, _>(&ascii, src.len(), dst)
}

/// `ALL` says that nothing but ASCII is expected: two vectors test at most 128 bytes at once. Otherwise the first block
/// comes first: between other characters most prefixes end there.
#[tactic(auto, using(encoding_kernels::proofs::ScanLemmas::prefix_before))]
#[inline(always)]
pub(crate) fn ascii_valid_up_to_by_length<const KNOWN: usize, const ALL: bool>(
    bytes: &[u8],
) -> usize
    requires known { (KNOWN ≤ length bytes.now) × BelowUpTo ASCII_END bytes.now KNOWN }
    ensures { IsLongestPrefix IsAscii bytes.now result }
{
    if ALL && bytes.len() <= TWO_BLOCKS && is_short(bytes) {
        return bytes.len();
    }
    if KNOWN < BLOCK {
        if bytes.len() < BLOCK {
            return prefix_len_below(bytes, ASCII_END);
        }
        let first = run_len_below::<BLOCK>(bytes, 0, ASCII_END);
        if first < BLOCK {
            return first;
        }
    }
    if bytes.len() > TWO_BLOCKS {
        return prefix_after_stride(bytes, ASCII_END);
    }
    let last = bytes.len() - BLOCK;
    last + run_len_below::<BLOCK>(bytes, last, ASCII_END)
}

/// Copies the longest ASCII prefix, up to the shorter of the two lengths. Returns the first byte within that length
/// that isn't ASCII and its index, or `None`.
#[inline(always)]
pub fn ascii_to_ascii(src: &[u8], dst: &mut [u8]) -> Option<(u8, usize)>
    ensures found { IsFirstOther (take (length dst.old) src.now) result }
    ensures copied { let n = prefix_length_by (take (length dst.old) src.now) result in
        WritesPrefix dst.old dst.new n (take n src.now) }
{
    let fitting = &src[..src.len().min(dst.len())];
    let (strides, _) = fitting.as_chunks::<STRIDE>();
    if let Some(first) = strides.first() {
        let run = run_len_below::<STRIDE>(first, 0, ASCII_END);
        if run < STRIDE {
            copy_first(first, dst, 0, run);
            return Some((fitting[run], run));
        }
    }
    let (fours, _) = strides.as_chunks::<FOUR>();
    let mut at = 0;
    for four in fours {
        let block = four.as_flattened();
        if !are_bytes_below::<BLOCK>(block, 0, ASCII_END) {
            break;
        }
        copy::<BLOCK>(block, 0, dst, at);
        at += BLOCK;
    }
    for i in at / STRIDE..strides.len() {
        let run = run_len_below::<STRIDE>(&strides[i], 0, ASCII_END);
        if run < STRIDE {
            copy_first(&strides[i], dst, at, run);
            return Some((fitting[at + run], at + run));
        }
        copy::<STRIDE>(&strides[i], 0, dst, at);
        at += STRIDE;
    }
    for i in at..fitting.len() {
        if fitting[i] >= ASCII_END {
            return Some((fitting[i], i));
        }
        dst[i] = fitting[i];
    }
    None
}

/// Copies the longest ASCII prefix, each byte as a UTF-16 code unit, up to the shorter of the two lengths. Returns the
/// first byte within that length that isn't ASCII and its index, or `None`.
#[inline(always)]
pub fn ascii_to_basic_latin(src: &[u8], dst: &mut [u16]) -> Option<(u8, usize)>
    ensures found { IsFirstOther (take (length dst.old) src.now) result }
    ensures copied { let n = prefix_length_by (take (length dst.old) src.now) result in
        WritesPrefix dst.old dst.new n (take n src.now) }
{
    let fitting = &src[..src.len().min(dst.len())];
    let (strides, _) = fitting.as_chunks::<STRIDE>();
    if let Some(first) = strides.first() {
        let run = run_len_below::<STRIDE>(first, 0, ASCII_END);
        if run < STRIDE {
            unpack_first(first, dst, 0, run);
            return Some((fitting[run], run));
        }
    }
    let (fours, _) = strides.as_chunks::<FOUR>();
    let mut at = 0;
    for four in fours {
        let block = four.as_flattened();
        if !are_bytes_below::<BLOCK>(block, 0, ASCII_END) {
            break;
        }
        unpack::<BLOCK>(block, 0, dst, at);
        at += BLOCK;
    }
    for i in at / STRIDE..strides.len() {
        let run = run_len_below::<STRIDE>(&strides[i], 0, ASCII_END);
        if run < STRIDE {
            unpack_first(&strides[i], dst, at, run);
            return Some((fitting[at + run], at + run));
        }
        unpack::<STRIDE>(&strides[i], 0, dst, at);
        at += STRIDE;
    }
    for i in at..fitting.len() {
        if fitting[i] >= ASCII_END {
            return Some((fitting[i], i));
        }
        dst[i] = u16::from(fitting[i]);
    }
    None
}

/// Copies nothing if `dst` is shorter than `src`.
#[inline(always)]
pub(crate) fn copy_blocks(src: &[u8], dst: &mut [u8]) -> usize
    requires src_length { 64 ≤ length src.now }
    ensures within { result ≤ length src.now }
    ensures ascii { BelowUpTo 0x80 src.now result }
    ensures copied { WritesPrefix dst.old dst.new result (take result src.now) }
{
    if dst.len() < src.len() {
        return 0;
    }
    let last = src.len() - BLOCK;
    let mut at = 0;
    while at < last && are_bytes_below::<BLOCK>(src, at, ASCII_END) {
        copy::<BLOCK>(src, at, dst, at);
        at += BLOCK;
    }
    if at >= last && are_bytes_below::<BLOCK>(src, last, ASCII_END) {
        copy::<BLOCK>(src, last, dst, last);
        return src.len();
    }
    let place = at.min(last);
    let run = run_len_below::<BLOCK>(src, place, ASCII_END);
    copy_run_of_block(src, dst, place, run);
    place + run
}

#[inline(always)]
fn length_of_strides(length: usize) -> usize
    ensures within { (result ≤ length) × (length < result + 16) }
    ensures whole { (result ≡ length) ⊎ (16 ≤ length) }
{
    if length < STRIDE {
        length
    } else {
        length / STRIDE * STRIDE
    }
}

/// Out of line, so that the loops over blocks keep their constants in registers.
#[inline(never)]
pub(crate) fn copy_ascii_prefix(src: &[u8], dst: &mut [u8]) -> usize
    ensures prefix { IsLongestPrefix IsAscii (take (length dst.old) src.now) result }
    ensures copied { WritesPrefix dst.old dst.new result (take result src.now) }
{
    let fitting = &src[..src.len().min(dst.len())];
    if fitting.len() <= TWO_BLOCKS && write_short_ascii::<TWO_BLOCKS>(fitting, dst) {
        return fitting.len();
    }
    let whole = length_of_strides(fitting.len());
    if let Some((_, place)) = ascii_to_ascii(&fitting[..whole], dst) {
        return place;
    }
    if whole == fitting.len() {
        return whole;
    }
    let last = fitting.len() - STRIDE;
    let run = run_len_below::<STRIDE>(fitting, last, ASCII_END);
    copy_first(&fitting[last..], dst, last, run);
    last + run
}

/// Inline, for a call outside of loops.
#[inline(always)]
pub(crate) fn unpack_blocks(src: &[u8], dst: &mut [u16]) -> usize
    requires dst_length { length src.now ≤ length dst.old }
    ensures within { result ≤ length src.now }
    ensures ascii { BelowUpTo 0x80 src.now result }
    ensures stops { result + 64 ≤ length src.now → AllBelow 0x80 src.now result 64 → ⊥ }
    ensures copied { WritesPrefix dst.old dst.new result (take result src.now) }
{
    if src.len() < BLOCK || src[0] >= ASCII_END {
        return 0;
    }
    let last = src.len() - BLOCK;
    let mut at = 0;
    while at < last && are_bytes_below::<BLOCK>(src, at, ASCII_END) {
        unpack::<BLOCK>(src, at, dst, at);
        at += BLOCK;
    }
    if at >= last && are_bytes_below::<BLOCK>(src, last, ASCII_END) {
        unpack::<BLOCK>(src, last, dst, last);
        return src.len();
    }
    at
}

#[inline(always)]
pub(crate) fn pack_blocks(src: &[u16], dst: &mut [u8]) -> usize
    requires dst_length { length src.now ≤ length dst.old }
    ensures within { result ≤ length src.now }
    ensures ascii { BelowUpTo 0x80 src.now result }
    ensures copied { WritesPrefix dst.old dst.new result (take result src.now) }
{
    if src.len() < UNIT_BLOCK {
        return 0;
    }
    let last = src.len() - UNIT_BLOCK;
    let mut at = 0;
    while at < last && are_units_below::<UNIT_BLOCK>(src, at, BASIC_LATIN_END) {
        pack::<UNIT_BLOCK>(src, at, dst, at);
        at += UNIT_BLOCK;
    }
    if at >= last && are_units_below::<UNIT_BLOCK>(src, last, BASIC_LATIN_END) {
        pack::<UNIT_BLOCK>(src, last, dst, last);
        return src.len();
    }
    at
}

/// Out of line, so that callers inline `unpack_blocks`.
#[inline(never)]
pub(crate) fn unpack_rest(src: &[u8], dst: &mut [u16]) -> usize
    requires dst_length { length src.now ≤ length dst.old }
    requires other { 64 ≤ length src.now → AllBelow 0x80 src.now 0 64 → ⊥ }
    ensures prefix { IsLongestPrefix IsAscii src.now result }
    ensures copied { WritesPrefix dst.old dst.new result (take result src.now) }
{
    if src.len() >= BLOCK {
        let run = run_len_below::<BLOCK>(src, 0, ASCII_END);
        write_short_ascii_as_units::<BLOCK>(&src[..run], dst);
        return run;
    }
    let whole = length_of_strides(src.len());
    if let Some((_, place)) = ascii_to_basic_latin(&src[..whole], dst) {
        return place;
    }
    if whole == src.len() {
        return whole;
    }
    let last = src.len() - STRIDE;
    let run = run_len_below::<STRIDE>(src, last, ASCII_END);
    unpack_first(&src[last..], dst, last, run);
    last + run
}

#[inline(always)]
pub(crate) fn unpack_ascii_prefix(src: &[u8], dst: &mut [u16]) -> usize
    requires dst_length { length src.now ≤ length dst.old }
    ensures prefix { IsLongestPrefix IsAscii src.now result }
    ensures copied { WritesPrefix dst.old dst.new result (take result src.now) }
{
    let at = unpack_blocks(src, dst);
    if at == src.len() || src[at] >= ASCII_END {
        return at;
    }
    at + unpack_rest(&src[at..], &mut dst[at..])
}

/// Test the first byte before calling this in a loop: even an empty copy stores, and delays the next load.
#[inline(never)]
pub(crate) fn copy_to_basic_latin(src: &[u8], dst: &mut [u16]) -> usize
    ensures prefix { IsLongestPrefix IsAscii (take (length dst.old) src.now) result }
    ensures copied { WritesPrefix dst.old dst.new result (take result src.now) }
{
    let fitting = &src[..src.len().min(dst.len())];
    if fitting.len() <= BLOCK && write_short_ascii_as_units::<BLOCK>(fitting, dst) {
        return fitting.len();
    }
    unpack_ascii_prefix(fitting, dst)
}

/// Stores whole blocks and strides, even if ASCII ends in one: to keep what follows, it would have to load what was
/// just stored.
#[inline(always)]
pub(crate) fn copy_prefix_of_text(src: &[u8], dst: &mut [u16]) -> usize
    requires dst_length { length src.now ≤ length dst.old }
    requires text { IsUtf8 src.now }
    ensures { WritesUtf16 src.now dst.old dst.new result result (units_in src.now) }
{
    if src.is_empty() || src[0] >= ASCII_END {
        return 0;
    }
    let mut at = 0;
    while src.len() - at >= BLOCK {
        if !are_bytes_below::<BLOCK>(src, at, ASCII_END) {
            if src.len() - at < BLOCK_OF_TEXT {
                break;
            }
            let run = run_len_below::<BLOCK>(src, at, ASCII_END);
            unpack_block(src, dst, at);
            return at + run;
        }
        unpack_block(src, dst, at);
        at += BLOCK;
    }
    while src.len() - at >= STRIDE {
        let run = run_len_below::<STRIDE>(src, at, ASCII_END);
        if run < STRIDE {
            if src.len() - at < STRIDE_OF_TEXT {
                break;
            }
            unpack::<STRIDE>(src, at, dst, at);
            return at + run;
        }
        unpack::<STRIDE>(src, at, dst, at);
        at += run;
    }
    if at == src.len() || src[at] >= ASCII_END {
        return at;
    }
    at + copy_to_basic_latin(&src[at..], &mut dst[at..])
}
