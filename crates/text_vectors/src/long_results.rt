//! Long results of Latin1: borrowed without memory, owned with one allocation and no leak, and failed allocations,
//! whose memory is available again.

use encoding_text::mem::{CowBytes, CowStr, decode_latin1, encode_latin1_lossy, is_str_latin1};
use std::alloc::{AllocError, Global};
use std::test::Fail;
use test_support::memory::exhaust;

/// Returns the text whose characters are the bytes, by `std`.
fn text_of(alloc: Global, bytes: &[u8]) -> Result<String, AllocError> {
    let mut text = String::new(alloc);
    for byte in bytes {
        text.push(char::from(*byte))?;
    }
    Ok(text)
}

/// Returns whether the bytes are decoded to their text, which is owned and has this capacity.
fn is_decoded(alloc: Global, bytes: &[u8], capacity: usize) -> Result<bool, AllocError> {
    let text = text_of(alloc, bytes)?;
    match decode_latin1(alloc, bytes)? {
        CowStr::Owned(owned) => Ok(owned == text && owned.capacity() == capacity),
        CowStr::Borrowed(_) => Ok(false),
    }
}

/// Returns whether the text of the bytes is encoded to them, and they are owned, and have the capacity of their text.
fn is_encoded(alloc: Global, bytes: &[u8]) -> Result<bool, AllocError> {
    let text = text_of(alloc, bytes)?;
    if !is_str_latin1(&text) {
        return Ok(false);
    }
    match encode_latin1_lossy(alloc, &text)? {
        CowBytes::Owned(owned) => {
            Ok(owned.as_slice() == bytes && owned.capacity() == text.len())
        }
        CowBytes::Borrowed(_) => Ok(false),
    }
}

/// Returns letters, and then other bytes, from the first one up to FF and from 00 again.
fn mixed(
    alloc: Global,
    letters: usize,
    first: usize,
    others: usize,
) -> Result<Vec<u8>, AllocError> {
    let mut bytes = Vec::new(alloc);
    for _ in 0..letters {
        bytes.push(0x61)?;
    }
    for other in 0..others {
        bytes.push((first.wrapping_add(other) & 0xFF) as u8)?;
    }
    Ok(bytes)
}

/// Letters, others and the first of them, and the capacity: a byte for each in the ASCII prefix, two for each after it.
#[test]
fn one_growth_for_long_results(rt: HostRuntime) -> Result<(), Fail> {
    for (letters, others, first, capacity) in [
        (100, 1, 0xE4, 102),
        (1500, 100, 0x80, 1700),
        (0, 5000, 0, 128 + 2 * 4872),
        (10_001, 1, 0xFF, 10_003),
        (0, 50_000, 0x80, 100_000),
        (0, 1_048_589, 0x80, 2_097_178),
    ] {
        let bytes = mixed(rt.alloc(), letters, first, others)?;
        assert!(rt;
            is_decoded(rt.alloc(), &bytes, capacity)? && is_encoded(rt.alloc(), &bytes)?,
            "{letters}, {others}"
        );
    }
    Ok(())
}

/// Returns whether both calls fail if all that is left is a block of `length` bytes, which is available again then, and
/// nothing else. The block is longer than those that an allocator reserves for requests of exactly their length.
fn leaves_a_block(alloc: Global, bytes: &[u8], length: usize) -> Result<bool, AllocError> {
    let text = text_of(alloc, bytes)?;
    if !is_str_latin1(&text) {
        return Ok(false);
    }
    let block = Vec::<u8>::with_capacity(alloc, length)?;
    let taken = exhaust(alloc)?;
    drop(block);
    let decoded = decode_latin1(alloc, bytes);
    let encoded = encode_latin1_lossy(alloc, &text);
    let again = Vec::<u8>::with_capacity(alloc, length);
    let other = Vec::<u8>::with_capacity(alloc, 1);
    drop(taken);
    let refused = decoded == Err(AllocError) && encoded == Err(AllocError);
    Ok(refused && again.is_ok() && other.is_err())
}

/// Letters, others and the first of them, the block, and the capacity. The block is shorter than what the calls
/// request, and longer than the ASCII prefix. With memory again both succeed.
#[test]
fn a_refusal_leaves_the_memory(rt: HostRuntime) -> Result<(), Fail> {
    for (letters, others, first, length, capacity) in [
        (0, 5000, 0, 2000, 128 + 2 * 4872),
        (1500, 100, 0x80, 1600, 1700),
        (10_001, 100, 0x80, 10_100, 10_201),
    ] {
        let bytes = mixed(rt.alloc(), letters, first, others)?;
        for _ in 0..3 {
            let holds = leaves_a_block(rt.alloc(), &bytes, length)?
                && is_decoded(rt.alloc(), &bytes, capacity)?
                && is_encoded(rt.alloc(), &bytes)?;
            assert!(rt; holds, "{letters}, {others}");
        }
    }
    Ok(())
}

/// Letters need no memory, even if none is left.
#[test]
fn long_letters_take_no_memory(rt: HostRuntime) -> Result<(), Fail> {
    for length in [1, 10_000, 10_001, 100_000, 1_048_589] {
        let bytes = mixed(rt.alloc(), length, 0, 0)?;
        assert!(rt; are_borrowed(rt.alloc(), &bytes)?, "{length}");
    }
    Ok(())
}

/// Returns whether both calls borrow their input if no memory is left.
fn are_borrowed(alloc: Global, bytes: &[u8]) -> Result<bool, AllocError> {
    let text = text_of(alloc, bytes)?;
    if !is_str_latin1(&text) {
        return Ok(false);
    }
    let taken = exhaust(alloc)?;
    let decoded = decode_latin1(alloc, bytes);
    let encoded = encode_latin1_lossy(alloc, &text);
    drop(taken);
    Ok(decoded == Ok(CowStr::Borrowed(&text)) && encoded == Ok(CowBytes::Borrowed(bytes)))
}

/// Two blocks of a length, all memory that is left.
#[derive(Drop)]
struct TwoBlocks {
    taken: Vec<Vec<u8>>,
    length: usize,
}

/// Takes all memory but two blocks of this length.
fn leave_two(alloc: Global, length: usize) -> Result<TwoBlocks, AllocError> {
    let first = Vec::<u8>::with_capacity(alloc, length)?;
    let second = Vec::<u8>::with_capacity(alloc, length)?;
    let taken = exhaust(alloc)?;
    drop(first);
    drop(second);
    Ok(TwoBlocks { taken, length })
}

impl TwoBlocks {
    /// Returns whether exactly `count` of the blocks can be allocated.
    fn are_left(&self, alloc: Global, count: usize) -> bool {
        let first = Vec::<u8>::with_capacity(alloc, self.length);
        let second = Vec::<u8>::with_capacity(alloc, self.length);
        let third = Vec::<u8>::with_capacity(alloc, self.length);
        first.is_ok() == (count > 0) && second.is_ok() == (count > 1) && third.is_err()
    }
}

/// Returns whether decoding takes one block of two, and releases it with its text.
fn decoding_takes_one(alloc: Global, bytes: &[u8], length: usize) -> Result<bool, AllocError> {
    let blocks = leave_two(alloc, length)?;
    let before = blocks.are_left(alloc, 2);
    let decoded = decode_latin1(alloc, bytes);
    let during = decoded.is_ok() && blocks.are_left(alloc, 1);
    drop(decoded);
    let following = blocks.are_left(alloc, 2);
    drop(blocks);
    Ok(before && during && following)
}

/// Returns whether encoding takes one block of two, and releases it with its bytes.
fn encoding_takes_one(alloc: Global, bytes: &[u8], length: usize) -> Result<bool, AllocError> {
    let text = text_of(alloc, bytes)?;
    if !is_str_latin1(&text) {
        return Ok(false);
    }
    let blocks = leave_two(alloc, length)?;
    let before = blocks.are_left(alloc, 2);
    let encoded = encode_latin1_lossy(alloc, &text);
    let during = encoded.is_ok() && blocks.are_left(alloc, 1);
    drop(encoded);
    let following = blocks.are_left(alloc, 2);
    drop(blocks);
    Ok(before && during && following)
}

/// Letters, others and the first of them, and the capacity, which is the length of either block. More than once, so
/// that leaks would add up.
#[test]
fn a_success_leaves_nothing_after(rt: HostRuntime) -> Result<(), Fail> {
    for (letters, others, first, length) in [
        (1500, 100, 0x80, 1700),
        (0, 2500, 0x80, 5000),
        (10_001, 100, 0x80, 10_201),
    ] {
        let bytes = mixed(rt.alloc(), letters, first, others)?;
        for _ in 0..3 {
            let holds = decoding_takes_one(rt.alloc(), &bytes, length)?
                && encoding_takes_one(rt.alloc(), &bytes, length)?;
            assert!(rt; holds, "{letters}, {others}");
        }
    }
    Ok(())
}
