//! Results that borrow if they can, allocations that fail, and how many requests for memory the calls make.
//! `tests/caught` runs `counts_requests` with one request refused: first the one after all that it makes, and then the
//! last of these.

use encoding_text::mem::{CowBytes, CowStr, decode_latin1, encode_latin1_lossy, is_str_latin1};
use std::alloc::{AllocError, Global};
use std::test::Fail;
use test_support::memory::exhaust;

/// Returns whether the bytes are decoded to this.
fn decodes_to(alloc: Global, bytes: &[u8], text: CowStr<'_>) -> bool {
    decode_latin1(alloc, bytes) == Ok(text)
}

/// Returns whether the text is encoded to this.
fn encodes_to(alloc: Global, text: &str, bytes: CowBytes<'_>) -> bool {
    is_str_latin1(text) && encode_latin1_lossy(alloc, text) == Ok(bytes)
}

#[test]
fn borrows_ascii(rt: HostRuntime) {
    let holds = decodes_to(rt.alloc(), b"ab", CowStr::Borrowed("ab"))
        && decodes_to(rt.alloc(), b"", CowStr::Borrowed(""))
        && encodes_to(rt.alloc(), "ab", CowBytes::Borrowed(b"ab"));
    assert!(rt; holds);
}

#[test]
fn owns_the_rest(rt: HostRuntime) -> Result<(), Fail> {
    let text = CowStr::Owned(String::from_str(rt.alloc(), "aä")?);
    let bytes = CowBytes::Owned([0x61, 0xE4].to_vec(rt.alloc())?);
    let holds = decodes_to(rt.alloc(), &[0x61, 0xE4], text) && encodes_to(rt.alloc(), "aä", bytes);
    assert!(rt; holds);
    Ok(())
}

/// Returns whether the bytes are decoded to this, or the allocation fails, if a block of `spare` bytes is all that is
/// left, and none is left then.
fn decodes_with_spare(
    alloc: Global,
    bytes: &[u8],
    spare: usize,
    wanted: &Result<CowStr<'_>, AllocError>,
) -> Result<bool, AllocError> {
    let block = Vec::<u8>::with_capacity(alloc, spare)?;
    let taken = exhaust(alloc)?;
    drop(block);
    let text = decode_latin1(alloc, bytes);
    let refused = Vec::<u8>::with_capacity(alloc, 1).is_err();
    drop(taken);
    Ok(refused && text == *wanted)
}

/// Returns whether the text is encoded to this if a block of `spare` bytes is all that is left, and none is left then.
fn encodes_with_spare(
    alloc: Global,
    text: &str,
    spare: usize,
    wanted: &Result<CowBytes<'_>, AllocError>,
) -> Result<bool, AllocError> {
    if !is_str_latin1(text) {
        return Ok(false);
    }
    let block = Vec::<u8>::with_capacity(alloc, spare)?;
    let taken = exhaust(alloc)?;
    drop(block);
    let bytes = encode_latin1_lossy(alloc, text);
    let refused = Vec::<u8>::with_capacity(alloc, 1).is_err();
    drop(taken);
    Ok(refused && bytes == *wanted)
}

#[test]
fn ascii_takes_no_memory(rt: HostRuntime) -> Result<(), Fail> {
    assert!(rt; decodes_with_spare(rt.alloc(), b"ab", 0, &Ok(CowStr::Borrowed("ab")))?);
    assert!(rt; encodes_with_spare(rt.alloc(), "ab", 0, &Ok(CowBytes::Borrowed(b"ab")))?);
    Ok(())
}

#[test]
fn the_first_request_is_refused(rt: HostRuntime) -> Result<(), Fail> {
    assert!(rt; decodes_with_spare(rt.alloc(), &[0x61, 0xE4], 0, &Err(AllocError))?);
    assert!(rt; encodes_with_spare(rt.alloc(), "aä", 0, &Err(AllocError))?);
    Ok(())
}

/// One block is left, which the one allocation takes: a second request fails.
#[test]
fn one_growth_is_made(rt: HostRuntime) -> Result<(), Fail> {
    let text = String::from_str(rt.alloc(), "aä")?;
    assert!(rt; decodes_with_spare(rt.alloc(), &[0x61, 0xE4], 4, &Ok(CowStr::Owned(text)))?);
    let bytes = [0x61, 0xE4].to_vec(rt.alloc())?;
    assert!(rt; encodes_with_spare(rt.alloc(), "aä", 4, &Ok(CowBytes::Owned(bytes)))?);
    Ok(())
}

/// Returns whether a text is encoded to the bytes. If they are ASCII, the text and the result are borrowed.
fn goes_back(alloc: Global, text: &str, is_borrowed: bool, bytes: &[u8]) -> bool {
    if is_borrowed != bytes.is_ascii() || !is_str_latin1(text) {
        return false;
    }
    match encode_latin1_lossy(alloc, text) {
        Ok(CowBytes::Borrowed(encoded)) => is_borrowed && encoded == bytes,
        Ok(CowBytes::Owned(encoded)) => !is_borrowed && encoded.as_slice() == bytes,
        Err(_) => false,
    }
}

/// Returns whether the bytes are decoded to a text and the text is encoded to the bytes. If they are ASCII, both
/// results are borrowed, which takes no memory. Otherwise both are owned, and take one request each.
fn goes_there_and_back(alloc: Global, bytes: &[u8]) -> bool {
    match decode_latin1(alloc, bytes) {
        Ok(CowStr::Borrowed(text)) => goes_back(alloc, text, true, bytes),
        Ok(CowStr::Owned(text)) => goes_back(alloc, text.as_str(), false, bytes),
        Err(_) => false,
    }
}

/// Six requests of the calls, for the last three rows, and then twenty of the test itself. A request that a call makes
/// besides, and whose refusal it ignores, would leave one of these to be refused.
#[test]
fn counts_requests(rt: HostRuntime) {
    for (row, bytes) in [
        ("nothing", &[][..]),
        ("two letters", b"ab"),
        ("5,000 letters", &[0x61; 5000]),
        ("40,000 letters", &[0x61; 40_000]),
        ("61 E4", b"a\xE4"),
        ("5,000 times E4", &[0xE4; 5000]),
        ("40,000 times FF", &[0xFF; 40_000]),
    ] {
        assert!(rt; goes_there_and_back(rt.alloc(), bytes), "{row}");
    }
    for request in 1..21 {
        assert!(rt;
            Vec::<u8>::with_capacity(rt.alloc(), 100).is_ok(),
            "the test's own request {request}"
        );
    }
}
