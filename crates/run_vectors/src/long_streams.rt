//! Long input, past each round and each power of two: malformed sequences close together and far apart, streams of a
//! pattern, large pieces, and long results.

use encoding_runs::repair::{RepairFault, Repaired, Sink, Source, Watch, repair, repair_slice};
use std::alloc::{AllocError, Global};
use std::io::ErrorKind;
use std::test::Fail;
use test_support::patterns::{PATTERN, PatternInput, PatternOutput, REPAIRED};
use test_support::streams::Input;

/// Bytes, and the text that they are repaired to. No row starts with a continuation byte, so its parts don't depend on
/// the bytes before it.
const PARTS: [(&[u8], &[u8], u64); 12] = [
    (b"a", b"a", 0),
    (&[0xFF], b"\xEF\xBF\xBD", 1),
    (&[0xC3, 0xA4], &[0xC3, 0xA4], 0),
    (&[0xE2, 0x98], b"\xEF\xBF\xBD", 1),
    (&[0x7F], &[0x7F], 0),
    (&[0xC0, 0x80], b"\xEF\xBF\xBD\xEF\xBF\xBD", 2),
    (&[0xE2, 0x98, 0x83], &[0xE2, 0x98, 0x83], 0),
    (&[0xF0, 0x9F, 0x92], b"\xEF\xBF\xBD", 1),
    (
        &[0xED, 0xA0, 0x80],
        b"\xEF\xBF\xBD\xEF\xBF\xBD\xEF\xBF\xBD",
        3,
    ),
    (&[0xF0, 0x9F, 0x92, 0xA9], &[0xF0, 0x9F, 0x92, 0xA9], 0),
    (&[0xC3], b"\xEF\xBF\xBD", 1),
    (&[0xF5, 0xBF], b"\xEF\xBF\xBD\xEF\xBF\xBD", 2),
];

/// Input, its text, and the number of its malformed sequences.
#[derive(Drop)]
struct Example {
    bytes: Vec<u8>,
    text: Vec<u8>,
    replaced: u64,
}

/// Returns `prefix` letters, and then `count` parts, each after `between` letters. A growing step leads from a part to
/// the next, so that each comes next to each.
fn example_of(
    alloc: Global,
    prefix: usize,
    count: usize,
    between: usize,
) -> Result<Example, AllocError> {
    let mut example = Example {
        bytes: Vec::new(alloc),
        text: Vec::new(alloc),
        replaced: 0,
    };
    push_letters(&mut example, prefix)?;
    for i in 0..count {
        push_letters(&mut example, between)?;
        let turn = i / PARTS.len();
        let place = i.wrapping_mul(turn.wrapping_add(1)).wrapping_add(turn) % PARTS.len();
        let (bytes, text, replaced) = PARTS[place];
        example.bytes.extend_from_slice(bytes)?;
        example.text.extend_from_slice(text)?;
        example.replaced = example.replaced.saturating_add(replaced);
    }
    Ok(example)
}

fn push_letters(example: &mut Example, count: usize) -> Result<(), AllocError> {
    for _ in 0..count {
        example.bytes.push(b'z')?;
        example.text.push(b'z')?;
    }
    Ok(())
}

/// Returns whether a slice is repaired to its text.
fn repairs_slice(alloc: Global, example: &Example) -> bool {
    let mut output = Vec::new(alloc);
    let replaced = repair_slice(&example.bytes, &mut Watch::new(&mut output));
    replaced == Ok(example.replaced) && output == example.text
}

/// Returns whether a stream is, which returns `step` bytes per read.
fn repairs_stream(alloc: Global, example: &Example, step: usize) -> bool {
    let mut output = Vec::new(alloc);
    let mut input = Input::of(&example.bytes, step);
    let repaired = repair(
        &mut Watch::new(&mut input),
        &mut Watch::new(&mut output),
        u64::MAX,
    );
    let expected = Repaired {
        read: example.bytes.len() as u64,
        replaced: example.replaced,
    };
    repaired == Ok(expected) && output == example.text
}

/// The letters at the start move what follows over each boundary: of the array, of a round, and of the bytes that are
/// checked together.
fn repairs_after_letters(alloc: Global, count: usize, between: usize) -> Result<bool, AllocError> {
    for prefix in 0..20 {
        let example = example_of(alloc, prefix, count, between)?;
        let repaired = repairs_slice(alloc, &example)
            && repairs_stream(alloc, &example, usize::MAX)
            && repairs_stream(alloc, &example, 1021);
        if !repaired || example.text.len() < 8000 {
            return Ok(false);
        }
    }
    Ok(true)
}

#[test]
fn repairs_parts_close_together(rt: HostRuntime) -> Result<(), Fail> {
    assert!(rt; repairs_after_letters(rt.alloc(), 3000, 0)?);
    Ok(())
}

#[test]
fn repairs_parts_far_apart(rt: HostRuntime) -> Result<(), Fail> {
    for between in [7, 8, 9, 15, 100, 1000] {
        let count = 9000 / between;
        assert!(rt;
            repairs_after_letters(rt.alloc(), count, between)?,
            "{between}"
        );
    }
    Ok(())
}

/// Each byte is a malformed sequence, or each but the last.
#[test]
fn repairs_single_malformed_bytes(rt: HostRuntime) -> Result<(), Fail> {
    for count in [1020usize, 1021, 1022, 1023, 1024, 1025, 1026, 2048, 5000] {
        let mut example = example_of(rt.alloc(), 0, 0, 0)?;
        for _ in 0..count {
            example.bytes.push(0xFF)?;
            example.text.extend_from_slice("\u{FFFD}".as_bytes())?;
        }
        example.replaced = count as u64;
        assert!(rt; repairs_slice(rt.alloc(), &example), "{count}");
        push_letters(&mut example, 1)?;
        assert!(rt; repairs_slice(rt.alloc(), &example), "{count}");
        assert!(rt; repairs_stream(rt.alloc(), &example, usize::MAX), "{count}");
    }
    Ok(())
}

/// Single malformed bytes in ASCII, each at a fixed distance from the one before it. A character of two bytes ends
/// that.
#[test]
fn repairs_malformed_bytes_in_ascii(rt: HostRuntime) -> Result<(), Fail> {
    for between in 0..70 {
        let mut example = example_of(rt.alloc(), 3, 0, 0)?;
        for _ in 0..40 {
            example.bytes.push(0xFF)?;
            example.text.extend_from_slice("\u{FFFD}".as_bytes())?;
            push_letters(&mut example, between)?;
        }
        example.replaced = 40;
        example.bytes.extend_from_slice("\u{E4}".as_bytes())?;
        example.text.extend_from_slice("\u{E4}".as_bytes())?;
        assert!(rt; repairs_slice(rt.alloc(), &example), "{between}");
        assert!(rt;
            repairs_stream(rt.alloc(), &example, usize::MAX),
            "{between}"
        );
    }
    Ok(())
}

/// How many bytes the streams return: they end after a malformed sequence.
const LENGTH: usize = 200_000;

/// The number of their malformed sequences.
const MALFORMED: u64 = 15_385;

/// Returns whether a repair of the whole pattern has this result, with this much of it written and all of it, or less,
/// read.
fn repairs_to(
    reader: &mut PatternInput,
    writer: &mut PatternOutput,
    outcome: Result<Repaired, RepairFault>,
    written: usize,
) -> bool {
    let returned = repair(
        &mut Watch::new(&mut *reader),
        &mut Watch::new(&mut *writer),
        u64::MAX,
    );
    returned == outcome && writer.same && writer.taken == written && writer.asked_after == 0
}

#[test]
fn repairs_a_long_stream(rt: HostRuntime) {
    let mut reader = PatternInput::of(LENGTH, None);
    let mut writer = PatternOutput::that_takes(usize::MAX);
    let outcome = Ok(Repaired {
        read: LENGTH as u64,
        replaced: MALFORMED,
    });
    assert!(rt; repairs_to(&mut reader, &mut writer, outcome, LENGTH));
    assert!(rt; reader.asked_after == 1);
}

/// An incomplete sequence before the read error is not written.
#[test]
fn stops_at_a_late_read_fault(rt: HostRuntime) {
    for kind in [ErrorKind::Other, ErrorKind::Interrupted] {
        let mut reader = PatternInput::of(LENGTH, Some(kind));
        let mut writer = PatternOutput::that_takes(usize::MAX);
        let stops = repairs_to(&mut reader, &mut writer, Err(RepairFault::Read), LENGTH - 3);
        assert!(rt; stops && reader.asked_after == 1);
    }
}

/// The writer isn't asked again, and no more than a round was read ahead of it.
#[test]
fn stops_at_a_late_write_fault(rt: HostRuntime) {
    for taken in [
        0, 1, 1023, 1024, 1025, 65_535, 65_536, 65_537, 131_073, 199_996,
    ] {
        let mut reader = PatternInput::of(LENGTH, None);
        let mut writer = PatternOutput::that_takes(taken);
        let stops = repairs_to(&mut reader, &mut writer, Err(RepairFault::Write), taken);
        let ahead = reader.yielded.saturating_sub(taken);
        assert!(rt;
            stops && ahead <= 1027 && reader.asked_after == 0,
            "{taken}"
        );
    }
}

/// Returns the first `length` bytes of a repeated pattern.
fn bytes_of(alloc: Global, pattern: &[u8; 13], length: usize) -> Result<Vec<u8>, AllocError> {
    let mut bytes = Vec::with_capacity(alloc, length)?;
    for i in 0..length {
        bytes.push(pattern[i % 13])?;
    }
    Ok(bytes)
}

#[test]
fn repairs_a_long_slice(rt: HostRuntime) -> Result<(), Fail> {
    let bytes = bytes_of(rt.alloc(), &PATTERN, LENGTH)?;
    let mut writer = PatternOutput::that_takes(usize::MAX);
    let returned = repair_slice(&bytes, &mut Watch::new(&mut writer));
    assert!(rt; returned == Ok(MALFORMED) && writer.same && writer.taken == LENGTH);
    Ok(())
}

/// Returns whether a watched stream takes a piece in one call.
fn takes_at_once(piece: &[u8]) -> bool {
    let mut writer = PatternOutput::that_takes(usize::MAX);
    let mut sink = Watch::new(&mut writer);
    let taken = if piece.is_empty() {
        None
    } else {
        sink.write(piece)
    };
    taken == Some(piece.len()) && !sink.failed() && writer.same && writer.taken == piece.len()
}

/// Returns whether a watched stream returns a piece in one call.
fn yields_at_once(buffer: &mut [u8]) -> bool {
    let mut reader = PatternInput::of(buffer.len(), None);
    let mut source = Watch::new(&mut reader);
    source.read(buffer) == Some(buffer.len()) && !source.failed() && !source.ended()
}

/// A large piece goes through a watched stream in one call.
#[test]
fn watches_a_large_piece(rt: HostRuntime) -> Result<(), Fail> {
    for length in [100_000, 1_048_589] {
        let mut bytes = bytes_of(rt.alloc(), &REPAIRED, length)?;
        assert!(rt; takes_at_once(&bytes), "{length}");
        let yielded = yields_at_once(&mut bytes);
        let wanted = bytes_of(rt.alloc(), &PATTERN, length)?;
        assert!(rt; yielded && bytes == wanted, "{length}");
    }
    Ok(())
}
