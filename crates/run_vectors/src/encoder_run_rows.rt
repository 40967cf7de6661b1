//! Runs of an encoder: rows, and the encoder's sources by turns of few code units.

use crate::assertions::assert_rows;
use crate::run_rows::{turns_for, turns_of};
use encoding_runs::run::run_from_utf16;
use encoding_text::utf_8::{EncoderResult, Utf8Encoder};
use std::alloc::{AllocError, Global};
use test_support::encoder_vectors::{LIMITS, Source, VECTORS, is_pending};
use test_support::rows::{Row, Table};
use test_support::texts::are_written;

/// Source, turns, length of the destination, how much is read, the last result, output, and what is pending then.
const ROWS: &str = "\
D83D DCA9 0062 | 4 1 4 last | 10 | 3 | empty | F0 9F 92 A9 62 | none
D83D DCA9 | 3 1 3 last | 10 | 1 | full | | D83D
D83D D83D | 1 1 4 last | 6 | 1 | empty | | D83D
D83D D83D | 2 1 4 last | 6 | 1 | full | EF BF BD | none
D83D D83D | 3 1 4 last | 6 | 2 | empty | EF BF BD EF BF BD | none
D83D | 1 1 0 more | 0 | 1 | empty | | D83D
D83D | | 6 | 0 | none | | none";

/// Returns whether a field names this last result.
fn is_result(outcome: Option<EncoderResult>, field: &str) -> bool {
    match outcome {
        None => field == "none",
        Some(EncoderResult::InputEmpty) => field == "empty",
        Some(EncoderResult::OutputFull) => field == "full",
    }
}

#[derive(Drop)]
struct Runs {
    alloc: Global,
}

impl Table for Runs {
    const ROWS: &'static str = ROWS;

    const COUNT: usize = 7;

    fn holds(&mut self, row: &mut Row<'_>) -> bool {
        let src = row.units();
        let Ok(turns) = turns_of(self.alloc, row) else {
            return false;
        };
        let mut encoder = Utf8Encoder::new_inner();
        let mut dst = [0x71; 10];
        let Some(room) = dst.get_mut(..row.number()) else {
            return false;
        };
        let outcome = run_from_utf16(&mut encoder, src.as_slice(), &turns, room);
        let read = row.number();
        let result = row.word();
        let out = row.bytes();
        outcome.read == read
            && outcome.written == out.length
            && is_result(outcome.result, result)
            && are_written(out.as_slice(), &dst, outcome.written)
            && is_pending(encoder, row.word())
    }
}

#[test]
fn rows_hold(rt: HostRuntime) {
    let alloc = rt.alloc();
    assert_rows(&rt, &mut Runs { alloc });
}

/// Returns whether turns of one code unit, of two and of three each write the UTF-8 of all of them into three bytes for
/// each.
fn encodes_by_turns(alloc: Global, units: &[u16], bytes: &[u8]) -> Result<bool, AllocError> {
    let length = units.len();
    let mut holds = true;
    for take in 1..4 {
        let turns = turns_for(alloc, length, take, 4)?;
        let mut encoder = Utf8Encoder::new_inner();
        let mut dst = [0x71; 64];
        let Some(room) = dst.get_mut(..length.saturating_mul(3)) else {
            return Ok(false);
        };
        let outcome = run_from_utf16(&mut encoder, units, &turns, room);
        holds = holds
            && outcome.result == Some(EncoderResult::InputEmpty)
            && outcome.read == length
            && are_written(bytes, &dst, outcome.written)
            && is_pending(encoder, "none");
    }
    Ok(holds)
}

/// Returns whether they write that of a source.
fn source_by_turns(alloc: Global, row: &mut Row<'_>) -> bool {
    let source = Source::of(row);
    let holds = encodes_by_turns(alloc, source.units.as_slice(), source.bytes.as_slice());
    holds == Ok(true)
}

#[derive(Drop)]
struct Vectors {
    alloc: Global,
}

impl Table for Vectors {
    const ROWS: &'static str = VECTORS;

    const COUNT: usize = 16;

    fn holds(&mut self, row: &mut Row<'_>) -> bool {
        source_by_turns(self.alloc, row)
    }
}

#[test]
fn vectors_by_turns(rt: HostRuntime) {
    let alloc = rt.alloc();
    assert_rows(&rt, &mut Vectors { alloc });
}

#[derive(Drop)]
struct Limits {
    alloc: Global,
}

impl Table for Limits {
    const ROWS: &'static str = LIMITS;

    const COUNT: usize = 34;

    fn holds(&mut self, row: &mut Row<'_>) -> bool {
        source_by_turns(self.alloc, row)
    }
}

#[test]
fn limits_by_turns(rt: HostRuntime) {
    let alloc = rt.alloc();
    assert_rows(&rt, &mut Limits { alloc });
}

/// The units whose UTF-8 fills the destination.
#[test]
fn three_bytes_a_unit_by_turns(rt: HostRuntime) -> Result<(), AllocError> {
    let units = [0x2C9F, 0x2CA9, 0x2CA3, 0x2C9F];
    let bytes = [
        0xE2, 0xB2, 0x9F, 0xE2, 0xB2, 0xA9, 0xE2, 0xB2, 0xA3, 0xE2, 0xB2, 0x9F,
    ];
    assert!(rt; encodes_by_turns(rt.alloc(), &units, &bytes)?);
    Ok(())
}
