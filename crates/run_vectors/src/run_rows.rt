//! RunRows of the decoder: rows, and the vectors whole and one byte a turn.

ghost use Rattle.std.specs.Prelude.{◌≤◌, length};

use crate::assertions::{assert_rows, assert_vectors};
use encoding_runs::run::{Outcome, Report, Turn, run_to_utf8, run_to_utf16};
use encoding_text::decoder::{DecoderResult, Utf8Decoder};
use std::alloc::{AllocError, Global};
use test_support::decoder_vectors::{Delivered, Vector, VectorTest, delivered};
use test_support::rows::{Row, Table};
use test_support::texts::{Output, are_written, unwritten};

/// Returns whether a field names this last result.
fn is_result(outcome: &Option<DecoderResult>, field: &str) -> bool {
    match outcome {
        None => field == "none",
        Some(DecoderResult::InputEmpty) => field == "empty",
        Some(DecoderResult::OutputFull) => field == "full",
        Some(DecoderResult::Malformed(1, 0)) => field == "bad 1",
        Some(DecoderResult::Malformed(2, 0)) => field == "bad 2",
        Some(DecoderResult::Malformed(3, 0)) => field == "bad 3",
        Some(_) => false,
    }
}

/// Returns the turns that the next field names, between commas: how many there are of a kind, and then their `take`,
/// their `room` and their mark.
pub fn turns_of(alloc: Global, row: &mut Row<'_>) -> Result<Vec<Turn>, AllocError> {
    let mut turns = Vec::new(alloc);
    let mut count = 0usize;
    let (mut take, mut room) = (0usize, 0usize);
    for (at, word) in row.word().split_whitespace().enumerate() {
        match at % 4 {
            0 => count = row.number_of(word),
            1 => take = row.number_of(word),
            2 => room = row.number_of(word),
            _ => {
                let last = word.starts_with("last");
                for _ in 0..count {
                    turns.push(Turn { take, room, last })?;
                }
            }
        }
    }
    Ok(turns)
}

/// Returns `count` entries for reports.
fn places(alloc: Global, count: usize) -> Result<Vec<Report>, AllocError> {
    let mut reports = Vec::new(alloc);
    for _ in 0..count {
        reports.push(Report {
            place: 0x71,
            length: 0x71,
        })?;
    }
    Ok(reports)
}

/// Returns whether the reports are those that the next field names, each by its offset and its length, and the entries
/// after them are unchanged.
fn are_reported(row: &mut Row<'_>, reports: &[Report], count: usize) -> bool {
    let mut words = row.word().split_whitespace();
    let mut holds = true;
    for (i, report) in reports.iter().enumerate() {
        let (place, length) = if i < count {
            (words.next().unwrap_or(""), words.next().unwrap_or(""))
        } else {
            ("113", "113")
        };
        holds = holds
            && place.parse::<usize>() == Ok(report.place)
            && length.parse::<u8>() == Ok(report.length);
    }
    holds && words.next().is_none()
}

/// A byte or a code unit, with the run that writes it.
trait Written: Output {
    /// Makes a run.
    fn run(
        decoder: &mut Utf8Decoder,
        src: &[u8],
        turns: &[Turn],
        dst: &mut [Self],
        reports: &mut [Report],
    ) -> Outcome
        requires places { length turns.now ≤ length reports.old };
}

impl Written for u8 {
    fn run(
        decoder: &mut Utf8Decoder,
        src: &[u8],
        turns: &[Turn],
        dst: &mut [u8],
        reports: &mut [Report],
    ) -> Outcome {
        run_to_utf8(decoder, src, turns, dst, reports)
    }
}

impl Written for u16 {
    fn run(
        decoder: &mut Utf8Decoder,
        src: &[u8],
        turns: &[Turn],
        dst: &mut [u16],
        reports: &mut [Report],
    ) -> Outcome {
        run_to_utf16(decoder, src, turns, dst, reports)
    }
}

/// Returns whether the run of a row into a destination reads as much, returns and reports what the row says.
fn run_is<U: Written>(
    alloc: Global,
    decoder: &mut Utf8Decoder,
    row: &mut Row<'_>,
    dst: &mut [U],
) -> Result<Option<usize>, AllocError> {
    let src = row.bytes();
    let turns = turns_of(alloc, row)?;
    let mut reports = places(alloc, turns.len().saturating_add(1))?;
    let Some(room) = dst.get_mut(..row.number()) else {
        return Ok(None);
    };
    if reports.len() < turns.len() {
        return Ok(None);
    }
    let outcome = U::run(decoder, src.as_slice(), &turns, room, &mut reports);
    let read = row.number();
    let result = row.word();
    let mut others = Row::of(row.rest());
    let _output = others.word();
    let holds = outcome.read == read
        && is_result(&outcome.result, result)
        && are_reported(&mut others, &reports, outcome.reports);
    Ok(if holds { Some(outcome.written) } else { None })
}

/// Returns whether the run of a row to UTF-16 is right, writes the code units of the row, and leaves the rest
/// unchanged.
fn to_utf16_is(
    alloc: Global,
    decoder: &mut Utf8Decoder,
    row: &mut Row<'_>,
) -> Result<bool, AllocError> {
    let mut dst = [0x71; 8];
    let written = run_is::<u16>(alloc, decoder, row, &mut dst)?;
    let out = row.units();
    Ok(written == Some(out.length) && are_written(out.as_slice(), &dst, out.length))
}

/// Returns the same of the run of a row to UTF-8.
fn to_utf8_is(
    alloc: Global,
    decoder: &mut Utf8Decoder,
    row: &mut Row<'_>,
) -> Result<bool, AllocError> {
    let mut dst = [0x71; 8];
    let written = run_is::<u8>(alloc, decoder, row, &mut dst)?;
    let out = row.bytes();
    Ok(written == Some(out.length) && are_written(out.as_slice(), &dst, out.length))
}

/// Source, turns, length of the destination, how much is read, the last result, output, reports.
const ROWS: &str = "\
new
utf16 | F0 9F 92 A9 C2 7F | 14 1 2 last | 7 | 6 | empty | D83D DCA9 007F | 2 1
neutral
utf16 | 61 |  | 4 | 0 | none |  |
utf8 | 61 |  | 4 | 0 | none |  |
neutral
utf16 | 61 E2 98 | 3 3 2 last | 4 | 3 | empty | 0061 | 1 2
utf16 | 61 E2 98 | 1 3 2 last | 4 | 1 | full | 0061 |
neutral
utf16 | 61 E2 98 | 2 3 2 last | 4 | 3 | bad 2 | 0061 | 1 2
utf16 | C3 A4 | 1 1 2 last, 1 0 0 last, 1 1 2 last | 3 | 2 | empty | 00E4 |
utf16 | C3 A4 | 1 1 2 last, 1 0 0 last | 3 | 1 | empty |  |
pending
utf16 | A4 |  | 3 | 0 | none |  |
pending
utf16 | A4 | 1 1 2 last | 3 | 1 | empty | 00E4 |
neutral
utf8 | ED A0 80 | 4 3 4 last | 6 | 3 | empty |  | 0 1 0 1 0 1
utf8 | C3 A4 61 | 3 1 4 more | 8 | 3 | empty | C3 A4 61 |
utf8 | 61 E2 98 | 1 9 4 more | 8 | 1 | full | 61 |
utf8 | 61 E2 98 | 2 9 8 more | 8 | 3 | empty | 61 |
pending
utf8 | 83 62 | 1 2 8 more | 8 | 2 | empty | E2 98 83 62 |
neutral
utf16 | FF 61 FF 62 | 3 4 4 last | 5 | 4 | empty | 0061 0062 | 0 1 1 1
utf16 | F4 8F BF FF | 10 1 2 last | 5 | 4 | empty |  | 0 3 0 1";

#[derive(Drop)]
struct RunRows {
    alloc: Global,
    decoder: Utf8Decoder,
}

impl Table for RunRows {
    const ROWS: &'static str = ROWS;

    const COUNT: usize = 26;

    /// A row `new` starts a new decoder.
    fn holds(&mut self, row: &mut Row<'_>) -> bool {
        match row.word() {
            "new" => {
                self.decoder = Utf8Decoder::new_inner();
                true
            }
            "neutral" => self.decoder.in_neutral_state(),
            "pending" => !self.decoder.in_neutral_state(),
            "utf16" => to_utf16_is(self.alloc, &mut self.decoder, row) == Ok(true),
            "utf8" => to_utf8_is(self.alloc, &mut self.decoder, row) == Ok(true),
            _ => false,
        }
    }
}

#[test]
fn rows_hold(rt: HostRuntime) {
    let alloc = rt.alloc();
    let decoder = Utf8Decoder::new_inner();
    assert_rows(&rt, &mut RunRows { alloc, decoder });
}

/// Returns enough turns for a source of this length, each with `take` of its bytes and this `room`.
pub fn turns_for(
    alloc: Global,
    length: usize,
    take: usize,
    room: usize,
) -> Result<Vec<Turn>, AllocError> {
    let mut turns = Vec::new(alloc);
    for _ in 0..length.saturating_mul(2).saturating_add(2) {
        turns.push(Turn {
            take,
            room,
            last: true,
        })?;
    }
    Ok(turns)
}

/// Returns the reports of a run, if it reached the end of `length` bytes.
fn reported(
    alloc: Global,
    outcome: &Outcome,
    length: usize,
    reports: &[Report],
) -> Result<Option<Vec<(usize, usize)>>, AllocError> {
    let Some(reports) = reports.get(..outcome.reports) else {
        return Ok(None);
    };
    if outcome.read != length || outcome.result != Some(DecoderResult::InputEmpty) {
        return Ok(None);
    }
    let mut lengths = Vec::new(alloc);
    for report in reports {
        lengths.push((report.place, usize::from(report.length)))?;
    }
    Ok(Some(lengths))
}

/// Decodes by turns of `take` bytes. Returns what that yields, if it reaches the end.
fn run_by<U: Written>(
    alloc: Global,
    src: &[u8],
    take: usize,
) -> Result<Option<Delivered<U>>, AllocError> {
    let mut decoder = Utf8Decoder::new_inner();
    let turns = turns_for(alloc, src.len(), take, 16)?;
    let mut reports = places(alloc, turns.len())?;
    if reports.len() < turns.len() {
        return Ok(None);
    }
    let mut dst = unwritten::<U>(alloc, 16)?;
    let outcome = U::run(&mut decoder, src, &turns, &mut dst, &mut reports);
    let mut text = Vec::new(alloc);
    text.extend_from_slice(dst.get(..outcome.written).unwrap_or(&[]))?;
    match reported(alloc, &outcome, src.len(), &reports)? {
        Some(lengths) => Ok(Some((text, lengths))),
        None => Ok(None),
    }
}

/// Returns whether a vector decodes by turns of one byte and of all.
fn runs<U: Written>(alloc: Global, vector: &Vector) -> Result<bool, AllocError> {
    let want = Some(delivered::<U>(alloc, vector)?);
    Ok(run_by(alloc, &vector.bytes, 1)? == want && run_by(alloc, &vector.bytes, 16)? == want)
}

#[derive(Drop)]
struct ToUtf16;

impl VectorTest for ToUtf16 {
    fn holds(&mut self, alloc: Global, vector: &Vector) -> Result<bool, AllocError> {
        runs::<u16>(alloc, vector)
    }
}

#[test]
fn vectors_run_to_utf16(rt: HostRuntime) -> Result<(), AllocError> {
    assert_vectors(&rt, rt.alloc(), &mut ToUtf16)
}

#[derive(Drop)]
struct ToUtf8;

impl VectorTest for ToUtf8 {
    fn holds(&mut self, alloc: Global, vector: &Vector) -> Result<bool, AllocError> {
        runs::<u8>(alloc, vector)
    }
}

#[test]
fn vectors_run_to_utf8(rt: HostRuntime) -> Result<(), AllocError> {
    assert_vectors(&rt, rt.alloc(), &mut ToUtf8)
}
