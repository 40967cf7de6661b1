//! Long input, past each round of the engine and each array: streams of a pattern, directly and through the arrays of
//! the program. And late statuses: of input far longer than every buffer, if no stream fails, and of a flush that fails
//! below the arrays of the program.

use super::serve_rows::{CUTS, READ_FAULT, ROWS, WRITE_FAULT};
use crate::service::serve;
use crate::streams::{BufferedWriter, FlushPolicy, PIPE_CAPACITY, ReadAhead};
use std::cell::Cell;
use std::io::{ErrorKind, Read, Write};
use test_support::patterns::{PatternInput, PatternOutput};
use test_support::streams::{Input, Output};

/// The number of bytes of the pattern that the streams yield. They end in an incomplete sequence.
const LENGTH: usize = 200_000;

/// How many bytes an output takes before its error: near the ends of rounds and of arrays, and almost all.
const PLACES: [usize; 12] = [
    0, 1, 1023, 1024, 1025, 65_535, 65_536, 65_537, 131_072, 131_073, 196_609, 199_996,
];

/// Returns whether a run returns the status and writes its whole line.
fn run_is<R: Read, W: Write>(reader: &mut R, writer: &mut W, status: u8, line: &[u8]) -> bool {
    let mut errors = Output::that_takes_all();
    serve(0, reader, writer, &mut errors) == status
        && errors.written() == line
        && errors.flushes == 0
}

/// Returns whether a run through the program's arrays returns the status and writes its whole line.
fn run_over_arrays_is(
    reader: &mut PatternInput,
    writer: &mut PatternOutput,
    status: u8,
    line: &[u8],
) -> bool {
    let due = Cell::new(FlushPolicy::Each);
    let mut ahead: ReadAhead<'_, _, PIPE_CAPACITY> = ReadAhead::new(&mut *reader, &due);
    let mut following: BufferedWriter<'_, _, PIPE_CAPACITY> = BufferedWriter::new(
        &mut *writer,
        &due,
    );
    run_is(&mut ahead, &mut following, status, line)
}

/// Returns whether the output took the first `count` bytes of the text, then one flush, and no write after its error.
fn took(writer: &PatternOutput, count: usize) -> bool {
    writer.same
        && writer.taken == count
        && writer.asked_after == 0
        && writer.flushes == 1
        && writer.flushed_at == count
}

/// Returns whether a run over both streams, and one through the arrays, writes `count` bytes of the text after the
/// letters, and reads once after the last byte.
fn serves(letters: usize, fault: Option<ErrorKind>, count: usize, status: u8, line: &[u8]) -> bool {
    let length = LENGTH.saturating_add(letters);
    let mut reader = PatternInput::of(length, fault).after_letters(letters);
    let mut writer = PatternOutput::that_takes(usize::MAX).after_letters(letters);
    let single = run_is(&mut reader, &mut writer, status, line);
    let mut far = PatternInput::of(length, fault).after_letters(letters);
    let mut late = PatternOutput::that_takes(usize::MAX).after_letters(letters);
    let count = count.saturating_add(letters);
    single
        && took(&writer, count)
        && reader.asked_after == 1
        && run_over_arrays_is(&mut far, &mut late, status, line)
        && took(&late, count)
        && far.asked_after == 1
}

/// With zero letters, one and so on before it, each index of the pattern falls on each multiple of 1,024 and of 65,536
/// bytes: in its characters and in its malformed sequence.
#[test]
fn repairs_long_streams(rt: HostRuntime) {
    for letters in 0..13 {
        assert!(rt; serves(letters, None, LENGTH, 1, b""), "{letters}");
    }
}

/// The incomplete sequence at the end is not written.
#[test]
fn reports_late_read_faults(rt: HostRuntime) {
    for kind in [ErrorKind::Other, ErrorKind::Interrupted] {
        for letters in 0..13 {
            let stops = serves(letters, Some(kind), LENGTH - 3, 3, READ_FAULT);
            assert!(rt; stops, "{letters}");
        }
    }
}

/// Long well-formed text is unchanged.
#[test]
fn leaves_a_long_text(rt: HostRuntime) {
    let mut reader = PatternInput::of(LENGTH, None).repaired();
    let mut writer = PatternOutput::that_takes(usize::MAX);
    assert!(rt; run_is(&mut reader, &mut writer, 0, b"") && took(&writer, LENGTH));
    let mut far = PatternInput::of(LENGTH, None).repaired();
    let mut late = PatternOutput::that_takes(usize::MAX);
    assert!(rt; run_over_arrays_is(&mut far, &mut late, 0, b"") && took(&late, LENGTH));
    assert!(rt; reader.asked_after == 1 && far.asked_after == 1);
}

/// Returns whether a run stops at the error of the output, which would take the rest, at most one round ahead.
fn stops_at(taken: usize) -> bool {
    let mut reader = PatternInput::of(LENGTH, None);
    let mut writer = PatternOutput::that_takes(taken);
    run_is(&mut reader, &mut writer, 4, WRITE_FAULT)
        && took(&writer, taken)
        && reader.yielded.saturating_sub(taken) <= 1027
        && reader.asked_after == 0
}

/// Returns whether a run through the arrays stops there too, at most one array ahead. Only the flush tries to write the
/// buffered bytes once more.
fn stops_over_arrays_at(taken: usize) -> bool {
    let mut reader = PatternInput::of(LENGTH, None);
    let mut writer = PatternOutput::that_takes(taken);
    run_over_arrays_is(&mut reader, &mut writer, 4, WRITE_FAULT)
        && writer.same
        && writer.flushes == 1
        && writer.flushed_at == writer.taken
        && writer.asked_after <= 1
        && reader.yielded.saturating_sub(taken) <= PIPE_CAPACITY + 3
        && reader.asked_after == 0
}

#[test]
fn reports_late_write_faults(rt: HostRuntime) {
    for taken in PLACES {
        assert!(rt; stops_at(taken) && stops_over_arrays_at(taken), "{taken}");
    }
}

/// The length of the long input in bytes: the pattern 250,000 times, more than 3 MiB.
const LATE_LENGTH: usize = 13 * 250_000;

/// Returns whether a run over these streams, through the arrays of the program, returns the status and writes its line.
fn ends_with<R: Read, W: Write>(reader: &mut R, writer: &mut W, status: u8, line: &[u8]) -> bool {
    let due = Cell::new(FlushPolicy::Each);
    let mut errors = Output::that_takes_all();
    let mut ahead: ReadAhead<'_, _, PIPE_CAPACITY> = ReadAhead::new(&mut *reader, &due);
    let mut following: BufferedWriter<'_, _, PIPE_CAPACITY> = BufferedWriter::new(
        &mut *writer,
        &due,
    );
    serve(0, &mut ahead, &mut following, &mut errors) == status && errors.written() == line
}

/// Returns whether the repaired text of all input is written, with the status and no line.
fn is_served(input: PatternInput, status: u8) -> bool {
    let mut reader = input;
    let mut writer = PatternOutput::that_takes(usize::MAX);
    ends_with(&mut reader, &mut writer, status, b"")
        && reader.yielded == LATE_LENGTH
        && writer.taken == LATE_LENGTH
        && writer.same
}

#[test]
fn tells_no_fault_of_long_input(rt: HostRuntime) {
    assert!(rt; is_served(PatternInput::of(LATE_LENGTH, None), 1));
    assert!(rt; is_served(PatternInput::of(LATE_LENGTH, None).repaired(), 0));
}

/// The flush of the inner stream fails after all was written. That is a write fault for any result of the engine.
#[test]
fn reports_a_flush_that_fails_after_the_arrays(rt: HostRuntime) {
    for row in &ROWS {
        let mut writer = Output::that_cannot_flush();
        let mut reader = Input::of(row.input, 2);
        assert!(rt;
            ends_with(&mut reader, &mut writer, 4, WRITE_FAULT),
            "{:?}",
            row.input
        );
        assert!(rt; writer.written() == row.output && writer.flushes == 1);
    }
    for cut in &CUTS {
        let mut writer = Output::that_cannot_flush();
        let mut reader = Input::that_fails(cut.input, ErrorKind::Other);
        assert!(rt;
            ends_with(&mut reader, &mut writer, 4, WRITE_FAULT),
            "{:?}",
            cut.input
        );
        assert!(rt; writer.written() == cut.final_text && writer.flushes == 1);
    }
}
