//! The streams with arrays, between streams in memory. Each error of the inner streams is returned once, by the call in
//! which it happens, and that call isn't repeated.

use super::peers::{Arrived, Counted, FailsOnce, Flaky, Peer};
use super::serve_rows::FAULTS;
use crate::service::serve;
use crate::streams::{BufferedWriter, FlushPolicy, ReadAhead};
use std::cell::Cell;
use std::io::{ErrorKind, Read, Write};
use test_support::streams::{Input, Output};

pub const TEXT: &[u8] = b"thirty-nine bytes, and each a real one.";

/// Returns whether the program, over arrays of eight, writes all bytes of its peer. Reads have `step` bytes and writes
/// at most `taken`, and at each read all bytes due have been written.
fn writes_what_is_due(step: usize, taken: usize) -> bool {
    let (due, arrived) = (Cell::new(FlushPolicy::Each), Cell::new(0));
    let mut peer = Peer::new(TEXT, step, &arrived);
    let mut flaky = Flaky::new(taken, usize::MAX, None, &arrived);
    let mut errors = Output::that_takes_all();
    let mut reader: ReadAhead<'_, _, 8> = ReadAhead::new(&mut peer, &due);
    let mut writer: BufferedWriter<'_, _, 8> = BufferedWriter::new(&mut flaky, &due);
    let status = serve(0, &mut reader, &mut writer, &mut errors);
    status == 0 && flaky.written() == TEXT && peer.late == 0
}

#[test]
fn writes_what_is_due_before_it_waits(rt: HostRuntime) {
    for step in 1..13 {
        for taken in [1, 3, 5, 64] {
            assert!(rt; writes_what_is_due(step, taken), "{step}, {taken}");
        }
    }
}

/// Returns whether all bytes arrive if one inner write fails or writes nothing, and the caller tries again.
fn loses_nothing(fault: Option<ErrorKind>, calls: usize, step: usize, due: FlushPolicy) -> bool {
    let (due, arrived) = (Cell::new(due), Cell::new(0));
    let mut flaky = Flaky::new(step, calls, fault, &arrived);
    let mut writer: BufferedWriter<'_, _, 8> = BufferedWriter::new(&mut flaky, &due);
    let mut rest = TEXT;
    let mut failed: usize = 0;
    for _ in 0..50 {
        let piece = rest.len().min(5);
        let Ok(count) = writer.write(&rest[..piece]) else {
            failed = failed.saturating_add(1);
            continue;
        };
        rest = &rest[count..];
    }
    let flushed = writer.flush().is_ok() || writer.flush().is_ok();
    failed <= 1 && flushed && rest.is_empty() && flaky.written() == TEXT
}

#[test]
fn keeps_what_a_failed_write_leaves(rt: HostRuntime) {
    for fault in FAULTS {
        for calls in 0..40 {
            for step in [1, 2, 3, 4, 7, 64] {
                for due in [
                    FlushPolicy::Nothing,
                    FlushPolicy::Each,
                    FlushPolicy::UpTo(b'e'),
                ] {
                    assert!(rt; loses_nothing(fault, calls, step, due), "{calls}, {step}");
                }
            }
        }
    }
}

/// A piece longer than the array is written through, after the buffered bytes.
#[test]
fn passes_long_pieces_through(rt: HostRuntime) {
    let (due, arrived) = (Cell::new(FlushPolicy::Nothing), Cell::new(0));
    let mut flaky = Flaky::new(64, usize::MAX, None, &arrived);
    let mut writer: BufferedWriter<'_, _, 8> = BufferedWriter::new(&mut flaky, &due);
    assert!(rt; writer.write(b"two").unwrap_or(0) == 3);
    assert!(rt; arrived.get() == 0);
    assert!(rt; writer.write(TEXT).unwrap_or(0) == TEXT.len());
    assert!(rt; arrived.get() == TEXT.len() + 3);
    assert!(rt; flaky.written().ends_with(TEXT));
}

/// Returns whether a run over both arrays returns the status, and its inner writer received exactly this text.
fn serves(reader: Input<'_>, writer: &mut Output, text: &[u8], status: u8) -> bool {
    let due = Cell::new(FlushPolicy::Each);
    let mut errors = Output::that_takes_all();
    let mut ahead: ReadAhead<'_, _, 8> = ReadAhead::new(reader, &due);
    let mut following: BufferedWriter<'_, _, 8> = BufferedWriter::new(&mut *writer, &due);
    let returned = serve(0, &mut ahead, &mut following, &mut errors);
    returned == status && writer.written() == text
}

#[test]
fn serves_over_both(rt: HostRuntime) {
    let input = [
        0x61, 0xE2, 0x98, 0x83, 0xFF, 0x62, 0xF0, 0x9F, 0x92, 0xA9, 0x63, 0x64, 0xE2, 0x98,
    ];
    let text = [
        0x61, 0xE2, 0x98, 0x83, 0xEF, 0xBF, 0xBD, 0x62, 0xF0, 0x9F, 0x92, 0xA9, 0x63, 0x64, 0xEF,
        0xBF, 0xBD,
    ];
    for step in 1..15 {
        for taken in 1..5 {
            let mut writer = Output::by_steps_of(taken);
            assert!(rt;
                serves(Input::of(&input, step), &mut writer, &text, 1),
                "{step}, {taken}"
            );
        }
        for fault in FAULTS {
            for taken in 0..text.len() {
                let mut writer = Output::that_takes(taken, fault);
                assert!(rt;
                    serves(Input::of(&input, step), &mut writer, &text[..taken], 4),
                    "{step}, {taken}"
                );
            }
        }
    }
    for kind in [ErrorKind::Other, ErrorKind::Interrupted] {
        let mut writer = Output::that_takes_all();
        assert!(rt; serves(Input::that_fails(&input, kind), &mut writer, &text[..14], 3));
    }
}

/// An interrupted call is a failed one.
const KINDS: [ErrorKind; 2] = [ErrorKind::Other, ErrorKind::Interrupted];

/// An array of 64 has space after the bytes of one read, but the inner reader isn't read again before these are
/// returned.
#[test]
fn reads_once_and_passes_on_the_fault(rt: HostRuntime) {
    for kind in KINDS {
        let (due, asked) = (Cell::new(FlushPolicy::Each), Cell::new(0));
        let inner = FailsOnce::following(TEXT, kind, &asked);
        let mut reader: ReadAhead<'_, _, 64> = ReadAhead::new(inner, &due);
        let mut buffer = [0; 64];
        let first = reader.read(&mut buffer).unwrap_or(0);
        let second = reader.read(&mut buffer[first.min(64)..]).unwrap_or(0);
        assert!(rt; first.saturating_add(second) == TEXT.len() && asked.get() == 1);
        assert!(rt; buffer.get(..TEXT.len()) == Some(TEXT));
        let fault = reader.read(&mut buffer);
        assert!(rt; fault.is_err_and(|error| error.kind() == kind) && asked.get() == 2);
        assert!(rt; reader.read(&mut buffer).is_ok_and(|count| count == 0) && asked.get() == 3);
    }
}

/// The run ends with the error, even if the reader would then be at its end.
#[test]
fn serves_up_to_a_read_fault(rt: HostRuntime) {
    for kind in KINDS {
        let (due, asked) = (Cell::new(FlushPolicy::Each), Cell::new(0));
        let mut writer = Output::that_takes_all();
        let mut errors = Output::that_takes_all();
        let inner = FailsOnce::following(TEXT, kind, &asked);
        let mut ahead: ReadAhead<'_, _, 64> = ReadAhead::new(inner, &due);
        let mut following: BufferedWriter<'_, _, 64> = BufferedWriter::new(&mut writer, &due);
        assert!(rt; serve(0, &mut ahead, &mut following, &mut errors) == 3);
        assert!(rt; writer.written() == TEXT && asked.get() == 2);
    }
}

#[test]
fn passes_on_a_fault_of_a_flush(rt: HostRuntime) {
    let due = Cell::new(FlushPolicy::Nothing);
    let mut output = Output::that_cannot_flush();
    let mut writer: BufferedWriter<'_, _, 8> = BufferedWriter::new(&mut output, &due);
    assert!(rt; writer.write(b"two").is_ok_and(|count| count == 3));
    assert!(rt; writer.flush().is_err());
    assert!(rt; output.written() == b"two".as_slice() && output.flushes == 1);
}

/// Returns whether a piece that is due fails with the first inner write, and the buffered bytes stay. The same piece,
/// written again, must then leave with these by one write.
fn fails_once(kind: ErrorKind, due: FlushPolicy) -> bool {
    let (mark, arrived) = (Cell::new(FlushPolicy::Nothing), Arrived::none());
    let mut inner = Counted::of(Output::that_takes_all(), &arrived).that_fails_at(0, kind);
    let mut writer: BufferedWriter<'_, _, 8> = BufferedWriter::new(&mut inner, &mark);
    let waits = writer.write(b"two").is_ok_and(|count| count == 3) && arrived.writes.get() == 0;
    mark.set(due);
    let fault = writer
        .write(b"one")
        .is_err_and(|error| error.kind() == kind);
    let asked = arrived.writes.get() == 1 && arrived.bytes.get() == 0;
    let again = writer.write(b"one").is_ok_and(|count| count == 3) && arrived.writes.get() == 2;
    waits && fault && asked && again && inner.written() == b"twoone".as_slice()
}

/// Returns whether the same holds of a flush, and of a piece that is longer than the array.
fn fails_once_elsewhere(kind: ErrorKind) -> bool {
    let (mark, arrived) = (Cell::new(FlushPolicy::Nothing), Arrived::none());
    let mut inner = Counted::of(Output::that_takes_all(), &arrived).that_fails_at(0, kind);
    let mut writer: BufferedWriter<'_, _, 8> = BufferedWriter::new(&mut inner, &mark);
    let waits = writer.write(b"two").is_ok_and(|count| count == 3);
    let fault = writer.flush().is_err_and(|error| error.kind() == kind);
    let asked = arrived.writes.get() == 1 && arrived.bytes.get() == 0;
    let flushed = waits && fault && asked && writer.flush().is_ok() && arrived.bytes.get() == 3;

    let late = Arrived::none();
    let mut inner = Counted::of(Output::that_takes_all(), &late).that_fails_at(0, kind);
    let mut writer: BufferedWriter<'_, _, 8> = BufferedWriter::new(&mut inner, &mark);
    let fault = writer.write(TEXT).is_err_and(|error| error.kind() == kind);
    flushed && fault && late.writes.get() == 1 && late.bytes.get() == 0
}

#[test]
fn tries_no_write_twice(rt: HostRuntime) {
    for kind in KINDS {
        for due in [FlushPolicy::Each, FlushPolicy::UpTo(b'e')] {
            assert!(rt; fails_once(kind, due));
        }
        assert!(rt; fails_once_elsewhere(kind));
    }
}

/// A write that takes some of the piece is the last one: the error of the next is returned for the next piece.
#[test]
fn tells_what_a_short_write_took(rt: HostRuntime) {
    for kind in KINDS {
        let (due, arrived) = (Cell::new(FlushPolicy::Nothing), Arrived::none());
        let mut inner = Counted::of(Output::by_steps_of(4), &arrived).that_fails_at(1, kind);
        let mut writer: BufferedWriter<'_, _, 8> = BufferedWriter::new(&mut inner, &due);
        assert!(rt; writer.write(b"two").is_ok_and(|count| count == 3));
        due.set(FlushPolicy::Each);
        assert!(rt;
            writer.write(b"one").is_ok_and(|count| count == 1) && arrived.writes.get() == 1
        );
        assert!(rt; writer.write(b"ne").is_err() && arrived.writes.get() == 2);
        assert!(rt; writer.write(b"ne").is_ok_and(|count| count == 2) && arrived.writes.get() == 3);
        assert!(rt; inner.written() == b"twoone".as_slice());
    }
}

/// A run that an interruption ends: only the flush writes the buffered bytes, and the piece is not written.
#[test]
fn serves_up_to_an_interruption(rt: HostRuntime) {
    for kind in KINDS {
        let (due, arrived, asked) = (Cell::new(FlushPolicy::Each), Arrived::none(), Cell::new(0));
        let mut inner = Counted::of(Output::that_takes_all(), &arrived).that_fails_at(0, kind);
        let mut errors = Output::that_takes_all();
        let reader = FailsOnce::following(b"a\xFF\n", kind, &asked);
        let mut ahead: ReadAhead<'_, _, 64> = ReadAhead::new(reader, &due);
        let mut following: BufferedWriter<'_, _, 64> = BufferedWriter::new(&mut inner, &due);
        assert!(rt; serve(0, &mut ahead, &mut following, &mut errors) == 4);
        assert!(rt; arrived.writes.get() == 2 && asked.get() == 1);
        assert!(rt; inner.written() == b"a\xEF\xBF\xBD".as_slice());
    }
}

/// Each piece that is due arrives at once, also after one that is longer than the array.
#[test]
fn sends_each_piece_that_is_due(rt: HostRuntime) {
    let (due, arrived) = (Cell::new(FlushPolicy::Each), Arrived::none());
    let mut inner = Counted::of(Output::that_takes_all(), &arrived);
    let mut writer: BufferedWriter<'_, _, 8> = BufferedWriter::new(&mut inner, &due);
    let mut total: usize = 0;
    for piece in [b"a".as_slice(), b"bc", TEXT, b"d", TEXT, TEXT, b"ef"] {
        assert!(rt; writer.write(piece).is_ok_and(|count| count == piece.len()));
        total = total.saturating_add(piece.len());
        assert!(rt; arrived.bytes.get() == total, "{total}");
    }
    assert!(rt; arrived.writes.get() == 7);
}

/// A piece that is not due waits for one that is, and both leave by one write.
#[test]
fn gathers_up_to_the_piece_that_is_due(rt: HostRuntime) {
    let (due, arrived) = (Cell::new(FlushPolicy::UpTo(b'\n')), Arrived::none());
    let mut inner = Counted::of(Output::that_takes_all(), &arrived);
    let mut writer: BufferedWriter<'_, _, 8> = BufferedWriter::new(&mut inner, &due);
    for piece in [b"\xEF\xBF\xBD".as_slice(), b"", b"\na"] {
        assert!(rt; writer.write(piece).is_ok_and(|count| count == piece.len()));
        assert!(rt; arrived.writes.get() == 0);
    }
    assert!(rt; writer.write(b"b\n").is_ok_and(|count| count == 2));
    assert!(rt; arrived.writes.get() == 1 && arrived.bytes.get() == 7);
}
