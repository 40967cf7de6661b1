//! Runs over streams in memory. And lines on an error stream that takes them in pieces, or that fails once and would
//! take the rest.

use super::peers::Flaky;
use crate::service::{report, serve};
use std::cell::Cell;
use std::io::{ErrorKind, Read};
use std::test::Fail;
use test_support::memory::exhaust;
use test_support::streams::{Input, OUTPUT_CAPACITY, Output};

/// The input of a run, its expected output, and its status.
pub struct Row {
    pub input: &'static [u8],
    pub output: &'static [u8],
    pub status: u8,
}

pub const ROWS: [Row; 6] = [
    Row {
        input: b"",
        output: b"",
        status: 0,
    },
    Row {
        input: &[0xE2, 0x98, 0x83],
        output: &[0xE2, 0x98, 0x83],
        status: 0,
    },
    Row {
        input: &[0x61, 0xE2, 0x98, 0x5A],
        output: &[0x61, 0xEF, 0xBF, 0xBD, 0x5A],
        status: 1,
    },
    Row {
        input: &[0x61, 0xE0, 0x80, 0x80],
        output: &[0x61, 0xEF, 0xBF, 0xBD, 0xEF, 0xBF, 0xBD, 0xEF, 0xBF, 0xBD],
        status: 1,
    },
    Row {
        input: &[0x61, 0xC2, 0x7F],
        output: &[0x61, 0xEF, 0xBF, 0xBD, 0x7F],
        status: 1,
    },
    Row {
        input: &[0x61, 0xF0, 0x9F, 0x92],
        output: &[0x61, 0xEF, 0xBF, 0xBD],
        status: 1,
    },
];

pub const USAGE: &[u8] = b"usage: utf8_repair\n";

pub const READ_FAULT: &[u8] = b"utf8_repair: read fault\n";

pub const WRITE_FAULT: &[u8] = b"utf8_repair: write fault\n";

pub const LIMIT: &[u8] = b"utf8_repair: limit\n";

pub const NO_ARGUMENTS: &[u8] = b"utf8_repair: no arguments\n";

/// A writer that takes no byte, one that fails, and one that is interrupted.
pub const FAULTS: [Option<ErrorKind>; 3] = [
    None,
    Some(ErrorKind::Other),
    Some(ErrorKind::Interrupted),
];

/// Returns whether a run returns the status and writes its line, and flushes its writer once, after all that it wrote.
fn run_is<R: Read>(
    reader: &mut R,
    writer: &mut Output,
    text: &[u8],
    status: u8,
    line: &[u8],
) -> bool {
    let mut errors = Output::that_takes_all();
    serve(0, reader, writer, &mut errors) == status
        && writer.written() == text
        && writer.flushes == 1
        && writer.flushed_at == text.len()
        && errors.written() == line
        && errors.flushes == 0
}

#[test]
fn repairs(rt: HostRuntime) {
    for row in &ROWS {
        for step in [1, 2, 3, 4, OUTPUT_CAPACITY] {
            for taken in [1, 2, OUTPUT_CAPACITY] {
                let mut reader = Input::of(row.input, step);
                let mut writer = Output::by_steps_of(taken);
                assert!(rt;
                    run_is(&mut reader, &mut writer, row.output, row.status, b""),
                    "{:?}",
                    row.input
                );
            }
        }
    }
}

/// Returns whether a run with this many arguments uses neither stream, and writes the usage.
fn is_refused(arguments: usize) -> bool {
    let mut reader = Input::of(b"a", 1);
    let mut writer = Output::that_takes_all();
    let mut errors = Output::that_takes_all();
    serve(arguments, &mut reader, &mut writer, &mut errors) == 2
        && errors.written() == USAGE
        && reader.asked == 0
        && writer.asked == 0
        && writer.flushes == 0
}

#[test]
fn refuses_arguments(rt: HostRuntime) {
    for arguments in [1, 2, usize::MAX] {
        assert!(rt; is_refused(arguments), "{arguments}");
    }
}

/// The bytes that a reader yields before it fails, and the text of their final parts.
pub struct Cut {
    pub input: &'static [u8],
    pub final_text: &'static [u8],
}

pub const CUTS: [Cut; 4] = [
    Cut {
        input: b"",
        final_text: b"",
    },
    Cut {
        input: b"a",
        final_text: b"a",
    },
    Cut {
        input: &[0x61, 0xE2, 0x98],
        final_text: b"a",
    },
    Cut {
        input: &[0x61, 0xFF],
        final_text: &[0x61, 0xEF, 0xBF, 0xBD],
    },
];

/// The read after the bytes fails, and is the last one.
#[test]
fn reports_read_faults(rt: HostRuntime) {
    for kind in [ErrorKind::Other, ErrorKind::Interrupted] {
        for cut in &CUTS {
            let mut reader = Input::that_fails(cut.input, kind);
            let mut writer = Output::that_takes_all();
            assert!(rt;
                run_is(&mut reader, &mut writer, cut.final_text, 3, READ_FAULT),
                "{:?}",
                cut.input
            );
            assert!(rt; reader.asked == cut.input.len().saturating_add(1));
        }
    }
}

/// The writer takes a number of bytes in total, and then fails or takes none.
#[test]
fn reports_write_faults(rt: HostRuntime) {
    let input = [0xE2, 0x98, 0x83, 0xFF];
    let text = [0xE2, 0x98, 0x83, 0xEF, 0xBF, 0xBD];
    for fault in FAULTS {
        for taken in 0..7 {
            for step in [1, 4] {
                let mut reader = Input::of(&input, step);
                let mut writer = Output::that_takes(taken, fault);
                let (status, line) = if taken < text.len() {
                    (4, WRITE_FAULT)
                } else {
                    (1, b"".as_slice())
                };
                assert!(rt;
                    run_is(&mut reader, &mut writer, &text[..taken], status, line),
                    "{taken}, {step}"
                );
            }
        }
    }
}

/// A flush that fails is a write fault, whatever the engine returned.
#[test]
fn reports_flush_faults(rt: HostRuntime) {
    for row in &ROWS {
        let mut reader = Input::of(row.input, 2);
        let mut writer = Output::that_cannot_flush();
        assert!(rt;
            run_is(&mut reader, &mut writer, row.output, 4, WRITE_FAULT),
            "{:?}",
            row.input
        );
    }
    for cut in &CUTS {
        let mut reader = Input::that_fails(cut.input, ErrorKind::Other);
        let mut writer = Output::that_cannot_flush();
        assert!(rt;
            run_is(&mut reader, &mut writer, cut.final_text, 4, WRITE_FAULT),
            "{:?}",
            cut.input
        );
    }
}

/// Returns whether the line of the status is this one.
fn line_is(status: u8, line: &[u8]) -> bool {
    let mut errors = Output::that_takes_all();
    report(status, &mut errors);
    errors.written() == line
}

/// No run over memory reads as many bytes as the limit, so this compares the lines directly.
#[test]
fn says_each_line(rt: HostRuntime) {
    assert!(rt; line_is(0, b"") && line_is(1, b"") && line_is(2, USAGE) && line_is(3, READ_FAULT));
    assert!(rt; line_is(4, WRITE_FAULT) && line_is(5, LIMIT) && line_is(6, NO_ARGUMENTS));
}

/// Returns whether a run returns the status, and its line stops where the error stream does.
fn stops_at(
    arguments: usize,
    taken: usize,
    fault: Option<ErrorKind>,
    status: u8,
    line: &[u8],
) -> bool {
    let mut reader = Input::that_fails(b"a", ErrorKind::Other);
    let mut writer = Output::that_takes_all();
    let mut errors = Output::that_takes(taken, fault);
    serve(arguments, &mut reader, &mut writer, &mut errors) == status
        && line.get(..taken) == Some(errors.written())
}

#[test]
fn ignores_faults_of_the_error_stream(rt: HostRuntime) {
    for fault in FAULTS {
        for taken in 0..USAGE.len().saturating_add(1) {
            assert!(rt; stops_at(1, taken, fault, 2, USAGE), "{taken}");
        }
        for taken in 0..READ_FAULT.len().saturating_add(1) {
            assert!(rt; stops_at(0, taken, fault, 3, READ_FAULT), "{taken}");
        }
    }
}

/// Returns whether the runs of all rows, of all cuts and with an argument are as expected.
fn all_runs_are() -> bool {
    let mut all = is_refused(1);
    for row in &ROWS {
        let mut reader = Input::of(row.input, 2);
        let mut writer = Output::that_takes_all();
        all = all && run_is(&mut reader, &mut writer, row.output, row.status, b"");
    }
    for cut in &CUTS {
        let mut reader = Input::that_fails(cut.input, ErrorKind::Other);
        let mut writer = Output::that_takes_all();
        all = all && run_is(&mut reader, &mut writer, cut.final_text, 3, READ_FAULT);
        let mut reader = Input::of(cut.input, 2);
        let mut writer = Output::that_cannot_flush();
        all = all && serve(0, &mut reader, &mut writer, &mut Output::that_takes_all()) == 4;
    }
    all
}

/// Each allocation fails while they run. They run once before, to map the pages of the stack: it can't grow without
/// memory.
#[test]
fn takes_no_memory(rt: HostRuntime) -> Result<(), Fail> {
    assert!(rt; all_runs_are());
    let held = exhaust(rt.alloc())?;
    let all = all_runs_are();
    let refused = Vec::<u8>::with_capacity(rt.alloc(), 1).is_err();
    drop(held);
    assert!(rt; refused && all);
    Ok(())
}

/// The statuses that have a line.
const LINES: [(u8, &[u8]); 5] = [
    (2, USAGE),
    (3, READ_FAULT),
    (4, WRITE_FAULT),
    (5, LIMIT),
    (6, NO_ARGUMENTS),
];

/// Writes the line of a status: by a run that ends with it, or directly for 5 and 6, which no run over memory returns.
/// Returns whether the status was returned.
fn is_said(status: u8, errors: &mut Flaky<'_>) -> bool {
    let mut writer = Output::that_takes_all();
    let returned = match status {
        2 => serve(1, &mut Input::of(b"a", 1), &mut writer, errors),
        3 => {
            let mut reader = Input::that_fails(b"a", ErrorKind::Other);
            serve(0, &mut reader, &mut writer, errors)
        }
        4 => {
            let mut full = Output::that_takes(0, None);
            serve(0, &mut Input::of(b"a", 1), &mut full, errors)
        }
        _ => {
            report(status, errors);
            status
        }
    };
    returned == status
}

/// Returns whether the line arrives up to the write that fails or writes no byte, and no byte of it after that, though
/// the stream would take the rest.
fn line_stops_at(
    status: u8,
    line: &[u8],
    step: usize,
    calls: usize,
    fault: Option<ErrorKind>,
) -> bool {
    let arrived = Cell::new(0);
    let mut errors = Flaky::new(step, calls, fault, &arrived);
    let taken = step.saturating_mul(calls).min(line.len());
    is_said(status, &mut errors) && line.get(..taken) == Some(errors.written())
}

#[test]
fn says_a_line_in_pieces(rt: HostRuntime) {
    for (status, line) in LINES {
        for step in 1..28 {
            assert!(rt;
                line_stops_at(status, line, step, usize::MAX, None),
                "{status}, {step}"
            );
        }
    }
}

#[test]
fn says_nothing_after_a_fault(rt: HostRuntime) {
    for (status, line) in LINES {
        for fault in FAULTS {
            for step in [1, 2, 5] {
                for calls in 0..6 {
                    assert!(rt;
                        line_stops_at(status, line, step, calls, fault),
                        "{status}, {step}, {calls}"
                    );
                }
            }
        }
    }
}
