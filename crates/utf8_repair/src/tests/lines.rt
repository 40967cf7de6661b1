//! The bytes of one read are written by one write, before the next read.

use super::peers::{Arrived, Counted, Lengths, Lines, Row, Typist};
use crate::service::serve;
use crate::streams::{BufferedWriter, FlushPolicy, PIPE_CAPACITY, ReadAhead};
use std::cell::Cell;
use test_support::streams::Output;

/// One read leaves by one write, except for the last four bytes if no whole character ends them: they may have up to
/// five parts.
const ROWS: [Row; 33] = [
    Row {
        input: b"a line\n",
        due: b"a line\n",
        writes: 1,
    },
    Row {
        input: b"\n",
        due: b"\n",
        writes: 1,
    },
    Row {
        input: b"caf\xC3\xA9\n",
        due: b"caf\xC3\xA9\n",
        writes: 1,
    },
    Row {
        input: b"caf\xE9\n",
        due: b"caf\xEF\xBF\xBD\n",
        writes: 1,
    },
    Row {
        input: b"\xE9\n",
        due: b"\xEF\xBF\xBD\n",
        writes: 1,
    },
    Row {
        input: b"a\xFF\n",
        due: b"a\xEF\xBF\xBD\n",
        writes: 1,
    },
    Row {
        input: b"a\xE2\x98\n",
        due: b"a\xEF\xBF\xBD\n",
        writes: 1,
    },
    Row {
        input: b"a\xF0\x9F\x92\n",
        due: b"a\xEF\xBF\xBD\n",
        writes: 1,
    },
    Row {
        input: b"a\xE2\x98\xFF\xC2\n",
        due: b"a\xEF\xBF\xBD\xEF\xBF\xBD\xEF\xBF\xBD\n",
        writes: 1,
    },
    Row {
        input: b"\xFF\xFF\xFF\xFF\n",
        due: b"\xEF\xBF\xBD\xEF\xBF\xBD\xEF\xBF\xBD\xEF\xBF\xBD\n",
        writes: 1,
    },
    Row {
        input: b"\xE2\x98\x83\xE2\x98\x83",
        due: b"\xE2\x98\x83\xE2\x98\x83",
        writes: 1,
    },
    Row {
        input: b"\xFF, and \xE2\xC2\xA9",
        due: b"\xEF\xBF\xBD, and \xEF\xBF\xBD\xC2\xA9",
        writes: 1,
    },
    Row {
        input: b"a pile \xF0\x9F\x92\xA9",
        due: b"a pile \xF0\x9F\x92\xA9",
        writes: 1,
    },
    Row {
        input: b"cut \xE2\x98",
        due: b"cut ",
        writes: 1,
    },
    Row {
        input: b"\x83\n",
        due: b"\xE2\x98\x83\n",
        writes: 1,
    },
    Row {
        input: b"cut \xF0",
        due: b"cut ",
        writes: 1,
    },
    Row {
        input: b"\x9F",
        due: b"",
        writes: 0,
    },
    Row {
        input: b"\x92",
        due: b"",
        writes: 0,
    },
    Row {
        input: b"\n",
        due: b"\xEF\xBF\xBD\n",
        writes: 1,
    },
    Row {
        input: b"\xF0\x9F\x92",
        due: b"",
        writes: 0,
    },
    Row {
        input: b"\xA9",
        due: b"\xF0\x9F\x92\xA9",
        writes: 1,
    },
    Row {
        input: b"abcd\xF0\x9F\x92",
        due: b"abcd",
        writes: 1,
    },
    Row {
        input: b"\n",
        due: b"\xEF\xBF\xBD\n",
        writes: 1,
    },
    Row {
        input: b"abcd\xE2\x98\xFF",
        due: b"abcd\xEF\xBF\xBD\xEF\xBF\xBD",
        writes: 3,
    },
    Row {
        input: b"abcd\xE2\x98\xFF\xFF\xFF\xFF",
        due: b"abcd\xEF\xBF\xBD\xEF\xBF\xBD\xEF\xBF\xBD\xEF\xBF\xBD\xEF\xBF\xBD",
        writes: 5,
    },
    Row {
        input: b"a\xE2\x98\xC3\xBD",
        due: b"a\xEF\xBF\xBD\xC3\xBD",
        writes: 1,
    },
    Row {
        input: b"\xC3\xBD",
        due: b"\xC3\xBD",
        writes: 1,
    },
    Row {
        input: b"a\xE2\x98\xEF\xBF\xBD",
        due: b"a\xEF\xBF\xBD\xEF\xBF\xBD",
        writes: 1,
    },
    Row {
        input: b"\xEF\xBF\xBD",
        due: b"\xEF\xBF\xBD",
        writes: 1,
    },
    Row {
        input: b"cut \xE2",
        due: b"cut ",
        writes: 1,
    },
    Row {
        input: b"\xC3\xBD",
        due: b"\xEF\xBF\xBD\xC3\xBD",
        writes: 1,
    },
    Row {
        input: b"\xF0\x9F\xEF\xBF\xBD",
        due: b"\xEF\xBF\xBD\xEF\xBF\xBD",
        writes: 1,
    },
    Row {
        input: b"the last\xE2\x98",
        due: b"the last",
        writes: 1,
    },
];

/// The incomplete sequence at the end of the last row is malformed once the input ends.
#[test]
fn answers_what_is_typed_by_one_write(rt: HostRuntime) {
    let (due, arrived) = (Cell::new(FlushPolicy::Each), Arrived::none());
    let mut typist = Typist::of(&ROWS, &arrived);
    let mut writer = Counted::of(Output::that_takes_all(), &arrived);
    let mut errors = Output::that_takes_all();
    let mut ahead: ReadAhead<'_, _, 32> = ReadAhead::new(&mut typist, &due);
    let mut following: BufferedWriter<'_, _, 32> = BufferedWriter::new(&mut writer, &due);
    let status = serve(0, &mut ahead, &mut following, &mut errors);
    assert!(rt; status == 1 && typist.late == 0, "{}", typist.late);
    assert!(rt; typist.torn == 0, "{}", typist.torn);
    let mut rest = writer.written();
    for row in &ROWS {
        assert!(rt;
            rest.get(..row.due.len()) == Some(row.due),
            "{:?}",
            row.input
        );
        rest = rest.get(row.due.len()..).unwrap_or(&[]);
    }
    assert!(rt; rest == b"\xEF\xBF\xBD".as_slice());
}

/// The end of a line, and how many bytes longer the line is once repaired.
const ENDS: [(&[u8], usize); 6] = [
    (b"\n", 0),
    (b"\xE2\x98\x83\n", 0),
    (b"\xFF\n", 2),
    (b"\xE9\n", 2),
    (b"\xF0\x9F\x92\n", 0),
    (b"\xE2\x98\xFF\n", 3),
];

/// Lengths near the ends of rounds, of a whole write to a pipe, and of the arrays, and some between these.
const LENGTHS: [usize; 21] = [
    1022, 1023, 1024, 1025, 1026, 2047, 2048, 2049, 4094, 4095, 4096, 4097, 5000, 8191, 16_384,
    32_768, 60_000, 65_532, 65_533, 65_535, 65_536,
];

/// Returns whether each of three lines, which arrive by one read each, leaves by one write, with any of the ends.
fn leaves_lines_whole(length: usize) -> bool {
    let mut all = true;
    for (end, more) in &ENDS {
        let repaired = length.saturating_add(*more);
        if end.len() <= length && repaired <= PIPE_CAPACITY {
            let due = Cell::new(FlushPolicy::Each);
            let mut writer = Lengths::of(repaired);
            let mut errors = Output::that_takes_all();
            let mut ahead: ReadAhead<'_, _, PIPE_CAPACITY> = ReadAhead::new(
                Lines::of(length, end, 3),
                &due,
            );
            let mut following: BufferedWriter<'_, _, PIPE_CAPACITY> = BufferedWriter::new(
                &mut writer,
                &due,
            );
            let status = serve(0, &mut ahead, &mut following, &mut errors);
            all = all && status <= 1 && writer.writes == 3 && writer.others == 0;
        }
    }
    all
}

#[test]
fn writes_each_line_at_once(rt: HostRuntime) {
    for length in 1..201 {
        assert!(rt; leaves_lines_whole(length), "{length}");
    }
    for length in LENGTHS {
        assert!(rt; leaves_lines_whole(length), "{length}");
    }
}

/// A line that three malformed sequences make longer than the array leaves by two writes.
#[test]
fn writes_a_longer_line_in_two(rt: HostRuntime) {
    let due = Cell::new(FlushPolicy::Each);
    let mut writer = Lengths::of(PIPE_CAPACITY);
    let mut errors = Output::that_takes_all();
    let lines = Lines::of(PIPE_CAPACITY, b"\xFF\xFF\xFF\n", 1);
    let mut ahead: ReadAhead<'_, _, PIPE_CAPACITY> = ReadAhead::new(lines, &due);
    let mut following: BufferedWriter<'_, _, PIPE_CAPACITY> = BufferedWriter::new(
        &mut writer,
        &due,
    );
    assert!(rt; serve(0, &mut ahead, &mut following, &mut errors) == 1);
    assert!(rt; writer.writes == 0 && writer.others == 2);
}
