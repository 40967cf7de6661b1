//! How often readers of text read the reader inside, and what they make of its errors.

use crate::assertions::assert_rows;
use encoding_runs::reader::{Utf8Reader, Utf16Reader};
use reader_example::{is_well_formed, read_text};
use std::alloc::Global;
use std::io;
use std::io::{Error, ErrorKind, Read};
use test_support::rows::{Row, Table};

/// Returns its bytes, `step` per read, and counts its reads. With an error it fails at each second read, the first one
/// included.
#[derive(Drop)]
struct Counted<'a> {
    rest: &'a [u8],
    step: usize,
    fault: Option<ErrorKind>,
    fails: bool,
    reads: usize,
}

impl<'a> Counted<'a> {
    fn of(bytes: &'a [u8], step: usize, fault: Option<ErrorKind>) -> Counted<'a> {
        Counted {
            rest: bytes,
            step,
            fault,
            fails: false,
            reads: 0,
        }
    }
}

impl Read for Counted<'_> {
    fn read(&mut self, buffer: &mut [u8]) -> io::Result<usize> {
        self.reads = self.reads.saturating_add(1);
        self.fails = !self.fails;
        if let Some(kind) = self.fault {
            if self.fails {
                return Err(Error::from(kind));
            }
        }
        let count = self.rest.len().min(self.step).min(buffer.len());
        let (now, later) = self.rest.split_at(count);
        buffer[..count].copy_from_slice(now);
        self.rest = later;
        Ok(count)
    }
}

/// What an error of the kind that the inner reader returned counts as, and any other.
const FAILS: usize = 100;

const FAILS_OTHERWISE: usize = 200;

/// Returns the count of a read, or what its error counts as.
fn answer_of(returned: io::Result<usize>, fault: Option<ErrorKind>) -> usize {
    match returned {
        Ok(count) => count,
        Err(error) => {
            if Some(error.kind()) == fault {
                FAILS
            } else {
                FAILS_OTHERWISE
            }
        }
    }
}

/// The bytes of the inner reader, how many it returns per read, and whether it fails; the length of the destination of
/// each call; and for each call how many reads were made so far, and its answer. An answer is a count of bytes, or 100
/// for an error of the inner reader.
const UTF8_ROWS: &str = "\
| 1 | sound | 8 | 1 0, 2 0, 3 0
61 62 | 2 | sound | 8 | 1 2, 2 0, 3 0
61 62 | 2 | sound | 0 | 0 0, 0 0, 0 0
61 62 | 2 | sound | 1 | 1 1, 1 1, 2 0, 3 0
61 62 | 1 | sound | 8 | 1 1, 2 1, 3 0, 4 0
E2 98 83 | 1 | sound | 8 | 3 3, 4 0, 5 0
E2 98 83 | 1 | sound | 2 | 3 2, 3 1, 4 0
E2 98 | 1 | sound | 8 | 3 3, 4 0, 5 0
E2 98 | 2 | sound | 2 | 2 2, 2 1, 3 0
61 62 | 2 | fails | 8 | 1 100, 2 2, 3 100, 4 0, 5 100
61 62 | 2 | fails | 1 | 1 100, 2 1, 2 1, 3 100, 4 0
E2 98 | 1 | fails | 8 | 1 100, 3 100, 5 100, 6 3, 7 100";

/// Rows as in `UTF8_ROWS`, of a reader of code units: an answer is their count.
const UTF16_ROWS: &str = "\
| 1 | sound | 8 | 1 0, 2 0, 3 0
61 62 | 2 | sound | 8 | 1 2, 2 0, 3 0
61 62 | 2 | sound | 0 | 0 0, 0 0, 0 0
61 62 | 2 | sound | 1 | 1 1, 1 1, 2 0, 3 0
F0 9F 92 A9 | 4 | sound | 1 | 1 1, 1 1, 2 0
E2 98 | 1 | sound | 8 | 3 1, 4 0, 5 0
E2 98 | 2 | sound | 1 | 2 1, 3 0, 4 0
61 62 | 2 | fails | 8 | 1 100, 2 2, 3 100, 4 0, 5 100
61 62 | 2 | fails | 1 | 1 100, 2 1, 2 1, 3 100, 4 0";

/// Returns how many reads were made in some calls into a destination of at most eight bytes, and the answer of the
/// last call.
fn utf8_answer(
    bytes: &[u8],
    step: usize,
    fault: Option<ErrorKind>,
    room: usize,
    calls: usize,
) -> (usize, usize) {
    let mut inner = Counted::of(bytes, step, fault);
    let mut reader = Utf8Reader::new(&mut inner);
    let mut dst = [0; 8];
    let (dst, _) = dst.split_at_mut(room.min(8));
    let mut answer = 0;
    for _ in 0..calls {
        answer = answer_of(reader.read(dst), fault);
    }
    drop(reader);
    (inner.reads, answer)
}

/// Returns the same of a destination of code units.
fn utf16_answer(
    bytes: &[u8],
    step: usize,
    fault: Option<ErrorKind>,
    room: usize,
    calls: usize,
) -> (usize, usize) {
    let mut inner = Counted::of(bytes, step, fault);
    let mut reader = Utf16Reader::new(&mut inner);
    let mut dst = [0; 8];
    let (dst, _) = dst.split_at_mut(room.min(8));
    let mut answer = 0;
    for _ in 0..calls {
        answer = answer_of(reader.read(dst), fault);
    }
    drop(reader);
    (inner.reads, answer)
}

/// Returns whether the calls of a row have their answers.
fn answers_are(row: &mut Row<'_>, to_utf16: bool) -> bool {
    let bytes = row.bytes();
    let step = row.number();
    let fault = if row.word() == "fails" {
        Some(ErrorKind::Interrupted)
    } else {
        None
    };
    let room = row.number();
    let mut calls = 0usize;
    let mut holds = true;
    for wanted in row.word().split(',') {
        calls = calls.saturating_add(1);
        let (reads, answer) = wanted.trim().split_once(' ').unwrap_or(("", ""));
        let wanted = (row.number_of(reads), row.number_of(answer));
        let bytes = bytes.as_slice();
        let answer = if to_utf16 {
            utf16_answer(bytes, step, fault, room, calls)
        } else {
            utf8_answer(bytes, step, fault, room, calls)
        };
        holds = holds && answer == wanted;
    }
    holds
}

#[derive(Drop)]
struct ToUtf8;

impl Table for ToUtf8 {
    const ROWS: &'static str = UTF8_ROWS;

    const COUNT: usize = 12;

    fn holds(&mut self, row: &mut Row<'_>) -> bool {
        answers_are(row, false)
    }
}

#[test]
fn counts_reads_to_utf8(rt: HostRuntime) {
    assert_rows(&rt, &mut ToUtf8);
}

#[derive(Drop)]
struct ToUtf16;

impl Table for ToUtf16 {
    const ROWS: &'static str = UTF16_ROWS;

    const COUNT: usize = 9;

    fn holds(&mut self, row: &mut Row<'_>) -> bool {
        answers_are(row, true)
    }
}

#[test]
fn counts_reads_to_utf16(rt: HostRuntime) {
    assert_rows(&rt, &mut ToUtf16);
}

/// Bytes, how many are returned per read, how many reads are made, and whether the bytes are well-formed.
const WELL_FORMED_ROWS: &str = "\
| 1 | 1 | well-formed
61 62 | 1 | 3 | well-formed
61 62 | 2 | 2 | well-formed
61 FF 62 | 1 | 2 | malformed
61 FF 62 | 3 | 1 | malformed
E2 98 | 1 | 3 | malformed
E2 98 83 | 2 | 3 | well-formed";

#[derive(Drop)]
struct Checks;

impl Table for Checks {
    const ROWS: &'static str = WELL_FORMED_ROWS;

    const COUNT: usize = 7;

    fn holds(&mut self, row: &mut Row<'_>) -> bool {
        let bytes = row.bytes();
        let mut inner = Counted::of(bytes.as_slice(), row.number(), None);
        let Ok(answer) = is_well_formed(&mut inner) else {
            return false;
        };
        inner.reads == row.number() && answer == (row.word() == "well-formed")
    }
}

#[test]
fn counts_reads_of_a_check(rt: HostRuntime) {
    assert_rows(&rt, &mut Checks);
}

/// Kinds of errors that std returns for reads of files and sockets, and some that it doesn't.
const KINDS: [ErrorKind; 10] = [
    ErrorKind::Interrupted,
    ErrorKind::WouldBlock,
    ErrorKind::UnexpectedEof,
    ErrorKind::InvalidData,
    ErrorKind::InvalidInput,
    ErrorKind::TimedOut,
    ErrorKind::ConnectionReset,
    ErrorKind::IsADirectory,
    ErrorKind::OutOfMemory,
    ErrorKind::Other,
];

/// Returns how many reads a check makes, and its answer: 0, or what a row has for its error.
fn check_answer(fault: Option<ErrorKind>) -> (usize, usize) {
    let mut inner = Counted::of(b"ab", 1, fault);
    let answer = match is_well_formed(&mut inner) {
        Ok(_) => 0,
        Err(error) => answer_of(Err(error), fault),
    };
    (inner.reads, answer)
}

/// Returns how many reads a text takes, and its answer: its length, or what a row has for its error.
fn text_answer(alloc: Global, fault: Option<ErrorKind>) -> (usize, usize) {
    let mut inner = Counted::of(b"ab", 1, fault);
    let answer = match read_text(alloc, &mut inner) {
        Ok(text) => text.len(),
        Err(error) => answer_of(Err(error), fault),
    };
    (inner.reads, answer)
}

/// Returns the call that doesn't pass on an error of this kind, or nothing. std's `read_to_string` reads again after
/// `Interrupted`: three reads for `a`, `b` and the end, each after one that fails.
fn failing_call(alloc: Global, kind: ErrorKind) -> &'static str {
    let fault = Some(kind);
    let of_text = if kind == ErrorKind::Interrupted {
        (6, 2)
    } else {
        (1, FAILS)
    };
    if utf8_answer(b"ab", 1, fault, 1, 1) != (1, FAILS) {
        "UTF-8 into 1"
    } else if utf8_answer(b"ab", 1, fault, 8, 1) != (1, FAILS) {
        "UTF-8 into 8"
    } else if utf16_answer(b"ab", 1, fault, 1, 1) != (1, FAILS) {
        "UTF-16 into 1"
    } else if utf16_answer(b"ab", 1, fault, 8, 1) != (1, FAILS) {
        "UTF-16 into 8"
    } else if check_answer(fault) != (1, FAILS) {
        "a check"
    } else if text_answer(alloc, fault) != of_text {
        "a text"
    } else {
        ""
    }
}

#[test]
fn passes_on_each_kind_of_error(rt: HostRuntime) {
    for kind in KINDS {
        let failing = failing_call(rt.alloc(), kind);
        assert!(rt; failing.is_empty(), "{failing}: {kind:?}");
    }
    assert!(rt; KINDS.len() == 10);
}
