//! What `repair` reads, writes and returns, and a watched stream as a source. And `repair` over a reader that returns
//! one byte per read, with an error at each offset: what is written, and how often the reader is asked.

use crate::assertions::{assert_rows, assert_vectors};
use crate::repair_rows::malformed_count;
use encoding_runs::repair::{RepairFault, Repaired, Sink, Source, Watch, repair};
use std::alloc::{AllocError, Global};
use std::io::{ErrorKind, Read};
use test_support::decoder_vectors::{Vector, VectorTest, lossy_utf8};
use test_support::rows::{Row, Table};
use test_support::streams::{Endless, Input, OUTPUT_CAPACITY, Output};

/// The bytes that the reader returns; whether it ends after them or fails; the limit; what is returned: an error, or
/// the number of bytes read and of parts replaced; and what was written.
const ROWS: &str = "\
 | ends | 100 | 0 0 |
61 E2 98 5A | ends | 100 | 4 1 | 61 EF BF BD 5A
61 E0 80 80 | ends | 100 | 4 3 | 61 EF BF BD EF BF BD EF BF BD
61 C2 7F | ends | 100 | 3 1 | 61 EF BF BD 7F
61 E2 98 | ends | 100 | 3 1 | 61 EF BF BD
61 E2 98 | fails | 100 | Read | 61
61 E2 98 | ends | 3 | Limit | 61
61 E2 98 | fails | 3 | Limit | 61
61 E2 98 | ends | 0 | Limit |
61 62 63 | ends | 100 | 3 0 | 61 62 63
61 FF 62 | ends | 2 | Limit | 61 EF BF BD
61 FF 62 | ends | 3 | Limit | 61 EF BF BD 62
61 FF 62 | ends | 4 | 3 1 | 61 EF BF BD 62
61 FF 62 | fails | 4 | Read | 61 EF BF BD 62
 | fails | 1 | Read |
F0 9F 92 | fails | 9 | Read |
F0 9F 92 A9 | fails | 9 | Read | F0 9F 92 A9
F0 9F 92 41 | fails | 9 | Read | EF BF BD 41
E2 98 E2 | ends | 9 | 3 2 | EF BF BD EF BF BD
E2 98 E2 | fails | 9 | Read | EF BF BD
ED A0 80 | fails | 9 | Read | EF BF BD EF BF BD EF BF BD";

/// Returns what the next field names: an error, or the number of bytes read and of parts replaced.
fn outcome_of(row: &mut Row<'_>) -> Result<Repaired, RepairFault> {
    match row.word() {
        "Read" => Err(RepairFault::Read),
        "Write" => Err(RepairFault::Write),
        "Limit" => Err(RepairFault::Limit),
        counts => {
            let (read, replaced) = counts.split_once(' ').unwrap_or((counts, ""));
            Ok(Repaired {
                read: row.number_of(read) as u64,
                replaced: row.number_of(replaced) as u64,
            })
        }
    }
}

/// Returns whether a repair has this result and writes this text, and its streams failed if and only if it reports
/// their errors.
fn repairs_to<R: Read>(
    reader: &mut R,
    writer: &mut Output,
    limit: u64,
    outcome: &Result<Repaired, RepairFault>,
    text: &[u8],
) -> bool {
    let mut source = Watch::new(reader);
    let mut sink = Watch::new(&mut *writer);
    let returned = repair(&mut source, &mut sink, limit);
    let failed = source.failed() == (returned == Err(RepairFault::Read))
        && sink.failed() == (returned == Err(RepairFault::Write))
        && (source.ended() || returned.is_err());
    failed && returned == *outcome && writer.written() == text && writer.flushes == 0
}

#[derive(Drop)]
struct Streams;

impl Table for Streams {
    const ROWS: &'static str = ROWS;

    const COUNT: usize = 21;

    /// Over readers that return a few bytes per call, and writers that take few.
    fn holds(&mut self, row: &mut Row<'_>) -> bool {
        let input = row.bytes();
        let ends = row.word() == "ends";
        let limit = row.number() as u64;
        let outcome = outcome_of(row);
        let text = row.bytes();
        let mut holds = true;
        for step in [1, 2, OUTPUT_CAPACITY] {
            for taken in [1, 2, OUTPUT_CAPACITY] {
                let mut reader = if ends {
                    Input::of(input.as_slice(), step)
                } else {
                    Input::that_fails(input.as_slice(), ErrorKind::Other)
                };
                let mut writer = Output::by_steps_of(taken);
                let text = text.as_slice();
                holds = holds && repairs_to(&mut reader, &mut writer, limit, &outcome, text);
            }
        }
        holds
    }
}

#[test]
fn rows_hold(rt: HostRuntime) {
    assert_rows(&rt, &mut Streams);
}

/// Returns whether a vector's bytes are repaired to its text, over a reader that returns `step` bytes per call.
fn is_repaired(vector: &Vector, text: &[u8], step: usize) -> bool {
    let mut reader = Input::of(&vector.bytes, step);
    let outcome = Ok(Repaired {
        read: vector.bytes.len() as u64,
        replaced: malformed_count(vector),
    });
    repairs_to(
        &mut reader,
        &mut Output::that_takes_all(),
        2000,
        &outcome,
        text,
    )
}

#[derive(Drop)]
struct Vectors;

impl VectorTest for Vectors {
    fn holds(&mut self, alloc: Global, vector: &Vector) -> Result<bool, AllocError> {
        let text = lossy_utf8(alloc, vector)?;
        let mut holds = true;
        for step in [1, 2, OUTPUT_CAPACITY] {
            holds = holds && is_repaired(vector, &text, step);
        }
        Ok(holds)
    }
}

#[test]
fn repairs_vectors(rt: HostRuntime) -> Result<(), AllocError> {
    assert_vectors(&rt, rt.alloc(), &mut Vectors)
}

/// Returns whether `before` bytes `61` and these after them are repaired to the same with this text after it, over the
/// end of a round.
fn long_repairs_to(before: usize, following: &[u8], text_after: &[u8], replaced: u64) -> bool {
    let mut input = [0x61; 1040];
    let mut text = [0x61; 1040];
    let length = before.saturating_add(following.len());
    let text_length = before.saturating_add(text_after.len());
    if before > 1024 || following.len() > 16 || text_after.len() > 16 {
        return false;
    }
    input[before..length].copy_from_slice(following);
    text[before..text_length].copy_from_slice(text_after);
    let mut reader = Input::of(&input[..length], OUTPUT_CAPACITY);
    let mut writer = Output::that_takes_all();
    let outcome = Ok(Repaired {
        read: length as u64,
        replaced,
    });
    repairs_to(
        &mut reader,
        &mut writer,
        2000,
        &outcome,
        &text[..text_length],
    )
}

/// Returns whether characters and malformed sequences at the end of a round are not cut.
fn ends_of_rounds_hold() -> bool {
    long_repairs_to(1023, &[0xE2, 0x98, 0x83], &[0xE2, 0x98, 0x83], 0)
        && long_repairs_to(1022, &[0xF0, 0x9F], &[0xEF, 0xBF, 0xBD], 1)
        && long_repairs_to(
            1022,
            &[0xF0, 0x9F, 0x92, 0xA9, 0x5A],
            &[0xF0, 0x9F, 0x92, 0xA9, 0x5A],
            0,
        )
        && long_repairs_to(1022, &[0xF0, 0x9F, 0x5A], &[0xEF, 0xBF, 0xBD, 0x5A], 1)
        && long_repairs_to(1024, &[0xFF], &[0xEF, 0xBF, 0xBD], 1)
}

#[test]
fn repairs_over_the_end_of_a_round(rt: HostRuntime) {
    assert!(rt; ends_of_rounds_hold());
}

/// Returns whether a repair whose writer takes `taken` bytes in all stops there.
fn stops_at(input: &[u8], text: &[u8], taken: usize, fault: Option<ErrorKind>) -> bool {
    let mut reader = Input::of(input, OUTPUT_CAPACITY);
    let mut writer = Output::that_takes(taken, fault);
    match text.get(..taken) {
        Some(prefix) => repairs_to(
            &mut reader,
            &mut writer,
            100,
            &Err(RepairFault::Write),
            prefix,
        ),
        None => false,
    }
}

/// Returns whether it stops at each offset at which the writer does.
fn stops(input: &[u8], text: &[u8], fault: Option<ErrorKind>) -> bool {
    let mut holds = true;
    for taken in 0..text.len() {
        holds = holds && stops_at(input, text, taken, fault);
    }
    holds
}

#[test]
fn stops_where_the_writer_does(rt: HostRuntime) {
    let text = [0x61, 0xEF, 0xBF, 0xBD, 0xEF, 0xBF, 0xBD];
    for fault in [None, Some(ErrorKind::Other), Some(ErrorKind::Interrupted)] {
        let holds = stops(b"abc", b"abc", fault) && stops(&[0x61, 0xE2, 0x98, 0xFF], &text, fault);
        assert!(rt; holds);
    }
}

/// Returns whether a repair with this limit of an endless stream reads `asked` times, and writes as much as the limit.
fn asks(limit: u64, asked: usize) -> bool {
    let mut reader = Endless { asked: 0 };
    let mut writer = Output::that_takes_all();
    let returned = repair(
        &mut Watch::new(&mut reader),
        &mut Watch::new(&mut writer),
        limit,
    );
    returned == Err(RepairFault::Limit)
        && reader.asked == asked
        && writer.written().len() as u64 == limit
}

/// The reader is asked for at most 1,024 bytes and the rest of the limit, and not at all once that is nothing.
#[test]
fn asks_within_the_limit(rt: HostRuntime) {
    assert!(rt; asks(0, 0) && asks(1, 1) && asks(1024, 1) && asks(1025, 2) && asks(2000, 2));
}

/// Returns whether a read into a buffer of this length returns this many bytes, and whether the end is seen then.
fn reads(
    source: &mut Watch<'_, Input<'_>>,
    room: usize,
    yielded: Option<usize>,
    ended: bool,
) -> bool {
    let mut buffer = [0; 8];
    let room = room.min(8);
    source.read(&mut buffer[..room]) == yielded
        && source.ended() == ended
        && source.failed() == yielded.is_none()
}

/// A read of no byte into a nonempty buffer sees the end, and a read into an empty one doesn't.
fn the_end_is_seen() -> bool {
    let mut input = Input::of(b"abc", OUTPUT_CAPACITY);
    let mut source = Watch::new(&mut input);
    !source.failed()
        && !source.ended()
        && reads(&mut source, 0, Some(0), false)
        && reads(&mut source, 2, Some(2), false)
        && reads(&mut source, 2, Some(1), false)
        && reads(&mut source, 0, Some(0), false)
        && reads(&mut source, 1, Some(0), true)
        && reads(&mut source, 0, Some(0), true)
        && input.asked == 6
}

#[test]
fn watches_the_end(rt: HostRuntime) {
    assert!(rt; the_end_is_seen());
}

/// A read that fails returns nothing, and counts as failed from then on.
fn a_fault_is_seen(kind: ErrorKind) -> bool {
    let mut input = Input::that_fails(b"a", kind);
    let mut source = Watch::new(&mut input);
    reads(&mut source, 2, Some(1), false)
        && reads(&mut source, 2, None, false)
        && reads(&mut source, 2, None, false)
        && source.failed()
}

#[test]
fn watches_a_fault(rt: HostRuntime) {
    assert!(rt; a_fault_is_seen(ErrorKind::Other) && a_fault_is_seen(ErrorKind::Interrupted));
}

/// The input; how many bytes the reader returns before it fails, or that it ends; how many bytes the writer takes
/// before it fails, or that it takes all; what is returned: an error, or the number of bytes read and of parts
/// replaced; what was written; and how often the reader was asked.
const FAULT_ROWS: &str = "\
E2 98 83 FF | 0 | all | Read | | 1
E2 98 83 FF | 1 | all | Read | | 2
E2 98 83 FF | 2 | all | Read | | 3
E2 98 83 FF | 3 | all | Read | E2 98 83 | 4
E2 98 83 FF | 4 | all | Read | E2 98 83 EF BF BD | 5
E2 98 83 FF | ends | 0 | Write | | 3
E2 98 83 FF | ends | 1 | Write | E2 | 3
E2 98 83 FF | ends | 2 | Write | E2 98 | 3
E2 98 83 FF | ends | 3 | Write | E2 98 83 | 4
E2 98 83 FF | ends | 4 | Write | E2 98 83 EF | 4
E2 98 83 FF | ends | 5 | Write | E2 98 83 EF BF | 4
E2 98 83 FF | ends | 6 | 4 1 | E2 98 83 EF BF BD | 5
E2 98 83 FF | ends | all | 4 1 | E2 98 83 EF BF BD | 5
61 E2 98 | 0 | all | Read | | 1
61 E2 98 | 1 | all | Read | 61 | 2
61 E2 98 | 2 | all | Read | 61 | 3
61 E2 98 | 3 | all | Read | 61 | 4
61 62 | ends | 0 | Write | | 1
61 62 | ends | 1 | Write | 61 | 2
61 62 | ends | all | 2 0 | 61 62 | 3";

/// How the reader and the writer fail. A writer without an error takes no byte.
const FAULTS: [(ErrorKind, Option<ErrorKind>); 3] = [
    (ErrorKind::Other, None),
    (ErrorKind::Other, Some(ErrorKind::Other)),
    (ErrorKind::Interrupted, Some(ErrorKind::Interrupted)),
];

#[derive(Drop)]
struct Faults;

impl Table for Faults {
    const ROWS: &'static str = FAULT_ROWS;

    const COUNT: usize = 20;

    fn holds(&mut self, row: &mut Row<'_>) -> bool {
        let input = row.bytes();
        let yielded = row.word();
        let taken = row.word();
        let outcome = outcome_of(row);
        let text = row.bytes();
        let asked = row.number();
        let mut holds = true;
        for (unread, unwritten) in FAULTS {
            let mut reader = if yielded == "ends" {
                Input::of(input.as_slice(), 1)
            } else {
                let Some(prefix) = input.as_slice().get(..row.number_of(yielded)) else {
                    return false;
                };
                Input::that_fails(prefix, unread)
            };
            let mut writer = if taken == "all" {
                Output::that_takes_all()
            } else {
                Output::that_takes(row.number_of(taken), unwritten)
            };
            holds = holds
                && repairs_to(&mut reader, &mut writer, 2000, &outcome, text.as_slice())
                && reader.asked == asked;
        }
        holds
    }
}

#[test]
fn fault_rows_hold(rt: HostRuntime) {
    assert_rows(&rt, &mut Faults);
}
