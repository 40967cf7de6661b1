//! What `repair_slice`, `utf8_valid_up_to` and `Watch` return.

use crate::assertions::{assert_rows, assert_vectors};
use encoding_runs::repair::{RepairFault, Sink, Watch, repair_slice};
use encoding_text::utf_8::utf8_valid_up_to;
use std::alloc::{AllocError, Global};
use std::io::ErrorKind;
use test_support::decoder_vectors::{Expected, Vector, VectorTest, length_of, lossy_utf8};
use test_support::rows::{Row, Table};
use test_support::streams::{OUTPUT_CAPACITY, Output};

fn is_malformed(part: &Expected) -> bool {
    matches!(part, Expected::IllFormed(_))
}

/// Returns the number of malformed sequences.
pub fn malformed_count(vector: &Vector) -> u64 {
    let mut count = 0u64;
    for part in &vector.parts {
        if is_malformed(part) {
            count = count.saturating_add(1);
        }
    }
    count
}

/// Returns the length of the characters before the first malformed sequence.
fn valid_length(vector: &Vector) -> usize {
    let mut length = 0usize;
    for part in &vector.parts {
        if is_malformed(part) {
            return length;
        }
        length = length.saturating_add(length_of(part));
    }
    length
}

/// Returns whether the bytes are repaired to the text, with `replaced` parts replaced, by a writer that takes `step`
/// bytes per call.
fn repairs_to(bytes: &[u8], text: &[u8], replaced: u64, step: usize) -> bool {
    let mut output = Output::by_steps_of(step);
    repair_slice(bytes, &mut Watch::new(&mut output)) == Ok(replaced) && output.written() == text
}

/// A vector's bytes are repaired, however many bytes the writer takes per call, and the end of their text is found.
#[derive(Drop)]
struct Vectors;

impl VectorTest for Vectors {
    fn holds(&mut self, alloc: Global, vector: &Vector) -> Result<bool, AllocError> {
        let text = lossy_utf8(alloc, vector)?;
        let replaced = malformed_count(vector);
        let mut holds = utf8_valid_up_to(&vector.bytes) == valid_length(vector);
        for step in [1, 2, OUTPUT_CAPACITY] {
            holds = holds && repairs_to(&vector.bytes, &text, replaced, step);
        }
        Ok(holds)
    }
}

#[test]
fn repairs_vectors(rt: HostRuntime) -> Result<(), AllocError> {
    assert_vectors(&rt, rt.alloc(), &mut Vectors)
}

#[test]
fn finds_the_end_of_text(rt: HostRuntime) {
    assert!(rt; utf8_valid_up_to(&[0x61, 0xE2, 0x98]) == 1);
    assert!(rt; utf8_valid_up_to(&[]) == 0);
}

/// Bytes, what they are repaired to, and how many parts are replaced.
const ROWS: &str = "\
E2 98 83 | E2 98 83 | 0
61 F0 9F 92 | 61 EF BF BD | 1
61 E2 98 5A | 61 EF BF BD 5A | 1
61 E0 80 80 | 61 EF BF BD EF BF BD EF BF BD | 3
61 C2 7F | 61 EF BF BD 7F | 1
| | 0";

#[derive(Drop)]
struct Rows;

impl Table for Rows {
    const ROWS: &'static str = ROWS;

    const COUNT: usize = 6;

    fn holds(&mut self, row: &mut Row<'_>) -> bool {
        let (bytes, text) = (row.bytes(), row.bytes());
        let replaced = row.number() as u64;
        repairs_to(bytes.as_slice(), text.as_slice(), replaced, OUTPUT_CAPACITY)
    }
}

#[test]
fn repairs_rows(rt: HostRuntime) {
    assert_rows(&rt, &mut Rows);
}

/// Returns whether the repair stops with a writer that takes `taken` bytes of the text in all, which has these then.
fn stops_at(bytes: &[u8], text: &[u8], taken: usize, fault: Option<ErrorKind>) -> bool {
    let mut output = Output::that_takes(taken, fault);
    let mut sink = Watch::new(&mut output);
    let result = repair_slice(bytes, &mut sink);
    sink.failed()
        && result == Err(RepairFault::Write)
        && text.get(..taken) == Some(output.written())
}

/// Returns whether it stops at each offset at which a writer fails, or takes none.
fn stops(bytes: &[u8], text: &[u8]) -> bool {
    let mut holds = true;
    for taken in 0..text.len() {
        for fault in [None, Some(ErrorKind::Other), Some(ErrorKind::Interrupted)] {
            holds = holds && stops_at(bytes, text, taken, fault);
        }
    }
    holds
}

/// A writer that takes a number of bytes in all has these, and the repair stops.
#[test]
fn stops_where_the_writer_does(rt: HostRuntime) {
    assert!(rt; stops(&[0x61, 0xFF], &[0x61, 0xEF, 0xBF, 0xBD]));
    assert!(rt; stops(b"abc", b"abc"));
    assert!(rt;
        stops(
            &[0xE2, 0x98, 0x83, 0xFF],
            &[0xE2, 0x98, 0x83, 0xEF, 0xBF, 0xBD]
        )
    );
}

/// Returns whether a write takes `taken` bytes, and the sink has failed then if and only if it took none.
fn writes(sink: &mut Watch<'_, Output>, bytes: &[u8], taken: Option<usize>) -> bool {
    !bytes.is_empty() && sink.write(bytes) == taken && sink.failed() == taken.is_none()
}

/// A watched stream is asked at each call, and has failed once it took no byte.
fn watches_a_fault(fault: Option<ErrorKind>) -> bool {
    let mut output = Output::that_takes(3, fault);
    let mut sink = Watch::new(&mut output);
    !sink.failed()
        && writes(&mut sink, b"ab", Some(2))
        && writes(&mut sink, b"cd", Some(1))
        && writes(&mut sink, b"d", None)
        && writes(&mut sink, b"d", None)
        && output.written() == b"abc".as_slice()
        && output.asked == 4
}

#[test]
fn watches(rt: HostRuntime) {
    assert!(rt; watches_a_fault(None));
    assert!(rt; watches_a_fault(Some(ErrorKind::Other)));
    assert!(rt; watches_a_fault(Some(ErrorKind::Interrupted)));
}

#[test]
fn faults_count_up(rt: HostRuntime) {
    assert!(rt; RepairFault::Read as u8 == 1 && RepairFault::Write as u8 == 2);
    assert!(rt; RepairFault::Limit as u8 == 3);
}
