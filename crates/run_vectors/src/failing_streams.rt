//! Streams that take or return few bytes per call, and that fail at each offset: the vectors, and long input with
//! malformed sequences over the ends of rounds.

use crate::assertions::assert_vectors;
use encoding_runs::repair::{RepairFault, Repaired, Watch, repair};
use std::alloc::{AllocError, Global};
use std::io::ErrorKind;
use test_support::decoder_vectors::{Vector, VectorTest};
use test_support::parts::{Parts, final_length};
use test_support::rows::Row;
use test_support::streams::{Compared, Input};

/// How many bytes are read at a time at most.
const ROUND: usize = 1024;

/// How many bytes a read returns, and a write takes.
const STEPS: [(usize, usize); 4] = [(1, 1), (1, 10_000), (10_000, 1), (10_000, 10_000)];

/// Bytes that are repaired, and their text.
#[derive(Drop)]
struct Case<'a> {
    bytes: &'a [u8],
    text: &'a [u8],
    steps: (usize, usize),
}

impl Case<'_> {
    /// Returns whether a repair of a reader's bytes has this result, writes the expected prefix of the text and nothing
    /// else, and asks neither stream again after it has failed.
    fn repairs_to(
        &self,
        reader: &mut Input<'_>,
        writer: &mut Compared<'_>,
        limit: u64,
        outcome: Result<Repaired, RepairFault>,
        written: usize,
    ) -> bool {
        let returned = repair(
            &mut Watch::new(&mut *reader),
            &mut Watch::new(&mut *writer),
            limit,
        );
        let following = match returned {
            Ok(_) | Err(RepairFault::Read) => 1,
            Err(_) => reader.asked_after.min(1),
        };
        returned == outcome
            && writer.same
            && writer.taken == written
            && writer.asked_after == 0
            && reader.asked_after == following
    }

    /// Returns whether all is repaired, with `replaced` parts replaced.
    fn is_repaired(&self, replaced: u64) -> bool {
        let mut reader = Input::of(self.bytes, self.steps.0);
        let mut writer = Compared::with(self.text, self.steps.1);
        let read = self.bytes.len() as u64;
        let outcome = Ok(Repaired { read, replaced });
        self.repairs_to(&mut reader, &mut writer, u64::MAX, outcome, self.text.len())
    }

    /// Returns whether the final text of the first `place` bytes is written if the next read fails, and if these are
    /// the limit.
    fn stops_reading_at(&self, place: usize, kind: ErrorKind) -> bool {
        let prefix = self.bytes.get(..place).unwrap_or(&[]);
        let final_text = final_length(prefix);
        let mut reader = Input::that_fails(prefix, kind).by_steps_of(self.steps.0);
        let mut writer = Compared::with(self.text, self.steps.1);
        let fails = self.repairs_to(
            &mut reader,
            &mut writer,
            u64::MAX,
            Err(RepairFault::Read),
            final_text,
        );
        let mut reader = Input::of(self.bytes, self.steps.0);
        let mut writer = Compared::with(self.text, self.steps.1);
        let limit = prefix.len() as u64;
        fails
            && self.repairs_to(
                &mut reader,
                &mut writer,
                limit,
                Err(RepairFault::Limit),
                final_text,
            )
            && reader.asked_after == 0
    }

    /// Returns whether a repair stops if the writer stops after `place` bytes, and what was final before the last read
    /// was written before it.
    fn stops_writing_at(&self, place: usize, fault: Option<ErrorKind>) -> bool {
        let mut reader = Input::of(self.bytes, self.steps.0);
        let mut writer = Compared::with(self.text, self.steps.1).that_takes(place, fault);
        let stops = self.repairs_to(
            &mut reader,
            &mut writer,
            u64::MAX,
            Err(RepairFault::Write),
            place,
        );
        let earlier = reader.asked.saturating_sub(1);
        let yielded = earlier
            .saturating_mul(self.steps.0.min(ROUND))
            .min(self.bytes.len());
        stops && final_length(self.bytes.get(..yielded).unwrap_or(&[])) <= place
    }

    /// Returns whether it stops at each offset in a range, whichever stream fails, and however.
    fn stops_between(&self, start: usize, end: usize) -> bool {
        let mut holds = true;
        for place in start..end {
            let reads = place > self.bytes.len()
                || self.stops_reading_at(place, ErrorKind::Other)
                    && self.stops_reading_at(place, ErrorKind::Interrupted);
            let writes = place >= self.text.len()
                || self.stops_writing_at(place, None)
                    && self.stops_writing_at(place, Some(ErrorKind::Other))
                    && self.stops_writing_at(place, Some(ErrorKind::Interrupted));
            holds = holds && reads && writes;
        }
        holds
    }
}

/// Returns whether bytes are repaired to what `std` makes of them by streams of all kinds, and stop at each offset in a
/// range.
fn holds(
    alloc: Global,
    bytes: &[u8],
    replaced: u64,
    start: usize,
    end: usize,
) -> Result<bool, AllocError> {
    let text = String::from_utf8_lossy(alloc, bytes)?;
    let mut holds = true;
    for steps in STEPS {
        let case = Case {
            bytes,
            text: text.as_bytes(),
            steps,
        };
        holds = holds && case.is_repaired(replaced) && case.stops_between(start, end);
    }
    Ok(holds)
}

#[derive(Drop)]
struct Vectors;

impl VectorTest for Vectors {
    fn holds(&mut self, alloc: Global, vector: &Vector) -> Result<bool, AllocError> {
        let replaced = Parts::of_vector(vector).malformed_count();
        holds(alloc, &vector.bytes, replaced, 0, 20)
    }
}

#[test]
fn vectors_at_each_place(rt: HostRuntime) -> Result<(), AllocError> {
    assert_vectors(&rt, rt.alloc(), &mut Vectors)
}

/// Parts: characters and malformed sequences.
const PARTS: &str = "\
FF
C3
E2 98
F0 9F 92
ED A0 80
E2 98 83
F0 9F 92 A9";

/// Returns 5,000 letters with a part at an offset and 1,024 bytes after it.
fn long_input(alloc: Global, part: &[u8], place: usize) -> Result<Vec<u8>, AllocError> {
    let mut input = Vec::new(alloc);
    for _ in 0..5000 {
        input.push(0x61)?;
    }
    for (at, byte) in part.iter().enumerate() {
        let first = place.saturating_add(at);
        for second in [first, first.saturating_add(ROUND)] {
            if let Some(letter) = input.get_mut(second) {
                *letter = *byte;
            }
        }
    }
    Ok(input)
}

/// Over the first two ends of a round, and at the end.
#[test]
fn rounds_at_each_place(rt: HostRuntime) -> Result<(), AllocError> {
    let mut count = 0u32;
    for row in PARTS.lines() {
        let part = Row::of(row).bytes();
        let part = part.as_slice();
        let replaced = Parts::of(part).malformed_count().saturating_mul(2);
        for place in 1021..1028 {
            let input = long_input(rt.alloc(), part, place)?;
            for (start, end) in [(1018, 1034), (2042, 2058), (4998, 5002)] {
                assert!(rt;
                    holds(rt.alloc(), &input, replaced, start, end)?,
                    "{row}, {place}, {start}"
                );
            }
        }
        count = count.saturating_add(1);
    }
    assert!(rt; count == 7);
    Ok(())
}
