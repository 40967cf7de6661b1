//! Streams in memory that share a count of the bytes that have arrived: also a peer that types, one row with each read,
//! and a writer that counts its calls.

ghost use Rattle.std.specs.Prelude.{◌≤◌};

use std::cell::Cell;
use std::io::{Error, ErrorKind, Read, Result, Write};
use test_support::streams::Output;

/// Yields its bytes, `step` with each read. Counts the reads before which some bytes due had not arrived. All bytes are
/// due, except an incomplete group of four at the end.
#[derive(Drop)]
pub struct Peer<'a> {
    rest: &'a [u8],
    step: usize,
    yielded: usize,
    arrived: &'a Cell<usize>,
    /// The number of reads that found bytes missing.
    pub late: usize,
}

impl<'a> Peer<'a> {
    /// Returns a peer that yields these bytes, `step` with each read.
    pub fn new(bytes: &'a [u8], step: usize, arrived: &'a Cell<usize>) -> Peer<'a> {
        Peer {
            rest: bytes,
            step,
            yielded: 0,
            arrived,
            late: 0,
        }
    }
}

impl Read for Peer<'_> {
    fn read(&mut self, buffer: &mut [u8]) -> Result<usize> {
        if self.arrived.get() < self.yielded / 4 * 4 {
            self.late = self.late.saturating_add(1);
        }
        let count = self.rest.len().min(self.step).min(buffer.len());
        let (now, later) = self.rest.split_at(count);
        buffer[..count].copy_from_slice(now);
        self.rest = later;
        self.yielded = self.yielded.saturating_add(count);
        Ok(count)
    }
}

/// Holds at most 64 bytes, takes at most `step` with each write, and fails or takes none at one call.
#[derive(Drop)]
pub struct Flaky<'a> {
    bytes: [u8; 64],
    count: usize,
    step: usize,
    calls_left: usize,
    fault: Option<ErrorKind>,
    arrived: &'a Cell<usize>,
    ghost within: { count ≤ 64 },
}

impl<'a> Flaky<'a> {
    /// Returns a writer that takes at most `step` bytes with each write, and fails once after `calls_left` calls.
    pub fn new(
        step: usize,
        calls_left: usize,
        fault: Option<ErrorKind>,
        arrived: &'a Cell<usize>,
    ) -> Flaky<'a> {
        Flaky {
            bytes: [0; 64],
            count: 0,
            step,
            calls_left,
            fault,
            arrived,
        }
    }

    /// Returns the bytes that it took.
    pub fn written(&self) -> &[u8] {
        &self.bytes[..self.count]
    }
}

impl Write for Flaky<'_> {
    fn write(&mut self, bytes: &[u8]) -> Result<usize> {
        let fails = self.calls_left == 0;
        self.calls_left = self.calls_left.wrapping_sub(1);
        if fails {
            return match self.fault {
                Some(kind) => Err(Error::from(kind)),
                None => Ok(0),
            };
        }
        let taken = bytes.len().min(self.step).min(64 - self.count);
        let end = self.count + taken;
        self.bytes[self.count..end].copy_from_slice(&bytes[..taken]);
        self.count = end;
        self.arrived.set(end);
        Ok(taken)
    }

    fn flush(&mut self) -> Result<()> {
        Ok(())
    }
}

/// The number of bytes that have arrived, and of the writes that brought them.
#[derive(Drop)]
pub struct Arrived {
    pub bytes: Cell<usize>,
    pub writes: Cell<usize>,
}

impl Arrived {
    /// Returns the counts before anything has arrived.
    pub fn none() -> Arrived {
        Arrived {
            bytes: Cell::new(0),
            writes: Cell::new(0),
        }
    }
}

/// The bytes of one read, which of these and of earlier rows are due then, and the most writes for them.
pub struct Row {
    pub input: &'static [u8],
    pub due: &'static [u8],
    pub writes: usize,
}

/// Yields one row with each read. At each read it checks that all bytes due have arrived, with at most the allowed
/// writes.
#[derive(Drop)]
pub struct Typist<'a> {
    rows: &'a [Row],
    arrived: &'a Arrived,
    due: usize,
    most: usize,
    /// The number of reads that found bytes missing.
    pub late: usize,
    /// The number of rows that left by too many writes.
    pub torn: usize,
}

impl<'a> Typist<'a> {
    /// Returns a peer that types these rows.
    pub fn of(rows: &'a [Row], arrived: &'a Arrived) -> Typist<'a> {
        Typist {
            rows,
            arrived,
            due: 0,
            most: 0,
            late: 0,
            torn: 0,
        }
    }
}

impl Read for Typist<'_> {
    fn read(&mut self, buffer: &mut [u8]) -> Result<usize> {
        if self.arrived.bytes.get() != self.due {
            self.late = self.late.saturating_add(1);
        }
        if self.arrived.writes.replace(0) > self.most {
            self.torn = self.torn.saturating_add(1);
        }
        let Some((row, later)) = self.rows.split_first() else {
            return Ok(0);
        };
        self.rows = later;
        self.due = self.due.saturating_add(row.due.len());
        self.most = row.writes;
        let count = row.input.len().min(buffer.len());
        buffer[..count].copy_from_slice(&row.input[..count]);
        Ok(count)
    }
}

/// Takes what its output takes, counts what arrives, and fails once, at the call with a given number.
#[derive(Drop)]
pub struct Counted<'a> {
    output: Output,
    arrived: &'a Arrived,
    fails_at: usize,
    kind: ErrorKind,
}

impl<'a> Counted<'a> {
    /// Returns a writer to the output.
    pub fn of(output: Output, arrived: &'a Arrived) -> Counted<'a> {
        Counted {
            output,
            arrived,
            fails_at: usize::MAX,
            kind: ErrorKind::Other,
        }
    }

    /// Returns the writer, which fails once, at the call with this number, counted from 0.
    pub fn that_fails_at(self, call: usize, kind: ErrorKind) -> Counted<'a> {
        let mut writer = self;
        writer.fails_at = call;
        writer.kind = kind;
        writer
    }

    /// Returns the bytes that it took.
    pub fn written(&self) -> &[u8] {
        self.output.written()
    }
}

impl Write for Counted<'_> {
    fn write(&mut self, bytes: &[u8]) -> Result<usize> {
        let call = self.arrived.writes.get();
        self.arrived.writes.set(call.saturating_add(1));
        if call == self.fails_at {
            return Err(Error::from(self.kind));
        }
        let count = self.output.write(bytes)?;
        let before = self.arrived.bytes.get();
        self.arrived.bytes.set(before.saturating_add(count));
        Ok(count)
    }

    fn flush(&mut self) -> Result<()> {
        self.output.flush()
    }
}

/// Yields its bytes with one read, fails at the next, and then ends.
#[derive(Drop)]
pub struct FailsOnce<'a> {
    bytes: &'a [u8],
    kind: ErrorKind,
    /// The number of its reads.
    asked: &'a Cell<usize>,
}

impl<'a> FailsOnce<'a> {
    /// Returns a reader of these bytes.
    pub fn following(bytes: &'a [u8], kind: ErrorKind, asked: &'a Cell<usize>) -> FailsOnce<'a> {
        FailsOnce { bytes, kind, asked }
    }
}

impl Read for FailsOnce<'_> {
    fn read(&mut self, buffer: &mut [u8]) -> Result<usize> {
        let asked = self.asked.get();
        self.asked.set(asked.saturating_add(1));
        if asked == 1 {
            return Err(Error::from(self.kind));
        }
        let count = self.bytes.len().min(buffer.len());
        buffer[..count].copy_from_slice(&self.bytes[..count]);
        self.bytes = &[];
        Ok(count)
    }
}

/// Yields lines of one length, one with each read: letters, then the bytes of its end.
#[derive(Drop)]
pub struct Lines {
    length: usize,
    end: &'static [u8],
    left: usize,
}

impl Lines {
    /// Returns a reader of `left` lines, each of this length and with this end.
    pub fn of(length: usize, end: &'static [u8], left: usize) -> Lines {
        Lines { length, end, left }
    }
}

impl Read for Lines {
    fn read(&mut self, buffer: &mut [u8]) -> Result<usize> {
        if self.left == 0 || buffer.len() < self.length {
            return Ok(0);
        }
        self.left = self.left.saturating_sub(1);
        let letters = self.length.saturating_sub(self.end.len());
        for (place, byte) in buffer.iter_mut().take(self.length).enumerate() {
            *byte = match place.checked_sub(letters) {
                Some(at) => self.end.get(at).copied().unwrap_or(b'?'),
                None => b'x',
            };
        }
        Ok(self.length)
    }
}

/// Takes all bytes, and counts the writes: those of one length, and others.
#[derive(Drop)]
pub struct Lengths {
    length: usize,
    pub writes: usize,
    pub others: usize,
}

impl Lengths {
    /// Returns a writer that counts the writes of this length.
    pub fn of(length: usize) -> Lengths {
        Lengths {
            length,
            writes: 0,
            others: 0,
        }
    }
}

impl Write for Lengths {
    fn write(&mut self, bytes: &[u8]) -> Result<usize> {
        if bytes.len() == self.length {
            self.writes = self.writes.saturating_add(1);
        } else {
            self.others = self.others.saturating_add(1);
        }
        Ok(bytes.len())
    }

    fn flush(&mut self) -> Result<()> {
        Ok(())
    }
}
