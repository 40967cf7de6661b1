//! Streams over arrays, which allocate no memory and fail at given offsets.
ghost use Rattle.std.specs.Prelude.{◌≤◌};

use std::io::{Error, ErrorKind, Read, Result, Write};

/// Yields its bytes, at most `step` with each read, and then ends or fails.
#[derive(Drop)]
pub struct Input<'a> {
    rest: &'a [u8],
    step: usize,
    fault: Option<ErrorKind>,
    /// The number of its reads.
    pub asked: usize,
    /// The number of reads after its last byte.
    pub asked_after: usize,
}

impl<'a> Input<'a> {
    /// Returns an input that yields these bytes, at most `step` with each read, and ends.
    pub fn of(bytes: &'a [u8], step: usize) -> Input<'a> {
        Input {
            rest: bytes,
            step,
            fault: None,
            asked: 0,
            asked_after: 0,
        }
    }

    /// Returns an input that yields these bytes, one with each read, and then fails.
    pub fn that_fails(bytes: &'a [u8], fault: ErrorKind) -> Input<'a> {
        Input {
            rest: bytes,
            step: 1,
            fault: Some(fault),
            asked: 0,
            asked_after: 0,
        }
    }

    /// Returns the input with at most `step` bytes with each read.
    pub fn by_steps_of(self, step: usize) -> Input<'a> {
        let mut input = self;
        input.step = step;
        input
    }
}

impl Read for Input<'_> {
    fn read(&mut self, buffer: &mut [u8]) -> Result<usize> {
        self.asked = self.asked.saturating_add(1);
        if self.rest.is_empty() {
            self.asked_after = self.asked_after.saturating_add(1);
            if let Some(kind) = self.fault {
                return Err(Error::from(kind));
            }
        }
        let count = self.rest.len().min(self.step).min(buffer.len());
        let (now, later) = self.rest.split_at(count);
        buffer[..count].copy_from_slice(now);
        self.rest = later;
        Ok(count)
    }
}

/// Fills each buffer with zeros, and never ends.
#[derive(Drop)]
pub struct Endless {
    /// The number of its reads.
    pub asked: usize,
}

impl Read for Endless {
    fn read(&mut self, buffer: &mut [u8]) -> Result<usize> {
        self.asked = self.asked.saturating_add(1);
        for byte in buffer.iter_mut() {
            *byte = 0;
        }
        Ok(buffer.len())
    }
}

/// The most bytes that an [`Output`] holds.
pub const OUTPUT_CAPACITY: usize = 2048;

/// Takes at most `step` bytes with each call and `takes` in total. Then it fails, or takes none if it has no fault.
#[derive(Drop)]
pub struct Output {
    bytes: [u8; OUTPUT_CAPACITY],
    count: usize,
    step: usize,
    takes: usize,
    fault: Option<ErrorKind>,
    flushable: bool,
    /// The number of its writes.
    pub asked: usize,
    /// The number of its flushes.
    pub flushes: usize,
    /// The number of bytes that it had taken at its last flush.
    pub flushed_at: usize,
    ghost within: { count ≤ 2048 },
}

impl Output {
    /// Returns an output that takes `takes` bytes in total. Then it fails, or takes none if there is no fault.
    pub fn that_takes(takes: usize, fault: Option<ErrorKind>) -> Output {
        Output {
            bytes: [0x71; OUTPUT_CAPACITY],
            count: 0,
            step: OUTPUT_CAPACITY,
            takes,
            fault,
            flushable: true,
            asked: 0,
            flushes: 0,
            flushed_at: 0,
        }
    }

    /// Returns an output that takes all bytes.
    pub fn that_takes_all() -> Output {
        Output::that_takes(OUTPUT_CAPACITY, None)
    }

    /// Returns an output that takes all bytes, at most `step` with each call.
    pub fn by_steps_of(step: usize) -> Output {
        let mut output = Output::that_takes_all();
        output.step = step;
        output
    }

    /// Returns an output that takes all bytes, and fails when it is flushed.
    pub fn that_cannot_flush() -> Output {
        let mut output = Output::that_takes_all();
        output.flushable = false;
        output
    }

    /// Returns the bytes that it took.
    pub fn written(&self) -> &[u8] {
        &self.bytes[..self.count]
    }
}

impl Write for Output {
    fn write(&mut self, bytes: &[u8]) -> Result<usize> {
        self.asked = self.asked.saturating_add(1);
        let room = self.takes.min(OUTPUT_CAPACITY).saturating_sub(self.count);
        let taken = bytes.len().min(room).min(self.step);
        if taken == 0 {
            if let Some(kind) = self.fault {
                return Err(Error::from(kind));
            }
        }
        let end = self.count + taken;
        self.bytes[self.count..end].copy_from_slice(&bytes[..taken]);
        self.count = end;
        Ok(taken)
    }

    fn flush(&mut self) -> Result<()> {
        self.flushes = self.flushes.saturating_add(1);
        self.flushed_at = self.count;
        if self.flushable {
            Ok(())
        } else {
            Err(Error::from(ErrorKind::Other))
        }
    }
}

/// Compares what it takes with a text, and keeps none of it. Takes at most `step` bytes with each call and `left` in
/// total. Then it fails, or takes none if it has no fault.
#[derive(Drop)]
pub struct Compared<'a> {
    rest: &'a [u8],
    step: usize,
    left: usize,
    fault: Option<ErrorKind>,
    stopped: bool,
    /// The number of bytes that it took.
    pub taken: usize,
    /// Whether they were those of the text.
    pub same: bool,
    /// The number of writes after it had stopped.
    pub asked_after: usize,
}

impl<'a> Compared<'a> {
    /// Returns an output that takes all bytes, at most `step` with each call, and compares them with the text.
    pub fn with(text: &'a [u8], step: usize) -> Compared<'a> {
        Compared {
            rest: text,
            step,
            left: usize::MAX,
            fault: None,
            stopped: false,
            taken: 0,
            same: true,
            asked_after: 0,
        }
    }

    /// Returns the output, which takes `takes` bytes in total. Then it fails, or takes none if there is no fault.
    pub fn that_takes(self, takes: usize, fault: Option<ErrorKind>) -> Compared<'a> {
        let mut output = self;
        output.left = takes;
        output.fault = fault;
        output
    }
}

impl Write for Compared<'_> {
    fn write(&mut self, bytes: &[u8]) -> Result<usize> {
        if self.stopped {
            self.asked_after = self.asked_after.saturating_add(1);
        }
        let count = bytes.len().min(self.step).min(self.left);
        if count == 0 {
            self.stopped = true;
            return match self.fault {
                Some(kind) => Err(Error::from(kind)),
                None => Ok(0),
            };
        }
        self.same = self.same && self.rest.get(..count) == bytes.get(..count);
        self.rest = self.rest.get(count..).unwrap_or(&[]);
        self.left = self.left.saturating_sub(count);
        self.taken = self.taken.saturating_add(count);
        Ok(count)
    }

    fn flush(&mut self) -> Result<()> {
        Ok(())
    }
}
