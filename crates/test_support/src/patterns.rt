//! Long streams of a pattern that store none of its bytes. A round can end in a character or in a malformed sequence.

use std::io::{Error, ErrorKind, Read, Result, Write};

/// A letter, U+2603, a letter, an incomplete sequence of three bytes, a letter, and U+1F4A9.
pub const PATTERN: [u8; 13] = [
    0x61, 0xE2, 0x98, 0x83, 0x62, 0xF0, 0x9F, 0x92, 0x63, 0xF0, 0x9F, 0x92, 0xA9,
];

/// The repaired text of the pattern.
pub const REPAIRED: [u8; 13] = [
    0x61, 0xE2, 0x98, 0x83, 0x62, 0xEF, 0xBF, 0xBD, 0x63, 0xF0, 0x9F, 0x92, 0xA9,
];

/// Returns the byte at index `at` of a stream: first the letters, then the pattern over and over.
fn byte_at(letters: usize, pattern: &[u8; 13], at: usize) -> u8 {
    match at.checked_sub(letters) {
        Some(place) => pattern[place % 13],
        None => b'a',
    }
}

/// Yields the pattern over and over, as many bytes as are requested, up to a length. Then it ends or fails.
#[derive(Drop)]
pub struct PatternInput {
    letters: usize,
    pattern: [u8; 13],
    length: usize,
    fault: Option<ErrorKind>,
    /// The number of bytes that it yielded.
    pub yielded: usize,
    /// The number of reads after its last byte.
    pub asked_after: usize,
}

impl PatternInput {
    /// Returns an input of `length` bytes, which then fails if there is a `fault`.
    pub fn of(length: usize, fault: Option<ErrorKind>) -> PatternInput {
        PatternInput {
            letters: 0,
            pattern: PATTERN,
            length,
            fault,
            yielded: 0,
            asked_after: 0,
        }
    }

    /// Returns the input with this many letters before the pattern.
    pub fn after_letters(self, letters: usize) -> PatternInput {
        let mut input = self;
        input.letters = letters;
        input
    }

    /// Returns the input with the repaired pattern.
    pub fn repaired(self) -> PatternInput {
        let mut input = self;
        input.pattern = REPAIRED;
        input
    }
}

impl Read for PatternInput {
    fn read(&mut self, buffer: &mut [u8]) -> Result<usize> {
        let count = self.length.saturating_sub(self.yielded).min(buffer.len());
        if count == 0 {
            self.asked_after = self.asked_after.saturating_add(1);
            if let Some(kind) = self.fault {
                return Err(Error::from(kind));
            }
        }
        let mut at = self.yielded;
        for byte in buffer.iter_mut() {
            *byte = byte_at(self.letters, &self.pattern, at);
            at = at.saturating_add(1);
        }
        self.yielded = self.yielded.saturating_add(count);
        Ok(count)
    }
}

/// Takes a number of bytes and then fails once. Compares what it takes with the repaired pattern.
#[derive(Drop)]
pub struct PatternOutput {
    letters: usize,
    takes: usize,
    failed: bool,
    /// The number of bytes that it took.
    pub taken: usize,
    /// Whether they were those of the repaired pattern.
    pub same: bool,
    /// The number of writes after its error.
    pub asked_after: usize,
    /// The number of flushes.
    pub flushes: usize,
    /// The number of bytes that it had taken at its last flush.
    pub flushed_at: usize,
}

impl PatternOutput {
    /// Returns an output that takes `takes` bytes, fails once, and takes all bytes from then on.
    pub fn that_takes(takes: usize) -> PatternOutput {
        PatternOutput {
            letters: 0,
            takes,
            failed: false,
            taken: 0,
            same: true,
            asked_after: 0,
            flushes: 0,
            flushed_at: 0,
        }
    }

    /// Returns the output, comparing with this many letters before the pattern.
    pub fn after_letters(self, letters: usize) -> PatternOutput {
        let mut output = self;
        output.letters = letters;
        output
    }
}

impl Write for PatternOutput {
    fn write(&mut self, bytes: &[u8]) -> Result<usize> {
        let mut count = bytes.len();
        if self.failed {
            self.asked_after = self.asked_after.saturating_add(1);
        } else {
            count = count.min(self.takes.saturating_sub(self.taken));
            if count == 0 {
                self.failed = true;
                return Err(Error::from(ErrorKind::Other));
            }
        }
        let mut at = self.taken;
        for byte in bytes.iter().take(count) {
            self.same = self.same && *byte == byte_at(self.letters, &REPAIRED, at);
            at = at.saturating_add(1);
        }
        self.taken = self.taken.saturating_add(count);
        Ok(count)
    }

    fn flush(&mut self) -> Result<()> {
        self.flushes = self.flushes.saturating_add(1);
        self.flushed_at = self.taken;
        Ok(())
    }
}
