//! Streams that record whether they failed, and whether their end was seen.
ghost use Rattle.std.specs.Prelude.{◌≡◌, ℕ, ◌<◌, ◌≤◌, Bool, false, List, length, Option, IfSome, refl};
ghost use Rattle.std.proofs.Common.{◌∙◌};
ghost use Rattle.std.specs.Borrow.{GName};
ghost use Rattle.encoding_runs.specs.Streams.{ReadMoves, WriteMoves, FailsOnNone, EndsOnZero};

use std::io::{Read, Write};

/// A source of bytes: a [`Read`] that records whether it failed, and whether its end was seen.
pub trait Source {
    // The bytes that later reads will yield, if they are known.
    ghost remaining: { Self → Option (List ℕ) };

    ghost has_failed: { Self → Bool };

    ghost has_ended: { Self → Bool };

    // Which stream yields the bytes: a source over a borrowed stream always reads the same one.
    ghost stream: { Self → GName } = { λ _. 0 };

    /// Returns whether a read failed.
    fn failed(&self) -> bool
        ensures { result ≡ has_failed self.now };

    /// Returns whether the end was seen.
    fn ended(&self) -> bool
        ensures { result ≡ has_ended self.now };

    /// Reads the next bytes into the start of the buffer, and returns how many. Zero bytes into a non-empty buffer are
    /// the end, and `ended` returns true from then on. Returns `None` on failure: no byte is read, and `failed` returns
    /// true from then on.
    fn read(&mut self, buffer: &mut [u8]) -> Option<usize>
        ensures bound { IfSome result (λ n. n ≤ length buffer.new) }
        ensures bytes { ReadMoves (remaining self.old) (remaining self.new) result buffer.new }
        ensures failed { FailsOnNone result (has_failed self.old) (has_failed self.new) }
        ensures ended { EndsOnZero result (length buffer.old) (has_ended self.old)
            (has_ended self.new) }
        ensures stream { stream self.new ≡ stream self.old };
}

/// A destination of bytes: a [`Write`] that records whether it failed.
pub trait Sink {
    // The bytes that the sink holds, if they are known.
    ghost contents: { Self → Option (List ℕ) };

    ghost has_failed: { Self → Bool };

    // What no write changes, of a sink before and after it: which stream takes the bytes, and the rest of a buffer.
    ghost keeps: { Self → Self → Type 0 };

    /// Returns whether a write failed.
    fn failed(&self) -> bool
        ensures { result ≡ has_failed self.now };

    /// Writes a prefix of the bytes, of at least one byte, and returns its length. `bytes` must not be empty. Returns
    /// `None` on failure: no byte was written, and `failed` returns true from then on.
    fn write(&mut self, bytes: &[u8]) -> Option<usize>
        requires not_empty { 0 < length bytes.now }
        ensures bound { IfSome result (λ n. (0 < n) × (n ≤ length bytes.now)) }
        ensures bytes { WriteMoves (contents self.old) (contents self.new) result bytes.now }
        ensures failed { FailsOnNone result (has_failed self.old) (has_failed self.new) }
        ensures keeps { keeps self.old self.new };

    ghost keeps_itself: { (sink : Self) → keeps sink sink };

    ghost keeps_on: { (first second third : Self) → keeps first second → keeps second third → keeps first third };
}

/// A stream that records whether it failed, and whether its end was seen. An error from the stream is a failure, and so
/// is a write of no byte. A read of no byte into a non-empty buffer is the end. The error itself is dropped.
#[derive(Drop)]
pub struct Watch<'a, T> {
    inner: &'a mut T,
    failed: bool,
    ended: bool,
}

impl<'a, T> Watch<'a, T> {
    /// Watches a stream. It has not failed so far, and its end was not seen.
    pub fn new(inner: &'a mut T) -> Watch<'a, T>
        ensures same_stream { result.inner.ghost_name ≡ inner.entry.ghost_name }
        ensures as_it_was { result.inner.now ≡ inner.old }
        ensures not_failed { result.failed ≡ false }
        ensures not_ended { result.ended ≡ false }
    {
        Watch {
            inner,
            failed: false,
            ended: false,
        }
    }
}

impl<'a, T: Read> Source for Watch<'a, T> {
    ghost remaining = { λ w. T.remaining w.inner.now };

    ghost has_failed = { λ w. w.failed };

    ghost has_ended = { λ w. w.ended };

    ghost stream = { λ w. w.inner.ghost_name };

    /// Returns whether a call failed.
    fn failed(&self) -> bool {
        self.failed
    }

    /// Returns whether the end was seen.
    fn ended(&self) -> bool {
        self.ended
    }

    /// Reads from the stream.
    fn read(&mut self, buffer: &mut [u8]) -> Option<usize> {
        match self.inner.read(buffer) {
            Ok(count) => {
                if count == 0 && !buffer.is_empty() {
                    self.ended = true;
                }
                Some(count)
            }
            Err(_) => {
                self.failed = true;
                None
            }
        }
    }
}

impl<'a, T: Write> Sink for Watch<'a, T> {
    ghost contents = { λ w. T.contents w.inner.now };

    ghost has_failed = { λ w. w.failed };

    ghost keeps = { λ old new. new.inner.ghost_name ≡ old.inner.ghost_name };

    ghost keeps_itself = { λ _. refl };

    ghost keeps_on = { λ _ _ _ before after. after ∙ before };

    /// Returns whether a call failed.
    fn failed(&self) -> bool {
        self.failed
    }

    /// Writes to the stream. Whether its end was seen is unchanged.
    #[inline(always)]
    fn write(&mut self, bytes: &[u8]) -> Option<usize>
        requires not_empty { 0 < length bytes.now }
        ensures bound { IfSome result (λ n. (0 < n) × (n ≤ length bytes.now)) }
        ensures bytes { WriteMoves (T.contents self.old.inner.now)
            (T.contents self.new.inner.now) result bytes.now }
        ensures failed { FailsOnNone result (self.old.failed) (self.new.failed) }
        ensures keeps { self.new.inner.ghost_name ≡ self.old.inner.ghost_name }
        ensures ended { self.new.ended ≡ self.old.ended }
    {
        match self.inner.write(bytes) {
            Ok(count) if count > 0 => Some(count),
            _ => {
                self.failed = true;
                None
            }
        }
    }
}
