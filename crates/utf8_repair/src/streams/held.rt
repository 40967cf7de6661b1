//! A queue of bytes in an array.
ghost use Rattle.std.specs.Prelude.{◌≡◌, ℕ, ◌-◌, ◌<◌, ◌≤◌, min, List, [], ◌++◌, length, drop, take, IsTrue, OnOk};
ghost use Rattle.std.specs.Prelude.{OnErr};
ghost use Rattle.std.specs.Bool.{IsFalse};
ghost use Rattle.std.specs.Io.KnownBytes.{Keeps, IsAtEnd, append_known, prepend_known};

use encoding_kernels::simd::copy::copy_prefix;
use std::io::{self, Error, ErrorKind, Read, Write};
use std::marker::Model;

/// A queue of at most `N` bytes: first in, first out.
#[derive(Drop)]
pub(crate) struct Held<const N: usize> {
    bytes: [u8; N],
    start: usize,
    end: usize,
}

// Clauses refer to the queued bytes.
impl<const N: usize> Model for Held<N> {
    ghost Value = { List ℕ };

    ghost view = { λ h. drop h.start (take h.end h.bytes) };

    ghost invariant = { λ h. (h.start ≤ h.end) × (h.end ≤ N) × (0 < N) × (h.start ≡ h.end → h.end ≡ 0) };
}

impl<const N: usize> Held<N> {
    /// Returns an empty queue.
    pub(crate) fn new() -> Held<N>
        requires { 0 < N }
        ensures { result ≡ [] }
    {
        Held {
            bytes: [0; N],
            start: 0,
            end: 0,
        }
    }

    /// Returns the queued bytes.
    pub(crate) fn as_slice(&self) -> &[u8]
        ensures { result.now ≡ self.now }
    {
        let bytes = &self.bytes[..];
        &bytes[self.start..self.end]
    }

    /// Returns the number of queued bytes.
    pub(crate) fn len(&self) -> usize
        ensures { result ≡ length self.now }
    {
        self.end - self.start
    }

    /// Removes the first `count` bytes.
    fn advance(&mut self, count: usize)
        requires { count ≤ length self.old }
        ensures { self.new ≡ drop count self.old }
    {
        self.start += count;
        if self.start == self.end {
            self.start = 0;
            self.end = 0;
        }
    }

    /// Removes the last `count` bytes.
    pub(crate) fn take_back(&mut self, count: usize)
        requires { count ≤ length self.old }
        ensures { self.new ≡ take (length self.old - count) self.old }
    {
        self.end -= count;
        if self.start == self.end {
            self.start = 0;
            self.end = 0;
        }
    }

    /// Appends the piece if it fits after the queued bytes, and returns whether it did.
    #[inline(always)]
    pub(crate) fn push(&mut self, piece: &[u8]) -> bool
        ensures taken { IsTrue result → self.new ≡ self.old ++ piece.now }
        ensures refused { IsFalse result → self.new ≡ self.old }
        ensures capacity { self.old ≡ [] → length piece.now ≤ N → IsTrue result }
    {
        if piece.len() > N - self.end {
            return false;
        }
        let bytes = &mut self.bytes[..];
        copy_prefix(piece, &mut bytes[self.end..]);
        self.end += piece.len();
        true
    }

    /// Moves the first bytes into the buffer, at most `most` and as many as it holds, and returns how many.
    pub(crate) fn pop_into(&mut self, buffer: &mut [u8], most: usize) -> usize
        ensures copied_length { result ≡ min most (min (length self.old) (length buffer.old)) }
        ensures bytes { self.old ≡ take result buffer.new ++ self.new }
    {
        let count = most.min(self.len().min(buffer.len()));
        let prefix = &self.as_slice()[..count];
        buffer[..count].copy_from_slice(prefix);
        self.advance(count);
        count
    }

    /// Reads once if the queue is empty.
    pub(crate) fn fill<R: Read>(&mut self, reader: &mut R) -> io::Result<()>
        ensures bytes { Keeps (prepend_known self.old (R.remaining reader.old))
            (prepend_known self.new (R.remaining reader.new)) }
        ensures end { OnOk result (self.new ≡ [] → IsAtEnd (R.remaining reader.new)) }
        ensures err { OnErr result (self.new ≡ self.old) }
    {
        if self.len() == 0 {
            self.end = reader.read(&mut self.bytes)?;
        }
        Ok(())
    }

    /// Writes queued bytes with one write call, and removes those that were written. The queue must not be empty.
    pub(crate) fn write_some<W: Write>(&mut self, writer: &mut W) -> io::Result<()>
        requires not_empty { 0 < length self.old }
        ensures bytes { Keeps (append_known (W.contents writer.old) self.old)
            (append_known (W.contents writer.new) self.new) }
        ensures ok { OnOk result (length self.new < length self.old) }
        ensures err { OnErr result (self.new ≡ self.old) }
    {
        let taken = writer.write(self.as_slice())?;
        if taken == 0 {
            return Err(Error::from(ErrorKind::WriteZero));
        }
        self.advance(taken);
        Ok(())
    }

    /// Writes out the queued bytes. On an error the unwritten bytes stay queued.
    pub(crate) fn write_to<W: Write>(&mut self, writer: &mut W) -> io::Result<()>
        ensures bytes { Keeps (append_known (W.contents writer.old) self.old)
            (append_known (W.contents writer.new) self.new) }
        ensures ok { OnOk result (self.new ≡ []) }
    {
        while self.len() > 0 {
            self.write_some(writer)?;
        }
        Ok(())
    }
}
