//! Streams of the program: an array between the engine and each slow stream, to make fewer system calls.

ghost use Rattle.std.specs.Prelude.{◌<◌, length, IsTrue, ◌≡◌, [], ◌++◌, ◌-◌, ◌≤◌, true, false, List, ℕ, take, IfOk};
ghost use Rattle.std.specs.Prelude.{OnOk, OnErr};
ghost use Rattle.std.specs.Io.KnownBytes.{prepend_known, Keeps, WriteAppends, append_known};

use held::Held;
use std::cell::Cell;
use std::io::{self, Read, Write};
use std::str::from_utf8;

mod held;

/// The length of the arrays between the engine and the standard streams: the capacity of a pipe.
pub(crate) const PIPE_CAPACITY: usize = 0x10000;

/// Which pieces are due: they must be written out before the next read. The reader sets it for the writer with each
/// read.
#[derive(Clone, Copy)]
pub(crate) enum FlushPolicy {
    /// No piece: more buffered bytes can be read.
    Nothing,
    /// The piece that ends with this byte, the last byte that was read, and all buffered bytes. The byte is ASCII, so
    /// no U+FFFD ends with it.
    UpTo(u8),
    /// Each piece, and all buffered bytes.
    Each,
}

impl FlushPolicy {
    /// Returns whether this piece is due. An empty piece never is.
    pub(crate) fn has(self, piece: &[u8]) -> bool
        ensures { IsTrue result → 0 < length piece.now }
    {
        match (self, piece.last()) {
            (FlushPolicy::UpTo(end), Some(byte)) => *byte == end,
            (FlushPolicy::Each, Some(_)) => true,
            _ => false,
        }
    }
}

/// The number of last bytes that are returned separately if no whole character ends the array. A filter that holds back
/// at most three bytes, as an incomplete sequence, writes something when it reads these.
const LAST_BYTES: usize = 4;

/// Returns how many of the last bytes are returned separately, and what of them is due.
///
/// If a whole character ends the bytes, the filter writes it last and holds nothing back. If it has more than one byte,
/// only its first byte is returned with the bytes before it. Then the parts of these are final, and the other bytes of
/// the character make one piece.
fn last_ones(bytes: &[u8]) -> (usize, FlushPolicy) {
    for count in 1..LAST_BYTES + 1 {
        let start = bytes.len().saturating_sub(count);
        match bytes.get(start..) {
            Some([end]) if end.is_ascii() => return (1, FlushPolicy::UpTo(*end)),
            Some(character) if from_utf8(character).is_ok() => return (
                count - 1,
                FlushPolicy::Each,
            ),
            _ => {}
        }
    }
    (LAST_BYTES, FlushPolicy::Each)
}

/// Fills an array with one read, and returns its bytes in pieces. Returns separately the bytes after which the next
/// read may block. With each read it sets for the writer what of it is due.
#[derive(Drop)]
pub(crate) struct ReadAhead<'a, R, const N: usize> {
    inner: R,
    held: Held<N>,
    due: &'a Cell<FlushPolicy>,
}

impl<'a, R, const N: usize> ReadAhead<'a, R, N> {
    /// Returns a reader that reads ahead from `inner`.
    pub(crate) fn new(inner: R, due: &'a Cell<FlushPolicy>) -> ReadAhead<'a, R, N>
        requires { 0 < N }
        ensures inner { result.inner ≡ inner }
        ensures held { result.held ≡ [] }
    {
        ReadAhead {
            inner,
            held: Held::new(),
            due,
        }
    }
}

impl<R: Read, const N: usize> Read for ReadAhead<'_, R, N> {
    ghost remaining = { λ r. prepend_known r.held (R.remaining r.inner) };

    /// Reads the bytes in the array. If it is empty, one read of the inner reader fills it.
    fn read(&mut self, buffer: &mut [u8]) -> io::Result<usize> {
        self.held.fill(&mut self.inner)?;
        let (apart, due) = last_ones(self.held.as_slice());
        let ahead = self.held.len().saturating_sub(apart);
        self.due.set(if ahead == 0 {
            due
        } else {
            FlushPolicy::Nothing
        });
        let most = if ahead == 0 { LAST_BYTES } else { ahead };
        Ok(self.held.pop_into(buffer, most))
    }
}

/// Buffers what is written in an array. Writes the array out when it is full, at a flush, and with each piece that is
/// due: with one write, as far as the inner writer takes it. What is never flushed is lost.
#[derive(Drop)]
pub(crate) struct BufferedWriter<'a, W, const N: usize> {
    inner: W,
    held: Held<N>,
    due: &'a Cell<FlushPolicy>,
}

impl<'a, W, const N: usize> BufferedWriter<'a, W, N> {
    /// Returns a writer that buffers what it writes to `inner`.
    pub(crate) fn new(inner: W, due: &'a Cell<FlushPolicy>) -> BufferedWriter<'a, W, N>
        requires { 0 < N }
        ensures inner { result.inner ≡ inner }
        ensures held { result.held ≡ [] }
    {
        BufferedWriter {
            inner,
            held: Held::new(),
            due,
        }
    }
}

impl<W: Write, const N: usize> BufferedWriter<'_, W, N> {
    /// Appends the piece to the buffered bytes, and returns whether it did. If the piece is longer than the array, it
    /// isn't appended, and nothing is left in the buffer.
    fn gather(&mut self, piece: &[u8]) -> io::Result<bool>
        ensures taken { IfOk result (λ taken. taken ≡ true
            → (prefix : List ℕ) × (self.new.held ≡ prefix ++ piece.now)
            × Keeps (append_known (W.contents self.old.inner) self.old.held)
            (append_known (W.contents self.new.inner) prefix)) }
        ensures too_long { IfOk result (λ taken. taken ≡ false → (self.new.held ≡ [])
            × Keeps (append_known (W.contents self.old.inner) self.old.held)
            (W.contents self.new.inner)) }
        ensures err { OnErr result (Keeps (append_known (W.contents self.old.inner) self.old.held)
            (append_known (W.contents self.new.inner) self.new.held)) }
    {
        if self.held.push(piece) {
            return Ok(true);
        }
        self.held.write_to(&mut self.inner)?;
        Ok(self.held.push(piece))
    }

    /// Writes out the buffered bytes, whose last `count` are a piece, until some of the piece is written. Returns how
    /// many bytes of the piece were written. The rest of the piece is removed from the buffer.
    #[tactic(auto, using(crate::proofs::ByteStreamLemmas::taken_back))]
    fn send(&mut self, count: usize) -> io::Result<usize>
        requires { (0 < count) × (count ≤ length self.old.held) }
        ensures ok { IfOk result (λ n. (n ≤ count) × Keeps
            (append_known (W.contents self.old.inner)
            (take (length self.old.held - (count - n)) self.old.held))
            (append_known (W.contents self.new.inner) self.new.held)) }
        ensures err { OnErr result (Keeps
            (append_known (W.contents self.old.inner)
            (take (length self.old.held - count) self.old.held))
            (append_known (W.contents self.new.inner) self.new.held)) }
    {
        while self.held.len() >= count {
            match self.held.write_some(&mut self.inner) {
                Ok(()) => {}
                Err(error) => {
                    self.held.take_back(count);
                    return Err(error);
                }
            }
        }
        let left = self.held.len();
        self.held.take_back(left);
        Ok(count - left)
    }

    /// Does what `write` does. Out of line: most pieces aren't due and fit after the buffered bytes.
    #[inline(never)]
    fn write_out(&mut self, piece: &[u8]) -> io::Result<usize>
        ensures bound { IfOk result (λ n. n ≤ length piece.now) }
        ensures bytes { WriteAppends (append_known (W.contents self.old.inner) self.old.held)
            (append_known (W.contents self.new.inner) self.new.held) result piece.now }
    {
        if !self.gather(piece)? {
            return self.inner.write(piece);
        }
        if self.due.get().has(piece) {
            return self.send(piece.len());
        }
        Ok(piece.len())
    }
}

impl<W: Write, const N: usize> Write for BufferedWriter<'_, W, N> {
    ghost contents = { λ w. append_known (W.contents w.inner) w.held };

    /// Buffers the piece, and writes out all buffered bytes at once if the piece is due. On an error of the inner
    /// writer, no byte of the piece is written or buffered.
    #[inline(always)]
    fn write(&mut self, piece: &[u8]) -> io::Result<usize> {
        if !self.due.get().has(piece) && self.held.push(piece) {
            return Ok(piece.len());
        }
        self.write_out(piece)
    }

    /// Writes out the buffered bytes, and flushes the inner writer.
    fn flush(&mut self) -> io::Result<()>
        ensures bytes { Keeps (append_known (W.contents self.old.inner) self.old.held)
            (append_known (W.contents self.new.inner) self.new.held) }
        ensures ok { OnOk result (self.new.held ≡ []) }
    {
        self.held.write_to(&mut self.inner)?;
        self.inner.flush()
    }
}
