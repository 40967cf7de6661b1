//! Repairs UTF-8 into a buffer.

ghost use Rattle.std.specs.Prelude.{◌≡◌, ◌+◌, ◌*◌, ◌<◌, ◌≤◌, ℕ, List, true, length, refl, IfSome};
ghost use Rattle.std.specs.Io.KnownBytes.{Appends};
ghost use Rattle.std.proofs.Common.{◌∙◌, arith};
ghost use Rattle.encoding_definitions.specs.Prefixes.{WritesPrefix};
ghost use Rattle.encoding_runs.specs.Repairs.{IsLossyDecodeWith};
ghost use Rattle.encoding_runs.specs.Streams.{FailsOnNone, WriteMoves};

use crate::status::INVALID_ARGUMENT;
use encoding_kernels::simd::copy::copy_prefix;
use encoding_runs::repair::{Sink, repair_slice};

/// The number of bytes written, and of malformed sequences replaced by U+FFFD.
#[repr(C)]
#[derive(Clone, Copy)]
pub struct EncodingRepairResult {
    pub written: usize,
    pub replaced: u64,
}

/// A buffer that is filled from its start.
#[derive(Drop)]
struct Buffer<'a> {
    room: &'a mut [u8],
    written: usize,
    failed: bool,
    ghost within: { written ≤ length room.now },
    ghost full: { failed ≡ true → written ≡ length room.now },
}

impl<'a> Buffer<'a> {
    ghost use Rattle.encoding_c.specs.Buffers.{buffer_contents, BufferKeeps};

    /// Appends bytes that fit. A few are copied by a few instructions: a call would cost more.
    #[inline(always)]
    fn append(&mut self, bytes: &[u8])
        requires fits { self.old.written + length bytes.now ≤ length self.old.room.now }
        ensures bytes { Appends (buffer_contents self.old) (buffer_contents self.new) bytes.now }
        ensures failed { self.new.failed ≡ self.old.failed }
        ensures keeps { BufferKeeps self.old self.new }
    {
        copy_prefix(bytes, &mut self.room[self.written..]);
        self.written += bytes.len();
    }

    /// Writes bytes that fill the buffer. Fails if there are none. Out of line: a destination of three times the source
    /// is large enough.
    #[inline(never)]
    fn fill(&mut self, bytes: &[u8]) -> Option<usize>
        requires fills { self.old.written + length bytes.now ≡ length self.old.room.now }
        ensures bound { IfSome result (λ n. (0 < n) × (n ≤ length bytes.now)) }
        ensures bytes { WriteMoves (buffer_contents self.old)
            (buffer_contents self.new) result bytes.now }
        ensures failed { FailsOnNone result self.old.failed self.new.failed }
        ensures keeps { BufferKeeps self.old self.new }
    {
        if bytes.is_empty() {
            self.failed = true;
            return None;
        }
        self.append(bytes);
        Some(bytes.len())
    }
}

impl<'a> Sink for Buffer<'a> {
    ghost use Rattle.encoding_c.specs.Buffers.{buffer_contents, buffer_failed, BufferKeeps};

    ghost contents = { λ b. buffer_contents b };

    ghost has_failed = { λ b. buffer_failed b };

    ghost keeps = { λ old new. BufferKeeps old new };

    ghost keeps_itself = { λ b. record { memory = refl; further = Prim.omega arith; following = λ _ _. refl } };

    ghost keeps_on = { λ first second third before after. record {
      memory = after.memory ∙ before.memory;
      further = Prim.omega arith;
      following = λ n within. after.following n within ∙ before.following n (Prim.omega arith);
    } };

    /// Returns whether a write found no space.
    fn failed(&self) -> bool {
        self.failed
    }

    /// Writes the bytes that fit.
    #[inline(always)]
    fn write(&mut self, bytes: &[u8]) -> Option<usize> {
        let free = self.room.len() - self.written;
        if bytes.len() > free {
            return self.fill(&bytes[..free]);
        }
        self.append(bytes);
        Some(bytes.len())
    }
}

/// Writes `src` with U+FFFD for each malformed sequence, and returns the number of bytes written and of malformed
/// sequences. The rest of `dst` is unchanged. `written` is `INVALID_ARGUMENT` if `dst` is less than three times as long
/// as `src`.
#[unsafe(no_mangle)]
pub extern "C" fn encoding_text_repair_slice(src: &[u8], dst: &mut [u8]) -> EncodingRepairResult
    ensures written { 3 * length src.now ≤ length dst.old
        → (text : List ℕ) × IsLossyDecodeWith src.now text result.replaced
        × WritesPrefix dst.old dst.new result.written text }
    ensures invalid_argument { length dst.old < 3 * length src.now
        → (result.written ≡ usize.MAX) × (result.replaced ≡ 0) × (dst.new ≡ dst.old) }
{
    if dst.len() / 3 < src.len() {
        return EncodingRepairResult {
            written: INVALID_ARGUMENT,
            replaced: 0,
        };
    }
    // After the test: before it, one store would clear both fields, and 16 fewer bytes of code would precede the loop.
    // More of its jumps would then end at a multiple of 32 bytes, where they are slow.
    let mut buffer = Buffer {
        room: dst,
        written: 0,
        failed: false,
    };
    match repair_slice(src, &mut buffer) {
        Ok(replaced) => EncodingRepairResult {
            written: buffer.written,
            replaced,
        },
        Err(_) => unreachable!(),
    }
}
