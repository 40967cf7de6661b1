//! Repairs a stream by blocks. The caller provides each block and its destination.
ghost use Rattle.std.specs.Prelude.{ℕ, List, length};
ghost use Rattle.encoding_definitions.specs.Prefixes.{WritesPrefix};
ghost use Rattle.encoding_runs.specs.Blocks.{IsBlockRepair};

use encoding_kernels::scalar::{REPLACEMENT_CHARACTER, write_scalar};
use encoding_text::decoder::{DecoderResult, Utf8Decoder};

/// What one call of [`repair_block`] did.
#[derive(Debug, PartialEq, Eq, Drop)]
pub struct RepairedBlock {
    /// The number of bytes of the block that were read.
    pub read: usize,
    /// The number of bytes that were written.
    pub written: usize,
    /// The number of malformed sequences for which U+FFFD was written.
    pub replaced: usize,
    /// Whether the whole block was read and, if it was the last, nothing is pending. If false, more space is needed.
    pub finished: bool,
}

/// The length of U+FFFD in UTF-8, in bytes.
const REPLACEMENT_LENGTH: usize = 3;

/// Writes the next block of a stream with U+FFFD for each malformed sequence, and returns how much it read and wrote.
///
/// `last` says that no block follows. The decoder keeps the pending bytes of a block. Pass a new decoder with the first
/// block.
///
/// If the result is not `finished`, call again with the unread bytes and more space. Four bytes of space are enough to
/// make progress. For any blocks and spaces, the output of all calls is the repaired text of the whole stream:
/// `law_block_repair`. The rest of `dst` is unchanged. Encoding Standard, UTF-8 decode without BOM.
pub fn repair_block(
    decoder: &mut Utf8Decoder,
    src: &[u8],
    dst: &mut [u8],
    last: bool,
) -> RepairedBlock
    ensures { (out : List ℕ) × WritesPrefix dst.old dst.new result.written out
        × IsBlockRepair decoder.old src.now
        (length dst.old) last result result.read out decoder.new }
{
    // Without a call of the decoder no other clause says that the pending bytes are none or an incomplete sequence.
    let _neutral = decoder.in_neutral_state();
    let mut block = RepairedBlock {
        read: 0,
        written: 0,
        replaced: 0,
        finished: false,
    };
    loop {
        let rest = &src[block.read..];
        let left = dst.len() - block.written;
        // At the end the decoder reports its pending bytes into any space. With bytes unread it needs four bytes for a
        // report.
        if rest.is_empty() && left < REPLACEMENT_LENGTH {
            block.finished = !last || decoder.in_neutral_state();
            return block;
        }
        let (result, read, written) = decoder.decode_to_utf8_raw(
            rest,
            &mut dst[block.written..],
            last,
        );
        block.read += read;
        block.written += written;
        match result {
            DecoderResult::InputEmpty => {
                block.finished = true;
                return block;
            }
            DecoderResult::OutputFull => return block,
            DecoderResult::Malformed(..) => {
                block.written += write_scalar(REPLACEMENT_CHARACTER, &mut dst[block.written..]);
                block.replaced += 1;
            }
        }
    }
}
