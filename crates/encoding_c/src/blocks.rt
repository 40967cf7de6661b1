//! Repairs a stream by blocks. The caller's storage of a decoder keeps the pending bytes of a block.

ghost use Rattle.std.specs.Prelude.{◌≡◌, ℕ, List, length};
ghost use Rattle.encoding_definitions.specs.Prefixes.{WritesPrefix};
ghost use Rattle.encoding_runs.specs.Blocks.{IsBlockRepair};
ghost use Rattle.encoding_runs.specs.declared.repair.blocks.RepairedBlock.{RepairedBlock};
ghost use Rattle.encoding_c.specs.States.{Represents};

use crate::decoder::{EncodingUtf8Decoder, restored, stored};
use encoding_runs::repair::repair_block;

/// What a call did with a block: how much it read and wrote, and how many malformed sequences it replaced. It is
/// finished if the whole block was read and, if it was the last, nothing is pending.
#[repr(C)]
#[derive(Clone, Copy)]
pub struct EncodingRepairBlockResult {
    pub read: usize,
    pub written: usize,
    pub replaced: usize,
    pub finished: bool,
}

/// Writes the next block of a stream with U+FFFD for each malformed sequence. `last` says that no block follows. The
/// rest of `dst` is unchanged.
#[tactic(auto, using(encoding_runs::proofs::ChainLemmas::yielded_bytes))]
#[unsafe(no_mangle)]
pub extern "C" fn encoding_text_repair_block(
    decoder: &mut EncodingUtf8Decoder,
    src: &[u8],
    dst: &mut [u8],
    last: bool,
) -> EncodingRepairBlockResult
    ensures { (p : List ℕ) × (q : List ℕ) × (out : List ℕ) × (block : RepairedBlock)
        × Represents decoder.old p × Represents decoder.new q
        × WritesPrefix dst.old dst.new result.written out
        × IsBlockRepair p src.now (length dst.old) last block result.read out q
        × (block.replaced ≡ result.replaced) × (block.finished ≡ result.finished) }
{
    let mut inner = restored(*decoder);
    let block = repair_block(&mut inner, src, dst, last);
    *decoder = stored(&inner);
    EncodingRepairBlockResult {
        read: block.read,
        written: block.written,
        replaced: block.replaced,
        finished: block.finished,
    }
}
