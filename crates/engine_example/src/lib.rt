//! A text that an engine keeps in UTF-16, in blocks that may cut it anywhere, even within a surrogate pair: its UTF-8
//! is that of all the code units in sequence. And back: UTF-8 in pieces, cut anywhere, as such blocks.
#![tactic(auto)]

ghost use Rattle.std.specs.Prelude.{◌≡◌, ℕ, List, ◌++◌, IfOk, OnOk, IsUtf8};
ghost use Rattle.std.specs.Char.Escape.{encode_utf16};
ghost use Rattle.std.specs.Str.{chars};
ghost use Rattle.std.specs.List.{flat_map};
ghost use Rattle.encoding_text.specs.Utf16.{AreCodeUnits, IsUtf8OfUnits};
ghost use Rattle.encoding_runs.specs.Repairs.{IsLossyDecodeOf};
ghost use Rattle.engine_example.specs.CutBlocks.{WritesBlock, WritesPiece, IsRepairedUtf16};

use encoding_runs::laws::{law_encoder_cuts, law_mixed_calls, law_parts, law_utf16_round_trip};
use encoding_text::decoder::{Piece, Utf8Decoder};
use encoding_text::mem::convert_str_to_utf16;
use encoding_text::utf_8::Utf8Encoder;
use std::alloc::{AllocError, Global};

pub mod turns;
pub mod units;

/// Appends the UTF-8 of the pending surrogate and a block. `last` says that no block follows. An `Err` means that an
/// allocation failed.
fn append_block(
    encoder: &mut Utf8Encoder,
    block: &[u16],
    last: bool,
    bytes: &mut Vec<u8>,
) -> Result<(), AllocError>
    ensures units { AreCodeUnits block.now }
    ensures written { OnOk result ((out : List ℕ) × (bytes.new.items ≡ bytes.old.items ++ out)
        × WritesBlock encoder.old block.now last out encoder.new) }
{
    law_encoder_cuts();
    let at = bytes.len();
    let Some(room) = encoder.max_buffer_length_from_utf16_without_replacement(block.len()) else {
        return Err(AllocError);
    };
    let Some(end) = at.checked_add(room) else {
        return Err(AllocError);
    };
    bytes.resize(end, 0)?;
    let (_, _, written) = encoder.encode_from_utf16_raw(block, &mut bytes[at..], last);
    bytes.truncate(at + written);
    Ok(())
}

/// Returns the UTF-8 of all blocks in sequence, with U+FFFD for each unpaired surrogate. An `Err` means that an
/// allocation failed.
pub fn utf8_of_blocks(alloc: Global, blocks: &[Vec<u16>]) -> Result<Vec<u8>, AllocError>
    ensures { IfOk result
        (λ bytes. IsUtf8OfUnits (flat_map (λ block. block.items) blocks.now) bytes.items) }
{
    law_utf16_round_trip();
    let mut encoder = Utf8Encoder::new_inner();
    let mut bytes = Vec::new(alloc);
    for block in blocks {
        append_block(&mut encoder, block, false, &mut bytes)?;
    }
    append_block(&mut encoder, &[], true, &mut bytes)?;
    Ok(bytes)
}

/// Appends a text in UTF-16. An `Err` means that an allocation failed.
fn append_text(block: &mut Vec<u16>, text: &str) -> Result<(), AllocError>
    ensures { OnOk result
        (block.new.items ≡ block.old.items ++ flat_map encode_utf16 (chars text.now)) }
{
    let at = block.len();
    block.resize(at.checked_add(text.len()).ok_or(AllocError)?, 0)?;
    let written = convert_str_to_utf16(text, &mut block[at..]);
    block.truncate(at + written);
    Ok(())
}

/// Returns a text as one block, which one call of a decoder writes into a destination of the queried length. An `Err`
/// means that the allocation failed or that this length would exceed `usize::MAX`.
pub fn block_of_text(alloc: Global, text: &str) -> Result<Vec<u16>, AllocError>
    ensures { IfOk result (λ block. block.items ≡ flat_map encode_utf16 (chars text.now)) }
{
    law_mixed_calls();
    let mut decoder = Utf8Decoder::new_inner();
    let Some(room) = decoder.max_utf16_buffer_length(text.len()) else {
        return Err(AllocError);
    };
    let mut block = Vec::new(alloc);
    block.resize(room, 0)?;
    let (_, _, written) = decoder.decode_to_utf16_raw(text.as_bytes(), &mut block, true);
    block.truncate(written);
    Ok(block)
}

/// Returns the next piece of UTF-8 as a block, with U+FFFD for each malformed sequence. `last` says that no piece
/// follows. An `Err` means that an allocation failed.
fn block_of_piece(
    alloc: Global,
    decoder: &mut Utf8Decoder,
    piece: &[u8],
    last: bool,
) -> Result<Vec<u16>, AllocError>
    ensures { IfOk result
        (λ block. WritesPiece decoder.old piece.now last block.items decoder.new) }
{
    law_mixed_calls();
    // Before the first call this is all that says that no bytes, or an incomplete sequence, are pending.
    let _neutral = decoder.in_neutral_state();
    let mut block = Vec::new(alloc);
    let mut read = 0;
    loop {
        let (next, bytes) = decoder.decode_borrowed_raw(&piece[read..], last);
        read += bytes;
        match next {
            Piece::Text(text) => append_text(&mut block, text)?,
            Piece::Char(c) => block.extend_from_slice(c.encode_utf16(&mut [0; 2]))?,
            Piece::Malformed(_) => block.push(0xFFFD)?,
            Piece::InputEmpty => return Ok(block),
        }
    }
}

/// Returns UTF-8 in pieces as blocks of UTF-16, one for each piece and one at the end. An `Err` means that an
/// allocation failed.
pub fn blocks_of_utf8(alloc: Global, pieces: &[&[u8]]) -> Result<Vec<Vec<u16>>, AllocError>
    ensures { IfOk result (λ blocks. IsRepairedUtf16 (flat_map (λ piece. piece.now) pieces.now)
        (flat_map (λ block. block.items) blocks.items)) }
{
    let mut decoder = Utf8Decoder::new_inner();
    let mut blocks = Vec::new(alloc);
    for piece in pieces {
        blocks.push(block_of_piece(alloc, &mut decoder, piece, false)?)?;
    }
    blocks.push(block_of_piece(alloc, &mut decoder, &[], true)?)?;
    Ok(blocks)
}

/// Converting to UTF-16 and back to UTF-8 yields the repaired text of the bytes, which is the bytes themselves if they
/// are well-formed.
pub fn law_there_and_back()
    ensures repaired { (bs units out : List ℕ) → IsRepairedUtf16 bs units → IsUtf8OfUnits units out
        → IsLossyDecodeOf bs out }
    ensures stays { (bs units out : List ℕ) → IsUtf8 bs → IsRepairedUtf16 bs units
        → IsUtf8OfUnits units out → out ≡ bs }
{
    law_parts();
    law_utf16_round_trip();
}
