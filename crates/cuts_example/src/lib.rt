//! Bytes are cut after ASCII bytes, such as line ends, and their pieces are repaired separately, in any order and on
//! any number of machines. Joined, their texts are what one repair of all the bytes writes.
#![tactic(auto)]

ghost use Rattle.std.specs.Prelude.{◌≡◌, ℕ, ◌+◌, ◌-◌, ◌<◌, ◌≤◌, ◌^◌, min, List, [], ◌++◌, length, take, map, sum_by, slice_index, string_bytes, IfOk};
ghost use Rattle.std.specs.List.{flat_map, AllByRecursion, AllZip};
ghost use Rattle.std.specs.Str.Lossy.{utf8_lossy};
ghost use Rattle.encoding_runs.specs.Repairs.{IsLossyDecodeOf, IsLossyDecodeWith};
ghost use Rattle.cuts_example.specs.Cuts.{EndsWithAscii, MayBeCutAfter, AreCut, IsRepairOf, AreMalformedSequencesOf, following, SearchAll};
ghost use Rattle.encoding_runs.specs.Calls.{Call, IsChain, output_of};
ghost use Rattle.encoding_runs.specs.Searches.{IsBlockSearch, StartInTurn, FindTheMalformed};
ghost use Rattle.encoding_runs.specs.declared.search.SearchedBlock.{SearchedBlock};
ghost use Rattle.encoding_runs.specs.declared.search.StreamMalformation.{StreamMalformation};

use encoding_runs::laws::{law_block_search, law_cuts, law_next_malformed, law_parts};
use encoding_runs::malformed::{MalformedSequence, next_malformed};
use encoding_runs::repair::{Watch, repair_slice};
use std::alloc::{AllocError, Global};

/// A repaired piece, or several that were joined.
#[derive(Drop)]
pub struct RepairedPiece {
    /// Its text, in UTF-8.
    pub text: Vec<u8>,
    /// The number of malformed sequences replaced by U+FFFD.
    pub replaced: u64,
}

/// Bytes may be cut at the start and after an ASCII byte: the repairs of the two sides join to the repair of the whole,
/// and their malformed sequences add up. Those of the whole are those of the piece, followed by those of the rest,
/// whose offsets grow by the length of the piece. So they can also be found separately.
pub fn law_cut()
    ensures malformed { (piece more : List ℕ) (found others : List (ℕ × ℕ)) → MayBeCutAfter piece
        → AreMalformedSequencesOf piece found → AreMalformedSequencesOf more others
        → AreMalformedSequencesOf (piece ++ more) (found ++ following (length piece) others) }
    ensures repaired { (piece more text others : List ℕ) (n m : ℕ) → MayBeCutAfter piece
        → IsLossyDecodeWith piece text n
        → IsLossyDecodeWith more others m
        → IsLossyDecodeWith (piece ++ more) (text ++ others) (n + m) }
{
    law_parts();
    law_cuts();
}

/// The repaired text of lines is that of each line, one after another. Each ends with an ASCII byte, such as a line feed.
pub fn law_lines()
    ensures { (lines : List (List ℕ)) → AllByRecursion EndsWithAscii lines
        → utf8_lossy (flat_map (λ line. line) lines) ≡ flat_map utf8_lossy lines }
{
    law_cuts();
}

/// A search of a stream by blocks finds the same, with the same kinds, whatever the cuts and the arrays: the malformed
/// sequences that `malformed_indices` returns. Before the end it finds the first of them.
pub fn law_searches()
    ensures same { (bs : List ℕ)
        (calls others : List (Call (ℕ × ℕ) SearchedBlock StreamMalformation))
        → SearchAll bs calls → SearchAll bs others → output_of calls ≡ output_of others }
    ensures indices { (bs : List ℕ) (calls : List (Call (ℕ × ℕ) SearchedBlock StreamMalformation))
        → SearchAll bs calls
        → AreMalformedSequencesOf bs (map (λ one. (one.offset, one.length)) (output_of calls)) }
    ensures so_far { (bs : List ℕ) (calls : List (Call (ℕ × ℕ) SearchedBlock StreamMalformation))
        → StartInTurn [] 0 calls → IsChain IsBlockSearch [] bs calls
        → FindTheMalformed [] 0 bs calls }
{
    law_block_search();
}

/// Returns the offset and the length, in bytes, of each malformed sequence, in order: as many as a repair counts. An
/// `Err` means that an allocation failed.
pub fn malformed_indices(alloc: Global, bytes: &[u8]) -> Result<Vec<(usize, usize)>, AllocError>
    ensures found { IfOk result (λ found. AreMalformedSequencesOf bytes.now found.items) }
    ensures malformed_count { (text : List ℕ) (n : ℕ) → IsLossyDecodeWith bytes.now text n
        → IfOk result (λ found. length found.items ≡ n) }
{
    law_parts();
    law_next_malformed();
    let mut found = Vec::new(alloc);
    let mut read = 0;
    while let Some(MalformedSequence { place, length }) = next_malformed(&bytes[read..]) {
        found.push((read + place, length))?;
        read += place + length;
    }
    Ok(found)
}

/// Returns the length of the first piece: at least `least` bytes, up to and including the next ASCII byte, or all if
/// there is none.
fn cut_length(bytes: &[u8], least: usize) -> usize
    requires { 0 < least }
    ensures within { result ≤ length bytes.now }
    ensures least { min least (length bytes.now) ≤ result }
    ensures earliest { (k : ℕ) → least ≤ k → k < result → 0x80 ≤ slice_index bytes.now (k - 1) }
    ensures ascii { result < length bytes.now → EndsWithAscii (take result bytes.now) }
{
    let mut length = least;
    while length < bytes.len() {
        if bytes[length - 1].is_ascii() {
            return length;
        }
        length += 1;
    }
    bytes.len()
}

/// Cuts bytes into pieces, each but the last of at least `least` bytes, up to the next ASCII byte. An `Err` means that
/// an allocation failed.
pub fn cut<'a>(alloc: Global, bytes: &'a [u8], least: usize) -> Result<Vec<&'a [u8]>, AllocError>
    requires { 0 < least }
    ensures whole { IfOk result (λ pieces. flat_map (λ piece. piece.now) pieces.items ≡ bytes.now) }
    ensures cut { IfOk result (λ pieces. AreCut (map (λ piece. piece.now) pieces.items)) }
{
    let mut pieces = Vec::new(alloc);
    let mut rest = bytes;
    while !rest.is_empty() {
        let (piece, others) = rest.split_at(cut_length(rest, least));
        pieces.push(piece)?;
        rest = others;
    }
    Ok(pieces)
}

/// Repairs a piece. An `Err` means that an allocation failed.
pub fn repair_piece(alloc: Global, piece: &[u8]) -> Result<RepairedPiece, AllocError>
    ensures { IfOk result (λ repaired. IsRepairOf piece.now repaired) }
{
    let mut text = Vec::new(alloc);
    match repair_slice(piece, &mut Watch::new(&mut text)) {
        Ok(replaced) => Ok(RepairedPiece { text, replaced }),
        Err(_) => Err(AllocError),
    }
}

/// Joins repaired pieces in the order of their bytes, whoever repaired them and when. The result is the repair of the
/// bytes that the pieces make up. An `Err` means that an allocation failed.
pub fn join(alloc: Global, repaired: &[RepairedPiece]) -> Result<RepairedPiece, AllocError>
    requires counted { sum_by (λ piece. piece.replaced) repaired.now < 2 ^ 64 }
    ensures { (pieces : List (List ℕ)) → AreCut pieces → AllZip IsRepairOf pieces repaired.now
        → IfOk result (λ whole. IsRepairOf (flat_map (λ piece. piece) pieces) whole) }
{
    law_cut();
    let mut whole = RepairedPiece {
        text: Vec::new(alloc),
        replaced: 0,
    };
    for piece in repaired {
        whole.text.extend_from_slice(&piece.text)?;
        whole.replaced += piece.replaced;
    }
    Ok(whole)
}

/// Repairs bytes in pieces of at least `least` bytes, each separately. An `Err` means that an allocation failed.
pub fn repair_apart(alloc: Global, bytes: &[u8], least: usize) -> Result<RepairedPiece, AllocError>
    requires { 0 < least }
    ensures { IfOk result (λ whole. IsRepairOf bytes.now whole) }
{
    let pieces = cut(alloc, bytes, least)?;
    let mut repaired = Vec::new(alloc);
    for piece in &pieces {
        repaired.push(repair_piece(alloc, piece)?)?;
    }
    join(alloc, &repaired)
}

/// Repairs bytes in pieces of at least `least` bytes, and returns the text. An `Err` means that an allocation failed.
pub fn text_of_pieces(alloc: Global, bytes: &[u8], least: usize) -> Result<String, AllocError>
    requires { 0 < least }
    ensures { IfOk result (λ text. IsLossyDecodeOf bytes.now (string_bytes text)) }
{
    law_parts();
    let whole = repair_apart(alloc, bytes, least)?;
    // A repaired text is well-formed, so no second look at it is needed.
    Ok(unsafe { String::from_utf8_unchecked(whole.text) })
}
