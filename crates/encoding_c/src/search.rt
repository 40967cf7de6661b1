//! Finds the malformed sequences of a stream, by blocks. Between two calls the search is in the caller's storage.

ghost use Rattle.std.specs.Prelude.{◌≡◌, ℕ, ◌+◌, ◌<◌, ◌≤◌, ◌↔◌, List, [], ◌++◌, length, map, IsTrue};
ghost use Rattle.encoding_c.specs.Searches.{RepresentsSearch, SearchCall, numbered_malformation};
ghost use Rattle.encoding_definitions.specs.Prefixes.{WritesPrefix};
ghost use Rattle.encoding_runs.specs.Searches.{IsBlockSearch};
ghost use Rattle.encoding_runs.specs.declared.search.StreamMalformation.{StreamMalformation};
ghost use Rattle.encoding_c.specs.declared.search.EncodingStreamMalformation.{EncodingStreamMalformation};
ghost use Rattle.encoding_runs.specs.declared.search.SearchedBlock.{SearchedBlock};

use crate::decoder::MAX_PENDING;
use crate::malformed::number;
use crate::status::INVALID_ARGUMENT;
use encoding_runs::malformed::Malformation;
use encoding_runs::search::{MalformedSearch, SearchPiece, StreamMalformation, search_block};

/// A search between two calls: the offset of the first pending byte, or of the next byte if nothing is pending; the
/// pending bytes; and their count. The bytes after the pending ones have no meaning. A count and bytes that are no
/// incomplete sequence represent a search with nothing pending.
#[repr(C)]
#[derive(Clone, Copy)]
pub struct EncodingMalformedSearch {
    pub start: u64,
    pub pending: [u8; 3],
    pub count: u8,
}

/// The offset of a malformed sequence from the start of the stream, its length in bytes, and the number of its kind.
#[repr(C)]
#[derive(Clone, Copy)]
pub struct EncodingStreamMalformation {
    pub offset: u64,
    pub length: u8,
    pub kind: u8,
}

/// What a call did with a block: how much it read, and how many malformed sequences it stored. It is finished if the
/// whole block was read and, if it was the last, nothing is pending.
#[repr(C)]
#[derive(Clone, Copy)]
pub struct EncodingSearchBlockResult {
    pub read: usize,
    pub found: usize,
    pub finished: bool,
}

/// What an array has before a call.
const NONE: StreamMalformation = StreamMalformation {
    offset: 0,
    length: 0,
    kind: Malformation::IncompleteAtEnd,
};

/// Returns whether all of the source was read.
fn is_all_read(piece: &SearchPiece) -> bool
    ensures { IsTrue result ↔ (piece.now ≡ SearchPiece.InputEmpty) }
{
    matches!(piece, SearchPiece::InputEmpty)
}

/// Returns the search that the storage represents.
fn restored(state: EncodingMalformedSearch) -> MalformedSearch
    ensures { RepresentsSearch state result.0 result.1 }
{
    let mut search = MalformedSearch::at(state.start);
    if state.count > MAX_PENDING || u64::MAX - state.start < u64::from(state.count) {
        return search;
    }
    let pending = &state.pending[..usize::from(state.count)];
    let (piece, _) = search.next_piece(pending, false);
    if is_all_read(&piece) {
        return search;
    }
    MalformedSearch::at(state.start)
}

/// Returns the storage of a search.
fn stored(search: &MalformedSearch) -> EncodingMalformedSearch
    ensures { RepresentsSearch result search.now.0 search.now.1 }
{
    // Only this call says that the pending bytes are none or an incomplete sequence.
    let _neutral = search.in_neutral_state();
    let (pending, count) = search.pending();
    EncodingMalformedSearch {
        start: search.offset() - count as u64,
        pending,
        count: count as u8,
    }
}

/// Returns a malformed sequence with the number of its kind.
fn numbered(found: StreamMalformation) -> EncodingStreamMalformation
    ensures { result ≡ numbered_malformation found }
{
    EncodingStreamMalformation {
        offset: found.offset,
        length: found.length,
        kind: number(found.kind),
    }
}

/// Stores what was found, at most one malformed sequence, at index `count` of `found`. Returns the index after it.
fn store(
    found: &mut [EncodingStreamMalformation],
    count: usize,
    some: &[StreamMalformation],
) -> usize
    requires at_most_one { length some.now ≤ 1 }
    requires within { count + length some.now ≤ length found.old }
    ensures count { result ≡ count + length some.now }
    ensures stored { (old : List EncodingStreamMalformation) (out : List StreamMalformation)
        → WritesPrefix old found.old count (map numbered_malformation out)
        → WritesPrefix old found.new result (map numbered_malformation (out ++ some.now)) }
{
    if some.is_empty() {
        return count;
    }
    found[count] = numbered(some[0]);
    count + 1
}

/// Calls [`search_block`] with an array of one element for each element of `found`, and with none after the last.
fn search_into(
    search: &mut MalformedSearch,
    src: &[u8],
    found: &mut [EncodingStreamMalformation],
    last: bool,
) -> EncodingSearchBlockResult
    requires offset { search.old.1 + length search.old.0 + length src.now ≤ u64.MAX }
    ensures block { (out : List StreamMalformation) × (block : SearchedBlock)
        × WritesPrefix found.old found.new result.found (map numbered_malformation out)
        × IsBlockSearch search.old.0 src.now (search.old.1, length found.old) last block
        result.read out search.new.0 × (block.finished ≡ result.finished) }
    ensures offset { search.new.1 + length search.new.0
        ≡ search.old.1 + length search.old.0 + result.read }
{
    // Without a call of the search no other clause says that the pending bytes are none or an incomplete sequence.
    let _neutral = search.in_neutral_state();
    let mut read = 0;
    let mut count = 0;
    while count < found.len() {
        let mut one = [NONE];
        let block = search_block(search, &src[read..], &mut one, last);
        read += block.read;
        count = store(found, count, &one[..block.found]);
        if block.finished {
            return EncodingSearchBlockResult {
                read,
                found: count,
                finished: true,
            };
        }
    }
    let block = search_block(search, &src[read..], &mut [], last);
    EncodingSearchBlockResult {
        read: read + block.read,
        found: count,
        finished: block.finished,
    }
}

/// Initializes a search with nothing pending that starts with the byte at this offset of a stream.
#[unsafe(no_mangle)]
pub extern "C" fn encoding_text_malformed_search_new(
    search: &mut EncodingMalformedSearch,
    offset: u64,
)
    ensures { RepresentsSearch search.new [] offset }
{
    *search = EncodingMalformedSearch {
        start: offset,
        pending: [0; 3],
        count: 0,
    };
}

/// Stores offset, length and kind of each malformed sequence of the next block of a stream, in order. `last` says that
/// no block follows. The rest of `found` is unchanged. Returns `INVALID_ARGUMENT` for both counts if the offset of the
/// first byte after `src` exceeds `u64::MAX`: then nothing is read.
#[unsafe(no_mangle)]
pub extern "C" fn encoding_text_search_block(
    search: &mut EncodingMalformedSearch,
    src: &[u8],
    found: &mut [EncodingStreamMalformation],
    last: bool,
) -> EncodingSearchBlockResult
    ensures { (p : List ℕ) × (start : ℕ) × RepresentsSearch search.old p start
        × (start + length p + length src.now ≤ u64.MAX
        → SearchCall p start src.now last search.new found.old found.new result)
        × (u64.MAX < start + length p + length src.now
        → (result.read ≡ usize.MAX) × (result.found ≡ usize.MAX) × (search.new ≡ search.old)
        × (found.new ≡ found.old)) }
{
    let mut inner = restored(*search);
    if u64::MAX - inner.offset() < src.len() as u64 {
        return EncodingSearchBlockResult {
            read: INVALID_ARGUMENT,
            found: INVALID_ARGUMENT,
            finished: false,
        };
    }
    let result = search_into(&mut inner, src, found, last);
    *search = stored(&inner);
    result
}
