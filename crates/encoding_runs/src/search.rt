//! Finds the malformed sequences of a stream, by blocks. The caller provides each block, and an array for what is
//! found.
ghost use Rattle.std.specs.Prelude.{◌≡◌, ℕ, ◌+◌, ◌≤◌, ◌↔◌, List, [], length, take, IsTrue};
ghost use Rattle.encoding_definitions.specs.Prefixes.{WritesPrefix};
ghost use Rattle.encoding_definitions.specs.Sequence.{IsPending};
ghost use Rattle.encoding_runs.specs.Searches.{IsBlockSearch};

use crate::malformed::{Malformation, why_malformed};
use encoding_text::decoder::{Piece, Utf8Decoder};
use held::Held;
use std::marker::Model;

mod held;

/// A malformed sequence in a stream.
#[derive(Debug, PartialEq, Eq, Clone, Copy)]
pub struct StreamMalformation {
    /// The offset of its first byte from the start of the stream.
    pub offset: u64,
    /// Its length in bytes, one to three.
    pub length: u8,
    /// Why it is malformed.
    pub kind: Malformation,
}

/// What [`MalformedSearch::next_piece`] returns.
#[derive(Debug, PartialEq, Eq, Drop)]
pub enum SearchPiece<'a> {
    /// The longest well-formed prefix of the source, borrowed from it.
    Text(&'a str),
    /// The character whose first bytes were pending and whose last bytes were read.
    Char(char),
    /// A malformed sequence, and its bytes: the first `length` of the array.
    Malformed(StreamMalformation, [u8; 3]),
    /// All of the source was read.
    InputEmpty,
}

/// What one call of [`search_block`] did.
#[derive(Debug, PartialEq, Eq, Drop)]
pub struct SearchedBlock {
    /// The number of bytes of the block that were read.
    pub read: usize,
    /// The number of malformed sequences that were stored.
    pub found: usize,
    /// Whether the whole block was read and, if it was the last, nothing is pending. If false, the array is full.
    pub finished: bool,
}

/// A search through a stream, between two blocks. In contracts it is the pair of its pending bytes, which are none or
/// an incomplete sequence, and the offset of the first byte after all parts that were found.
#[derive(Drop)]
pub struct MalformedSearch {
    decoder: Utf8Decoder,
    held: Held,
    start: u64,
}

impl Model for MalformedSearch {
    ghost use Rattle.std.specs.Prelude.{◌≡◌, ℕ, ◌+◌, ◌<◌, ◌^◌, List, length};
    ghost use Rattle.encoding_definitions.specs.Sequence.{IsPending};

    ghost Value = { List ℕ × ℕ };

    ghost view = { λ s. (s.held, s.start) };

    ghost invariant = { λ s. (s.decoder ≡ s.held) × IsPending s.held
        × (s.start + length s.held < 2 ^ 64) };
}

impl MalformedSearch {
    ghost use Rattle.encoding_runs.specs.Searches.{SearchStep};

    /// Returns a search that starts with the first byte of a stream.
    pub fn new() -> MalformedSearch
        ensures { result ≡ ([], 0) }
    {
        MalformedSearch::at(0)
    }

    /// Returns a search with nothing pending that starts with the byte at this offset of a stream.
    pub fn at(offset: u64) -> MalformedSearch
        ensures { result ≡ ([], offset) }
    {
        MalformedSearch {
            decoder: Utf8Decoder::new_inner(),
            held: Held::none(),
            start: offset,
        }
    }

    /// Returns the number of bytes of the stream that were read: those before the first pending byte, and the pending
    /// bytes.
    pub fn offset(&self) -> u64
        ensures { result ≡ self.now.1 + length self.now.0 }
    {
        self.start + self.held.len() as u64
    }

    /// Returns whether nothing is pending.
    pub fn in_neutral_state(&self) -> bool
        ensures neutral { IsTrue result ↔ (self.now.0 ≡ []) }
        ensures pending { IsPending self.now.0 }
    {
        self.held.len() == 0
    }

    /// Returns the pending bytes: the first bytes of an array, and their number.
    pub fn pending(&self) -> ([u8; 3], usize)
        ensures within { result.1 ≤ 3 }
        ensures pending { take result.1 result.0 ≡ self.now.0 }
    {
        (self.held.bytes(), self.held.len())
    }

    /// Searches without an array, as `decode_borrowed_raw` decodes: returns the next text, character or malformed
    /// sequence, and how many bytes of `src` were read. `last` says that no bytes follow `src`.
    ///
    /// Call again with the unread rest of `src` until all is read. The offset of the first byte after `src` must not
    /// exceed `u64::MAX`. Nothing is allocated.
    pub fn next_piece<'a>(&mut self, src: &'a [u8], last: bool) -> (SearchPiece<'a>, usize)
        requires offset { self.old.1 + length self.old.0 + length src.now ≤ u64.MAX }
        ensures step { SearchStep self.old.0 self.old.1 src.now last result.0 result.1 self.new.0 }
        ensures offset { self.new.1 + length self.new.0
            ≡ self.old.1 + length self.old.0 + result.1 }
    {
        let (piece, read) = self.decoder.decode_borrowed_raw(src, last);
        let end = self.start + (self.held.len() + read) as u64;
        match piece {
            Piece::InputEmpty => {
                self.held.push(src);
                (SearchPiece::InputEmpty, read)
            }
            Piece::Text(text) => {
                self.start = end;
                (SearchPiece::Text(text), read)
            }
            Piece::Char(character) => {
                self.held = Held::none();
                self.start = end;
                (SearchPiece::Char(character), read)
            }
            Piece::Malformed(length) => {
                let offset = self.start;
                self.held.push(&src[..read]);
                let bytes = self.held.bytes();
                let kind = why_malformed(bytes[0], &src[read..]);
                self.held = Held::none();
                self.start = end;
                let found = StreamMalformation {
                    offset,
                    length,
                    kind,
                };
                (SearchPiece::Malformed(found, bytes), read)
            }
        }
    }
}

/// Stores offset, length and kind of each malformed sequence of the next block of a stream, in order, and returns how
/// much it read and stored.
///
/// `last` says that no block follows. Pass a new search with the first block. An incomplete sequence at the end of a
/// block that isn't the last is pending, and the next block decides. The offset of the first byte after `src` must not
/// exceed `u64::MAX`.
///
/// If the result is not `finished`, call again with the unread bytes and an emptied array. An array of one element is
/// enough to make progress. For any blocks and arrays, all calls store exactly the malformed sequences of the whole
/// stream: `law_block_search`. The rest of `found` is unchanged. Allocates no memory. Encoding Standard, UTF-8 decoder;
/// Unicode Standard, Table 3-7.
pub fn search_block(
    search: &mut MalformedSearch,
    src: &[u8],
    found: &mut [StreamMalformation],
    last: bool,
) -> SearchedBlock
    requires offset { search.old.1 + length search.old.0 + length src.now ≤ u64.MAX }
    ensures block { (out : List StreamMalformation)
        × WritesPrefix found.old found.new result.found out
        × IsBlockSearch search.old.0 src.now (search.old.1, length found.old) last result
        result.read out search.new.0 }
    ensures offset { search.new.1 + length search.new.0
        ≡ search.old.1 + length search.old.0 + result.read }
{
    // Without a call of the search no other clause says that the pending bytes are none or an incomplete sequence.
    prove!(search.decoder.pending().1 <= 3);
    let mut block = SearchedBlock {
        read: 0,
        found: 0,
        finished: false,
    };
    loop {
        let rest = &src[block.read..];
        if block.found == found.len() {
            block.finished = rest.is_empty() && (!last || search.in_neutral_state());
            return block;
        }
        let (piece, read) = search.next_piece(rest, last);
        block.read += read;
        match piece {
            SearchPiece::InputEmpty => {
                block.finished = true;
                return block;
            }
            SearchPiece::Malformed(malformation, _) => {
                found[block.found] = malformation;
                block.found += 1;
            }
            _ => {}
        }
    }
}
