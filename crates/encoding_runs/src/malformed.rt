//! Finds malformed sequences in bytes, and says why they are malformed. An incomplete sequence at the end is malformed
//! too.
ghost use Rattle.std.specs.Prelude.{◌≡◌, ◌↔◌, ◌+◌, ℕ, Bool, List, ◌∷◌, IfSome, IsUtf8, None, take, drop};
ghost use Rattle.encoding_text.specs.Decoding.{IsMalformed};
ghost use Rattle.encoding_runs.specs.MalformedSequences.{IsNextMalformed};
ghost use Rattle.encoding_runs.specs.Malformations.{IsMalformation};

use encoding_kernels::scalar::{begins_several, is_continuation};
use encoding_text::decoder::{Piece, Utf8Decoder};
use encoding_text::utf_8::utf8_valid_up_to;

/// A malformed sequence in a slice of bytes.
#[derive(Debug, PartialEq, Eq, Drop)]
pub struct MalformedSequence {
    /// The index of its first byte.
    pub place: usize,
    /// Its length in bytes, one to three.
    pub length: usize,
}

/// Why a sequence is malformed. Unicode Standard, Table 3-7.
#[derive(Debug, PartialEq, Eq, Clone, Copy)]
pub enum Malformation {
    /// A continuation byte that continues no sequence.
    UnexpectedContinuation,
    /// A byte that is in no well-formed sequence: C0, C1, or F5 to FF.
    DisallowedByte,
    /// The start of an overlong form of three or four bytes: E0 before 80 to 9F, or F0 before 80 to 8F.
    Overlong,
    /// The start of a surrogate: ED before A0 to BF.
    Surrogate,
    /// The start of a value above U+10FFFF: F4 before 90 to BF.
    TooLarge,
    /// An incomplete sequence before a byte that is no continuation byte.
    Truncated,
    /// An incomplete sequence at the end of the input.
    IncompleteAtEnd,
}

/// The most bytes that determine the length of a malformed sequence: the sequence has at most three, and one more ends
/// it.
const TELLING: usize = 4;

/// Returns the first malformed sequence of `src`. Returns `None` if and only if `src` is well-formed.
///
/// The bytes before it are well-formed. An incomplete sequence at the end of `src` is malformed. To find the next one,
/// search in the bytes from `place + length` on. Allocates no memory. Encoding Standard, UTF-8 decoder.
pub fn next_malformed(src: &[u8]) -> Option<MalformedSequence>
    ensures if_some { IfSome result (λ part. IsNextMalformed src.now part.place part.length) }
    ensures if_none { (result ≡ None) ↔ IsUtf8 src.now }
{
    let place = utf8_valid_up_to(src);
    let rest = &src[place..];
    let telling = rest.len().min(TELLING);
    let (piece, _) = Utf8Decoder::new_inner().decode_borrowed_raw(&rest[..telling], true);
    match piece {
        Piece::Malformed(length) => Some(MalformedSequence {
            place,
            length: usize::from(length),
        }),
        _ => None,
    }
}

pub(crate) fn why_malformed(first: u8, rest: &[u8]) -> Malformation
    ensures { (more : List ℕ) (last : Bool) → IsMalformed (first ∷ more) rest.now last
        → IsMalformation (first ∷ more) rest.now result }
{
    if is_continuation(first) {
        return Malformation::UnexpectedContinuation;
    }
    if !begins_several(first) {
        return Malformation::DisallowedByte;
    }
    if rest.is_empty() {
        return Malformation::IncompleteAtEnd;
    }
    if !is_continuation(rest[0]) {
        return Malformation::Truncated;
    }
    match first {
        0xED => Malformation::Surrogate,
        0xF4 => Malformation::TooLarge,
        _ => Malformation::Overlong,
    }
}

/// Returns the first malformed sequence of `src`, as [`next_malformed`] does, and why it is malformed. Returns `None`
/// if and only if `src` is well-formed.
///
/// The kind is that of the sequence and the byte after it in `src`, or of the end of `src`. Allocates no memory.
/// Unicode Standard, Table 3-7.
pub fn next_malformation(src: &[u8]) -> Option<(MalformedSequence, Malformation)>
    ensures if_some { IfSome result
        (λ found. IsNextMalformed src.now found.0.place found.0.length) }
    ensures kind { IfSome result
        (λ found. IsMalformation (take found.0.length (drop found.0.place src.now))
        (drop (found.0.place + found.0.length) src.now) found.1) }
    ensures if_none { (result ≡ None) ↔ IsUtf8 src.now }
{
    let found = next_malformed(src)?;
    let kind = why_malformed(src[found.place], &src[found.place + found.length..]);
    Some((found, kind))
}
