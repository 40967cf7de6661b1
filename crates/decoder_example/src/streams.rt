//! What holds of calls in sequence, over whole streams: laws, each the contract of a function that does nothing.
ghost use Rattle.std.specs.Prelude.{◌≡◌, ℕ, ◌≤◌, Bool, true, false, List, [], Any, IsTrue, encode_utf8, encode_utf8_all, length};
ghost use Rattle.std.specs.Char.Escape.{encode_utf16};
ghost use Rattle.std.specs.List.{AllZip, flat_map};
ghost use Rattle.std.specs.Str.{all_scalars};
ghost use Rattle.encoding_text.specs.Sequence.{IsPending};
ghost use Rattle.encoding_text.specs.Decoding.{BorrowedDecodeStep, DecodeStep};
ghost use Rattle.encoding_text.specs.declared.decoder.DecoderResult.{DecoderResult};
ghost use Rattle.encoding_text.specs.declared.decoder.Piece.{Piece};
ghost use Rattle.encoding_runs.specs.Calls.{Call, IsChain, read_in_all, pending_after, some_last};
ghost use Rattle.encoding_runs.specs.MixedCalls.{Form, CallResult, MixedDecodeStep, IsInputEmpty, AreAskedTheSame, ReturnTheSame};
ghost use Rattle.decoder_example.specs.Streams.{TakesWhole, YieldFinalParts};

use encoding_runs::laws::{law_mixed_calls, law_parts};

/// Calls that read all of a stream so far, of which more may follow, yield exactly its final parts: no more are known
/// yet. Their text is never taken back, in UTF-8 or in UTF-16: it is a prefix of the text of the whole, for any
/// following bytes.
pub fn law_yielded_stays()
    ensures { (pending stream : List ℕ) (calls : List (Call Form CallResult ℕ)) → IsPending pending
        → IsChain MixedDecodeStep pending stream calls
        → some_last calls ≡ false → length stream ≤ read_in_all calls
        → YieldFinalParts pending stream calls }
{
    law_mixed_calls();
    law_parts();
}

/// A decoder at the end of a stream can be used for the next one: the calls that a new decoder may get have the same
/// results.
pub fn law_next_stream()
    ensures { (stream next : List ℕ) (calls others news : List (Call Form CallResult ℕ))
        → IsChain MixedDecodeStep [] stream calls
        → Any (λ call. (call.last ≡ true) × IsInputEmpty call.result) calls
        → IsChain MixedDecodeStep (pending_after [] calls) next others
        → IsChain MixedDecodeStep [] next news → AllZip AreAskedTheSame others news
        → AllZip ReturnTheSame others news }
{
    law_mixed_calls();
    law_parts();
}

/// The start of a character stays pending as long as more may follow: a call without a destination, of a decoder with
/// nothing pending, reads all of it and reports nothing.
pub fn law_incomplete_stays()
    ensures { (start pending : List ℕ) (returned : Piece) (read : ℕ) → IsPending start
        → BorrowedDecodeStep [] start false returned read pending
        → (returned ≡ Piece.InputEmpty) × (read ≡ length start) × (pending ≡ start) }
{
    law_mixed_calls();
}

/// One call of a decoder with nothing pending reads a whole text into a destination of just its length, which is less
/// than queried. It reports nothing and leaves nothing pending.
pub fn law_whole_text()
    ensures utf16 { (scalars out pending : List ℕ) (room read : ℕ) (last : Bool)
        (result : DecoderResult) → IsTrue (all_scalars scalars)
        → length (flat_map encode_utf16 scalars) ≤ room
        → DecodeStep encode_utf16 2 [] (encode_utf8_all scalars) room last result read out pending
        → TakesWhole encode_utf16 scalars result read out pending }
    ensures utf8 { (scalars out pending : List ℕ) (room read : ℕ) (last : Bool)
        (result : DecoderResult) → IsTrue (all_scalars scalars)
        → length (encode_utf8_all scalars) ≤ room
        → DecodeStep encode_utf8 4 [] (encode_utf8_all scalars) room last result read out pending
        → TakesWhole encode_utf8 scalars result read out pending }
{
    law_mixed_calls();
}
