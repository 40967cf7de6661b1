//! What holds of whole streams in UTF-16, and of streams that may start with a byte order mark: laws, each the contract of
//! a function that does nothing.
ghost use Rattle.std.specs.Prelude.{◌≡◌, ℕ, Bool, true, List, [], ◌++◌, Any, encode_utf8, map, IsTrue};
ghost use Rattle.std.specs.Char.Escape.{encode_utf16};
ghost use Rattle.std.specs.List.{flat_map};
ghost use Rattle.std.specs.Str.{all_scalars};
ghost use Rattle.encoding_text.specs.Parts.{Part, Character, lossy_scalar};
ghost use Rattle.encoding_text.specs.Utf16.{AreCodeUnits};
ghost use Rattle.encoding_text.specs.Utf16Bytes.{bytes_of_scalars, utf16_bytes};
ghost use Rattle.encoding_text.specs.Decoding.{AreDecoded};
ghost use Rattle.encoding_text.specs.declared.utf_16.ByteOrder.{ByteOrder};
ghost use Rattle.encoding_text.specs.declared.decoder.DecoderResult.{DecoderResult};
ghost use Rattle.encoding_runs.specs.Calls.{Call, IsChain, AreYieldedInSequence};
ghost use Rattle.encoding_streams.specs.Utf16Parts.{AreBytes, bytes_of_utf16, IsPendingUtf16, ArePartsOfUtf16, AreFinalUtf16};
ghost use Rattle.encoding_streams.specs.Utf16Decoding.{DecodeUtf16Step};
ghost use Rattle.encoding_streams.specs.Decoders.{DecoderState, YieldParts, YieldText, left};
ghost use Rattle.encoding_streams.specs.DecoderCalls.{Made, AreMade, replaced_in_all};
ghost use Rattle.encoding_streams.specs.ExactCalls.{IsExactCall, IsExactReplacingCall};
ghost use Rattle.encoding_streams.specs.MixedDecoderCalls.{Mixed, AreMixed, AreOfMixed, EndsInput};
ghost use Rattle.encoding_streams.specs.declared.encoding.Encoding.{Encoding};
ghost use Rattle.encoding_streams.specs.declared.encoding.CoderResult.{CoderResult};

use encoding_streams::laws::{
    law_decoder_calls, law_decoder_results, law_mixed_decoder_calls, law_utf16_calls,
    law_utf16_parts,
};

/// Bytes have one text in each byte order. The text of code units is the same in both. The final parts of the first bytes
/// of a stream are the first parts of the whole.
pub fn law_text_of_utf16()
    ensures parts { (order : ByteOrder) (bs : List ℕ) → AreBytes bs
        → (parts : List Part) × ArePartsOfUtf16 order bs parts
        × (flat_map (bytes_of_utf16 order) parts ≡ bs)
        × ((others : List Part) → ArePartsOfUtf16 order bs others → parts ≡ others) }
    ensures characters { (order : ByteOrder) (cs : List ℕ) (parts : List Part)
        → IsTrue (all_scalars cs) → ArePartsOfUtf16 order (bytes_of_scalars order cs) parts
        → parts ≡ map Character cs }
    ensures orders { (order other : ByteOrder) (us : List ℕ) (parts others : List Part)
        → AreCodeUnits us → ArePartsOfUtf16 order (utf16_bytes order us) parts
        → ArePartsOfUtf16 other (utf16_bytes other us) others
        → map lossy_scalar parts ≡ map lossy_scalar others }
    ensures prefix { (order : ByteOrder) (bs more : List ℕ) (all : List Part) → AreBytes bs
        → ArePartsOfUtf16 order (bs ++ more) all
        → (parts : List Part) × (rest : List ℕ) × AreFinalUtf16 order bs parts rest
        × (others : List Part) × (all ≡ parts ++ others) }
{
    law_utf16_parts();
}

/// Calls of a new decoder of UTF-16 yield all parts of a stream, once one that is marked last returns `InputEmpty`. What
/// a call writes, and how much it reads, is determined.
pub fn law_whole_utf16()
    ensures utf16 { (order : ByteOrder) (b : List ℕ) (calls : List (Call ℕ DecoderResult ℕ))
        → IsPendingUtf16 order [] → IsChain (DecodeUtf16Step order encode_utf16 2) [] b calls
        → Any (λ call. (call.last ≡ true) × (call.result ≡ DecoderResult.InputEmpty)) calls
        → (parts : List Part) × ArePartsOfUtf16 order b parts
        × AreYieldedInSequence (λ room. AreDecoded encode_utf16) calls parts }
    ensures utf8 { (order : ByteOrder) (b : List ℕ) (calls : List (Call ℕ DecoderResult ℕ))
        → IsPendingUtf16 order [] → IsChain (DecodeUtf16Step order encode_utf8 4) [] b calls
        → Any (λ call. (call.last ≡ true) × (call.result ≡ DecoderResult.InputEmpty)) calls
        → (parts : List Part) × ArePartsOfUtf16 order b parts
        × AreYieldedInSequence (λ room. AreDecoded encode_utf8) calls parts }
    ensures same_utf16 { (order : ByteOrder) (p src out other q after : List ℕ)
        (room read more : ℕ) (last : Bool) (answer outcome : DecoderResult)
        → DecodeUtf16Step order encode_utf16 2 p src room last answer read out q
        → DecodeUtf16Step order encode_utf16 2 p src room last outcome more other after
        → (read ≡ more) × (out ≡ other) }
    ensures same_utf8 { (order : ByteOrder) (p src out other q after : List ℕ)
        (room read more : ℕ) (last : Bool) (answer outcome : DecoderResult)
        → DecodeUtf16Step order encode_utf8 4 p src room last answer read out q
        → DecodeUtf16Step order encode_utf8 4 p src room last outcome more other after
        → (read ≡ more) × (out ≡ other) }
{
    law_utf16_calls();
}

/// Calls that replace write the text of all of a stream, and calls of any form yield all of its parts, once one that is
/// marked last returns `InputEmpty`.
pub fn law_whole_stream()
    ensures utf16 { (state : DecoderState) (stream : List ℕ) (calls : List (Made ℕ))
        → AreMade encode_utf16 2 state stream calls
        → Any (λ call. (call.last ≡ true) × (call.result ≡ CoderResult.InputEmpty)) calls
        → (e : Encoding) × YieldText encode_utf16 (left state stream) (e, [])
        (flat_map (λ call. call.out) calls) (replaced_in_all calls) }
    ensures utf8 { (state : DecoderState) (stream : List ℕ) (calls : List (Made ℕ))
        → AreMade encode_utf8 4 state stream calls
        → Any (λ call. (call.last ≡ true) × (call.result ≡ CoderResult.InputEmpty)) calls
        → (e : Encoding) × YieldText encode_utf8 (left state stream) (e, [])
        (flat_map (λ call. call.out) calls) (replaced_in_all calls) }
    ensures mixed { (state : DecoderState) (stream : List ℕ) (calls : List Mixed)
        → AreMixed state stream calls
        → Any (λ call. (call.last ≡ true) × EndsInput call.answer) calls
        → (e : Encoding) × (parts : List Part) × YieldParts (left state stream) (e, []) parts
        × AreOfMixed calls parts }
{
    law_decoder_calls();
    law_mixed_decoder_calls();
}

/// Two decoders in the same state, given the same bytes, the same space and the same mark, write the same and are in the
/// same state after it.
pub fn law_same_calls()
    ensures utf16 { (old new other : DecoderState) (src out others : List ℕ) (room read more : ℕ)
        (last : Bool) (answer outcome : DecoderResult)
        → IsExactCall encode_utf16 2 old src room last answer read out new
        → IsExactCall encode_utf16 2 old src room last outcome more others other
        → (out ≡ others) × (new ≡ other) }
    ensures utf8 { (old new other : DecoderState) (src out others : List ℕ) (room read more : ℕ)
        (last : Bool) (answer outcome : DecoderResult)
        → IsExactCall encode_utf8 4 old src room last answer read out new
        → IsExactCall encode_utf8 4 old src room last outcome more others other
        → (out ≡ others) × (new ≡ other) }
    ensures replacing_utf16 { (old new other : DecoderState) (src out others : List ℕ)
        (room read more replaced again : ℕ) (last : Bool) (answer outcome : CoderResult)
        → IsExactReplacingCall encode_utf16 2 old src room last answer read out replaced new
        → IsExactReplacingCall encode_utf16 2 old src room last outcome more others again other
        → (out ≡ others) × (new ≡ other) }
    ensures replacing_utf8 { (old new other : DecoderState) (src out others : List ℕ)
        (room read more replaced again : ℕ) (last : Bool) (answer outcome : CoderResult)
        → IsExactReplacingCall encode_utf8 4 old src room last answer read out replaced new
        → IsExactReplacingCall encode_utf8 4 old src room last outcome more others again other
        → (out ≡ others) × (new ≡ other) }
{
    law_decoder_results();
}
