//! Laws of the definitions: each is the contract of a function that does nothing. A body that calls one, as
//! `law_utf16_parts();`, can use its clauses.
ghost use Rattle.std.specs.Prelude.{◌≡◌, ℕ, Bool, false, List, ◌++◌, encode_utf8, map, IsTrue};
ghost use Rattle.std.specs.Char.Escape.{encode_utf16};
ghost use Rattle.std.specs.List.{flat_map};
ghost use Rattle.std.specs.Str.{all_scalars};
ghost use Rattle.encoding_text.specs.Parts.{Part, Character, lossy_scalar};
ghost use Rattle.encoding_text.specs.Utf16.{AreCodeUnits};
ghost use Rattle.encoding_text.specs.Utf16Bytes.{bytes_of_scalars, utf16_bytes};
ghost use Rattle.std.specs.Char.Utf16.{utf16_lossy_chars};
ghost use Rattle.encoding_text.specs.declared.utf_16.ByteOrder.{ByteOrder};
ghost use Rattle.encoding_text.specs.declared.decoder.DecoderResult.{DecoderResult};
ghost use Rattle.encoding_runs.specs.Calls.{Call, IsChain};
ghost use Rattle.encoding_streams.specs.Utf16Parts.{AreBytes, bytes_of_utf16, IsPendingUtf16, StartsWithUtf16};
ghost use Rattle.encoding_streams.specs.Utf16Parts.{ArePartsOfUtf16, AreFinalUtf16};
ghost use Rattle.encoding_streams.specs.Utf16Decoding.{DecodeUtf16Step};
ghost use Rattle.encoding_streams.specs.Utf16Calls.{YieldUtf16Parts};
ghost use Rattle.encoding_streams.specs.Decoders.{DecoderState};
ghost use Rattle.encoding_streams.specs.DecoderCalls.{Made, AreMade, WriteTheText};
ghost use Rattle.encoding_streams.specs.ExactCalls.{IsExactCall, IsExactReplacingCall};
ghost use Rattle.encoding_streams.specs.MixedDecoderCalls.{Mixed, AreMixed, YieldTheStream};
ghost use Rattle.encoding_streams.specs.declared.encoding.CoderResult.{CoderResult};

/// In each byte order, bytes have exactly one list of parts. The bytes of the parts, joined, are these bytes. The parts
/// of the bytes of scalar values are these characters. With U+FFFD for each malformed sequence, the parts of the bytes
/// of code units are those of std's lossy decoding of these units.
///
/// The final parts are the first parts of the bytes followed by anything. The bytes after them are none or the start of
/// a character. Encoding Standard, shared UTF-16 decoder.
pub fn law_utf16_parts()
    ensures exist { (order : ByteOrder) (bs : List ℕ) → AreBytes bs
        → (parts : List Part) × ArePartsOfUtf16 order bs parts }
    ensures one { (order : ByteOrder) (bs : List ℕ) (parts others : List Part)
        → ArePartsOfUtf16 order bs parts
        → ArePartsOfUtf16 order bs others → parts ≡ others }
    ensures joined { (order : ByteOrder) (bs : List ℕ) (parts : List Part)
        → ArePartsOfUtf16 order bs parts
        → flat_map (bytes_of_utf16 order) parts ≡ bs }
    ensures characters { (order : ByteOrder) (cs : List ℕ) → IsTrue (all_scalars cs)
        → ArePartsOfUtf16 order (bytes_of_scalars order cs) (map Character cs) }
    ensures lossy { (order : ByteOrder) (us : List ℕ) (parts : List Part) → AreCodeUnits us
        → ArePartsOfUtf16 order (utf16_bytes order us) parts
        → map lossy_scalar parts ≡ utf16_lossy_chars us }
    ensures final_exist { (order : ByteOrder) (bs : List ℕ) → AreBytes bs
        → (parts : List Part) × (rest : List ℕ) × AreFinalUtf16 order bs parts rest }
    ensures final_stay { (order : ByteOrder) (bs rest more : List ℕ) (parts all : List Part)
        → StartsWithUtf16 order false bs parts rest
        → ArePartsOfUtf16 order (bs ++ more) all
        → (others : List Part) × (all ≡ parts ++ others) }
{}

/// For given pending bytes, source, space and `last` a call of the UTF-16 decoder has at most one result.
///
/// Calls over one list of bytes each start with the first unread byte and with what the previous call left pending. For
/// any cuts and any spaces they yield the first parts of the pending bytes and these bytes. If no call is marked last,
/// they are the first parts for any continuation. Once a call marked last returns `InputEmpty`, they are all parts.
/// Encoding Standard, shared UTF-16 decoder.
pub fn law_utf16_calls()
    ensures one_utf16 { (order : ByteOrder) (p src out other q after : List ℕ)
        (room read more : ℕ) (last : Bool) (answer outcome : DecoderResult)
        → DecodeUtf16Step order encode_utf16 2 p src room last answer read out q
        → DecodeUtf16Step order encode_utf16 2 p src room last outcome more other after
        → (answer ≡ outcome) × (read ≡ more) × (out ≡ other) × (q ≡ after) }
    ensures one_utf8 { (order : ByteOrder) (p src out other q after : List ℕ)
        (room read more : ℕ) (last : Bool) (answer outcome : DecoderResult)
        → DecodeUtf16Step order encode_utf8 4 p src room last answer read out q
        → DecodeUtf16Step order encode_utf8 4 p src room last outcome more other after
        → (answer ≡ outcome) × (read ≡ more) × (out ≡ other) × (q ≡ after) }
    ensures utf16 { (order : ByteOrder) (p b : List ℕ) (calls : List (Call ℕ DecoderResult ℕ))
        → IsPendingUtf16 order p
        → IsChain (DecodeUtf16Step order encode_utf16 2) p b calls
        → YieldUtf16Parts order encode_utf16 p b calls }
    ensures utf8 { (order : ByteOrder) (p b : List ℕ) (calls : List (Call ℕ DecoderResult ℕ))
        → IsPendingUtf16 order p
        → IsChain (DecodeUtf16Step order encode_utf8 4) p b calls
        → YieldUtf16Parts order encode_utf8 p b calls }
{}

/// Calls of a decoder that replaces malformed sequences, over one stream, each passed the first of the unread bytes.
/// Together they write the text of the first parts of the stream without its mark, with U+FFFD for each malformed
/// sequence, and count these, in any pieces and destinations. Once a call marked last returns `InputEmpty`, it is the
/// text of the whole. Encoding Standard, "decode".
pub fn law_decoder_calls()
    ensures utf16 { (state : DecoderState) (stream : List ℕ) (calls : List (Made ℕ))
        → AreMade encode_utf16 2 state stream calls
        → WriteTheText encode_utf16 state stream calls }
    ensures utf8 { (state : DecoderState) (stream : List ℕ) (calls : List (Made ℕ))
        → AreMade encode_utf8 4 state stream calls
        → WriteTheText encode_utf8 state stream calls }
{}

/// For a given decoder, source, space and `last` a call has at most one result: what ended it, how many bytes it read,
/// what it wrote, and the decoder after it. The same holds of a call that replaces malformed sequences, with their
/// number. Encoding Standard, "decode".
pub fn law_decoder_results()
    ensures utf16 { (old new other : DecoderState) (src out others : List ℕ) (room read more : ℕ)
        (last : Bool) (answer outcome : DecoderResult)
        → IsExactCall encode_utf16 2 old src room last answer read out new
        → IsExactCall encode_utf16 2 old src room last outcome more others other
        → (answer ≡ outcome) × (read ≡ more) × (out ≡ others) × (new ≡ other) }
    ensures utf8 { (old new other : DecoderState) (src out others : List ℕ) (room read more : ℕ)
        (last : Bool) (answer outcome : DecoderResult)
        → IsExactCall encode_utf8 4 old src room last answer read out new
        → IsExactCall encode_utf8 4 old src room last outcome more others other
        → (answer ≡ outcome) × (read ≡ more) × (out ≡ others) × (new ≡ other) }
    ensures replacing_utf16 { (old new other : DecoderState) (src out others : List ℕ)
        (room read more replaced again : ℕ) (last : Bool) (answer outcome : CoderResult)
        → IsExactReplacingCall encode_utf16 2 old src room last answer read out replaced new
        → IsExactReplacingCall encode_utf16 2 old src room last outcome more others again other
        → (answer ≡ outcome) × (read ≡ more) × (out ≡ others) × (replaced ≡ again) × (new ≡ other) }
    ensures replacing_utf8 { (old new other : DecoderState) (src out others : List ℕ)
        (room read more replaced again : ℕ) (last : Bool) (answer outcome : CoderResult)
        → IsExactReplacingCall encode_utf8 4 old src room last answer read out replaced new
        → IsExactReplacingCall encode_utf8 4 old src room last outcome more others again other
        → (answer ≡ outcome) × (read ≡ more) × (out ≡ others) × (replaced ≡ again) × (new ≡ other) }
{}

/// Calls of a decoder of any form may be mixed over one stream, each passed the first of the unread bytes: to UTF-16 or
/// to UTF-8, and malformed sequences reported or replaced. In sequence they yield the first parts of the stream without
/// its mark, in any pieces and destinations. Once a call marked last returns `InputEmpty`, they are all parts. Encoding
/// Standard, "decode".
pub fn law_mixed_decoder_calls()
    ensures { (state : DecoderState) (stream : List ℕ) (calls : List Mixed)
        → AreMixed state stream calls
        → YieldTheStream state stream calls }
{}
