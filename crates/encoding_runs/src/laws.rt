//! Laws of the definitions: each is the contract of a function that does nothing. A body that calls one, as
//! `law_parts();`, can use its clauses.
ghost use Rattle.std.specs.Prelude.{◌≡◌, ◌↔◌, ℕ, ◌+◌, ◌<◌, ◌≤◌, Bool, true, List, [], ◌∷◌, ◌++◌, Any};
ghost use Rattle.std.specs.Prelude.{encode_utf8, length, map, encode_utf8_all, IsTrue, IsUtf8, ◌*◌, false, None};
ghost use Rattle.std.specs.Char.{IsScalar};
ghost use Rattle.std.specs.List.{flat_map, AllZip, last_or};
ghost use Rattle.std.specs.Str.Lossy.{utf8_lossy};
ghost use Rattle.encoding_definitions.specs.Sequence.{IsSequence, IsPending};
ghost use Rattle.encoding_definitions.specs.Parts.{Part, IllFormed, IsFirstPart, StartsWith, ArePartsOf};
ghost use Rattle.encoding_definitions.specs.Parts.{AreFinal, bytes_of, malformed_count, lossy_utf8};
ghost use Rattle.encoding_text.specs.OneResult.{HasOneResult, HasOnePiece};
ghost use Rattle.std.specs.Char.Escape.{encode_utf16};
ghost use Rattle.std.specs.Char.Utf16.{utf16_lossy_chars, has_unpaired_surrogate};
ghost use Rattle.std.specs.Str.{all_scalars, chars};
ghost use Rattle.encoding_definitions.specs.Utf16.{AreCodeUnits, Part16, Character16, ArePartsOf16};
ghost use Rattle.encoding_definitions.specs.Utf16.{IsUtf8OfLongestPrefix, IsUtf8OfUnits};
ghost use Rattle.encoding_definitions.specs.Utf16.{scalar_of_part16, utf8_of_part16};
ghost use Rattle.encoding_text.specs.Encoding.{IsPendingSurrogate, EncodeStep};
ghost use Rattle.encoding_definitions.specs.Bidi.{IsRightToLeft, IsBidiBytes, IsBidiUnits};
ghost use Rattle.encoding_definitions.specs.Surrogates.{IsValidUtf16, AreRepairedUnits, ReplacesUnpaired};
ghost use Rattle.encoding_runs.specs.Calls.{WritesInTurn, Call, IsChain, read_in_all, output_of};
ghost use Rattle.encoding_runs.specs.Calls.{pending_after, YieldsFirstParts, YieldTheParts, EncodesFirstParts};
ghost use Rattle.encoding_text.specs.declared.utf_8.encoder.EncoderResult.{EncoderResult};
ghost use Rattle.encoding_text.specs.declared.utf_8.encoder.EncoderResult.TheVariants as encoded;
ghost use Rattle.encoding_runs.specs.MixedCalls.{Form, CallResult, MixedDecodeStep, AreYielded, IsInputEmpty};
ghost use Rattle.encoding_runs.specs.MixedCalls.{AreAskedTheSame, ReturnTheSame, TextFits, HasQueriedLength, ReadsText};
ghost use Rattle.encoding_runs.specs.declared.run.turns.Turn.{Turn};
ghost use Rattle.encoding_runs.specs.Runs.{AreOfTurns, EachMakesProgress, Completes};
ghost use Rattle.encoding_runs.specs.declared.repair.blocks.RepairedBlock.{RepairedBlock};
ghost use Rattle.encoding_runs.specs.Blocks.{IsBlockRepair, RepairTheParts, replaced_in_all};
ghost use Rattle.encoding_runs.specs.Repairs.{IsLossyDecodeWith};
ghost use Rattle.encoding_runs.specs.MalformedSequences.{IsNextMalformed, AreFoundInTurn, malformed_indices};
ghost use Rattle.encoding_runs.specs.Malformations.{IsMalformation};
ghost use Rattle.encoding_runs.specs.declared.search.StreamMalformation.{StreamMalformation};
ghost use Rattle.encoding_runs.specs.declared.search.SearchedBlock.{SearchedBlock};
ghost use Rattle.encoding_runs.specs.Searches.{IsBlockSearch, StartInTurn, FindTheMalformed};
ghost use Rattle.encoding_runs.specs.Searches.{IsFinished, AreAllMalformed};
ghost use Rattle.encoding_runs.specs.declared.malformed.Malformation.{Malformation};

/// The well-formed sequences are exactly the UTF-8 of the scalar values, one for each. None is a proper prefix of
/// another. Unicode Standard, Table 3-7.
pub fn law_sequences()
    ensures spelled { (bs : List ℕ) → IsSequence bs → (c : ℕ) × IsScalar c × (encode_utf8 c ≡ bs) }
    ensures each { (c : ℕ) → IsScalar c → IsSequence (encode_utf8 c) }
    ensures one { (c d : ℕ) → IsScalar c → IsScalar d → encode_utf8 c ≡ encode_utf8 d → c ≡ d }
    ensures none_begins_another { (bs rest : List ℕ) → IsSequence bs
        → IsSequence (bs ++ rest) → rest ≡ [] }
{}

/// Bytes have exactly one list of parts. The bytes of the parts, joined, are these bytes. The bytes are well-formed if
/// and only if no part is malformed.
///
/// The final parts are the first parts of the bytes followed by anything, so their text is a prefix of the repaired
/// text of any continuation. First parts that stay so for any continuation, and leave nothing or an incomplete
/// sequence, are the final parts. With U+FFFD for each malformed sequence the parts are the text that
/// `String::from_utf8_lossy` makes, and any first parts are a well-formed text. Encoding Standard, UTF-8 decoder.
pub fn law_parts()
    ensures exist { (bs : List ℕ) → (parts : List Part) × ArePartsOf bs parts }
    ensures one { (bs : List ℕ) (parts others : List Part) → ArePartsOf bs parts
        → ArePartsOf bs others → parts ≡ others }
    ensures joined { (bs : List ℕ) (parts : List Part) → ArePartsOf bs parts
        → flat_map bytes_of parts ≡ bs }
    ensures well_formed { (bs : List ℕ) (parts : List Part) → ArePartsOf bs parts
        → IsUtf8 bs ↔ (malformed_count parts ≡ 0) }
    ensures final_exist { (bs : List ℕ)
        → (parts : List Part) × (rest : List ℕ) × AreFinal bs parts rest }
    ensures final_stay { (bs rest more : List ℕ) (parts all : List Part) → AreFinal bs parts rest
        → ArePartsOf (bs ++ more) all → (others : List Part) × (all ≡ parts ++ others) }
    ensures final_are { (bs rest : List ℕ) (parts : List Part)
        → StartsWith bs parts rest → IsPending rest
        → ((more : List ℕ) → StartsWith (bs ++ more) parts (rest ++ more))
        → AreFinal bs parts rest }
    ensures final_text { (bs rest more : List ℕ) (parts all : List Part) → AreFinal bs parts rest
        → ArePartsOf (bs ++ more) all
        → (text : List ℕ) × (lossy_utf8 all ≡ lossy_utf8 parts ++ text) }
    ensures lossy { (bs : List ℕ) (parts : List Part) → ArePartsOf bs parts
        → lossy_utf8 parts ≡ utf8_lossy bs }
    ensures repaired { (bs rest : List ℕ) (parts : List Part) → StartsWith bs parts rest
        → IsUtf8 (lossy_utf8 parts) }
{}

/// Bytes may be cut where the final parts of the first piece leave no rest: the parts of the whole are those of the
/// first piece, then those of the second. So the pieces can be repaired separately: their repaired texts join, and
/// their counts of malformed sequences add up. Bytes that end with an ASCII byte leave no rest. So the text that
/// `String::from_utf8_lossy` makes of a line and what follows it is that of the line, then that of what follows.
pub fn law_cuts()
    ensures parts { (bs more : List ℕ) (parts others all : List Part) → AreFinal bs parts []
        → ArePartsOf more others → ArePartsOf (bs ++ more) all → all ≡ parts ++ others }
    ensures texts { (bs more : List ℕ) (parts others all : List Part) → AreFinal bs parts []
        → ArePartsOf more others → ArePartsOf (bs ++ more) all
        → lossy_utf8 all ≡ lossy_utf8 parts ++ lossy_utf8 others }
    ensures counts { (bs more : List ℕ) (parts others all : List Part) → AreFinal bs parts []
        → ArePartsOf more others → ArePartsOf (bs ++ more) all
        → malformed_count all ≡ malformed_count parts + malformed_count others }
    ensures after_ascii { (bs rest : List ℕ) (b : ℕ) (parts : List Part) → b < 128
        → AreFinal (bs ++ b ∷ []) parts rest → rest ≡ [] }
    ensures lines { (line more : List ℕ) (b : ℕ) → b < 128
        → utf8_lossy ((line ++ b ∷ []) ++ more) ≡ utf8_lossy (line ++ b ∷ []) ++ utf8_lossy more }
{}

/// Repeated calls of `next_malformed`, each on the bytes after the sequence found before, find exactly the malformed
/// sequences among the parts of the bytes: each with its index and length, in order. Each has one to three bytes.
/// Encoding Standard, UTF-8 decoder.
pub fn law_next_malformed()
    ensures size { (bs : List ℕ) (place size : ℕ) → IsNextMalformed bs place size
        → (0 < size) × (size ≤ 3) }
    ensures found { (bs : List ℕ) (parts : List Part) (found : List (ℕ × ℕ)) → ArePartsOf bs parts
        → AreFoundInTurn 0 bs found ↔ (found ≡ malformed_indices 0 parts) }
    ensures malformed_count { (bs : List ℕ) (parts : List Part) → ArePartsOf bs parts
        → length (malformed_indices 0 parts) ≡ malformed_count parts }
{}

/// Each malformed sequence, with the bytes that follow it, has exactly one kind. Unicode Standard, Table 3-7.
pub fn law_malformations()
    ensures one { (bs x rest : List ℕ) → IsFirstPart bs (IllFormed x) rest
        → (kind : Malformation) × IsMalformation x rest kind × ((other : Malformation)
        → IsMalformation x rest other → other ≡ kind) }
{}

/// Calls of `repair_block` over one stream write the repaired text of the first parts of the stream, and count the
/// malformed sequences among them, for any cuts and any spaces. Each call starts with the first unread byte and with
/// what the previous call left pending. Each call says that the pending bytes before it are none or an incomplete
/// sequence, so this is a premise only if there are no calls. Once a call marked last is finished, the output is the
/// repaired text of the whole stream, and the count is that of its malformed sequences. Encoding Standard, UTF-8 decode
/// without BOM.
pub fn law_block_repair()
    ensures prefix { (p b : List ℕ) (calls : List (Call ℕ RepairedBlock ℕ))
        → (calls ≡ [] → IsPending p)
        → IsChain IsBlockRepair p b calls → RepairTheParts p b calls }
    ensures whole { (b : List ℕ) (calls : List (Call ℕ RepairedBlock ℕ))
        → IsChain IsBlockRepair [] b calls
        → Any (λ call. (call.last ≡ true) × (call.result.finished ≡ true)) calls
        → IsLossyDecodeWith b (output_of calls) (replaced_in_all calls) }
{}

/// Calls of `search_block` over one stream store the malformed sequences among the first parts of the stream, each with
/// its offset, length and kind, for any cuts and any arrays. Each call starts with the first unread byte, and with what
/// the previous call left pending and its offset. Once a call marked last is finished, these are all malformed
/// sequences of the stream, in order. Bytes have exactly one list of them. Their offsets and lengths are what repeated
/// calls of `next_malformed` find. Encoding Standard, UTF-8 decoder; Unicode Standard, Table 3-7.
pub fn law_block_search()
    ensures prefix { (p : List ℕ) (start : ℕ) (b : List ℕ)
        (calls : List (Call (ℕ × ℕ) SearchedBlock StreamMalformation))
        → (calls ≡ [] → IsPending p) → StartInTurn p start calls
        → IsChain IsBlockSearch p b calls → FindTheMalformed p start b calls }
    ensures whole { (b : List ℕ) (calls : List (Call (ℕ × ℕ) SearchedBlock StreamMalformation))
        → StartInTurn [] 0 calls → IsChain IsBlockSearch [] b calls → IsFinished calls
        → AreAllMalformed b (output_of calls) }
    ensures one { (bs : List ℕ) (found others : List StreamMalformation) → AreAllMalformed bs found
        → AreAllMalformed bs others → found ≡ others }
    ensures indices { (bs : List ℕ) (found : List StreamMalformation) → AreAllMalformed bs found
        → (parts : List Part) × ArePartsOf bs parts
        × (map (λ one. (one.offset, one.length)) found ≡ malformed_indices 0 parts) }
{}

/// For given pending bytes, source, `last` and, with a destination, space, each call of a decoder has exactly one
/// result. A call of any of the three forms yields the first parts of the pending bytes and the source. Unless it is
/// marked last, they are the first parts for any continuation of the source.
///
/// Calls of the three forms may be mixed over one list of bytes, each starting with the first unread byte. In sequence
/// they yield the first parts of the pending bytes and these bytes. If no call is marked last, they are the first parts
/// for any continuation. Once a call marked last returns `InputEmpty`, they are all parts. The results depend only on
/// the pending bytes, so a neutral decoder returns the same as a new one from any list of calls.
///
/// With nothing pending, one call reads all of a well-formed source whose text fits into its space, marked last or not.
/// It returns `InputEmpty`, its output is the text, and nothing is pending after it. Without a destination it returns
/// the text, if the source isn't empty. The text fits if the space has the queried length. Encoding Standard, UTF-8
/// decoder.
pub fn law_mixed_calls()
    ensures one_utf16 { (p src : List ℕ) (room : ℕ) (last : Bool) → IsPending p
        → HasOneResult encode_utf16 2 p src room last }
    ensures one_utf8 { (p src : List ℕ) (room : ℕ) (last : Bool) → IsPending p
        → HasOneResult encode_utf8 4 p src room last }
    ensures one_piece { (p src : List ℕ) (last : Bool) → IsPending p → HasOnePiece p src last }
    ensures one_call { (p src : List ℕ) (form : Form) (last : Bool) (answer : CallResult)
        (read : ℕ) (out q : List ℕ)
        → MixedDecodeStep p src form last answer read out q
        → YieldsFirstParts AreYielded IsInputEmpty p src form last answer read out q }
    ensures mixed { (p b : List ℕ) (calls : List (Call Form CallResult ℕ)) → IsPending p
        → IsChain MixedDecodeStep p b calls
        → YieldTheParts AreYielded IsInputEmpty p b calls }
    ensures same { (p b : List ℕ) (calls others : List (Call Form CallResult ℕ))
        → IsChain MixedDecodeStep p b calls
        → IsChain MixedDecodeStep p b others → AllZip AreAskedTheSame calls others
        → AllZip ReturnTheSame calls others }
    ensures text { (src : List ℕ) (form : Form) (last : Bool) (answer : CallResult)
        (read : ℕ) (out q : List ℕ)
        → IsUtf8 src → TextFits form src → MixedDecodeStep [] src form last answer read out q
        → ReadsText form src answer read out q }
    ensures queried { (src : List ℕ) (form : Form) → IsUtf8 src → HasQueriedLength form (length src)
        → TextFits form src }
{}

/// UTF-16 code units have exactly one list of parts. With U+FFFD for each unpaired surrogate, they are those of std's
/// lossy decoding, and their UTF-8 is a well-formed text: that of these scalar values. The parts of the UTF-16 of
/// scalar values are these scalar values, so text converted to UTF-16 and back to UTF-8 is the same, byte for byte.
/// Unicode Standard, section 3.9, UTF-16.
pub fn law_utf16_round_trip()
    ensures exist { (us : List ℕ) → AreCodeUnits us
        → (parts : List Part16) × ArePartsOf16 us parts }
    ensures one { (us : List ℕ) (parts others : List Part16) → ArePartsOf16 us parts
        → ArePartsOf16 us others → parts ≡ others }
    ensures lossy { (us : List ℕ) (parts : List Part16) → ArePartsOf16 us parts
        → map scalar_of_part16 parts ≡ utf16_lossy_chars us }
    ensures characters { (cs : List ℕ) → IsTrue (all_scalars cs)
        → ArePartsOf16 (flat_map encode_utf16 cs) (map Character16 cs) }
    ensures scalars { (cs : List ℕ) (parts : List Part16) → IsTrue (all_scalars cs)
        → ArePartsOf16 (flat_map encode_utf16 cs) parts → map scalar_of_part16 parts ≡ cs }
    ensures text { (bs : List ℕ) (parts : List Part16) → IsUtf8 bs
        → ArePartsOf16 (flat_map encode_utf16 (chars bs)) parts
        → flat_map utf8_of_part16 parts ≡ bs }
    ensures utf8 { (us text : List ℕ) → IsUtf8OfUnits us text
        → IsUtf8 text × (text ≡ encode_utf8_all (utf16_lossy_chars us)) }
{}

/// Repeated conversion of the longest fitting prefix of the remaining code units, until all are read, writes the UTF-8
/// of all their scalar values, for any sequence of spaces. With a code unit unread and four bytes of space, at least
/// one is read. Encoding Standard, `encodeInto`.
pub fn law_partial_repeats()
    ensures joined { (us : List ℕ) (parts : List Part16) (rooms out : List ℕ)
        → ArePartsOf16 us parts
        → WritesInTurn us rooms out → out ≡ encode_utf8_all (map scalar_of_part16 parts) }
    ensures progress { (us out : List ℕ) (room read : ℕ) → 0 < length us → 4 ≤ room
        → IsUtf8OfLongestPrefix us room read out → 0 < read }
{}

/// Calls of an encoder over one source write the UTF-8 of the first parts of the pending surrogate and the source, for
/// any cuts and any spaces. Each call starts with the first unread code unit and with what the previous call left
/// pending. Unicode Standard, section 3.9, UTF-16.
///
/// The calls may be those of a list of turns, into a destination of at least the length that
/// `max_buffer_length_from_utf16_without_replacement` returns. Let there be at least two turns more than twice the
/// number of code units of the source. Let each turn take at least one code unit, have at least four bytes of space and
/// have `last` set. Then the last call returns `InputEmpty`, and the UTF-8 of all parts is written.
pub fn law_encoder_cuts()
    ensures first_parts { (surrogate src : List ℕ) (calls : List (Call ℕ EncoderResult ℕ))
        → IsPendingSurrogate surrogate → AreCodeUnits src
        → IsChain EncodeStep surrogate src calls
        → EncodesFirstParts surrogate src calls (read_in_all calls) (output_of calls)
        (pending_after surrogate calls) }
    ensures completes { (surrogate src : List ℕ) (turns : List Turn) (room : ℕ)
        (calls : List (Call ℕ EncoderResult ℕ))
        → IsPendingSurrogate surrogate → IsChain EncodeStep surrogate src calls
        → AreOfTurns (length src) room turns calls
        → Completes encoded.InputEmpty (λ n pending. 3 * (n + pending)) 4 surrogate src turns room
        (last_or None (map (λ call. call.result) calls)) }
    ensures whole { (surrogate src : List ℕ) (turns : List Turn) (room : ℕ)
        (calls : List (Call ℕ EncoderResult ℕ))
        → IsPendingSurrogate surrogate → AreCodeUnits src → IsChain EncodeStep surrogate src calls
        → AreOfTurns (length src) room turns calls
        → 2 * length src + 2 ≤ length turns → EachMakesProgress 4 turns
        → 3 * (length src + length surrogate) ≤ room
        → IsUtf8OfUnits (surrogate ++ src) (output_of calls) }
{}

/// Scalar values, their UTF-8 and their UTF-16 agree on whether they contain a right-to-left character.
pub fn law_bidi_agrees()
    ensures utf8 { (cs : List ℕ) → IsTrue (all_scalars cs)
        → Any IsRightToLeft cs ↔ IsBidiBytes (encode_utf8_all cs) }
    ensures utf16 { (cs : List ℕ) → IsTrue (all_scalars cs)
        → Any IsRightToLeft cs ↔ IsBidiUnits (flat_map encode_utf16 cs) }
{}

/// UTF-16 code units have exactly one repaired list. It has the same length, U+FFFD at the index of each unpaired
/// surrogate, and the same code unit at every other index. It has no unpaired surrogate, and repairing it again changes
/// nothing. Its parts have the scalar values of the old parts, those of std's lossy decoding. Valid code units are
/// unchanged: they are the UTF-16 of scalar values, and std finds no unpaired surrogate in them. Unicode Standard,
/// section 3.9, UTF-16.
pub fn law_surrogate_repair()
    ensures spelled { (us : List ℕ) → IsValidUtf16 us
        ↔ ((cs : List ℕ) × IsTrue (all_scalars cs) × (us ≡ flat_map encode_utf16 cs)) }
    ensures paired { (us : List ℕ) → AreCodeUnits us
        → IsValidUtf16 us ↔ (has_unpaired_surrogate us ≡ false) }
    ensures exist { (us : List ℕ) → AreCodeUnits us → (new : List ℕ) × AreRepairedUnits us new }
    ensures one { (old new other : List ℕ) → AreRepairedUnits old new
        → AreRepairedUnits old other → new ≡ other }
    ensures places { (old new : List ℕ) → AreRepairedUnits old new → ReplacesUnpaired old new }
    ensures valid { (old new : List ℕ) → AreRepairedUnits old new → IsValidUtf16 new }
    ensures twice { (old new again : List ℕ) → AreRepairedUnits old new
        → AreRepairedUnits new again → again ≡ new }
    ensures counts { (old new : List ℕ) (parts others : List Part16) → AreRepairedUnits old new
        → ArePartsOf16 old parts
        → ArePartsOf16 new others → map scalar_of_part16 others ≡ map scalar_of_part16 parts }
    ensures lossy { (old new : List ℕ) (parts : List Part16) → AreRepairedUnits old new
        → ArePartsOf16 new parts
        → map scalar_of_part16 parts ≡ utf16_lossy_chars old }
    ensures stays { (old new : List ℕ) → IsValidUtf16 old → AreRepairedUnits old new → new ≡ old }
{}
