//! Runs of a decoder: one call for each turn. The rest of each destination is unchanged.
ghost use Rattle.std.specs.Prelude.{ℕ, ◌+◌, ◌-◌, ◌<◌, ◌≤◌, List, length, take, encode_utf8};
ghost use Rattle.std.specs.Char.{IsScalar};
ghost use Rattle.std.specs.Char.Escape.{encode_utf16};
ghost use Rattle.encoding_definitions.specs.Prefixes.{WritesPrefix};
ghost use Rattle.encoding_text.specs.Decoding.{DecodeStepInto, DecodeStep, max_utf16_length, max_utf8_length};
ghost use Rattle.encoding_runs.specs.Runs.{room_of, is_marked_last, Completes, Delivers};
ghost use Rattle.encoding_runs.specs.Steps.{report_of};

use super::turns::Turn;
use encoding_text::code_unit::CodeUnit;
use encoding_text::decoder::{DecoderResult, Utf8Decoder};

/// A malformed sequence that a run reports.
#[repr(C)]
#[derive(Debug, PartialEq, Eq, Drop)]
pub struct Report {
    /// The number of code units, or bytes of UTF-8, that the run wrote before it.
    pub place: usize,
    /// Its length in bytes, one to three.
    pub length: u8,
}

/// What a run did.
#[derive(Debug, PartialEq, Eq, Drop)]
pub struct Outcome {
    /// The number of bytes of the source that were read.
    pub read: usize,
    /// The number of code units, or bytes of UTF-8, that were written.
    pub written: usize,
    /// The number of malformed sequences that were reported.
    pub reports: usize,
    /// The result of the last call, `None` if there are no turns.
    pub result: Option<DecoderResult>,
}

/// Code units that a decoder writes.
trait Decoded: CodeUnit {
    fn decode(
        decoder: &mut Utf8Decoder,
        src: &[u8],
        dst: &mut [Self],
        last: bool,
    ) -> (DecoderResult, usize, usize)
        ensures call { DecodeStepInto Self.encode Self.MAX_UNITS decoder.old src.now dst.old dst.new
            last result.0 result.1 result.2 decoder.new };
}

impl Decoded for u16 {
    #[inline]
    fn decode(
        decoder: &mut Utf8Decoder,
        src: &[u8],
        dst: &mut [u16],
        last: bool,
    ) -> (DecoderResult, usize, usize) {
        decoder.decode_to_utf16_raw(src, dst, last)
    }
}

impl Decoded for u8 {
    #[inline]
    fn decode(
        decoder: &mut Utf8Decoder,
        src: &[u8],
        dst: &mut [u8],
        last: bool,
    ) -> (DecoderResult, usize, usize) {
        decoder.decode_to_utf8_raw(src, dst, last)
    }
}

fn make_call<U: Decoded>(
    decoder: &mut Utf8Decoder,
    turn: &Turn,
    unread: &[u8],
    left: &mut [U],
) -> (DecoderResult, usize, usize)
    ensures call { (out : List U) × WritesPrefix left.old left.new result.2 out
        × DecodeStep U.encode U.MAX_UNITS decoder.old (take turn.now.take unread.now)
        (room_of turn.now (length left.old))
        (is_marked_last turn.now (length unread.now)) result.0 result.1 out decoder.new }
{
    let piece = turn.piece_length(unread.len());
    let room = turn.room_of(left.len());
    U::decode(
        decoder,
        &unread[..piece],
        &mut left[..room],
        turn.is_marked_last(unread.len()),
    )
}

fn write_report(answer: &DecoderResult, place: usize, reports: &mut [Report]) -> usize
    requires reports { 0 < length reports.old }
    ensures { WritesPrefix reports.old reports.new result (report_of answer.now place) }
{
    match *answer {
        DecoderResult::Malformed(length, _) => {
            reports[0] = Report { place, length };
            1
        }
        _ => 0,
    }
}

fn run<U: Decoded>(
    decoder: &mut Utf8Decoder,
    src: &[u8],
    turns: &[Turn],
    dst: &mut [U],
    reports: &mut [Report],
) -> Outcome
    requires places { length turns.now ≤ length reports.old }
    requires not_empty { 0 < U.MAX_UNITS }
    requires short { (c : ℕ) → IsScalar c → length (U.encode c) ≤ length (encode_utf8 c) }
    ensures delivers { Delivers U.encode U.MAX_UNITS decoder.old src.now turns.now dst.old dst.new
        reports.old reports.new
        result decoder.new }
    ensures completes { Completes DecoderResult.InputEmpty
        (λ n pending. n + (U.MAX_UNITS - 1) + pending) U.MAX_UNITS
        decoder.old src.now turns.now (length dst.old) result.result }
{
    // Without turns no other clause says that the pending bytes are none or an incomplete sequence.
    let _neutral = decoder.in_neutral_state();
    let mut outcome = Outcome {
        read: 0,
        written: 0,
        reports: 0,
        result: None,
    };
    for turn in turns {
        let (answer, read, written) = make_call(
            decoder,
            turn,
            &src[outcome.read..],
            &mut dst[outcome.written..],
        );
        outcome.read += read;
        outcome.written += written;
        outcome.reports += write_report(&answer, outcome.written, &mut reports[outcome.reports..]);
        outcome.result = Some(answer);
    }
    outcome
}

/// Decodes a source to UTF-16 with one call for each turn, regardless of their results. Returns the totals and the last
/// result.
///
/// A call takes the next unread bytes, at most `take` of them, and the rest of `dst`, at most `room` code units of it.
/// It is marked last if the turn's `last` is set and its piece reaches the end of `src`. Each malformed sequence that a
/// call reports is written to the next index of `reports`, which must be at least as long as `turns`. So the run
/// delivers the first parts of the pending bytes and `src`: characters to `dst`, malformed sequences to `reports`. The
/// rest of `dst` and of `reports` is unchanged.
///
/// At least `2 * src.len() + 2` turns reach the end of `src` if each takes at least one byte, has a `room` of at least
/// two code units and has `last` set. For this `dst` must have at least the length that `max_utf16_buffer_length`
/// returns.
#[tactic(auto, using(encoding_definitions::proofs::EncodingLemmas::length_encode_utf16_utf8))]
pub fn run_to_utf16(
    decoder: &mut Utf8Decoder,
    src: &[u8],
    turns: &[Turn],
    dst: &mut [u16],
    reports: &mut [Report],
) -> Outcome
    requires places { length turns.now ≤ length reports.old }
    ensures delivers { Delivers encode_utf16 2 decoder.old src.now turns.now dst.old dst.new
        reports.old reports.new
        result decoder.new }
    ensures completes { Completes DecoderResult.InputEmpty max_utf16_length 2 decoder.old src.now
        turns.now (length dst.old)
        result.result }
{
    run::<u16>(decoder, src, turns, dst, reports)
}

/// Decodes a source to UTF-8 with one call for each turn, as [`run_to_utf16`] does to UTF-16.
///
/// At least `2 * src.len() + 2` turns reach the end of `src` if each takes at least one byte, has a `room` of at least
/// four bytes and has `last` set. For this `dst` must have at least the length that
/// `max_utf8_buffer_length_without_replacement` returns.
pub fn run_to_utf8(
    decoder: &mut Utf8Decoder,
    src: &[u8],
    turns: &[Turn],
    dst: &mut [u8],
    reports: &mut [Report],
) -> Outcome
    requires places { length turns.now ≤ length reports.old }
    ensures delivers { Delivers encode_utf8 4 decoder.old src.now turns.now dst.old dst.new
        reports.old reports.new
        result decoder.new }
    ensures completes { Completes DecoderResult.InputEmpty max_utf8_length 4 decoder.old src.now
        turns.now (length dst.old)
        result.result }
{
    run::<u8>(decoder, src, turns, dst, reports)
}
