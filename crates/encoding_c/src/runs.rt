//! Runs: calls of a decoder or an encoder over a source, in pieces of any length and into output space of any length.
//! The decoder or encoder is in the caller's storage.

ghost use Rattle.std.specs.Prelude.{◌≡◌, ◌+◌, ◌*◌, ◌<◌, ◌≤◌, length, encode_utf8};
ghost use Rattle.std.specs.Char.Escape.{encode_utf16};
ghost use Rattle.encoding_text.specs.Decoding.{max_utf16_length, max_utf8_length};
ghost use Rattle.encoding_runs.specs.Runs.{Completes, Delivers, EncodesByTurns};
ghost use Rattle.encoding_c.specs.States.{IsLastCodeOf, IsLastEncodeCodeOf, DecoderRun, EncoderRun};

use crate::decoder::{self, EncodingUtf8Decoder, Ended};
use crate::encoder::{self, EncodingEncodeResult, EncodingUtf8Encoder};
use crate::status::INVALID_ARGUMENT_U8;
use encoding_runs::run::{Outcome, Report, Turn, run_from_utf16, run_to_utf8, run_to_utf16};
use encoding_text::decoder::DecoderResult;
use encoding_text::utf_8::EncoderResult;

/// The result of the last call if there was no call.
const NO_CALL: u8 = 3;

/// The two numbers for no call.
const NO_CALL_ENDED: Ended = Ended {
    result: NO_CALL,
    malformed_length: 0,
};

/// What a run of a decoder did: how much it read and wrote, how many malformed sequences it reported, what ended its
/// last call, and the length of the malformed sequence if that did.
#[repr(C)]
#[derive(Clone, Copy)]
pub struct EncodingDecodeRunResult {
    pub read: usize,
    pub written: usize,
    pub reports: usize,
    pub result: u8,
    pub malformed_length: u8,
}

/// What a run returns if there are fewer reports than turns.
const INVALID_ARGUMENT_RUN: EncodingDecodeRunResult = EncodingDecodeRunResult {
    read: 0,
    written: 0,
    reports: 0,
    result: INVALID_ARGUMENT_U8,
    malformed_length: 0,
};

/// Returns what a decoder's run did as numbers.
fn reported(outcome: &Outcome) -> EncodingDecodeRunResult
    ensures last { IsLastCodeOf outcome.now.result result.result result.malformed_length }
    ensures counts { (result.read ≡ outcome.now.read) × (result.written ≡ outcome.now.written)
        × (result.reports ≡ outcome.now.reports) }
{
    let Ended {
        result,
        malformed_length,
    } = match &outcome.result {
        Some(ended) => decoder::numbers(ended),
        None => NO_CALL_ENDED,
    };
    EncodingDecodeRunResult {
        read: outcome.read,
        written: outcome.written,
        reports: outcome.reports,
        result,
        malformed_length,
    }
}

/// Returns the result of an encoder's last call as a number.
fn last_number(last: &Option<EncoderResult>) -> u8
    ensures { IsLastEncodeCodeOf last.now result }
{
    match last {
        Some(ended) => encoder::number(ended),
        None => NO_CALL,
    }
}

/// Decodes a source to UTF-16 with one call for each turn, regardless of their results. The rest of `dst` and of
/// `reports` is unchanged. `result` is `INVALID_ARGUMENT_U8` if `reports` is shorter than `turns`: then nothing is read
/// or written.
#[unsafe(no_mangle)]
pub extern "C" fn encoding_text_run_to_utf16(
    decoder: &mut EncodingUtf8Decoder,
    src: &[u8],
    turns: &[Turn],
    dst: &mut [u16],
    reports: &mut [Report],
) -> EncodingDecodeRunResult
    ensures run { length turns.now ≤ length reports.old
        → DecoderRun decoder.old decoder.new result (λ p outcome q.
        Delivers encode_utf16 2 p src.now turns.now dst.old dst.new reports.old
        reports.new outcome q
        × Completes DecoderResult.InputEmpty max_utf16_length 2 p src.now turns.now
        (length dst.old) outcome.result) }
    ensures invalid_argument { length reports.old < length turns.now
        → (result.result ≡ u8.MAX) × (result.malformed_length ≡ 0) × (result.read ≡ 0)
        × (result.written ≡ 0)
        × (result.reports ≡ 0) × (decoder.new ≡ decoder.old) × (dst.new ≡ dst.old)
        × (reports.new ≡ reports.old) }
{
    if reports.len() < turns.len() {
        return INVALID_ARGUMENT_RUN;
    }
    let mut inner = decoder::restored(*decoder);
    let outcome = run_to_utf16(&mut inner, src, turns, dst, reports);
    *decoder = decoder::stored(&inner);
    reported(&outcome)
}

/// Decodes a source to UTF-8 with one call for each turn, as `encoding_text_run_to_utf16` does to UTF-16.
#[unsafe(no_mangle)]
pub extern "C" fn encoding_text_run_to_utf8(
    decoder: &mut EncodingUtf8Decoder,
    src: &[u8],
    turns: &[Turn],
    dst: &mut [u8],
    reports: &mut [Report],
) -> EncodingDecodeRunResult
    ensures run { length turns.now ≤ length reports.old
        → DecoderRun decoder.old decoder.new result (λ p outcome q.
        Delivers encode_utf8 4 p src.now turns.now dst.old dst.new reports.old reports.new outcome q
        × Completes DecoderResult.InputEmpty max_utf8_length 4 p src.now turns.now
        (length dst.old) outcome.result) }
    ensures invalid_argument { length reports.old < length turns.now
        → (result.result ≡ u8.MAX) × (result.malformed_length ≡ 0) × (result.read ≡ 0)
        × (result.written ≡ 0)
        × (result.reports ≡ 0) × (decoder.new ≡ decoder.old) × (dst.new ≡ dst.old)
        × (reports.new ≡ reports.old) }
{
    if reports.len() < turns.len() {
        return INVALID_ARGUMENT_RUN;
    }
    let mut inner = decoder::restored(*decoder);
    let outcome = run_to_utf8(&mut inner, src, turns, dst, reports);
    *decoder = decoder::stored(&inner);
    reported(&outcome)
}

/// Encodes a source with one call for each turn, regardless of their results. The rest of `dst` is unchanged.
#[unsafe(no_mangle)]
pub extern "C" fn encoding_text_run_from_utf16(
    encoder: &mut EncodingUtf8Encoder,
    src: &[u16],
    turns: &[Turn],
    dst: &mut [u8],
) -> EncodingEncodeResult
    ensures { EncoderRun encoder.old encoder.new result (λ surrogate outcome later.
        EncodesByTurns surrogate src.now turns.now dst.old dst.new outcome later
        × Completes EncoderResult.InputEmpty
        (λ n pending. 3 * (n + pending)) 4 surrogate src.now turns.now (length dst.old)
        outcome.result) }
{
    let before = *encoder;
    let mut inner = encoder::restored(before);
    let outcome = run_from_utf16(&mut inner, src, turns, dst);
    let unit = encoder::last_of(&src[..outcome.read], before.surrogate);
    *encoder = encoder::stored(&inner, unit);
    EncodingEncodeResult {
        read: outcome.read,
        written: outcome.written,
        result: last_number(&outcome.result),
    }
}
