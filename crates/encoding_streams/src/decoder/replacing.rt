//! Calls that write U+FFFD for each malformed sequence.
ghost use Rattle.std.specs.Prelude.{◌≤◌, length, take};
ghost use Rattle.encoding_streams.specs.Decoders.{IsReplacingCall, SufficesReplacing};
ghost use Rattle.encoding_streams.specs.DecoderSteps.{IsExactStep, IsReplacingStep, shown};
ghost use Rattle.encoding_streams.specs.ExactCalls.{IsExactReplacingCall, IsPendingOf};

use super::inner::Output;
use super::state::{State, decode};
use crate::encoding::CoderResult;
use encoding_text::decoder::DecoderResult;

/// Makes one call that reports, and writes U+FFFD for the malformed sequence. Returns why the call ended, or `None`
/// after a report, the number of bytes read and the number of code units written.
#[inline(always)]
fn replace_one<U: Output>(
    state: &mut State,
    src: &[u8],
    dst: &mut [U],
    last: bool,
) -> (Option<CoderResult>, usize, usize)
    requires pending { IsPendingOf state.old.bom state.old.encoding state.old.pending }
    ensures pending { IsPendingOf state.new.bom state.new.encoding state.new.pending }
    ensures step { IsReplacingStep U.encode U.need U.replacing
        (shown state.old) src.now dst.old dst.new
        last result.0 result.1 result.2 (shown state.new) }
    ensures exact { IsExactStep U.encode U.need (shown state.old) src.now (length dst.old) last
        result.0 result.1 (take result.2 dst.new) (shown state.new) }
{
    let replacement = U::replacement_length();
    let (result, read, written) = decode::<U>(state, src, dst, last);
    match result {
        DecoderResult::InputEmpty => (Some(CoderResult::InputEmpty), read, written),
        DecoderResult::OutputFull => (Some(CoderResult::OutputFull), read, written),
        DecoderResult::Malformed(..) => {
            U::write_replacement(&mut dst[written..]);
            (None, read, written + replacement)
        }
    }
}

/// Decodes as `replace` does, one call that reports after another.
#[inline(never)]
fn replace_all<U: Output>(
    state: &mut State,
    src: &[u8],
    dst: &mut [U],
    last: bool,
) -> (CoderResult, usize, usize, usize)
    requires pending { IsPendingOf state.old.bom state.old.encoding state.old.pending }
    ensures pending { IsPendingOf state.new.bom state.new.encoding state.new.pending }
    ensures call { IsReplacingCall U.encode U.need (shown state.old) src.now dst.old dst.new last
        result.0 result.1 result.2 result.3 (shown state.new) }
    ensures exact { IsExactReplacingCall U.encode U.need (shown state.old) src.now
        (length dst.old) last result.0 result.1 (take result.2 dst.new) result.3
        (shown state.new) }
    ensures suffices { SufficesReplacing U.replacing (shown state.old) src.now (length dst.old) last
        result.0 result.1 result.2 (shown state.new) }
    ensures few { result.3 ≤ result.2 }
{
    let _length = state.pending.len();
    let mut read = 0;
    let mut written = 0;
    let mut replaced = 0;
    loop {
        let (result, more, extra) = replace_one::<U>(
            state,
            &src[read..],
            &mut dst[written..],
            last,
        );
        read += more;
        written += extra;
        match result {
            Some(result) => return (result, read, written, replaced),
            None => replaced += 1,
        }
    }
}

/// Decodes, with U+FFFD for each malformed sequence. Returns why the call ended, the number of bytes read, the number
/// of code units written, and the number of malformed sequences. Most calls meet none, and end without the loop.
#[inline(always)]
pub(super) fn replace<U: Output>(
    state: &mut State,
    src: &[u8],
    dst: &mut [U],
    last: bool,
) -> (CoderResult, usize, usize, usize)
    requires pending { IsPendingOf state.old.bom state.old.encoding state.old.pending }
    ensures pending { IsPendingOf state.new.bom state.new.encoding state.new.pending }
    ensures call { IsReplacingCall U.encode U.need (shown state.old) src.now dst.old dst.new last
        result.0 result.1 result.2 result.3 (shown state.new) }
    ensures exact { IsExactReplacingCall U.encode U.need (shown state.old) src.now
        (length dst.old) last result.0 result.1 (take result.2 dst.new) result.3
        (shown state.new) }
    ensures suffices { SufficesReplacing U.replacing (shown state.old) src.now (length dst.old) last
        result.0 result.1 result.2 (shown state.new) }
{
    let (result, read, written) = replace_one::<U>(state, src, dst, last);
    match result {
        Some(result) => (result, read, written, 0),
        None => {
            let (result, more, extra, replaced) = replace_all::<U>(
                state,
                &src[read..],
                &mut dst[written..],
                last,
            );
            (result, read + more, written + extra, 1 + replaced)
        }
    }
}
