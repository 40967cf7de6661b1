//! What a decoder keeps between calls, and its calls that report malformed sequences.
ghost use Rattle.std.specs.Prelude.{take, ◌≢◌, ◌⊎◌, ◌-◌, false, ◌≡◌, ◌↔◌, ℕ, ◌<◌, ◌≤◌, true, List, [], ◌++◌, length};
ghost use Rattle.std.specs.Prelude.{IsTrue};
ghost use Rattle.encoding_definitions.specs.Sequence.{IsIncomplete};
ghost use Rattle.encoding_streams.specs.Decoders.{decoding};
ghost use Rattle.encoding_streams.specs.DecoderSteps.{IsSniffed, IsStop, LeavesFree, Reports, shown, state_of};
ghost use Rattle.encoding_streams.specs.ExactCalls.{AreReportLengths, Decodes, IsExactCall, IsIdle, IsPendingIn};
ghost use Rattle.encoding_streams.specs.ExactCalls.{IsPendingOf, reported_with};

use super::inner::{Inner, Output};
use super::is_utf8;
use crate::encoding::{BomHandling, Encoding, begins_mark, found_mark, mark_length};
use crate::utf16_decoder::pending::Pending;
use crate::utf16_decoder::window;
use encoding_kernels::scalar::{begins_several, is_continuation, is_second};
use encoding_text::decoder::DecoderResult;
use encoding_text::utf_16::ByteOrder;

/// The encoding, the marks that are looked for, and the bytes that were read and are still to be decoded.
#[derive(Drop)]
pub(crate) struct State {
    pub(crate) encoding: Encoding,
    pub(crate) bom: BomHandling,
    pub(crate) pending: Pending,
}

/// Returns whether no mark is looked for.
#[inline(always)]
pub(crate) fn is_off(bom: BomHandling) -> bool
    ensures off { result ≡ true → bom ≡ BomHandling.Off }
    ensures on { bom ≡ BomHandling.Off → result ≡ true }
{
    matches!(bom, BomHandling::Off)
}

/// Returns whether the bytes are an incomplete sequence.
fn is_incomplete(bytes: &[u8]) -> bool
    ensures yes { result ≡ true → IsIncomplete bytes.now }
    ensures no { result ≡ false → IsIncomplete bytes.now → ⊥ }
{
    match *bytes {
        [first] => begins_several(first),
        [first, second] => first >= 0xE0 && is_second(first, second),
        [first, second, third] => {
            first >= 0xF0 && is_second(first, second) && is_continuation(third)
        }
        _ => false,
    }
}

/// Returns whether the bytes are none or the start of a character of the encoding.
fn is_pending_in(encoding: Encoding, bytes: &[u8]) -> bool
    ensures yes { result ≡ true → IsPendingIn encoding bytes.now }
    ensures no { result ≡ false → IsPendingIn encoding bytes.now → ⊥ }
{
    if bytes.len() > 3 {
        return false;
    }
    match encoding {
        Encoding::Utf8 => bytes.is_empty() || is_incomplete(bytes),
        Encoding::Utf16Le => window::is_incomplete(ByteOrder::LittleEndian, bytes),
        Encoding::Utf16Be => window::is_incomplete(ByteOrder::BigEndian, bytes),
    }
}

/// Returns whether a decoder that looks for these marks may have the bytes pending.
pub(crate) fn is_pending_of(bom: BomHandling, encoding: Encoding, bytes: &[u8]) -> bool
    ensures yes { result ≡ true → IsPendingOf bom encoding bytes.now }
    ensures no { result ≡ false → IsPendingOf bom encoding bytes.now → ⊥ }
{
    if is_off(bom) {
        return is_pending_in(encoding, bytes);
    }
    begins_mark(bom, encoding, bytes)
}

/// Looks for a mark at the start of the pending bytes followed by `src`, and returns how many bytes of `src` it read.
#[inline(never)]
fn look_for_mark(state: &mut State, src: &[u8], last: bool) -> usize
    requires pending { IsPendingOf state.old.bom state.old.encoding state.old.pending }
    ensures { IsSniffed (shown state.old) src.now last (shown state.new) result }
{
    let before = state.pending.len();
    let (window, count) = state.pending.followed_by(src);
    let window = &window[..count];
    if let Some(encoding) = found_mark(state.bom, state.encoding, window) {
        state.encoding = encoding;
        state.bom = BomHandling::Off;
        state.pending = Pending::none();
        return mark_length(encoding) - before;
    }
    if !last && begins_mark(state.bom, state.encoding, window) {
        state.pending = Pending::hold(window);
        return src.len();
    }
    state.bom = BomHandling::Off;
    0
}

/// Looks for a mark as `look_for_mark` does, if any is looked for.
#[inline(always)]
fn sniff(state: &mut State, src: &[u8], last: bool) -> usize
    requires pending { IsPendingOf state.old.bom state.old.encoding state.old.pending }
    ensures { IsSniffed (shown state.old) src.now last (shown state.new) result }
{
    // its length is at most three
    let _length = state.pending.len();
    if is_off(state.bom) {
        return 0;
    }
    look_for_mark(state, src, last)
}

/// Returns whether a call ends after these bytes of a source of this length: a mark may still come, or a mark ends it.
#[inline(always)]
fn is_at_end(bom: BomHandling, sniffed: usize, length: usize) -> bool
    requires within { sniffed ≤ length }
    ensures yes { result ≡ true → (bom ≢ BomHandling.Off) ⊎ ((0 < sniffed) × (sniffed ≡ length)) }
    ensures no { result ≡ false
        → (bom ≡ BomHandling.Off) × ((sniffed ≡ 0) ⊎ (0 < length - sniffed)) }
{
    if !is_off(bom) {
        return true;
    }
    sniffed > 0 && sniffed == length
}

/// Returns what is pending of a decoder.
#[inline(always)]
fn kept(inner: &Inner) -> Pending
    ensures { result ≡ (state_of inner.now).pending }
{
    let (bytes, count) = inner.pending();
    Pending::hold(&bytes[..count])
}

/// Returns whether all of the source was read.
#[inline(always)]
fn is_all_read(ended: &DecoderResult) -> bool
    ensures { IsTrue result ↔ (ended.now ≡ DecoderResult.InputEmpty) }
{
    matches!(ended, DecoderResult::InputEmpty)
}

/// Returns whether no bytes come, and more may follow.
#[inline(always)]
fn is_idle(src: &[u8], last: bool) -> bool
    ensures yes { result ≡ true → IsIdle src.now last }
    ensures no { result ≡ false → IsIdle src.now last → ⊥ }
{
    src.is_empty() && !last
}

/// Returns the result of a call that didn't read all, if `rest` bytes are pending after it.
#[inline(always)]
fn with_rest(ended: DecoderResult, rest: usize) -> DecoderResult
    requires at_most_three { rest ≤ 3 }
    ensures { result ≡ reported_with ended rest }
{
    match ended {
        DecoderResult::Malformed(length, _) => DecoderResult::Malformed(length, rest as u8),
        other => other,
    }
}

/// Returns what ends a call without `src`, if it is empty: all was read, or there is no space for a report of what is
/// pending at the end of the stream. `None` if the decoder has to read on, or to report.
#[inline(always)]
fn stop<U: Output>(inner: &Inner, src: &[u8], room: usize, last: bool) -> Option<DecoderResult>
    ensures { IsStop U.need (state_of inner.now).pending src.now room last result }
{
    if !src.is_empty() {
        return None;
    }
    if !last || inner.pending_length() == 0 {
        return Some(DecoderResult::InputEmpty);
    }
    if room < U::max_units_per_scalar() {
        return Some(DecoderResult::OutputFull);
    }
    None
}

/// Decodes `src` with a decoder that has nothing pending.
#[inline(always)]
fn decode_neutral<U: Output>(
    state: &mut State,
    src: &[u8],
    dst: &mut [U],
    last: bool,
) -> (DecoderResult, usize, usize)
    requires neutral { state.old.pending ≡ [] }
    ensures kept { (state.new.bom ≡ state.old.bom) × (state.new.encoding ≡ state.old.encoding) }
    ensures reports { Reports U.encode U.need U.query U.replacing
        (decoding state.old.encoding state.old.pending) src.now dst.old dst.new last
        result.0 result.1 result.2 (decoding state.old.encoding state.new.pending) }
    ensures decodes { Decodes U.encode U.need state.old.encoding state.old.pending src.now
        (length dst.old) last result.0 result.1 (take result.2 dst.new) state.new.pending }
    ensures free { LeavesFree U.need state.old.pending src.now (length dst.old) result.0 result.2 }
{
    let mut inner = Inner::new(state.encoding);
    let (result, read, written) = U::decode(&mut inner, src, dst, last);
    state.pending = kept(&inner);
    (result, read, written)
}

/// Decodes `src` as UTF-8 with a decoder that has nothing pending. Most calls do this, and leave nothing pending.
#[inline(always)]
fn decode_neutral_utf8<U: Output>(
    state: &mut State,
    src: &[u8],
    dst: &mut [U],
    last: bool,
) -> (DecoderResult, usize, usize)
    requires neutral { state.old.pending ≡ [] }
    requires utf8 { state.old.encoding ≡ Encoding.Utf8 }
    ensures kept { (state.new.bom ≡ state.old.bom) × (state.new.encoding ≡ state.old.encoding) }
    ensures reports { Reports U.encode U.need U.query U.replacing
        (decoding state.old.encoding state.old.pending) src.now dst.old dst.new last
        result.0 result.1 result.2 (decoding state.old.encoding state.new.pending) }
    ensures decodes { Decodes U.encode U.need state.old.encoding state.old.pending src.now
        (length dst.old) last result.0 result.1 (take result.2 dst.new) state.new.pending }
    ensures free { LeavesFree U.need state.old.pending src.now (length dst.old) result.0 result.2 }
{
    let mut inner = Inner::new(Encoding::Utf8);
    let (result, read, written) = U::decode(&mut inner, src, dst, last);
    if inner.in_neutral_state() {
        return (result, read, written);
    }
    state.pending = kept(&inner);
    (result, read, written)
}

/// Decodes the pending bytes, and then `src`.
#[inline(never)]
fn decode_pending<U: Output>(
    state: &mut State,
    src: &[u8],
    dst: &mut [U],
    last: bool,
) -> (DecoderResult, usize, usize)
    requires some { 0 < length state.old.pending }
    ensures kept { (state.new.bom ≡ state.old.bom) × (state.new.encoding ≡ state.old.encoding) }
    ensures reports { Reports U.encode U.need U.query U.replacing
        (decoding state.old.encoding state.old.pending) src.now dst.old dst.new last
        result.0 result.1 result.2 (decoding state.old.encoding state.new.pending) }
    ensures decodes { Decodes U.encode U.need state.old.encoding state.old.pending src.now
        (length dst.old) last result.0 result.1 (take result.2 dst.new) state.new.pending }
    ensures free { LeavesFree U.need state.old.pending src.now (length dst.old) result.0 result.2 }
{
    let _length = U::replacement_length();
    let _pending = state.pending.len();
    if is_idle(src, last) {
        return (DecoderResult::InputEmpty, 0, 0);
    }
    let mut inner = Inner::new(state.encoding);
    let (held, count) = state.pending.bytes();
    let held = &held[..count];
    let (result, read, written) = U::decode(&mut inner, held, dst, false);
    if !is_all_read(&result) {
        let rest = inner.pending_length() + (count - read);
        state.pending = Pending::suffix(held, rest);
        return (with_rest(result, rest), 0, written);
    }
    if let Some(result) = stop::<U>(&inner, src, dst.len() - written, last) {
        state.pending = kept(&inner);
        return (result, 0, written);
    }
    let (result, read, more) = U::decode(&mut inner, src, &mut dst[written..], last);
    state.pending = kept(&inner);
    (result, read, written + more)
}

/// Decodes with no mark looked for.
#[inline(always)]
fn decode_decided<U: Output>(
    state: &mut State,
    src: &[u8],
    dst: &mut [U],
    last: bool,
) -> (DecoderResult, usize, usize)
    ensures kept { (state.new.bom ≡ state.old.bom) × (state.new.encoding ≡ state.old.encoding) }
    ensures reports { Reports U.encode U.need U.query U.replacing
        (decoding state.old.encoding state.old.pending) src.now dst.old dst.new last
        result.0 result.1 result.2 (decoding state.old.encoding state.new.pending) }
    ensures decodes { Decodes U.encode U.need state.old.encoding state.old.pending src.now
        (length dst.old) last result.0 result.1 (take result.2 dst.new) state.new.pending }
    ensures free { LeavesFree U.need state.old.pending src.now (length dst.old) result.0 result.2 }
{
    if state.pending.is_empty() {
        return decode_neutral::<U>(state, src, dst, last);
    }
    decode_pending::<U>(state, src, dst, last)
}

/// Returns whether a call has no space for anything: it read and wrote nothing.
#[inline(always)]
fn makes_no_progress(ended: &DecoderResult, read: usize, written: usize) -> bool
    ensures yes { result ≡ true
        → (ended.now ≡ DecoderResult.OutputFull) × (read ≡ 0) × (written ≡ 0) }
    ensures no { result ≡ false
        → (ended.now ≡ DecoderResult.OutputFull) × (read ≡ 0) × (written ≡ 0) → ⊥ }
{
    read == 0 && written == 0 && matches!(ended, DecoderResult::OutputFull)
}

/// Decodes as `decode` does, with any encoding, any marks and any pending bytes.
#[inline(always)]
fn decode_any<U: Output>(
    state: &mut State,
    src: &[u8],
    dst: &mut [U],
    last: bool,
) -> (DecoderResult, usize, usize)
    requires pending { IsPendingOf state.old.bom state.old.encoding state.old.pending }
    ensures pending { IsPendingOf state.new.bom state.new.encoding state.new.pending }
    ensures reports { Reports U.encode U.need U.query U.replacing (shown state.old) src.now
        dst.old dst.new last result.0 result.1 result.2 (shown state.new) }
    ensures exact { IsExactCall U.encode U.need (shown state.old) src.now (length dst.old) last
        result.0 result.1 (take result.2 dst.new) (shown state.new) }
    ensures lengths { AreReportLengths result.0 }
    ensures free { LeavesFree U.need state.old.pending src.now (length dst.old) result.0 result.2 }
{
    let _length = U::replacement_length();
    let bom = state.bom;
    let sniffed = sniff(state, src, last);
    if is_at_end(state.bom, sniffed, src.len()) {
        return (DecoderResult::InputEmpty, sniffed, 0);
    }
    let (result, read, written) = decode_decided::<U>(state, &src[sniffed..], dst, last);
    if makes_no_progress(&result, sniffed + read, written) {
        state.bom = bom;
        return (DecoderResult::OutputFull, 0, 0);
    }
    (result, sniffed + read, written)
}

/// Returns whether it is a decoder of UTF-8 that has nothing pending and looks for no mark.
#[inline(always)]
fn is_plain(state: &State) -> bool
    ensures off { result ≡ true → state.now.bom ≡ BomHandling.Off }
    ensures utf8 { result ≡ true → state.now.encoding ≡ Encoding.Utf8 }
    ensures neutral { result ≡ true → state.now.pending ≡ [] }
{
    is_off(state.bom) && is_utf8(state.encoding) && state.pending.is_empty()
}

/// Decodes, and reports malformed sequences. Returns what ended the call, how many bytes of `src` it read and how many
/// code units it wrote.
#[inline(always)]
pub(crate) fn decode<U: Output>(
    state: &mut State,
    src: &[u8],
    dst: &mut [U],
    last: bool,
) -> (DecoderResult, usize, usize)
    requires pending { IsPendingOf state.old.bom state.old.encoding state.old.pending }
    ensures pending { IsPendingOf state.new.bom state.new.encoding state.new.pending }
    ensures reports { Reports U.encode U.need U.query U.replacing (shown state.old) src.now
        dst.old dst.new last result.0 result.1 result.2 (shown state.new) }
    ensures exact { IsExactCall U.encode U.need (shown state.old) src.now (length dst.old) last
        result.0 result.1 (take result.2 dst.new) (shown state.new) }
    ensures lengths { AreReportLengths result.0 }
    ensures free { LeavesFree U.need state.old.pending src.now (length dst.old) result.0 result.2 }
{
    let _length = U::replacement_length();
    if is_plain(state) {
        return decode_neutral_utf8::<U>(state, src, dst, last);
    }
    decode_any::<U>(state, src, dst, last)
}
