//! The encoder's calls with the number of unpaired surrogates that they replaced. A second pass over what was read
//! counts them.
ghost use Rattle.std.specs.Prelude.{◌≡◌, ◌+◌, ◌-◌, ◌*◌, ◌≤◌, ◌++◌, length, take};
ghost use Rattle.encoding_definitions.specs.Prefixes.{WritesPrefix};
ghost use Rattle.encoding_definitions.specs.Surrogates.{HasUnpaired};
ghost use Rattle.encoding_text.specs.Counted.{ReplacesIn};
ghost use Rattle.encoding_text.specs.Encoding.{IsPendingSurrogate, EncodeStep, TextEncodeStep, pending_units};

use crate::utf_8::encoder::{EncoderResult, Utf8Encoder};
use encoding_kernels::scalar::is_low_surrogate;
use encoding_kernels::utf16::unpaired::unpaired_of_units;

impl Utf8Encoder {
    /// `encode_from_utf16_raw`, which also returns how many unpaired surrogates were replaced with U+FFFD.
    ///
    /// A surrogate that became pending in an earlier call counts in the call that replaces it. So the sum over all
    /// calls is the number of unpaired surrogates in the whole source.
    pub fn encode_from_utf16_with_count(
        &mut self,
        src: &[u16],
        dst: &mut [u8],
        last: bool,
    ) -> (EncoderResult, usize, usize, usize)
        ensures call { EncodeStep self.old src.now (length dst.old) last
            result.0 result.1 (take result.2 dst.new) self.new }
        ensures within { result.1 ≤ length src.now }
        ensures unchanged_after { WritesPrefix dst.old dst.new result.2 (take result.2 dst.new) }
        ensures suffices { 3 * (length src.now + length self.old) ≤ length dst.old
            → result.0 ≡ EncoderResult.InputEmpty }
        ensures replaced { ReplacesIn self.old src.now result.1 self.new result.3 }
    {
        let before = self.surrogate;
        let (result, read, written) = self.encode_from_utf16_raw(src, dst, last);
        let replaced = unpaired_with_pending(before, &src[..read], self.pending_count());
        (result, read, written, replaced)
    }

    /// `encode_from_utf8_raw`, which also returns how many unpaired surrogates were replaced with U+FFFD: 1 if one was
    /// pending and U+FFFD was written for it, else 0.
    pub fn encode_from_utf8_with_count(
        &mut self,
        src: &str,
        dst: &mut [u8],
        last: bool,
    ) -> (EncoderResult, usize, usize, usize)
        ensures call { TextEncodeStep self.old src.now (length dst.old)
            result.0 result.1 (take result.2 dst.new) self.new }
        ensures within { result.1 ≤ length src.now }
        ensures unchanged_after { WritesPrefix dst.old dst.new result.2 (take result.2 dst.new) }
        ensures suffices { length src.now + 3 * length self.old ≤ length dst.old
            → result.0 ≡ EncoderResult.InputEmpty }
        ensures replaced { result.3 + length self.new ≡ length self.old }
    {
        let before = self.pending_count();
        let (result, read, written) = self.encode_from_utf8_raw(src, dst, last);
        (result, read, written, before - self.pending_count())
    }
}

fn unpaired_with_pending(pending: Option<u16>, units: &[u16], kept: usize) -> usize
    requires surrogate { IsPendingSurrogate (pending_units pending) }
    requires within { kept ≤ length (pending_units pending ++ units.now) }
    requires one { kept ≤ 1 }
    ensures { HasUnpaired (take (length (pending_units pending ++ units.now) - kept)
        (pending_units pending ++ units.now)) result }
{
    let Some(_) = pending else {
        return unpaired_of_units(&units[..units.len() - kept]);
    };
    if units.is_empty() {
        return 1 - kept;
    }
    let due = &units[..units.len() - kept];
    if !due.is_empty() && is_low_surrogate(due[0]) {
        unpaired_of_units(&due[1..])
    } else {
        1 + unpaired_of_units(due)
    }
}
