//! Unpaired surrogates in UTF-16: the longest prefix without one, and U+FFFD instead of each.

ghost use Rattle.std.specs.Prelude.{◌≡◌, ◌+◌, ◌-◌, ◌<◌, ◌≤◌, length, drop};
ghost use Rattle.encoding_definitions.specs.Prefixes.{IsLongestPrefix};
ghost use Rattle.encoding_definitions.specs.Surrogates.{IsValidUtf16, AreRepairedUnits};
ghost use Rattle.encoding_definitions.specs.Utf16.{AreCodeUnits};

use encoding_kernels::scalar::{
    REPLACEMENT_UNIT, is_high_surrogate, is_low_surrogate, is_surrogate,
};
use encoding_kernels::simd::width::{FOUR, HALF_UNIT_BLOCK, STRIDE, UNIT_BLOCK};
use encoding_kernels::tuning::PAIRED_BLOCKS_BEFORE_RETEST;
use encoding_kernels::utf16::validate::{
    are_paired, before_cut_pair, has_no_surrogate, is_after_high_surrogate, paired_run,
};

#[inline(always)]
fn blocks_before_retest(expected: usize) -> usize
    ensures first { expected ≡ 0 → result ≡ 8 }
    ensures next { 0 < expected → result + 1 ≡ expected }
{
    if expected == 0 {
        PAIRED_BLOCKS_BEFORE_RETEST
    } else {
        expected - 1
    }
}

/// Returns the length of the longest prefix without an unpaired surrogate: the index of the first one, or the length of
/// `buffer`.
pub fn utf16_valid_up_to(buffer: &[u16]) -> usize
    ensures { IsLongestPrefix IsValidUtf16 buffer.now result }
{
    let (strides, _) = buffer.as_chunks::<STRIDE>();
    let (fours, _) = strides.as_chunks::<FOUR>();
    let mut at = 0;
    // surrogates cluster: the blocks after one with some are tested for pairs at once
    let mut expected = 0;
    for four in fours {
        if 0 < expected
            || is_after_high_surrogate(buffer, at)
            || !has_no_surrogate(four.as_flattened())
        {
            if !are_paired::<UNIT_BLOCK, HALF_UNIT_BLOCK>(buffer, at) {
                break;
            }
            expected = blocks_before_retest(expected);
        }
        at += UNIT_BLOCK;
    }
    for _i in at / STRIDE..strides.len() {
        let run = paired_run(buffer, at);
        at += run;
        if run < STRIDE {
            break;
        }
    }
    at = before_cut_pair(buffer, at);
    while at < buffer.len() {
        let unit = buffer[at];
        if !is_surrogate(unit) {
            at += 1;
            continue;
        }
        if !is_high_surrogate(unit) || at + 1 == buffer.len() || !is_low_surrogate(buffer[at + 1]) {
            return at;
        }
        at += 2;
    }
    at
}

fn next_unpaired(units: &[u16], from: usize) -> usize
    requires { from ≤ length units.now }
    ensures following { from ≤ result }
    ensures prefix { IsLongestPrefix IsValidUtf16 (drop from units.now) (result - from) }
    ensures are_units { AreCodeUnits units.now }
{
    from + utf16_valid_up_to(&units[from..])
}

/// Replaces each unpaired surrogate with U+FFFD. All other code units are unchanged.
#[tactic(auto, using(crate::proofs::DefinitionRules::surrogate_repair))]
pub fn ensure_utf16_validity(buffer: &mut [u16])
    ensures { AreRepairedUnits buffer.old buffer.new }
{
    let mut at = next_unpaired(buffer, 0);
    while at < buffer.len() {
        buffer[at] = REPLACEMENT_UNIT;
        at = next_unpaired(buffer, at + 1);
    }
}
