//! What bytes begin with: ASCII, a character of several bytes, a malformed sequence, or an incomplete one. Unicode
//! Standard, Table 3-7, and Encoding Standard, section 8.1.1.
ghost use Rattle.std.specs.Prelude.{◌<◌, ◌≤◌, length, take, slice_index, IfSome, IfNone};
ghost use Rattle.encoding_definitions.specs.Sequence.{IsSequence, IsIncomplete};
ghost use Rattle.encoding_definitions.specs.Parts.{BeginsWithNoCharacter};

use crate::utf_8::table::{UTF8_DATA, law_table};
use encoding_kernels::scalar::{begins_several, is_continuation, is_second, sequence_length};

/// What bytes begin with.
#[derive(Drop)]
pub(crate) enum First {
    /// An ASCII byte.
    Ascii,
    /// A character of this many bytes, two to four.
    Character(usize),
    /// A malformed sequence of this many bytes, one to three.
    Malformed(usize),
    /// Nothing or an incomplete sequence, after which the bytes end.
    Incomplete,
}

impl First {
    ghost use Rattle.encoding_text.specs.Steps.{IsFirst};

    /// `None` mostly means that a character comes first.
    #[inline(always)]
    pub(crate) fn of_two(bytes: &[u8]) -> Option<First>
        requires not_empty { 0 < length bytes.now }
        requires lead { 0x80 ≤ slice_index bytes.now 0 }
        ensures shown { IfSome result (λ first. IsFirst bytes.now first) }
        ensures no_character { IfSome result (λ _. BeginsWithNoCharacter bytes.now) }
        ensures several { IfNone result (IsIncomplete (take 1 bytes.now)) }
    {
        let lead = bytes[0];
        // a last byte is paired with itself, to avoid a branch on the length: a byte that begins a sequence is never a
        // continuation byte
        let second = (bytes.len() - 1).min(1);
        // one test, since on random bytes a branch for each of the two costs more
        let mask = u8::from(begins_several(lead)) * 0xC0;
        if bytes[second] & mask == 0x80 {
            return None;
        }
        if second == 1 {
            return Some(First::Malformed(1));
        }
        if begins_several(lead) {
            return Some(First::Incomplete);
        }
        Some(First::Malformed(1))
    }

    /// Out of line: text seldom needs it.
    #[inline(never)]
    pub(crate) fn by_bytes(bytes: &[u8]) -> First
        requires not_empty { 0 < length bytes.now }
        requires lead { 0x80 ≤ slice_index bytes.now 0 }
        ensures { IsFirst bytes.now result }
    {
        let lead = bytes[0];
        if !begins_several(lead) {
            return First::Malformed(1);
        }
        let length = sequence_length(lead);
        let mut known = 1;
        while known < length {
            if known == bytes.len() {
                return First::Incomplete;
            }
            let goes_on = if known == 1 {
                is_second(lead, bytes[1])
            } else {
                is_continuation(bytes[known])
            };
            if !goes_on {
                return First::Malformed(known);
            }
            known += 1;
        }
        First::Character(known)
    }
}

#[tactic(auto, using(crate::proofs::DefinitionRules::characters))]
#[inline(always)]
pub(crate) fn character_length(bytes: &[u8]) -> Option<usize>
    ensures length { IfSome result (λ n. (0 < n) × (n ≤ length bytes.now) × IsSequence
        (take n bytes.now)) }
    ensures no_character { IfNone result (BeginsWithNoCharacter bytes.now) }
{
    if bytes.is_empty() {
        return None;
    }
    let lead = bytes[0];
    if lead < 0x80 {
        return Some(1);
    }
    if bytes.len() < 4 {
        return match First::by_bytes(bytes) {
            First::Ascii => Some(1),
            First::Character(length) => Some(length),
            First::Malformed(_) => None,
            First::Incomplete => None,
        };
    }
    if 0xC2 <= lead && lead < 0xE0 {
        return is_continuation(bytes[1]).then_some(2);
    }
    if lead < 0xF0 {
        let (second, third) = (bytes[1], bytes[2]);
        law_table(lead, second, third, 0);
        let common = UTF8_DATA.table[second as usize] & UTF8_DATA.table[lead as usize + 0x80];
        // never 2 after a first byte of 0x80 to 0xC1
        if common | (third >> 6) != 2 {
            return None;
        }
        return Some(3);
    }
    let (second, third, fourth) = (bytes[1], bytes[2], bytes[3]);
    law_table(lead, second, third, fourth);
    let common = UTF8_DATA.table[second as usize] & UTF8_DATA.table[lead as usize + 0x80];
    if u16::from(common) | u16::from(third >> 6) | (u16::from(fourth & 0xC0) << 2) != 0x202 {
        return None;
    }
    Some(4)
}
