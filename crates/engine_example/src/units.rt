//! The code units of a text in sequence: whether they are a text, their repair, their UTF-8 through a small buffer, and
//! whether a character of them is right-to-left.

ghost use Rattle.std.specs.Prelude.{◌≡◌, ◌↔◌, List, ℕ, Any, IfOk, IsTrue, encode_utf8_all, false, string_bytes};
ghost use Rattle.std.specs.Char.Escape.{encode_utf16};
ghost use Rattle.std.specs.Char.Utf16.{utf16_lossy_chars, has_unpaired_surrogate};
ghost use Rattle.std.specs.List.{flat_map};
ghost use Rattle.std.specs.Str.{all_scalars, chars};
ghost use Rattle.encoding_text.specs.Bidi.{IsRightToLeft};
ghost use Rattle.encoding_text.specs.Surrogates.{IsValidUtf16, AreRepairedUnits, ReplacesUnpaired};
ghost use Rattle.encoding_text.specs.Utf16.{IsUtf8OfUnits};

use encoding_runs::laws::{
    law_bidi_agrees, law_partial_repeats, law_surrogate_repair, law_utf16_round_trip,
};
use encoding_text::mem::{
    convert_utf16_to_utf8, convert_utf16_to_utf8_partial, ensure_utf16_validity, is_str_bidi,
    is_utf16_bidi, utf16_valid_up_to,
};
use std::alloc::{AllocError, Global};

/// The bytes that `utf8_of_units` writes at once: four or more, so that each character fits.
const DST_LENGTH: usize = 64;

/// Returns whether the code units are the UTF-16 of a text. If so, `String::from_utf16` returns that text, and
/// otherwise an error.
pub fn is_text(units: &[u16]) -> bool
    ensures text { IsTrue result ↔ ((cs : List ℕ) × IsTrue (all_scalars cs)
        × (units.now ≡ flat_map encode_utf16 cs)) }
    ensures paired { IsTrue result ↔ (has_unpaired_surrogate units.now ≡ false) }
{
    law_surrogate_repair();
    utf16_valid_up_to(units) == units.len()
}

/// Returns the text of code units, with U+FFFD for each unpaired surrogate, as `String::from_utf16_lossy` does. An `Err`
/// means that an allocation failed.
pub fn text_of_units(alloc: Global, units: &[u16]) -> Result<String, AllocError>
    ensures { IfOk result
        (λ text. string_bytes text ≡ encode_utf8_all (utf16_lossy_chars units.now)) }
{
    let mut bytes = Vec::new(alloc);
    bytes.resize(units.len().checked_mul(3).ok_or(AllocError)?, 0)?;
    let written = convert_utf16_to_utf8(units, &mut bytes);
    bytes.truncate(written);
    Ok(unsafe { String::from_utf8_unchecked(bytes) })
}

/// Replaces each unpaired surrogate with U+FFFD. The code units are then the UTF-16 of the text that
/// `String::from_utf16_lossy` returns for them, no index changes, and a second repair changes nothing.
pub fn repair_units(units: &mut [u16])
    ensures repaired { AreRepairedUnits units.old units.new }
    ensures text { units.new ≡ flat_map encode_utf16 (utf16_lossy_chars units.old) }
    ensures valid { IsValidUtf16 units.new }
    ensures places { ReplacesUnpaired units.old units.new }
    ensures stays { IsValidUtf16 units.old → units.new ≡ units.old }
    ensures twice { AreRepairedUnits units.new units.new }
{
    law_surrogate_repair();
    ensure_utf16_validity(units);
}

/// Returns whether `kept` is still the repaired text of these code units. An `Err` means that an allocation failed.
pub fn is_repaired(alloc: Global, units: &[u16], kept: &[u16]) -> Result<bool, AllocError>
    ensures { IfOk result (λ is. IsTrue is ↔ AreRepairedUnits units.now kept.now) }
{
    law_surrogate_repair();
    let mut repaired = Vec::new(alloc);
    repaired.extend_from_slice(units)?;
    ensure_utf16_validity(&mut repaired);
    Ok(repaired.as_slice() == kept)
}

/// Returns the UTF-8 of the code units, written in turns into one small buffer: that of `String::from_utf16_lossy`. An
/// `Err` means that an allocation failed.
pub fn utf8_of_units(alloc: Global, units: &[u16]) -> Result<Vec<u8>, AllocError>
    ensures { IfOk result (λ bytes. bytes.items ≡ encode_utf8_all (utf16_lossy_chars units.now)) }
{
    law_partial_repeats();
    law_utf16_round_trip();
    let mut room = [0; DST_LENGTH];
    let mut bytes = Vec::new(alloc);
    let mut read = 0;
    while read < units.len() {
        let (more, written) = convert_utf16_to_utf8_partial(&units[read..], &mut room);
        bytes.extend_from_slice(&room[..written])?;
        read += more;
    }
    Ok(bytes)
}

/// Returns whether a character of the code units is right-to-left. They are repaired first: an unpaired high surrogate
/// might be half of such a character.
pub fn has_right_to_left(units: &mut [u16]) -> bool
    ensures repaired { AreRepairedUnits units.old units.new }
    ensures right_to_left { IsTrue result ↔ Any IsRightToLeft (utf16_lossy_chars units.old) }
{
    law_bidi_agrees();
    law_surrogate_repair();
    repair_units(units);
    is_utf16_bidi(units)
}

/// Returns whether a character of the text is right-to-left: the same as for its UTF-16.
pub fn text_has_right_to_left(text: &str) -> bool
    ensures { IsTrue result ↔ Any IsRightToLeft (chars text.now) }
{
    law_bidi_agrees();
    is_str_bidi(text)
}

/// Code units may be repaired before they are converted to UTF-8, or not: the bytes are the same.
pub fn law_repair_first()
    ensures { (units repaired out : List ℕ) → AreRepairedUnits units repaired
        → IsUtf8OfUnits units out ↔ IsUtf8OfUnits repaired out }
{
    law_surrogate_repair();
}
