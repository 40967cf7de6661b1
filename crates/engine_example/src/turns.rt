//! An encoder run by turns, each with a small piece and a small destination.

ghost use Rattle.std.specs.Prelude.{◌≡◌, ℕ, List, length, map, IfOk, Some, None, encode_utf8_all, string_bytes};
ghost use Rattle.std.specs.Char.Utf16.{utf16_lossy_chars};
ghost use Rattle.std.specs.List.{last_or};
ghost use Rattle.encoding_text.specs.Utf16.{AreCodeUnits, IsUtf8OfUnits};
ghost use Rattle.encoding_text.specs.declared.utf_8.encoder.EncoderResult.{EncoderResult};
ghost use Rattle.encoding_text.specs.declared.utf_8.encoder.EncoderResult.TheVariants.{InputEmpty};
ghost use Rattle.encoding_runs.specs.declared.run.turns.Turn.{Turn};
ghost use Rattle.encoding_runs.specs.Calls.{Call, output_of};
ghost use Rattle.encoding_runs.specs.Runs.{EachMakesProgress};
ghost use Rattle.engine_example.specs.SmallTurns.{AreEnough};

use encoding_runs::laws::{law_encoder_cuts, law_utf16_round_trip};
use encoding_runs::run::{Turn, run_from_utf16};
use encoding_text::utf_8::Utf8Encoder;
use std::alloc::{AllocError, Global};

/// The code units that a turn takes.
const TURN_LENGTH: usize = 7;

/// The bytes that a turn may write: four or more, so that each character fits.
const DST_LENGTH: usize = 16;

/// Returns `count` turns. An `Err` means that an allocation failed.
fn small_turns(alloc: Global, count: usize) -> Result<Vec<Turn>, AllocError>
    ensures turn_count { IfOk result (λ turns. length turns.items ≡ count) }
    ensures each { IfOk result (λ turns. EachMakesProgress 4 turns.items) }
{
    let mut turns = Vec::new(alloc);
    for _ in 0..count {
        turns.push(Turn {
            take: TURN_LENGTH,
            room: DST_LENGTH,
            last: true,
        })?;
    }
    Ok(turns)
}

/// Returns the UTF-8 of the code units, with one call for each of enough turns, and U+FFFD for each unpaired surrogate.
/// An `Err` means that an allocation failed.
pub fn utf8_by_turns(alloc: Global, units: &[u16]) -> Result<Vec<u8>, AllocError>
    ensures { IfOk result (λ bytes. IsUtf8OfUnits units.now bytes.items) }
{
    law_encoder_cuts();
    let mut encoder = Utf8Encoder::new_inner();
    let Some(room) = encoder.max_buffer_length_from_utf16_without_replacement(units.len()) else {
        return Err(AllocError);
    };
    let Some(twice) = units.len().checked_mul(2) else {
        return Err(AllocError);
    };
    let turns = small_turns(alloc, twice.checked_add(2).ok_or(AllocError)?)?;
    let mut bytes = Vec::new(alloc);
    bytes.resize(room, 0)?;
    let outcome = run_from_utf16(&mut encoder, units, &turns, &mut bytes);
    bytes.truncate(outcome.written);
    Ok(bytes)
}

/// Returns the same bytes as a text: that of `String::from_utf16_lossy`. An `Err` means that an allocation failed.
pub fn text_by_turns(alloc: Global, units: &[u16]) -> Result<String, AllocError>
    ensures { IfOk result
        (λ text. string_bytes text ≡ encode_utf8_all (utf16_lossy_chars units.now)) }
{
    law_utf16_round_trip();
    let bytes = utf8_by_turns(alloc, units)?;
    // The UTF-8 of code units is well-formed, so no second look at it is needed.
    Ok(unsafe { String::from_utf8_unchecked(bytes) })
}

/// If turns are enough for all of the code units, the last call returns `InputEmpty`. The bytes are those of any other
/// such turns, however these cut the code units and the destination.
pub fn law_turns()
    ensures ends { (units : List ℕ) (turns : List Turn) (room : ℕ)
        (calls : List (Call ℕ EncoderResult ℕ))
        → AreEnough units turns room calls
        → last_or None (map (λ call. call.result) calls) ≡ Some InputEmpty }
    ensures same { (units : List ℕ) (turns others : List Turn) (room more : ℕ)
        (calls again : List (Call ℕ EncoderResult ℕ)) → AreCodeUnits units
        → AreEnough units turns room calls
        → AreEnough units others more again → output_of calls ≡ output_of again }
{
    law_encoder_cuts();
    law_utf16_round_trip();
}
