//! Unpaired surrogates in UTF-16.

ghost use Rattle.encoding_definitions.specs.Prefixes.{IsLongestPrefix};
ghost use Rattle.encoding_definitions.specs.Surrogates.{IsValidUtf16, AreRepairedUnits};

use encoding_text::mem;

/// Returns the index of the first unpaired surrogate, or the length of `buffer`.
#[unsafe(no_mangle)]
pub extern "C" fn encoding_text_mem_utf16_valid_up_to(buffer: &[u16]) -> usize
    ensures { IsLongestPrefix IsValidUtf16 buffer.now result }
{
    mem::utf16_valid_up_to(buffer)
}

/// Replaces each unpaired surrogate by U+FFFD. All other code units are unchanged.
#[unsafe(no_mangle)]
pub extern "C" fn encoding_text_mem_ensure_utf16_validity(buffer: &mut [u16])
    ensures { AreRepairedUnits buffer.old buffer.new }
{
    mem::ensure_utf16_validity(buffer);
}
