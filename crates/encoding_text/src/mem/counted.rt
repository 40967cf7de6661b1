//! Conversions from UTF-16 with the number of unpaired surrogates that they replaced. A second pass over what was read
//! counts them.

ghost use Rattle.std.specs.Prelude.{◌≡◌, ◌≤◌, length, take};
ghost use Rattle.std.specs.Str.{IsUtf8};
ghost use Rattle.encoding_definitions.specs.Clearing.{WritesAndClears};
ghost use Rattle.encoding_definitions.specs.Prefixes.{WritesPrefix};
ghost use Rattle.encoding_definitions.specs.Surrogates.{HasUnpaired};
ghost use Rattle.encoding_definitions.specs.Utf16.{IsUtf8OfLongestPrefix};

use crate::mem::text_destinations::convert_utf16_to_str_partial;
use crate::utf_8::from_utf16::convert_utf16_to_utf8_partial;
use encoding_kernels::utf16::unpaired::unpaired_of_units;

/// `convert_utf16_to_utf8_partial`, which also returns how many of the code units that it read are unpaired surrogates:
/// U+FFFD was written for each.
pub fn convert_utf16_to_utf8_partial_with_count(
    src: &[u16],
    dst: &mut [u8],
) -> (usize, usize, usize)
    ensures longest { IsUtf8OfLongestPrefix src.now (length dst.old) result.0
        (take result.1 dst.new) }
    ensures within { result.0 ≤ length src.now }
    ensures unchanged_after { WritesPrefix dst.old dst.new result.1 (take result.1 dst.new) }
    ensures replaced { HasUnpaired (take result.0 src.now) result.2 }
{
    let (read, written) = convert_utf16_to_utf8_partial(src, dst);
    (read, written, unpaired_of_units(&src[..read]))
}

/// `convert_utf16_to_str_partial`, which also returns how many of the code units that it read are unpaired surrogates:
/// U+FFFD was written for each.
pub fn convert_utf16_to_str_partial_with_count(src: &[u16], dst: &mut [u8]) -> (usize, usize, usize)
    requires text { IsUtf8 dst.old }
    ensures longest { IsUtf8OfLongestPrefix src.now (length dst.old) result.0
        (take result.1 dst.new) }
    ensures within { result.0 ≤ length src.now }
    ensures unchanged_after { WritesAndClears 0 dst.old dst.new result.1 (take result.1 dst.new) }
    ensures text { IsUtf8 dst.new }
    ensures replaced { HasUnpaired (take result.0 src.now) result.2 }
{
    let (read, end) = convert_utf16_to_str_partial(src, dst);
    (read, end, unpaired_of_units(&src[..read]))
}
