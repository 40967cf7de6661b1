//! Conversions of bytes with U+FFFD for each malformed sequence, into a destination of any length. The rest of `dst` is
//! unchanged.

ghost use Rattle.std.specs.Prelude.{◌≡◌, ◌↔◌, ℕ, true, length, encode_utf8};
ghost use Rattle.std.specs.Char.Escape.{encode_utf16};
ghost use Rattle.encoding_text.specs.Replacing.{ConvertsParts};

use crate::blocks::EncodingRepairBlockResult;
use crate::status::EncodingProgress;
use encoding_text::mem;

/// Converts the first characters to UTF-16, as many as fit, with U+FFFD for each malformed sequence.
#[unsafe(no_mangle)]
pub extern "C" fn encoding_text_mem_convert_utf8_to_utf16_partial(
    src: &[u8],
    dst: &mut [u16],
) -> EncodingProgress
    ensures { (replaced : ℕ) × ConvertsParts encode_utf16 src.now dst.old dst.new result.read
        result.written replaced }
{
    let (read, written) = mem::convert_utf8_to_utf16_partial(src, dst);
    EncodingProgress { read, written }
}

/// Writes the first characters, as many as fit, with U+FFFD for each malformed sequence. It is finished if all of `src`
/// was read.
#[unsafe(no_mangle)]
pub extern "C" fn encoding_text_repair_slice_partial(
    src: &[u8],
    dst: &mut [u8],
) -> EncodingRepairBlockResult
    ensures longest { ConvertsParts encode_utf8 src.now dst.old dst.new result.read result.written
        result.replaced }
    ensures finished { (result.finished ≡ true) ↔ (result.read ≡ length src.now) }
{
    let (read, written, replaced) = mem::repair_slice_partial(src, dst);
    EncodingRepairBlockResult {
        read,
        written,
        replaced,
        finished: read == src.len(),
    }
}
