//! UTF-16LE and UTF-16BE: bytes to code units, and back.

ghost use Rattle.std.specs.Prelude.{◌≡◌, ℕ, ◌*◌, ◌/◌, List, length, min, take};
ghost use Rattle.encoding_definitions.specs.Prefixes.{WritesPrefix};
ghost use Rattle.encoding_text.specs.Utf16Bytes.{utf16_bytes};
ghost use Rattle.encoding_text.specs.declared.utf_16.ByteOrder.TheVariants.{LittleEndian, BigEndian};

use crate::status::EncodingProgress;
use encoding_text::utf_16::{ByteOrder, decode_utf16_bytes, encode_utf16_bytes};

/// Converts UTF-16LE to code units, as many as `dst` holds. The last byte of an odd number is not read.
#[unsafe(no_mangle)]
pub extern "C" fn encoding_text_decode_utf16le(src: &[u8], dst: &mut [u16]) -> EncodingProgress
    ensures count { result.written ≡ min (length src.now / 2) (length dst.old) }
    ensures read { result.read ≡ 2 * result.written }
    ensures code_units { (units : List ℕ)
        × (utf16_bytes LittleEndian units ≡ take result.read src.now)
        × WritesPrefix dst.old dst.new result.written units }
{
    let (read, written) = decode_utf16_bytes(ByteOrder::LittleEndian, src, dst);
    EncodingProgress { read, written }
}

/// Converts UTF-16BE to code units, as many as `dst` holds. The last byte of an odd number is not read.
#[unsafe(no_mangle)]
pub extern "C" fn encoding_text_decode_utf16be(src: &[u8], dst: &mut [u16]) -> EncodingProgress
    ensures count { result.written ≡ min (length src.now / 2) (length dst.old) }
    ensures read { result.read ≡ 2 * result.written }
    ensures code_units { (units : List ℕ)
        × (utf16_bytes BigEndian units ≡ take result.read src.now)
        × WritesPrefix dst.old dst.new result.written units }
{
    let (read, written) = decode_utf16_bytes(ByteOrder::BigEndian, src, dst);
    EncodingProgress { read, written }
}

/// Converts code units to UTF-16LE, as many as fit into `dst`.
#[unsafe(no_mangle)]
pub extern "C" fn encoding_text_encode_utf16le(src: &[u16], dst: &mut [u8]) -> EncodingProgress
    ensures count { result.read ≡ min (length src.now) (length dst.old / 2) }
    ensures written { result.written ≡ 2 * result.read }
    ensures bytes { WritesPrefix dst.old dst.new result.written
        (utf16_bytes LittleEndian (take result.read src.now)) }
{
    let (read, written) = encode_utf16_bytes(ByteOrder::LittleEndian, src, dst);
    EncodingProgress { read, written }
}

/// Converts code units to UTF-16BE, as many as fit into `dst`.
#[unsafe(no_mangle)]
pub extern "C" fn encoding_text_encode_utf16be(src: &[u16], dst: &mut [u8]) -> EncodingProgress
    ensures count { result.read ≡ min (length src.now) (length dst.old / 2) }
    ensures written { result.written ≡ 2 * result.read }
    ensures bytes { WritesPrefix dst.old dst.new result.written
        (utf16_bytes BigEndian (take result.read src.now)) }
{
    let (read, written) = encode_utf16_bytes(ByteOrder::BigEndian, src, dst);
    EncodingProgress { read, written }
}
