//! The lengths that suffice.
ghost use Rattle.std.specs.Prelude.{◌+◌, ◌≤◌};
ghost use Rattle.std.specs.Option.{SomeIff};
ghost use Rattle.encoding_streams.specs.Decoders.{queried_in, max_utf16_length_in, max_utf8_length_in};
ghost use Rattle.encoding_streams.specs.Decoders.{max_utf8_length_with_replacement_in};

use crate::encoding::{BomHandling, Encoding};

/// Returns the queried length in UTF-16 in an encoding.
fn utf16_length(encoding: Encoding, byte_length: usize, pending: usize) -> Option<usize>
    ensures { SomeIff result (byte_length + pending + 1 ≤ usize.MAX)
        (max_utf16_length_in encoding byte_length pending) }
{
    let bytes = byte_length.checked_add(pending)?.checked_add(1)?;
    match encoding {
        Encoding::Utf8 => Some(bytes),
        Encoding::Utf16Le => Some(bytes / 2 + 1),
        Encoding::Utf16Be => Some(bytes / 2 + 1),
    }
}

/// Returns the queried length in UTF-8 in an encoding, with U+FFFD for each malformed sequence.
fn replaced_length(encoding: Encoding, byte_length: usize, pending: usize) -> Option<usize>
    ensures { SomeIff result
        (max_utf8_length_with_replacement_in encoding byte_length pending ≤ usize.MAX)
        (max_utf8_length_with_replacement_in encoding byte_length pending) }
{
    let bytes = byte_length.checked_add(pending)?.checked_add(1)?;
    match encoding {
        Encoding::Utf8 => bytes.checked_mul(3),
        Encoding::Utf16Le => (bytes / 2).checked_mul(3)?.checked_add(1),
        Encoding::Utf16Be => (bytes / 2).checked_mul(3)?.checked_add(1),
    }
}

/// Returns the queried length in UTF-8 in an encoding, with nothing for malformed sequences.
fn utf8_length(encoding: Encoding, byte_length: usize, pending: usize) -> Option<usize>
    ensures { SomeIff result (max_utf8_length_in encoding byte_length pending ≤ usize.MAX)
        (max_utf8_length_in encoding byte_length pending) }
{
    let bytes = byte_length.checked_add(pending)?.checked_add(1)?;
    match encoding {
        Encoding::Utf8 => bytes.checked_add(2),
        Encoding::Utf16Le => (bytes / 2).checked_mul(3)?.checked_add(1),
        Encoding::Utf16Be => (bytes / 2).checked_mul(3)?.checked_add(1),
    }
}

/// Returns the queried length in UTF-16 of a decoder: the greatest of the encodings that a mark may decide.
pub(super) fn utf16_query(
    bom: BomHandling,
    encoding: Encoding,
    byte_length: usize,
    pending: usize,
) -> Option<usize>
    ensures { SomeIff result (byte_length + pending + 1 ≤ usize.MAX)
        (queried_in max_utf16_length_in bom encoding byte_length pending) }
{
    match bom {
        BomHandling::Off => utf16_length(encoding, byte_length, pending),
        BomHandling::Remove => utf16_length(encoding, byte_length, pending),
        BomHandling::Sniff => {
            let utf8 = utf16_length(Encoding::Utf8, byte_length, pending)?;
            let little = utf16_length(Encoding::Utf16Le, byte_length, pending)?;
            let big = utf16_length(Encoding::Utf16Be, byte_length, pending)?;
            Some(utf8.max(little.max(big)))
        }
    }
}

/// Returns the queried length in UTF-8 of a decoder, with U+FFFD for each malformed sequence: the greatest of the
/// encodings that a mark may decide.
pub(super) fn replaced_query(
    bom: BomHandling,
    encoding: Encoding,
    byte_length: usize,
    pending: usize,
) -> Option<usize>
    ensures { SomeIff result
        (queried_in max_utf8_length_with_replacement_in bom encoding byte_length
        pending ≤ usize.MAX)
        (queried_in max_utf8_length_with_replacement_in bom encoding byte_length pending) }
{
    match bom {
        BomHandling::Off => replaced_length(encoding, byte_length, pending),
        BomHandling::Remove => replaced_length(encoding, byte_length, pending),
        BomHandling::Sniff => {
            let utf8 = replaced_length(Encoding::Utf8, byte_length, pending)?;
            let little = replaced_length(Encoding::Utf16Le, byte_length, pending)?;
            let big = replaced_length(Encoding::Utf16Be, byte_length, pending)?;
            Some(utf8.max(little.max(big)))
        }
    }
}

/// Returns the queried length in UTF-8 of a decoder, with nothing for malformed sequences: the greatest of the
/// encodings that a mark may decide.
pub(super) fn utf8_query(
    bom: BomHandling,
    encoding: Encoding,
    byte_length: usize,
    pending: usize,
) -> Option<usize>
    ensures { SomeIff result
        (queried_in max_utf8_length_in bom encoding byte_length pending ≤ usize.MAX)
        (queried_in max_utf8_length_in bom encoding byte_length pending) }
{
    match bom {
        BomHandling::Off => utf8_length(encoding, byte_length, pending),
        BomHandling::Remove => utf8_length(encoding, byte_length, pending),
        BomHandling::Sniff => {
            let utf8 = utf8_length(Encoding::Utf8, byte_length, pending)?;
            let little = utf8_length(Encoding::Utf16Le, byte_length, pending)?;
            let big = utf8_length(Encoding::Utf16Be, byte_length, pending)?;
            Some(utf8.max(little.max(big)))
        }
    }
}
