//! What functions for C return: numbers for C, and results that report a violated precondition. Also the precondition
//! that most functions have.

ghost use Rattle.std.specs.Prelude.{◌≡◌, IfSome, IfNone, IsUtf8};

use encoding_text::utf_8::utf8_valid_up_to;

/// The value of a length if a precondition is violated: no slice has this length.
pub const INVALID_ARGUMENT: usize = usize::MAX;

/// The value of any other number if a precondition is violated.
pub const INVALID_ARGUMENT_U8: u8 = u8::MAX;

/// The buffer is Latin1.
pub const LATIN1: u8 = 0;

/// It is neither Latin1 nor right-to-left.
pub const LEFT_TO_RIGHT: u8 = 1;

/// It is right-to-left, and not Latin1.
pub const BIDI: u8 = 2;

/// The number of code units or bytes of the source that were read, and of the destination that were written.
#[repr(C)]
#[derive(Clone, Copy)]
pub struct EncodingProgress {
    pub read: usize,
    pub written: usize,
}

/// The value of both counts if a precondition is violated.
pub(crate) const INVALID_ARGUMENT_PROGRESS: EncodingProgress = EncodingProgress {
    read: INVALID_ARGUMENT,
    written: INVALID_ARGUMENT,
};

/// The length of an ASCII prefix, and the first code unit or byte after it, 0 if there is none.
#[repr(C)]
#[derive(Clone, Copy)]
pub struct EncodingPrefix {
    pub length: usize,
    pub other: u16,
}

/// Returns the bytes as a text if they are well-formed.
pub(crate) fn as_text<'a>(bytes: &'a [u8]) -> Option<&'a str>
    ensures if_some { IfSome result (λ text. IsUtf8 bytes.now × (text.now ≡ bytes.now)) }
    ensures if_none { IfNone result (¬ (IsUtf8 bytes.now)) }
{
    if utf8_valid_up_to(bytes) == bytes.len() {
        Some(unsafe { std::str::from_utf8_unchecked(bytes) })
    } else {
        None
    }
}
