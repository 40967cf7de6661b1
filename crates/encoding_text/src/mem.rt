//! Checks and conversions of whole texts in memory: ASCII, Latin1, UTF-8 and UTF-16.

mod bidi;
mod borrowed;
mod checks;
mod copies;
mod counted;
mod latin1;
mod lengths;
mod replacing;
mod surrogates;
mod text_destinations;
mod to_utf16;
mod utf8_to_latin1;

pub use crate::utf_8::from_utf16::{convert_utf16_to_utf8, convert_utf16_to_utf8_partial};
pub use bidi::{
    Latin1Bidi, check_str_for_latin1_and_bidi, check_utf8_for_latin1_and_bidi,
    check_utf16_for_latin1_and_bidi, is_char_bidi, is_str_bidi, is_utf8_bidi, is_utf16_bidi,
    is_utf16_code_unit_bidi,
};
pub use borrowed::{CowBytes, CowStr, decode_latin1, encode_latin1_lossy};
pub use checks::{
    is_ascii, is_basic_latin, is_str_latin1, is_utf8_latin1, is_utf16_latin1, str_latin1_up_to,
    utf8_latin1_up_to,
};
pub use copies::{copy_ascii_to_ascii, copy_ascii_to_basic_latin, copy_basic_latin_to_ascii};
pub use counted::{
    convert_utf16_to_str_partial_with_count, convert_utf16_to_utf8_partial_with_count,
};
pub use latin1::{
    convert_latin1_to_utf8, convert_latin1_to_utf8_partial, convert_latin1_to_utf16,
    convert_utf16_to_latin1_lossy,
};
pub use lengths::{
    latin1_length_from_utf8, utf8_length_from_latin1, utf8_length_from_utf16,
    utf16_length_from_str, utf16_length_from_utf8,
};
pub use replacing::{convert_utf8_to_utf16_partial, repair_slice_partial};
pub use surrogates::{ensure_utf16_validity, utf16_valid_up_to};
pub use text_destinations::{
    clear_continuation_bytes, convert_latin1_to_str, convert_latin1_to_str_partial,
    convert_utf16_to_str, convert_utf16_to_str_partial,
};
pub use to_utf16::{
    convert_str_to_utf16, convert_utf8_to_utf16, convert_utf8_to_utf16_without_replacement,
};
pub use utf8_to_latin1::{convert_utf8_to_latin1, convert_utf8_to_latin1_lossy};
