//! UTF-8: Unicode Standard, section 3.9, and Encoding Standard, section 8.1.
mod encoder;
pub(crate) mod first;
pub(crate) mod from_utf16;
mod table;
mod to_utf16;
mod validate;

pub use encoder::{EncoderResult, Utf8Encoder};
pub use from_utf16::{convert_utf16_to_utf8_partial_inner, convert_utf16_to_utf8_partial_tail};
pub use table::{UTF8_DATA, Utf8Data, law_table};
pub use to_utf16::convert_utf8_to_utf16_up_to_invalid;
pub(crate) use to_utf16::{FromUtf8, convert_beyond_ascii, convert_text};
pub use validate::utf8_valid_up_to;
pub(crate) use validate::valid_beyond_ascii;
