//! Readers of text over any reader of bytes: one of UTF-8 and one of UTF-16. Both return the repaired text of the inner
//! reader's bytes: each malformed sequence becomes U+FFFD. Encoding Standard, UTF-8 decode without BOM.
mod buffer;
mod utf16_reader;
mod utf8_reader;

pub use utf8_reader::Utf8Reader;
pub use utf16_reader::Utf16Reader;
