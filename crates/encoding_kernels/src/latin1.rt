//! Latin1 from and to UTF-8.

pub mod from_utf8;
pub mod length;
pub mod to_utf8;
pub mod validate;
