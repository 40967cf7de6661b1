//! UTF-16 by itself.

pub mod bytes;
pub mod count;
pub mod length;
pub mod source;
pub mod unpaired;
pub mod validate;
