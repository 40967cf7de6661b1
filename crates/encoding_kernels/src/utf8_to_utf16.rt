//! The UTF-16 of well-formed UTF-8: `text` converts by groups of 64 bytes, and these by `strides`.

mod strides;
pub mod text;
