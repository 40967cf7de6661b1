//! How a character is spelled in bytes of UTF-8 and in code units of UTF-16, for functions over either. No other public
//! item names the trait: it is for the crates over this one.
ghost use Rattle.std.specs.Prelude.{ℕ, List, encode_utf8};
ghost use Rattle.std.specs.Char.Escape.{encode_utf16};

/// Bytes of UTF-8, or code units of UTF-16.
pub trait CodeUnit: Copy {
    // a scalar value in these code units
    ghost encode: { ℕ → List Self };

    ghost MAX_UNITS: { ℕ };

    /// The most code units that a character takes: the space that a call needs to make progress.
    const MAX_UNITS: usize;
}

impl CodeUnit for u16 {
    ghost encode = { encode_utf16 };

    ghost MAX_UNITS = { 2 };

    const MAX_UNITS: usize = 2;
}

impl CodeUnit for u8 {
    ghost encode = { encode_utf8 };

    ghost MAX_UNITS = { 4 };

    const MAX_UNITS: usize = 4;
}
