//! All bytes of a reader as a text, in which each malformed sequence is U+FFFD. And whether they are well-formed UTF-8.
#![tactic(auto)]

mod well_formed;

ghost use Rattle.std.specs.Prelude.{◌≡◌, IfOk, IfSome, string_bytes};
ghost use Rattle.std.specs.Str.Lossy.{utf8_lossy};

use encoding_runs::reader::Utf8Reader;
use std::alloc::Global;
use std::io;
use std::io::Read;
pub use well_formed::is_well_formed;

/// Reads everything from a reader as text. Fails with the reader's error, or if an allocation fails.
pub fn read_text<R: Read + Drop>(alloc: Global, inner: R) -> io::Result<String>
    ensures { IfOk result
        (λ text. IfSome (R.remaining inner) (λ bytes. string_bytes text ≡ utf8_lossy bytes)) }
{
    let mut text = String::new(alloc);
    Utf8Reader::new(inner).read_to_string(&mut text)?;
    Ok(text)
}
