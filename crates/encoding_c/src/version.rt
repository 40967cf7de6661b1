//! The version of the library.

ghost use Rattle.std.specs.Prelude.{◌≡◌};

/// The version 0.1.1: 10,000 times the major number, plus 100 times the minor, plus the patch number.
const VERSION: u32 = 101;

/// Returns the version of the library, as in the header's `ENCODING_TEXT_VERSION`.
#[unsafe(no_mangle)]
pub extern "C" fn encoding_text_version() -> u32
    ensures { result ≡ 101 }
{
    VERSION
}
