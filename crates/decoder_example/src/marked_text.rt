//! All bytes of a reader as a text, whose encoding a byte order mark decides.
ghost use Rattle.std.specs.Prelude.{IfOk, IfSome, string_bytes};
ghost use Rattle.encoding_streams.specs.Marks.{without_mark};
ghost use Rattle.encoding_streams.specs.TextReading.{IsTextOf};
ghost use Rattle.encoding_streams.specs.declared.encoding.BomHandling.{BomHandling};

use encoding_streams::encoding::Encoding;
use encoding_streams::reader::TextReader;
use std::alloc::Global;
use std::io;
use std::io::Read;

/// Reads everything from a reader as text. Without a byte order mark its encoding is `encoding`. Fails with the reader's
/// error, or if an allocation fails.
pub fn read_marked_text<R: Read + Drop>(
    alloc: Global,
    inner: R,
    encoding: Encoding,
) -> io::Result<String>
    ensures { IfOk result (λ text. IfSome (R.remaining inner)
        (λ bytes. IsTextOf (without_mark BomHandling.Sniff encoding bytes) (string_bytes text))) }
{
    TextReader::new(inner, encoding).read_text(alloc)
}
