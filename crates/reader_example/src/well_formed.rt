//! Whether the bytes of a reader are well-formed text.
ghost use Rattle.std.specs.Prelude.{◌↔◌, IfOk, IfSome, IsTrue};
ghost use Rattle.std.specs.Io.KnownBytes.{IsAtEnd};
ghost use Rattle.std.specs.Str.{IsUtf8};

use encoding_runs::laws::{law_block_repair, law_parts};
use encoding_runs::repair::repair_block;
use encoding_text::decoder::Utf8Decoder;
use std::io;
use std::io::{Error, ErrorKind, Read};

/// How many bytes are read at a time.
const BLOCK: usize = 1024;

/// A block, after three pending bytes, is finished in this many bytes if none of it is malformed.
const BLOCK_LENGTH: usize = 1034;

/// Returns whether all bytes of a reader are well-formed UTF-8, in constant memory. Reads to the end, or up to the end
/// of the block with the first malformed sequence. An error is the reader's, or means that no end was reached in
/// `u64::MAX` reads.
pub fn is_well_formed<R: Read>(reader: &mut R) -> io::Result<bool>
    ensures answer { IfOk result
        (λ answer. IfSome (R.remaining reader.old) (λ bytes. IsTrue answer ↔ IsUtf8 bytes)) }
    ensures end { IfOk result (λ answer. IsTrue answer → IsAtEnd (R.remaining reader.new)) }
{
    law_block_repair();
    law_parts();
    let mut decoder = Utf8Decoder::new_inner();
    let mut block = [0; BLOCK];
    let mut text = [0; BLOCK_LENGTH];
    for _ in 0..u64::MAX {
        let count = reader.read(&mut block)?;
        let last = count == 0;
        let repaired = repair_block(&mut decoder, &block[..count], &mut text, last);
        if repaired.replaced > 0 {
            return Ok(false);
        }
        if last {
            return Ok(true);
        }
    }
    Err(Error::from(ErrorKind::Other))
}
