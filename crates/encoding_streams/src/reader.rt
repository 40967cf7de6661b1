//! A reader of text whose encoding a byte order mark decides: Encoding Standard, "decode".
ghost use Rattle.std.specs.Prelude.{◌≡◌, IfOk, IfSome, option_map, string_bytes};
ghost use Rattle.encoding_streams.specs.Marks.{without_mark};

use crate::decoder::Decoder;
use crate::encoding::{BomHandling, Encoding};
use std::alloc::Global;
use std::io::{Error, ErrorKind, Read};
use std::{io, str};

/// How many bytes are read at a time.
const BLOCK: usize = 1024;

/// The text of a block after three pending bytes fits into this many bytes, whatever its encoding.
const BLOCK_LENGTH: usize = 3084;

/// Returns the text of the bytes of `inner`, in UTF-8. A byte order mark decides the encoding of the bytes.
#[derive(Drop)]
pub struct TextReader<R> {
    inner: R,
    decoder: Decoder,
}

impl<R: Read> TextReader<R> {
    ghost use Rattle.encoding_streams.specs.TextReading.{stream_left, encoding_of, IsTextOf};

    /// Creates a reader of the text of the bytes of `inner`. If they start with the byte order mark of UTF-8, UTF-16LE
    /// or UTF-16BE, that is their encoding, and the mark is removed. Otherwise their encoding is `encoding`.
    pub fn new(inner: R, encoding: Encoding) -> TextReader<R>
        ensures { stream_left R.remaining result
            ≡ option_map (without_mark BomHandling.Sniff encoding) (R.remaining inner) }
    {
        TextReader {
            inner,
            decoder: encoding.new_decoder(),
        }
    }

    /// Returns the encoding: that of the mark, once one was read.
    pub fn encoding(&self) -> Encoding
        ensures { result ≡ encoding_of self.now }
    {
        self.decoder.encoding()
    }

    /// Reads everything as text, with U+FFFD for each malformed sequence. Afterwards `encoding` returns the encoding of
    /// the bytes.
    ///
    /// An error is that of `inner`, or means that an allocation failed, or that no end was reached in `u64::MAX` reads.
    /// What was read before it is lost.
    pub fn read_text(&mut self, alloc: Global) -> io::Result<String>
        ensures text { IfOk result (λ text. IfSome (stream_left R.remaining self.old)
            (λ before. IsTextOf before (string_bytes text))) }
        ensures encoding { IfOk result (λ text. IfSome (stream_left R.remaining self.old)
            (λ before. encoding_of self.new ≡ before.0)) }
    {
        let mut text = String::new(alloc);
        let mut block = [0; BLOCK];
        let mut decoded = [0; BLOCK_LENGTH];
        for _ in 0..u64::MAX {
            let count = self.inner.read(&mut block)?;
            let last = count == 0;
            // its length is at most three
            let _pending = self.decoder.pending();
            let (_, _, written, _) = self
                .decoder
                .decode_to_utf8(&block[..count], &mut decoded, last);
            text.push_str(unsafe { str::from_utf8_unchecked(&decoded[..written]) })?;
            if last {
                return Ok(text);
            }
        }
        Err(Error::from(ErrorKind::Other))
    }
}
