//! A reader of text in UTF-16, over the reader of UTF-8. It keeps half a pair if only one code unit fits.
ghost use Rattle.std.specs.Prelude.{◌≡◌, ◌≢◌, ◌<◌, ◌≤◌, [], length, take, IfOk, OnOk, OnErr, option_map};
ghost use Rattle.std.specs.Char.Escape.{encode_utf16};
ghost use Rattle.std.specs.Io.{ReadsAtMost};
ghost use Rattle.std.specs.Io.KnownBytes.{Keeps, ReadConsumes, IsAtEnd};
ghost use Rattle.std.specs.List.{flat_map};
ghost use Rattle.std.specs.Str.{chars};
ghost use Rattle.std.specs.Str.Lossy.{utf8_lossy};
ghost use Rattle.encoding_definitions.specs.Surrogates.{IsValidUtf16};

use crate::laws::{law_sequences, law_utf16_round_trip};
use crate::reader::buffer::Buffer;
use crate::reader::utf8_reader::Utf8Reader;
use encoding_text::mem::convert_str_to_utf16;
use std::io::Read;
use std::{io, str};

/// How many bytes of text are read at a time.
const BLOCK: usize = 1024;

/// A destination of this many bytes cuts no character.
const BLOCK_LENGTH: usize = 4;

/// Returns, in UTF-16, the repaired text of the bytes of `inner`.
#[derive(Drop)]
pub struct Utf16Reader<R> {
    inner: Utf8Reader<R>,
    // the second half of a pair, if it didn't fit
    held: Buffer<u16, 4>,
    ghost whole: { inner.held ≡ [] },
}

impl<R: Read> Utf16Reader<R> {
    ghost use Rattle.encoding_runs.specs.Reading.{units_left, half_of, IsUtf16Character, YieldsCharacters};

    /// Creates a reader of the text of the bytes of `inner`.
    pub fn new(inner: R) -> Utf16Reader<R>
        ensures units { units_left R.remaining result
            ≡ option_map (λ bytes. flat_map encode_utf16 (chars (utf8_lossy bytes)))
            (R.remaining inner) }
        ensures held { half_of result ≡ [] }
    {
        Utf16Reader {
            inner: Utf8Reader::new(inner),
            held: Buffer::new(0),
        }
    }

    fn decode(&mut self, bytes: &mut [u8], dst: &mut [u16]) -> io::Result<usize>
        requires bytes { 4 ≤ length bytes.old }
        requires dst_length { length bytes.old ≤ length dst.old }
        requires held { self.old.held ≡ [] }
        ensures bound { ReadsAtMost result dst.new }
        ensures units { ReadConsumes (units_left R.remaining self.old)
            (units_left R.remaining self.new) result dst.new }
        ensures whole { IfOk result (λ n. IsValidUtf16 (take n dst.new)) }
        ensures none_held { self.new.held ≡ [] }
    {
        law_utf16_round_trip();
        let count = self.inner.read(bytes)?;
        let text = unsafe { str::from_utf8_unchecked(&bytes[..count]) };
        Ok(convert_str_to_utf16(text, dst))
    }

    fn hold(&mut self) -> io::Result<()>
        requires held { self.old.held ≡ [] }
        ensures units { Keeps (units_left R.remaining self.old) (units_left R.remaining self.new) }
        ensures one { self.new.held ≢ [] → IsUtf16Character self.new.held }
        ensures end { OnOk result (self.new.held ≡ [] → IsAtEnd (units_left R.remaining self.new)) }
        ensures err { OnErr result (self.new.held ≡ []) }
    {
        law_sequences();
        let mut bytes = [0; BLOCK_LENGTH];
        let count = self.inner.character(&mut bytes)?;
        let character = unsafe { str::from_utf8_unchecked(&bytes[..count]) };
        let mut units = [0; BLOCK_LENGTH];
        let count = convert_str_to_utf16(character, &mut units);
        self.held.hold(&units[..count]);
        Ok(())
    }

    /// Returns the next code units of the text, as long as there are any and `dst` isn't full, and their number: 0 at
    /// the end, or if `dst` is empty. After an error of the inner reader, which is passed on, nothing is lost: what was
    /// read before is kept for the next call.
    ///
    /// No pair is cut unless `dst` has only one code unit: then the next call returns the second.
    pub fn read(&mut self, dst: &mut [u16]) -> io::Result<usize>
        ensures bound { ReadsAtMost result dst.new }
        ensures units { ReadConsumes (units_left R.remaining self.old)
            (units_left R.remaining self.new) result dst.new }
        ensures characters { IfOk result (λ n. YieldsCharacters IsValidUtf16 IsUtf16Character
            (half_of self.old) (length dst.old) (take n dst.new) (half_of self.new)) }
        ensures err { OnErr result (half_of self.new ≡ half_of self.old) }
    {
        if dst.is_empty() {
            return Ok(0);
        }
        if self.held.unread().is_empty() {
            if dst.len() >= BLOCK_LENGTH {
                let mut bytes = [0; BLOCK];
                let room = dst.len().min(BLOCK);
                return self.decode(&mut bytes[..room], dst);
            }
            self.hold()?;
        }
        Ok(self.held.give(dst))
    }
}
