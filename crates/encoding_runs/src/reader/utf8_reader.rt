//! A reader of text: the bytes of another reader, as well-formed UTF-8. It decodes straight into the destination,
//! unless a character may not fit.
ghost use Rattle.std.specs.Prelude.{◌≡◌, ◌≢◌, ◌↔◌, ◌<◌, ◌≤◌, [], length, take, true};
ghost use Rattle.std.specs.Prelude.{false, IfOk, OnOk, OnErr, IsTrue, option_map};
ghost use Rattle.std.specs.Io.{ReadsAtMost};
ghost use Rattle.std.specs.Io.KnownBytes.{Keeps, ReadConsumes, IsAtEnd};
ghost use Rattle.std.specs.Str.{IsUtf8};
ghost use Rattle.std.specs.Str.Lossy.{utf8_lossy};
ghost use Rattle.encoding_definitions.specs.Sequence.{IsSequence};
ghost use Rattle.encoding_runs.specs.Steps.{text_of};

use crate::laws::{law_parts, law_sequences};
use crate::reader::buffer::Buffer;
use crate::repair::repair_block;
use encoding_kernels::scalar::REPLACEMENT_UTF8;
use encoding_text::decoder::{Piece, Utf8Decoder};
use std::io;
use std::io::Read;

/// How many bytes are read at a time.
const BLOCK: usize = 1024;

/// With this many bytes to write into, a call of `repair_block` makes progress.
const BLOCK_LENGTH: usize = 7;

fn hold_piece(held: &mut Buffer<u8, 4>, piece: Piece<'_>)
    requires { length (text_of piece) ≤ 4 }
    ensures { held.new ≡ text_of piece.entry }
{
    match piece {
        Piece::Text(text) => held.hold(text.as_bytes()),
        Piece::Char(character) => {
            let mut sequence = [0; 4];
            held.hold(character.encode_utf8(&mut sequence).as_bytes());
        }
        Piece::Malformed(_) => held.hold(&REPLACEMENT_UTF8),
        Piece::InputEmpty => held.hold(&[]),
    }
}

/// Returns the repaired text of the bytes of `inner`: each malformed sequence becomes U+FFFD.
#[derive(Drop)]
pub struct Utf8Reader<R> {
    inner: R,
    decoder: Utf8Decoder,
    // what was read and is not decoded yet
    block: Buffer<u8, BLOCK>,
    // the rest of a character that didn't fit
    held: Buffer<u8, 4>,
}

impl<R: Read> Utf8Reader<R> {
    ghost use Rattle.encoding_runs.specs.Reading.{text_left, held_of};

    /// Creates a reader of the text of the bytes of `inner`.
    pub fn new(inner: R) -> Utf8Reader<R>
        ensures text { text_left R.remaining result ≡ option_map utf8_lossy (R.remaining inner) }
        ensures held { held_of result ≡ [] }
    {
        Utf8Reader {
            inner,
            decoder: Utf8Decoder::new_inner(),
            block: Buffer::new(0),
            held: Buffer::new(0),
        }
    }

    /// Reads only if all that was read is decoded.
    fn fill(&mut self) -> io::Result<bool>
        ensures text { Keeps (text_left R.remaining self.old) (text_left R.remaining self.new) }
        ensures same { (self.new.decoder ≡ self.old.decoder) × (self.new.held ≡ self.old.held) }
        ensures ended { IfOk result (λ last. IsTrue last ↔ (self.new.block ≡ [])) }
        ensures end { OnOk result (self.new.block ≡ [] → IsAtEnd (R.remaining self.new.inner)) }
    {
        if self.block.unread().is_empty() {
            self.block.fill(&mut self.inner)?;
        }
        Ok(self.block.unread().is_empty())
    }

    fn decode(&mut self, dst: &mut [u8]) -> io::Result<usize>
        requires dst_length { 7 ≤ length dst.old }
        requires held { self.old.held ≡ [] }
        ensures bound { ReadsAtMost result dst.new }
        ensures bytes { ReadConsumes (text_left R.remaining self.old)
            (text_left R.remaining self.new) result dst.new }
        ensures whole { IfOk result (λ n. IsUtf8 (take n dst.new)) }
        ensures none_held { self.new.held ≡ [] }
    {
        law_parts();
        loop {
            let last = self.fill()?;
            let repaired = repair_block(&mut self.decoder, self.block.unread(), dst, last);
            self.block.consume(repaired.read);
            if last || repaired.written > 0 {
                return Ok(repaired.written);
            }
        }
    }

    fn decode_byte(&mut self, last: bool)
        requires held { self.old.held ≡ [] }
        requires ended { IsTrue last ↔ (self.old.block ≡ []) }
        requires end { self.old.block ≡ [] → IsAtEnd (R.remaining self.old.inner) }
        ensures text { Keeps (text_left R.remaining self.old) (text_left R.remaining self.new) }
        ensures one { self.new.held ≢ [] → IsSequence self.new.held }
        ensures end { self.new.held ≡ [] → last ≡ true → IsAtEnd (text_left R.remaining self.new) }
        ensures progress { self.new.held ≡ [] → last ≡ false
            → (length self.old.decoder < length self.new.decoder) × (length self.new.decoder ≤ 3) }
    {
        law_sequences();
        law_parts();
        let unread = self.block.unread();
        let next = &unread[..unread.len().min(1)];
        let (piece, read) = self.decoder.decode_borrowed_raw(next, last);
        hold_piece(&mut self.held, piece);
        self.block.consume(read);
    }

    fn hold(&mut self) -> io::Result<()>
        requires held { self.old.held ≡ [] }
        ensures text { Keeps (text_left R.remaining self.old) (text_left R.remaining self.new) }
        ensures one { self.new.held ≢ [] → IsSequence self.new.held }
        ensures end { OnOk result (self.new.held ≡ [] → IsAtEnd (text_left R.remaining self.new)) }
        ensures err { OnErr result (self.new.held ≡ []) }
    {
        loop {
            let last = self.fill()?;
            self.decode_byte(last);
            if last || !self.held.unread().is_empty() {
                return Ok(());
            }
        }
    }

    pub(super) fn character(&mut self, dst: &mut [u8]) -> io::Result<usize>
        requires dst_length { 4 ≤ length dst.old }
        requires held { self.old.held ≡ [] }
        ensures bound { ReadsAtMost result dst.new }
        ensures bytes { ReadConsumes (text_left R.remaining self.old)
            (text_left R.remaining self.new) result dst.new }
        ensures one { IfOk result (λ n. 0 < n → IsSequence (take n dst.new)) }
        ensures none_held { self.new.held ≡ [] }
    {
        self.hold()?;
        Ok(self.held.give(dst))
    }
}

impl<R: Read> Read for Utf8Reader<R> {
    ghost use Rattle.encoding_runs.specs.Reading.{text_left, held_of, YieldsCharacters};

    ghost remaining = { text_left R.remaining };

    /// Returns the next of the text, as long as there is any and `dst` isn't full. After an error of the inner reader,
    /// which is passed on, nothing is lost: what was read before is kept for the next call.
    ///
    /// No character is cut unless it is longer than `dst`: then the next calls return the rest of it.
    fn read(&mut self, dst: &mut [u8]) -> io::Result<usize>
        ensures bound { ReadsAtMost result dst.new }
        ensures bytes { ReadConsumes (text_left R.remaining self.old)
            (text_left R.remaining self.new) result dst.new }
        ensures characters { IfOk result (λ n.
            YieldsCharacters IsUtf8 IsSequence (held_of self.old) (length dst.old) (take n dst.new)
            (held_of self.new)) }
        ensures err { OnErr result (held_of self.new ≡ held_of self.old) }
    {
        if dst.is_empty() {
            return Ok(0);
        }
        if self.held.unread().is_empty() {
            if dst.len() >= BLOCK_LENGTH {
                return self.decode(dst);
            }
            self.hold()?;
        }
        Ok(self.held.give(dst))
    }
}
