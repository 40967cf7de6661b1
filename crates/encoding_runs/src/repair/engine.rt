//! The engine: writes text unchanged, and U+FFFD for each malformed sequence. A round reads once, and writes all final
//! parts before the next read. At the end it writes what is pending.
ghost use Rattle.std.specs.Prelude.{◌≡◌, ◌≢◌, ℕ, ◌<◌, ◌≤◌, ◌↔◌, Bool, true, false};
ghost use Rattle.std.specs.Prelude.{List, [], ◌++◌, length, take, IfOk, IfErr, IsTrue};
ghost use Rattle.std.specs.Io.KnownBytes.{Appends, Keeps};
ghost use Rattle.encoding_definitions.specs.Sequence.{IsPending};
ghost use Rattle.encoding_runs.specs.Repairs.{RepairsAll, RepairsProperPrefix, RepairsFinal, Stops, WritesRepaired};
ghost use Rattle.encoding_runs.specs.Steps.{ReadsRound, StopsInParts, WritesParts, malformed_in, text_of};

use super::streams::{Sink, Source};
use encoding_kernels::scalar::REPLACEMENT_UTF8;
use encoding_text::decoder::{Piece, Utf8Decoder};

/// Why a repair stopped.
#[derive(Debug, PartialEq, Eq, Drop)]
pub enum RepairFault {
    /// A read failed.
    Read = 1,
    /// A write failed, or wrote no byte.
    Write = 2,
    /// `limit` bytes were read, and the end was not seen.
    Limit = 3,
}

/// What a repair did: the number of bytes it read, and of malformed sequences for which it wrote U+FFFD.
#[derive(Debug, PartialEq, Eq, Drop)]
pub struct Repaired {
    pub read: u64,
    pub replaced: u64,
}

/// The most bytes of one read.
const ROUND: usize = 1024;

/// Out of line: most writers take all bytes at once.
#[inline(never)]
fn write_by_parts<W: Sink>(writer: &mut W, bytes: &[u8]) -> Result<(), RepairFault>
    ensures ok { IfOk result (λ _. Appends (W.contents writer.old) (W.contents writer.new) bytes.now
        × (W.has_failed writer.new ≡ W.has_failed writer.old)) }
    ensures err { IfErr result
        (λ fault. (fault ≡ RepairFault.Write) × (W.has_failed writer.new ≡ true)
        × (n : ℕ) × (n < length bytes.now) × Appends (W.contents writer.old) (W.contents writer.new)
        (take n bytes.now)) }
    ensures keeps { W.keeps writer.old writer.new }
{
    let mut at = 0;
    while at < bytes.len() {
        match writer.write(&bytes[at..]) {
            Some(count) => at += count,
            None => return Err(RepairFault::Write),
        }
    }
    Ok(())
}

#[inline(always)]
fn write_whole<W: Sink>(writer: &mut W, bytes: &[u8]) -> Result<(), RepairFault>
    ensures ok { IfOk result (λ _. Appends (W.contents writer.old) (W.contents writer.new) bytes.now
        × (W.has_failed writer.new ≡ W.has_failed writer.old)) }
    ensures err { IfErr result
        (λ fault. (fault ≡ RepairFault.Write) × (W.has_failed writer.new ≡ true)
        × (n : ℕ) × (n < length bytes.now) × Appends (W.contents writer.old) (W.contents writer.new)
        (take n bytes.now)) }
    ensures keeps { W.keeps writer.old writer.new }
{
    if bytes.is_empty() {
        return Ok(());
    }
    let Some(count) = writer.write(bytes) else {
        return Err(RepairFault::Write);
    };
    if count < bytes.len() {
        return write_by_parts(writer, &bytes[count..]);
    }
    Ok(())
}

#[inline(always)]
fn write_piece<W: Sink>(writer: &mut W, piece: Piece<'_>) -> Result<u64, RepairFault>
    ensures ok { IfOk result (λ replaced. (replaced ≡ malformed_in piece.entry)
        × Appends (W.contents writer.old) (W.contents writer.new) (text_of piece.entry)
        × (W.has_failed writer.new ≡ W.has_failed writer.old)) }
    ensures err { IfErr result
        (λ fault. (fault ≡ RepairFault.Write) × (W.has_failed writer.new ≡ true)
        × (n : ℕ) × (n < length (text_of piece.entry))
        × Appends (W.contents writer.old) (W.contents writer.new) (take n (text_of piece.entry))) }
    ensures keeps { W.keeps writer.old writer.new }
{
    match piece {
        Piece::Text(text) => write_whole(writer, text.as_bytes())?,
        Piece::Char(character) => {
            let mut sequence = [0; 4];
            write_whole(writer, character.encode_utf8(&mut sequence).as_bytes())?;
        }
        Piece::Malformed(_) => {
            write_whole(writer, &REPLACEMENT_UTF8)?;
            return Ok(1);
        }
        Piece::InputEmpty => {}
    }
    Ok(0)
}

fn write_parts<W: Sink>(
    decoder: &mut Utf8Decoder,
    src: &[u8],
    last: bool,
    writer: &mut W,
) -> Result<u64, RepairFault>
    requires unfinished { IsPending decoder.old }
    ensures ok { IfOk result (λ replaced. WritesParts last (decoder.old ++ src.now) decoder.new
        (W.contents writer.old) (W.contents writer.new) replaced
        × IsPending decoder.new × (last ≡ true → decoder.new ≡ [])
        × (W.has_failed writer.new ≡ W.has_failed writer.old)) }
    ensures err { IfErr result
        (λ fault. (fault ≡ RepairFault.Write) × (W.has_failed writer.new ≡ true)
        × StopsInParts last (decoder.old ++ src.now) (W.contents writer.old)
        (W.contents writer.new)) }
    ensures keeps { W.keeps writer.old writer.new }
{
    let mut rest = src;
    let mut replaced = 0;
    loop {
        let (piece, read) = decoder.decode_borrowed_raw(rest, last);
        if let Piece::InputEmpty = piece {
            return Ok(replaced);
        }
        replaced += write_piece(writer, piece)?;
        // after a piece nothing is pending
        if read == rest.len() {
            return Ok(replaced);
        }
        rest = &rest[read..];
    }
}

/// Writes `src` with U+FFFD for each malformed sequence, and returns the number of malformed sequences. To write into a
/// `Vec<u8>` or another `Write`, pass `&mut Watch::new(&mut writer)`.
///
/// Returns [`RepairFault::Write`] at the first write that fails or writes no byte. Then a proper prefix of the repaired
/// text was written. Flushes nothing, and allocates no memory. Encoding Standard, UTF-8 decoder, with replacement.
pub fn repair_slice<W: Sink>(src: &[u8], writer: &mut W) -> Result<u64, RepairFault>
    ensures ok { IfOk result (λ replaced.
        WritesRepaired src.now (W.contents writer.old) (W.contents writer.new) replaced) }
    ensures err { IfErr result (λ fault. (fault ≡ RepairFault.Write)
        × Stops src.now (W.contents writer.old) (W.contents writer.new)) }
    ensures failed { W.has_failed writer.old ≡ false
        → (IsTrue (W.has_failed writer.new) ↔ (result ≡ Err RepairFault.Write)) }
    ensures keeps { W.keeps writer.old writer.new }
{
    let mut decoder = Utf8Decoder::new_inner();
    write_parts(&mut decoder, src, true, writer)
}

fn repair_round<R: Source, W: Sink>(
    decoder: &mut Utf8Decoder,
    reader: &mut R,
    buffer: &mut [u8],
    writer: &mut W,
) -> Result<Repaired, RepairFault>
    requires unfinished { IsPending decoder.old }
    requires some_room { 0 < length buffer.old }
    ensures ok { IfOk result
        (λ round. (bytes : List ℕ) × (last : Bool) × (round.read ≡ length bytes)
        × ReadsRound (length buffer.old) bytes last (R.remaining reader.old)
        (R.remaining reader.new)
        (R.has_ended reader.old) (R.has_ended reader.new)
        × WritesParts last (decoder.old ++ bytes) decoder.new (W.contents writer.old)
        (W.contents writer.new) round.replaced
        × IsPending decoder.new × (last ≡ true → decoder.new ≡ [])
        × (R.has_failed reader.new ≡ R.has_failed reader.old)
        × (W.has_failed writer.new ≡ W.has_failed writer.old)) }
    ensures read_fault { result ≡ Err RepairFault.Read
        → Keeps (R.remaining reader.old) (R.remaining reader.new)
        × (writer.new ≡ writer.old) × (R.has_failed reader.new ≡ true) }
    ensures write_fault { result ≡ Err RepairFault.Write → (bytes : List ℕ) × (last : Bool)
        × ReadsRound (length buffer.old) bytes last (R.remaining reader.old)
        (R.remaining reader.new)
        (R.has_ended reader.old) (R.has_ended reader.new)
        × StopsInParts last (decoder.old ++ bytes) (W.contents writer.old) (W.contents writer.new)
        × (R.has_failed reader.new ≡ R.has_failed reader.old) × (W.has_failed writer.new ≡ true) }
    ensures no_limit { result ≢ Err RepairFault.Limit }
    ensures reader_stream { R.stream reader.new ≡ R.stream reader.old }
    ensures writer_keeps { W.keeps writer.old writer.new }
{
    let Some(count) = reader.read(buffer) else {
        return Err(RepairFault::Read);
    };
    let replaced = write_parts(decoder, &buffer[..count], count == 0, writer)?;
    Ok(Repaired {
        read: count as u64,
        replaced,
    })
}

/// Reads to the end, and writes what it reads with U+FFFD for each malformed sequence. Encoding Standard, UTF-8
/// decoder, with replacement.
///
/// Reads at most 1,024 bytes at a time, and writes the text of all final parts before the next read. So if a read
/// fails, or `limit` bytes were read and the end was not seen, exactly the text of the final parts was written: all
/// except an incomplete sequence at the end. At the first write that fails or writes no byte, only a proper prefix of
/// the text due so far was written. Flushes nothing, and allocates no memory.
pub fn repair<R: Source, W: Sink>(
    reader: &mut R,
    writer: &mut W,
    limit: u64,
) -> Result<Repaired, RepairFault>
    ensures ok { IfOk result (λ repaired. (bytes : List ℕ) × (repaired.read ≡ length bytes)
        × (length bytes < limit)
        × RepairsAll bytes (R.remaining reader.old) (R.remaining reader.new)
        (W.contents writer.old) (W.contents writer.new) repaired.replaced
        × (R.has_ended reader.new ≡ true)) }
    ensures read_fault { result ≡ Err RepairFault.Read → (bytes : List ℕ) × (length bytes < limit)
        × RepairsFinal bytes (R.remaining reader.old) (R.remaining reader.new)
        (W.contents writer.old) (W.contents writer.new) }
    ensures limit { result ≡ Err RepairFault.Limit → (bytes : List ℕ) × (length bytes ≡ limit)
        × RepairsFinal bytes (R.remaining reader.old) (R.remaining reader.new)
        (W.contents writer.old) (W.contents writer.new) }
    ensures write_fault { result ≡ Err RepairFault.Write → R.has_ended reader.old ≡ false
        → (bytes : List ℕ) × (length bytes ≤ limit)
        × RepairsProperPrefix bytes (R.has_ended reader.new) (R.remaining reader.old)
        (R.remaining reader.new)
        (W.contents writer.old) (W.contents writer.new) }
    ensures reader_failed { R.has_failed reader.old ≡ false → W.has_failed writer.old ≡ false
        → (IsTrue (R.has_failed reader.new) ↔ (result ≡ Err RepairFault.Read)) }
    ensures writer_failed { R.has_failed reader.old ≡ false → W.has_failed writer.old ≡ false
        → (IsTrue (W.has_failed writer.new) ↔ (result ≡ Err RepairFault.Write)) }
    ensures reader_stream { R.stream reader.new ≡ R.stream reader.old }
    ensures writer_keeps { W.keeps writer.old writer.new }
{
    let mut decoder = Utf8Decoder::new_inner();
    let mut buffer = [0; ROUND];
    let (mut read, mut replaced) = (0, 0);
    while read < limit {
        let room = (limit - read).min(ROUND as u64) as usize;
        let round = repair_round(&mut decoder, reader, &mut buffer[..room], writer)?;
        read += round.read;
        replaced += round.replaced;
        if round.read == 0 {
            return Ok(Repaired { read, replaced });
        }
    }
    Err(RepairFault::Limit)
}
