//! Checks one input, over any reader and writer.
ghost use Rattle.std.specs.Prelude.{◌≡◌, ◌≢◌, ℕ, ◌+◌, ◌<◌, ◌≤◌, List, [], ◌++◌, length, take, IfOk, OnOk, OnErr, IfErr};
ghost use Rattle.std.specs.Prelude.{IsTrue, true, ◌↔◌};
ghost use Rattle.std.specs.Io.KnownBytes.{Appends, Consumes, IsAtEnd, Keeps};
ghost use Rattle.std.specs.Io.{ReadsAtMost};
ghost use Rattle.std.specs.IoError.{error_kind};
ghost use Rattle.utf8_check_library.specs.Checks.{Checks, StopsBy, ChecksBlock, Reports, WritesPrefixOf, length_of};
ghost use Rattle.utf8_check_library.specs.Checks.{malformed_in};

use crate::line::write_line;
use crate::place::{Columns, Place, START};
use encoding_runs::search::{MalformedSearch, SearchPiece};
use std::io::{self, ErrorKind, Read, Write};

/// What is written.
#[derive(Clone, Copy, Debug, PartialEq, Eq)]
pub enum Mode {
    /// A line for each malformed sequence.
    List,
    /// Nothing. All are counted.
    Count,
    /// Nothing. The first one ends the check.
    Quiet,
}

impl Mode {
    /// Returns whether a check ends after this number of malformed sequences.
    fn ends_after(self, count: u64) -> bool
        ensures { IsTrue result ↔ ((self ≡ Mode.Quiet) × (0 < count)) }
    {
        matches!(self, Mode::Quiet) && count > 0
    }
}

/// Why a check ended early.
#[derive(Debug, Drop)]
pub enum Fault {
    /// A read failed, and not because it was interrupted.
    Read(io::Error),
    /// A write or a flush failed.
    Write(io::Error),
    /// Nearly `u64::MAX` bytes were read, and the end was not seen.
    TooLong,
}

/// The most bytes of one read.
const BLOCK: usize = 0x10000;

/// Returns the number of malformed sequences in a piece.
fn malformed_in(piece: &SearchPiece<'_>) -> u64
    ensures { result ≡ malformed_in piece.now }
{
    match piece {
        SearchPiece::Malformed(..) => 1,
        _ => 0,
    }
}

/// Writes the line for a malformed sequence, moves the place to the end of the piece, and returns the number of
/// malformed sequences.
fn list<W: Write>(
    name: &str,
    columns: Columns,
    place: &mut Place,
    piece: SearchPiece<'_>,
    writer: &mut W,
) -> io::Result<u64>
    requires line { place.old.line + length_of piece < u64.MAX }
    requires column { place.old.column + length_of piece < u64.MAX }
    ensures ok { IfOk result (λ count. (text : List ℕ)
        × Appends (W.contents writer.old) (W.contents writer.new) text
        × Reports (name.now, columns) Mode.List (place.old.line, place.old.column) piece.entry text
        count (place.new.line, place.new.column)) }
    ensures err { OnErr result ((text : List ℕ) × (next : ℕ × ℕ)
        × WritesPrefixOf text (W.contents writer.old) (W.contents writer.new)
        × Reports (name.now, columns) Mode.List (place.old.line, place.old.column) piece.entry text
        1 next) }
{
    match piece {
        SearchPiece::Text(text) => {
            *place = place.after_text(text, columns);
            Ok(0)
        }
        SearchPiece::Char(character) => {
            *place = place.after_character(character, columns);
            Ok(0)
        }
        SearchPiece::Malformed(found, bytes) => {
            let bytes = &bytes[..usize::from(found.length).min(3)];
            write_line(name, *place, found.offset, bytes, found.kind, writer)?;
            *place = place.after_malformed(bytes, columns);
            Ok(1)
        }
        SearchPiece::InputEmpty => Ok(0),
    }
}

/// Reports a piece, in the mode `List` by a line for a malformed sequence. Returns the number of malformed sequences.
fn report<W: Write>(
    name: &str,
    columns: Columns,
    mode: Mode,
    place: &mut Place,
    piece: SearchPiece<'_>,
    writer: &mut W,
) -> io::Result<u64>
    requires line { mode ≡ Mode.List → place.old.line + length_of piece < u64.MAX }
    requires column { mode ≡ Mode.List → place.old.column + length_of piece < u64.MAX }
    ensures ok { IfOk result (λ count. (text : List ℕ)
        × Appends (W.contents writer.old) (W.contents writer.new) text
        × Reports (name.now, columns) mode (place.old.line, place.old.column) piece.entry text count
        (place.new.line, place.new.column)) }
    ensures err { OnErr result ((text : List ℕ) × (next : ℕ × ℕ)
        × WritesPrefixOf text (W.contents writer.old) (W.contents writer.new)
        × Reports (name.now, columns) mode (place.old.line, place.old.column) piece.entry text
        1 next) }
{
    match mode {
        Mode::List => list(name, columns, place, piece, writer),
        Mode::Count | Mode::Quiet => Ok(malformed_in(&piece)),
    }
}

/// Checks all of `src`, or up to the first malformed sequence if `mode` is `Quiet`. Returns the number of malformed
/// sequences.
fn check_block<W: Write>(
    name: &str,
    columns: Columns,
    mode: Mode,
    search: &mut MalformedSearch,
    place: &mut Place,
    src: &[u8],
    last: bool,
    writer: &mut W,
) -> io::Result<u64>
    requires offset { search.old.1 + length search.old.0 + length src.now + 1 < u64.MAX }
    requires line { mode ≡ Mode.List → place.old.line ≤ search.old.1 + 1 }
    requires column { mode ≡ Mode.List → place.old.column ≤ search.old.1 + 1 }
    ensures ok { IfOk result (λ count. (text : List ℕ) × (rest : List ℕ)
        × Appends (W.contents writer.old) (W.contents writer.new) text
        × ChecksBlock (name.now, columns) mode (place.old.line, place.old.column) search.old.1
        (search.old.0 ++ src.now) last text count rest
        (place.new.line, place.new.column) search.new.1
        × ((mode ≡ Mode.Quiet → count ≡ 0) → (rest ≡ search.new.0) × (last ≡ true → rest ≡ []))) }
    ensures few { IfOk result (λ count. mode ≡ Mode.Quiet → count ≤ 1) }
    ensures err { OnErr result ((text : List ℕ) × (count : ℕ) × (rest : List ℕ) × (next : ℕ × ℕ)
        × (end : ℕ)
        × WritesPrefixOf text (W.contents writer.old) (W.contents writer.new)
        × ChecksBlock (name.now, columns) mode (place.old.line, place.old.column) search.old.1
        (search.old.0 ++ src.now) last text count rest next end) }
{
    let mut at = 0;
    let mut count = 0;
    loop {
        let (piece, read) = search.next_piece(&src[at..], last);
        if let SearchPiece::InputEmpty = piece {
            return Ok(count);
        }
        at += read;
        count += report(name, columns, mode, place, piece, writer)?;
        if mode.ends_after(count) {
            return Ok(count);
        }
    }
}

/// Reads once, and again as long as the read is interrupted.
fn read_block<R: Read>(reader: &mut R, buffer: &mut [u8]) -> io::Result<usize>
    ensures bound { ReadsAtMost result buffer.new }
    ensures ok { IfOk result
        (λ n. Consumes (R.remaining reader.old) (R.remaining reader.new) (take n buffer.new)) }
    ensures end { IfOk result
        (λ n. n ≡ 0 → 0 < length buffer.old → IsAtEnd (R.remaining reader.new)) }
    ensures err { OnErr result (Keeps (R.remaining reader.old) (R.remaining reader.new)) }
    ensures not_interrupted { IfErr result (λ error. error_kind error ≢ ErrorKind.Interrupted) }
{
    for _ in 0..u64::MAX {
        match reader.read(buffer) {
            Ok(count) => return Ok(count),
            Err(error) => {
                if error.kind() != ErrorKind::Interrupted {
                    return Err(error);
                }
            }
        }
    }
    Err(io::Error::from(ErrorKind::TimedOut))
}

/// Checks all bytes of the reader. In the mode `List`, writes a line for each malformed sequence, in order: the name,
/// the line, the column, its bytes, why it is malformed, and the offset of its first byte. Returns the number of
/// malformed sequences. In the mode `Quiet`, returns 1 after the first one.
///
/// Reads again if a read is interrupted. Returns `Fault::Read` after any other read that fails: the lines for what was
/// read are written. Returns `Fault::Write` after the first write or flush that fails: a prefix of the lines for what
/// was read is written. Flushes the writer before each read but the first, and flushes nothing at the end. Allocates no
/// memory.
pub fn check<R: Read, W: Write>(
    name: &str,
    columns: Columns,
    mode: Mode,
    reader: &mut R,
    writer: &mut W,
) -> Result<u64, Fault>
    ensures ok { IfOk result (λ count. Checks (name.now, columns) mode
        (R.remaining reader.old) (R.remaining reader.new)
        (W.contents writer.old) (W.contents writer.new) count) }
    ensures err { IfErr result (λ fault. StopsBy (name.now, columns) mode fault
        (R.remaining reader.old) (R.remaining reader.new)
        (W.contents writer.old) (W.contents writer.new)) }
{
    let mut search = MalformedSearch::new();
    let mut place = START;
    let mut buffer = [0; BLOCK];
    let mut total = 0;
    while search.offset() < u64::MAX - 1 - BLOCK as u64 {
        // no other clause says that the pending bytes are none or an incomplete sequence
        let _neutral = search.in_neutral_state();
        let read = match read_block(reader, &mut buffer) {
            Ok(read) => read,
            Err(error) => return Err(Fault::Read(error)),
        };
        let last = read == 0;
        let block = &buffer[..read];
        let count = match check_block(
            name,
            columns,
            mode,
            &mut search,
            &mut place,
            block,
            last,
            writer,
        ) {
            Ok(count) => count,
            Err(error) => return Err(Fault::Write(error)),
        };
        total += count;
        if last {
            return Ok(total);
        }
        if mode.ends_after(count) {
            return Ok(total);
        }
        if let Err(error) = writer.flush() {
            return Err(Fault::Write(error));
        }
    }
    let _neutral = search.in_neutral_state();
    Err(Fault::TooLong)
}
