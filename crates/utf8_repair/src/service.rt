//! One run of the program, over any three streams.
ghost use Rattle.std.specs.Prelude.{◌≡◌, ℕ, ◌<◌, ◌≤◌, ◌↔◌, Bool, false, List, length, IsTrue, OnOk, OnErr};
ghost use Rattle.std.specs.Result.{IsOkAnd};
ghost use Rattle.encoding_runs.specs.Repairs.{RepairsAll, RepairsProperPrefix, RepairsFinal};
ghost use Rattle.utf8_repair.specs.Service.{IsServed, RepairsPrefix, WritesPrefixOf, line_of};

use encoding_runs::repair::{RepairFault, Repaired, Sink, Source, Watch, repair};
use std::io::{self, Read, Write};

const UNCHANGED: u8 = 0;

const REPLACED: u8 = 1;

const USAGE: u8 = 2;

const READ_FAULT: u8 = 3;

const WRITE_FAULT: u8 = 4;

const LIMIT: u8 = 5;

/// The status if the arguments could not be read.
pub(crate) const NO_ARGUMENTS: u8 = 6;

/// Returns the status of the engine's result.
fn status_of(outcome: Result<Repaired, RepairFault>) -> u8
    ensures status { (result ≤ 5) × (result ≡ 2 → ⊥) }
    ensures unchanged { result ≡ 0 → IsOkAnd outcome (λ repaired. repaired.replaced ≡ 0) }
    ensures replaced { result ≡ 1 → IsOkAnd outcome (λ repaired. 0 < repaired.replaced) }
    ensures read_fault { (result ≡ 3) ↔ (outcome ≡ Err RepairFault.Read) }
    ensures write_fault { (result ≡ 4) ↔ (outcome ≡ Err RepairFault.Write) }
    ensures limit { (result ≡ 5) ↔ (outcome ≡ Err RepairFault.Limit) }
{
    match outcome {
        Ok(repaired) => {
            if repaired.replaced == 0 {
                UNCHANGED
            } else {
                REPLACED
            }
        }
        Err(RepairFault::Read) => READ_FAULT,
        Err(RepairFault::Write) => WRITE_FAULT,
        Err(RepairFault::Limit) => LIMIT,
    }
}

/// Writes the repaired text of the source, up to its end or a failure, and returns the status. If neither stream had
/// failed before, the status is 3 if and only if the source fails, and 4 if and only if the sink fails.
fn repair_source<R: Source, W: Sink>(source: &mut R, sink: &mut W) -> u8
    ensures status { (result ≤ 5) × (result ≡ 2 → ⊥) }
    ensures served { IsServed result (R.remaining source.old) (R.remaining source.new)
        (W.contents sink.old) (W.contents sink.new) }
    ensures write_fault { result ≡ 4 → R.has_ended source.old ≡ false
        → (bytes : List ℕ) × (ended : Bool)
        × RepairsProperPrefix bytes ended (R.remaining source.old) (R.remaining source.new)
        (W.contents sink.old) (W.contents sink.new) }
    ensures prefix { R.has_ended source.old ≡ false → (bytes : List ℕ) × (ended : Bool)
        × RepairsPrefix bytes ended (R.remaining source.old) (R.remaining source.new)
        (W.contents sink.old) (W.contents sink.new) }
    ensures source_failed { R.has_failed source.old ≡ false → W.has_failed sink.old ≡ false
        → (IsTrue (R.has_failed source.new) ↔ (result ≡ 3)) }
    ensures sink_failed { R.has_failed source.old ≡ false → W.has_failed sink.old ≡ false
        → (IsTrue (W.has_failed sink.new) ↔ (result ≡ 4)) }
    ensures source_stream { R.stream source.new ≡ R.stream source.old }
    ensures sink_keeps { W.keeps sink.old sink.new }
{
    let outcome = repair(source, sink, u64::MAX);
    status_of(outcome)
}

/// Writes the repaired text of the reader, up to its end or a failure, and returns the status.
fn repair_stream<R: Read, W: Write>(reader: &mut R, writer: &mut W) -> u8
    ensures status { (result ≤ 5) × (result ≡ 2 → ⊥) }
    ensures served { IsServed result (R.remaining reader.old) (R.remaining reader.new)
        (W.contents writer.old) (W.contents writer.new) }
    ensures prefix { (bytes : List ℕ) × (ended : Bool)
        × RepairsPrefix bytes ended (R.remaining reader.old) (R.remaining reader.new)
        (W.contents writer.old) (W.contents writer.new) }
{
    let mut source = Watch::new(reader);
    let mut sink = Watch::new(writer);
    repair_source(&mut source, &mut sink)
}

/// Returns the status of a run after its flush: 4 if the flush failed, and otherwise `status`.
fn status_after(status: u8, flushed: io::Result<()>) -> u8
    ensures failed { OnErr flushed (result ≡ 4) }
    ensures flushed { OnOk flushed (result ≡ status) }
{
    match flushed {
        Ok(()) => status,
        Err(_) => WRITE_FAULT,
    }
}

/// Writes the repaired text of the reader, flushes the writer with any status, and returns the status.
fn repair_and_flush<R: Read, W: Write>(reader: &mut R, writer: &mut W) -> u8
    ensures status { (result ≤ 5) × (result ≡ 2 → ⊥) }
    ensures served { IsServed result (R.remaining reader.old) (R.remaining reader.new)
        (W.contents writer.old) (W.contents writer.new) }
    ensures write_fault { result ≡ 4 → (bytes : List ℕ) × (ended : Bool)
        × RepairsPrefix bytes ended (R.remaining reader.old) (R.remaining reader.new)
        (W.contents writer.old) (W.contents writer.new) }
{
    let status = repair_stream(reader, writer);
    status_after(status, writer.flush())
}

/// Returns the line of a status, empty if it has none.
fn line_of(status: u8) -> &'static [u8]
    ensures { result.now ≡ line_of status }
{
    match status {
        USAGE => b"usage: utf8_repair\n",
        READ_FAULT => b"utf8_repair: read fault\n",
        WRITE_FAULT => b"utf8_repair: write fault\n",
        LIMIT => b"utf8_repair: limit\n",
        NO_ARGUMENTS => b"utf8_repair: no arguments\n",
        _ => b"",
    }
}

/// Writes the text, up to the first write that fails or writes no byte.
fn write_line<E: Write>(text: &[u8], errors: &mut E)
    ensures { WritesPrefixOf text.now (E.contents errors.old) (E.contents errors.new) }
{
    let mut at = 0;
    while at < text.len() {
        match errors.write(&text[at..]) {
            Ok(count) if count > 0 => at += count,
            _ => return,
        }
    }
}

/// Writes the line of the status, if it has one.
pub(crate) fn report<E: Write>(status: u8, errors: &mut E)
    ensures line { WritesPrefixOf (line_of status) (E.contents errors.old) (E.contents errors.new) }
    ensures silent { status ≤ 1 → errors.new ≡ errors.old }
{
    let line = line_of(status);
    if !line.is_empty() {
        write_line(line, errors);
    }
}

/// Serves one run: reads `reader` to its end, writes the repaired text to `writer`, and returns the status. Writes the
/// line of the status to `errors`. `arguments` is the number of arguments after the program's name.
///
/// | Status | When | Line |
/// |---|---|---|
/// | 0 | the input was well-formed | |
/// | 1 | U+FFFD was written for at least one malformed sequence | |
/// | 2 | an argument was given; nothing is read or written | `usage: utf8_repair` |
/// | 3 | a read failed or was interrupted; the text of the final parts of what was read is written | `utf8_repair: read fault` |
/// | 4 | a write failed or wrote no byte, or the flush failed; a prefix of the text due is written | `utf8_repair: write fault` |
/// | 5 | `u64::MAX` bytes were read and the end was not seen; the text of their final parts is written | `utf8_repair: limit` |
///
/// Writes the text of all final parts before it reads more. Flushes the writer only after the engine has returned, even
/// if it failed. Errors of `errors` change nothing. Allocates no memory.
pub fn serve<R: Read, W: Write, E: Write>(
    arguments: usize,
    reader: &mut R,
    writer: &mut W,
    errors: &mut E,
) -> u8
    ensures status { result ≤ 5 }
    ensures usage { (result ≡ 2) ↔ (0 < arguments) }
    ensures untouched { result ≡ 2 → (reader.new ≡ reader.old) × (writer.new ≡ writer.old) }
    ensures unchanged { result ≡ 0 → (bytes : List ℕ) × RepairsAll bytes (R.remaining reader.old)
        (R.remaining reader.new)
        (W.contents writer.old) (W.contents writer.new) 0 }
    ensures replaced { result ≡ 1 → (bytes : List ℕ) × (n : ℕ) × (0 < n)
        × RepairsAll bytes (R.remaining reader.old) (R.remaining reader.new)
        (W.contents writer.old) (W.contents writer.new) n }
    ensures read_fault { result ≡ 3 → (bytes : List ℕ)
        × RepairsFinal bytes (R.remaining reader.old) (R.remaining reader.new)
        (W.contents writer.old) (W.contents writer.new) }
    ensures write_fault { result ≡ 4 → (bytes : List ℕ) × (ended : Bool)
        × RepairsPrefix bytes ended (R.remaining reader.old) (R.remaining reader.new)
        (W.contents writer.old) (W.contents writer.new) }
    ensures limit { result ≡ 5 → (bytes : List ℕ) × (length bytes ≡ u64.MAX)
        × RepairsFinal bytes (R.remaining reader.old) (R.remaining reader.new)
        (W.contents writer.old) (W.contents writer.new) }
    ensures line { WritesPrefixOf (line_of result) (E.contents errors.old) (E.contents errors.new) }
    ensures silent { result ≤ 1 → errors.new ≡ errors.old }
{
    if arguments > 0 {
        report(USAGE, errors);
        return USAGE;
    }
    let status = repair_and_flush(reader, writer);
    report(status, errors);
    status
}
