//! A filter or an import repairs streams: text with some damage, files that are no UTF-8 at all, and sound text.

ghost use Rattle.std.specs.Prelude.{◌≤◌, ◌<◌, ◌+◌, ◌-◌, length};

use super::windows::{after, first, latin1_of, window};
use crate::digest::Digest;
use crate::random::Random;
use crate::text::{Kind, make_text};
use encoding_runs::malformed::next_malformation;
use encoding_runs::repair::{Watch, repair, repair_block, repair_slice};
use encoding_text::decoder::{Piece, Utf8Decoder};
use std::alloc::{AllocError, Global};

/// The longest stream, in bytes.
const WHOLE: usize = 0x10000;

/// The longest one that is no text, in bytes.
const NO_TEXT: usize = 0x4000;

/// A stream to repair.
#[derive(Clone, Copy)]
enum Stream {
    /// Log lines, in which one byte in a hundred is damaged.
    DamagedLogs,
    /// Chinese, in which one byte in a thousand is damaged.
    DamagedChinese,
    /// A file in Latin1.
    Latin1,
    /// An archive or an image: compressed data, with names and runs of zeros in it.
    Binary,
    /// Sound text.
    Sound,
}

/// The bytes that the streams of a kind are parts of.
#[derive(Drop)]
struct Bytes {
    bytes: Vec<u8>,
    longest: usize,
    ghost long: { 64 ≤ longest },
}

const STREAMS: [Stream; 5] = [
    Stream::DamagedLogs,
    Stream::DamagedChinese,
    Stream::Latin1,
    Stream::Binary,
    Stream::Sound,
];

pub(super) fn run(
    alloc: Global,
    rounds: u64,
    random: &mut Random,
    digest: &mut Digest,
) -> Result<(), AllocError> {
    let mut streams = Vec::new(alloc);
    for stream in &STREAMS {
        let bytes = make_stream(alloc, *stream, random)?;
        let longest = match stream {
            Stream::Binary => NO_TEXT,
            _ => WHOLE,
        };
        streams.push(Bytes { bytes, longest })?;
    }
    let mut repaired = Vec::with_capacity(alloc, 3 * WHOLE)?;
    let mut block = vec![in alloc; 0; WHOLE / 4]?;
    for _ in 0..rounds {
        for stream in &streams {
            let most = stream.longest;
            let bytes = stream.bytes.as_slice();
            repair_stream(window(bytes, most, random), &mut repaired, digest);
            repair_bytes(window(bytes, most, random), &mut repaired, digest);
            repair_blocks(window(bytes, most, random), &mut block, digest);
            read_pieces(window(bytes, most, random), digest);
            list_malformed(window(bytes, most, random), digest);
        }
    }
    Ok(())
}

/// Returns the bytes of a stream.
fn make_stream(alloc: Global, stream: Stream, random: &mut Random) -> Result<Vec<u8>, AllocError> {
    let kind = match stream {
        Stream::DamagedLogs => Kind::Logs,
        Stream::DamagedChinese => Kind::Chinese,
        Stream::Latin1 => Kind::Western,
        Stream::Binary => Kind::Names,
        Stream::Sound => Kind::Html,
    };
    let text = make_text(alloc, kind, super::TEXT, random)?;
    match stream {
        Stream::DamagedLogs => Ok(damaged(text, 100, random)),
        Stream::DamagedChinese => Ok(damaged(text, 1000, random)),
        Stream::Latin1 => latin1_of(alloc, text.as_str()),
        Stream::Binary => binary(alloc, text.as_bytes(), random),
        Stream::Sound => Ok(text.into_bytes()),
    }
}

/// Returns a text in which one byte in `chances` becomes any byte beyond ASCII.
fn damaged(text: String, chances: usize, random: &mut Random) -> Vec<u8>
    requires { 0 < chances }
{
    let mut bytes = text.into_bytes();
    for byte in bytes.iter_mut() {
        if random.is_one_in(chances) {
            *byte = 0x80 | (random.next() & 0x7F) as u8;
        }
    }
    bytes
}

/// Returns entries: a name, zeros, and then data that is compressed and so looks random.
fn binary(alloc: Global, names: &[u8], random: &mut Random) -> Result<Vec<u8>, AllocError> {
    let mut bytes = Vec::with_capacity(alloc, names.len())?;
    let mut at = 0;
    for _ in 0..super::TEXT {
        if bytes.len() >= super::TEXT || at >= names.len() {
            break;
        }
        let length = random.between(8, 64).min(names.len() - at);
        bytes.extend_from_slice(&names[at..at + length])?;
        at += length;
        let zeros = random.between(8, 128);
        bytes.resize(bytes.len().saturating_add(zeros), 0)?;
        for _ in 0..random.between(64, 2048) {
            bytes.push((random.next() & 0xFF) as u8)?;
        }
    }
    Ok(bytes)
}

/// Repairs a stream as it is read.
fn repair_stream(stream: &[u8], repaired: &mut Vec<u8>, digest: &mut Digest) {
    repaired.clear();
    let mut reader = stream;
    let result = repair(
        &mut Watch::new(&mut reader),
        &mut Watch::new(repaired),
        u64::MAX,
    );
    if let Ok(counts) = result {
        digest.number(counts.read as usize);
        digest.number(counts.replaced as usize);
    }
    digest.bytes(repaired);
}

/// Repairs a slice.
fn repair_bytes(bytes: &[u8], repaired: &mut Vec<u8>, digest: &mut Digest) {
    repaired.clear();
    if let Ok(replaced) = repair_slice(bytes, &mut Watch::new(repaired)) {
        digest.number(replaced as usize);
    }
    digest.bytes(repaired);
}

/// Repairs a stream into blocks of fixed space.
fn repair_blocks(stream: &[u8], block: &mut [u8], digest: &mut Digest) {
    let mut decoder = Utf8Decoder::new_inner();
    let mut read = 0;
    for _ in 0..=stream.len() {
        let step = repair_block(&mut decoder, after(stream, read), block, true);
        read = step.read.wrapping_add(read);
        digest.bytes(first(block, step.written));
        digest.number(step.replaced);
        if step.finished {
            break;
        }
    }
}

/// Reads the pieces of a stream without copying them.
fn read_pieces(stream: &[u8], digest: &mut Digest) {
    let mut decoder = Utf8Decoder::new_inner();
    let mut read = 0;
    let mut text_length = 0usize;
    let mut malformed = 0usize;
    for _ in 0..=stream.len() {
        let (piece, count) = decoder.decode_borrowed_raw(after(stream, read), true);
        read = count.wrapping_add(read);
        match piece {
            Piece::Text(text) => text_length = text_length.wrapping_add(text.len()),
            Piece::Char(_) => {}
            Piece::Malformed(length) => {
                malformed = malformed.rotate_left(3) ^ (read ^ usize::from(length));
            }
            Piece::InputEmpty => break,
        }
    }
    digest.number(text_length);
    digest.number(malformed);
}

/// Lists the malformed sequences of a file, with the reason for each.
fn list_malformed(file: &[u8], digest: &mut Digest) {
    let mut at = 0usize;
    let mut places = 0usize;
    for _ in 0..file.len() {
        let Some((sequence, kind)) = next_malformation(after(file, at)) else {
            break;
        };
        at = at
            .wrapping_add(sequence.place)
            .wrapping_add(sequence.length);
        places = places.rotate_left(5) ^ (at ^ ((kind as usize) << 32));
    }
    digest.number(places);
}
