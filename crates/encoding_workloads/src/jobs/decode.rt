//! Documents are converted to UTF-16, as an engine needs them: in pieces that cut characters, whole, and as text.

ghost use Rattle.std.specs.Prelude.{◌≤◌, ◌<◌, ◌+◌, ◌-◌, length};

use super::windows::{after, any_length, first, space_after, text_window, texts};
use crate::digest::Digest;
use crate::random::Random;
use crate::text::Kind;
use encoding_runs::run::{Report, Turn, run_to_utf16};
use encoding_text::decoder::{DecoderResult, Utf8Decoder};
use encoding_text::mem::{convert_str_to_utf16, convert_utf8_to_utf16};
use std::alloc::{AllocError, Global};

const KINDS: [Kind; 6] = [
    Kind::Html,
    Kind::Json,
    Kind::Prose,
    Kind::Chinese,
    Kind::Chat,
    Kind::Cyrillic,
];

/// The longest document that comes in pieces, in bytes.
const STREAM: usize = 0x20000;

/// The longest document that is converted at once, in bytes.
const WHOLE: usize = 0x10000;

/// The longest piece, in bytes. The shortest is a sixteenth of it.
const PIECE: usize = 0x10000;

/// The most turns of a run.
const TURNS: usize = 16;

pub(super) fn run(
    alloc: Global,
    rounds: u64,
    random: &mut Random,
    digest: &mut Digest,
) -> Result<(), AllocError> {
    let texts = texts(alloc, &KINDS, random)?;
    let mut units = vec![in alloc; 0; PIECE + 8]?;
    let mut calls = make_calls(alloc)?;
    for _ in 0..rounds {
        for text in &texts {
            let text = text.as_str();
            decode_stream(
                text_window(text, STREAM, random),
                &mut units,
                random,
                digest,
            );
            let document = text_window(text, WHOLE, random);
            if document.len() < units.len() {
                let written = convert_utf8_to_utf16(document.as_bytes(), &mut units);
                digest.units(first(&units, written));
            }
            let document = text_window(text, WHOLE, random);
            if document.len() < units.len() {
                let written = convert_str_to_utf16(document, &mut units);
                digest.units(first(&units, written));
            }
            let document = text_window(text, WHOLE, random);
            run_turns(document, &mut units, &mut calls, random, digest);
        }
    }
    Ok(())
}

/// Decodes a document in pieces, as they come from a network or a file.
fn decode_stream(document: &str, units: &mut [u16], random: &mut Random, digest: &mut Digest) {
    let mut decoder = Utf8Decoder::new_inner();
    let bytes = document.as_bytes();
    let mut at = 0;
    for _ in 0..bytes.len() {
        if at >= bytes.len() {
            break;
        }
        let piece = random.between(PIECE / 16, PIECE).min(bytes.len() - at);
        let last = at + piece == bytes.len();
        decode_piece(&mut decoder, &bytes[at..at + piece], units, last, digest);
        at += piece;
    }
}

/// Decodes a piece, and writes U+FFFD for each malformed sequence.
fn decode_piece(
    decoder: &mut Utf8Decoder,
    piece: &[u8],
    units: &mut [u16],
    last: bool,
    digest: &mut Digest,
) {
    let mut read = 0;
    let mut written = 0;
    for _ in 0..=piece.len() {
        let (result, more_read, more) = decoder.decode_to_utf16_raw(
            after(piece, read),
            space_after(units, written),
            last,
        );
        read = more_read.wrapping_add(read);
        written = more.wrapping_add(written);
        match result {
            DecoderResult::Malformed(..) if written < units.len() => {
                units[written] = 0xFFFD;
                written += 1;
            }
            _ => break,
        }
    }
    digest.number(read);
    digest.units(first(units, written));
}

/// Decodes a document by one run, whose turns have pieces and spaces of any length.
fn run_turns(
    document: &str,
    units: &mut [u16],
    calls: &mut Calls,
    random: &mut Random,
    digest: &mut Digest,
) {
    for turn in calls.turns.iter_mut() {
        turn.take = any_length(PIECE / 2, random);
        turn.room = any_length(PIECE / 2, random);
    }
    if calls.turns.len() > calls.reports.len() {
        return;
    }
    let mut decoder = Utf8Decoder::new_inner();
    let outcome = run_to_utf16(
        &mut decoder,
        document.as_bytes(),
        &calls.turns,
        units,
        &mut calls.reports,
    );
    digest.number(outcome.read);
    digest.number(outcome.reports);
    digest.units(first(units, outcome.written));
}

/// The turns of a run, and the space for its reports.
#[derive(Drop)]
struct Calls {
    turns: Vec<Turn>,
    reports: Vec<Report>,
}

/// Returns turns, each marked last if its piece ends the document.
fn make_calls(alloc: Global) -> Result<Calls, AllocError> {
    let mut turns = Vec::new(alloc);
    let mut reports = Vec::new(alloc);
    for _ in 0..TURNS {
        turns.push(Turn {
            take: 0,
            room: 0,
            last: true,
        })?;
        reports.push(Report {
            place: 0,
            length: 0,
        })?;
    }
    Ok(Calls { turns, reports })
}
