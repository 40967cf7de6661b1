//! What is read each day, in buffers of the lengths that programs have. Pages are decoded, converted, validated and
//! repaired, and those of Latin1 go there and back.

ghost use Rattle.std.specs.Prelude.{◌≤◌, ◌<◌, ◌+◌, ◌-◌, length};

use super::windows::{after, first, latin1_of, space_after};
use crate::digest::Digest;
use crate::pages::{Page, make_page};
use crate::random::Random;
use encoding_runs::repair::{Watch, repair_slice};
use encoding_text::decoder::Utf8Decoder;
use encoding_text::mem::{
    convert_latin1_to_utf8, convert_str_to_utf16, convert_utf8_to_latin1_lossy, is_utf8_latin1,
};
use encoding_text::utf_8::utf8_valid_up_to;
use std::alloc::{AllocError, Global};

const PAGES: [Page; 18] = [
    Page::Chinese,
    Page::Japanese,
    Page::Korean,
    Page::Spanish,
    Page::French,
    Page::German,
    Page::English(50),
    Page::English(300),
    Page::English(3000),
    Page::English(20_000),
    Page::Code(50),
    Page::Code(300),
    Page::Code(3000),
    Page::Code(20_000),
    Page::Json(50),
    Page::Json(300),
    Page::Json(3000),
    Page::Json(20_000),
];

/// The length of a page, in bytes.
const PAGE: usize = 0x10000;

/// Buffers that follow one another: their length in bytes, and how many are read.
#[derive(Clone, Copy)]
struct Buffers {
    length: usize,
    count: usize,
}

/// The buffers of a round: the longer, the fewer, so that short calls take a part of the time that is seen.
const BUFFERS: [Buffers; 6] = [
    Buffers {
        length: 16,
        count: 64,
    },
    Buffers {
        length: 64,
        count: 32,
    },
    Buffers {
        length: 256,
        count: 16,
    },
    Buffers {
        length: 1024,
        count: 8,
    },
    Buffers {
        length: 4096,
        count: 4,
    },
    Buffers {
        length: 0x4000,
        count: 1,
    },
];

/// The most that the buffers of one length hold, in bytes.
const MOST: usize = 0x4000;

/// What is done with each buffer.
#[derive(Clone, Copy)]
enum Call {
    Decode,
    Convert,
    Validate,
    Repair,
    FromLatin1,
    ToLatin1,
}

const CALLS: [Call; 6] = [
    Call::Decode,
    Call::Convert,
    Call::Validate,
    Call::Repair,
    Call::FromLatin1,
    Call::ToLatin1,
];

/// A page, and the same in Latin1: nothing if it has other characters.
#[derive(Drop)]
struct Forms {
    text: String,
    latin1: Vec<u8>,
}

/// Where the results of some buffers are stored, one after the other.
#[derive(Drop)]
struct Space {
    decoder: Utf8Decoder,
    units: Vec<u16>,
    units_length: usize,
    bytes: Vec<u8>,
    bytes_length: usize,
    repaired: Vec<u8>,
}

pub(super) fn run(
    alloc: Global,
    rounds: u64,
    random: &mut Random,
    digest: &mut Digest,
) -> Result<(), AllocError> {
    let mut pages = Vec::new(alloc);
    for page in &PAGES {
        let forms = make_forms(alloc, *page, random)?;
        pages.push(forms)?;
    }
    let mut space = Space {
        decoder: Utf8Decoder::new_inner(),
        units: vec![in alloc; 0; 2 * MOST]?,
        units_length: 0,
        bytes: vec![in alloc; 0; 4 * MOST]?,
        bytes_length: 0,
        repaired: Vec::with_capacity(alloc, 2 * MOST)?,
    };
    for _ in 0..rounds {
        for page in &pages {
            for buffers in &BUFFERS {
                for call in &CALLS {
                    read(*call, page, *buffers, false, &mut space, random, digest);
                    read(*call, page, *buffers, true, &mut space, random, digest);
                }
            }
        }
    }
    Ok(())
}

/// Returns a page in each form.
fn make_forms(alloc: Global, page: Page, random: &mut Random) -> Result<Forms, AllocError> {
    let text = make_page(alloc, page, PAGE, random)?;
    let latin1 = if is_utf8_latin1(text.as_bytes()) {
        latin1_of(alloc, text.as_str())?
    } else {
        Vec::new(alloc)
    };
    Ok(Forms { text, latin1 })
}

/// Reads a part of a page by buffers of one length, or of lengths that vary up to it.
fn read(
    call: Call,
    page: &Forms,
    buffers: Buffers,
    varies: bool,
    space: &mut Space,
    random: &mut Random,
    digest: &mut Digest,
) {
    space.decoder = Utf8Decoder::new_inner();
    space.units_length = 0;
    space.bytes_length = 0;
    space.repaired.clear();
    let most = PAGE - MOST;
    let mut at = page
        .text
        .as_str()
        .floor_char_boundary(random.between(0, most));
    let mut results = 0usize;
    for _ in 0..buffers.count {
        let length = if varies {
            random.between(buffers.length / 4, buffers.length)
        } else {
            buffers.length
        };
        let (read, written) = take_in(call, page, at, length, space);
        results = results.rotate_left(7) ^ (read ^ (written << 16));
        at = at.wrapping_add(read);
    }
    digest.number(results);
    digest.units(first(&space.units, space.units_length));
    digest.bytes(first(&space.bytes, space.bytes_length));
    digest.bytes(&space.repaired);
}

/// Passes the buffer at this index to the call, and returns how much was read and written.
fn take_in(
    call: Call,
    page: &Forms,
    at: usize,
    length: usize,
    space: &mut Space,
) -> (usize, usize) {
    let text = page.text.as_str();
    let bytes = text.as_bytes();
    match call {
        Call::Decode => decode(buffer(bytes, at, length), space),
        Call::Convert => convert(text_buffer(text, at, length), space),
        Call::Validate => {
            let valid = utf8_valid_up_to(buffer(bytes, at, length));
            (valid, valid)
        }
        Call::Repair => repair(text_buffer(text, at, length).as_bytes(), space),
        Call::FromLatin1 => from_latin1(buffer(&page.latin1, at, length), space),
        Call::ToLatin1 => to_latin1(text_buffer(text, at, length).as_bytes(), space),
    }
}

/// Returns what a buffer of this length holds, from an index on. A character may be cut.
fn buffer(bytes: &[u8], at: usize, length: usize) -> &[u8] {
    first(after(bytes, at), length)
}

/// Returns the whole characters that it holds.
fn text_buffer(text: &str, at: usize, length: usize) -> &str {
    let end = text.floor_char_boundary(at.wrapping_add(length));
    text.get(at..end).unwrap_or("")
}

/// Decodes what follows the bytes that were decoded before.
fn decode(src: &[u8], space: &mut Space) -> (usize, usize) {
    let dst = space_after(&mut space.units, space.units_length);
    let (_, read, written) = space.decoder.decode_to_utf16_raw(src, dst, false);
    space.units_length = space.units_length.wrapping_add(written);
    (read, written)
}

fn convert(src: &str, space: &mut Space) -> (usize, usize) {
    let dst = space_after(&mut space.units, space.units_length);
    if dst.len() < src.len() {
        return (0, 0);
    }
    let written = convert_str_to_utf16(src, dst);
    space.units_length = space.units_length.wrapping_add(written);
    (src.len(), written)
}

fn repair(src: &[u8], space: &mut Space) -> (usize, usize) {
    match repair_slice(src, &mut Watch::new(&mut space.repaired)) {
        Ok(replaced) => (src.len(), replaced as usize),
        Err(_) => (0, 0),
    }
}

fn from_latin1(src: &[u8], space: &mut Space) -> (usize, usize) {
    let dst = space_after(&mut space.bytes, space.bytes_length);
    if dst.len() / 2 < src.len() {
        return (0, 0);
    }
    let written = convert_latin1_to_utf8(src, dst);
    space.bytes_length = space.bytes_length.wrapping_add(written);
    (src.len(), written)
}

/// Does nothing if a character isn't in Latin1.
fn to_latin1(src: &[u8], space: &mut Space) -> (usize, usize) {
    let dst = space_after(&mut space.bytes, space.bytes_length);
    if dst.len() < src.len() || !is_utf8_latin1(src) {
        return (0, 0);
    }
    let written = convert_utf8_to_latin1_lossy(src, dst);
    space.bytes_length = space.bytes_length.wrapping_add(written);
    (src.len(), written)
}
