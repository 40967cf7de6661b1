//! The search of a stream: the offset, the length and the kind of each malformed sequence, cut at each byte, into
//! arrays of each length. The offsets and lengths are those that Python's `bytes.decode` reports, the kinds those of
//! Table 3-7.

use encoding_runs::malformed::Malformation;
use encoding_runs::search::{MalformedSearch, SearchPiece, StreamMalformation, search_block};
use std::alloc::Global;
use std::test::Fail;

/// Bytes, and their malformed sequences: the offset and the length of each, and a letter for its kind.
const ROWS: [(&[u8], &str); 14] = [
    (b"ab", ""),
    (b"a\xE2\x98Z\xFF", "1:2T 4:1D"),
    (b"\xC3\xA9\x80", "2:1C"),
    (b"\xED\xA0\x80A", "0:1S 1:1C 2:1C"),
    (b"\xF4\x90\x80\x80", "0:1L 1:1C 2:1C 3:1C"),
    (b"\xF0\x9F\x98\x80\xF0\x9F\x98", "4:3E"),
    (b"\xE2\x82", "0:2E"),
    (b"A\xE2", "1:1E"),
    (b"\xE0\x80\x80A\xC0", "0:1O 1:1C 2:1C 4:1D"),
    (b"\xF1\x80\x80\xE1\x80\xC2A", "0:3T 3:2T 5:1T"),
    (b"\xC2\xC2\xC2", "0:1T 1:1T 2:1E"),
    (b"\xEF\xBB\xBF\xFF\xFE", "3:1D 4:1D"),
    (b"\xF0\x9FA\xF0\x9F\x98A", "0:2T 3:3T"),
    (b"\n\xFF\n", "1:1D"),
];

/// The longest array.
const LONGEST: usize = 4;

/// Fills an array. No row has it.
const UNWRITTEN: StreamMalformation = StreamMalformation {
    offset: 77,
    length: 7,
    kind: Malformation::TooLarge,
};

/// Returns the letter of a kind.
fn letter_of(kind: Malformation) -> char {
    match kind {
        Malformation::UnexpectedContinuation => 'C',
        Malformation::DisallowedByte => 'D',
        Malformation::Overlong => 'O',
        Malformation::Surrogate => 'S',
        Malformation::TooLarge => 'L',
        Malformation::Truncated => 'T',
        Malformation::IncompleteAtEnd => 'E',
    }
}

/// Appends a malformed sequence in the form of the rows.
fn append(all: &mut String, found: StreamMalformation) -> Result<(), Fail> {
    if !all.is_empty() {
        all.push(' ')?;
    }
    let offset = found.offset;
    let length = found.length;
    let letter = letter_of(found.kind);
    write!(all, "{offset}:{length}{letter}")?;
    Ok(())
}

/// Searches a piece of a stream, with calls into arrays of this length.
fn search_piece(
    search: &mut MalformedSearch,
    piece: &[u8],
    room: usize,
    last: bool,
    all: &mut String,
) -> Result<(), Fail> {
    let mut rest = piece;
    for _ in 0..32u32 {
        let mut array = [UNWRITTEN; LONGEST];
        let found = array.get_mut(..room).ok_or("no such array")?;
        if search.offset().checked_add(rest.len() as u64).is_none() {
            return Err(Fail::from("too long"));
        }
        let block = search_block(search, rest, found, last);
        for (index, one) in array.iter().enumerate() {
            if index < block.found {
                append(all, *one)?;
            } else if *one != UNWRITTEN {
                return Err(Fail::from("the rest of the array is changed"));
            }
        }
        rest = rest.get(block.read..).ok_or("more was read")?;
        if block.finished {
            return Ok(());
        }
        if block.found < room {
            return Err(Fail::from("the array isn't full"));
        }
    }
    Err(Fail::from("the search doesn't end"))
}

/// Returns what a search of a stream finds that is cut at this index, with calls into arrays of this length.
fn found(alloc: Global, bytes: &[u8], cut: usize, room: usize) -> Result<String, Fail> {
    let (first, second) = bytes.split_at_checked(cut).ok_or("no such cut")?;
    let mut all = String::new(alloc);
    let mut search = MalformedSearch::new();
    search_piece(&mut search, first, room, false, &mut all)?;
    search_piece(&mut search, second, room, true, &mut all)?;
    if search.in_neutral_state() && search.offset() == bytes.len() as u64 {
        Ok(all)
    } else {
        Err(Fail::from("the search isn't at the end"))
    }
}

#[test]
fn rows_hold(rt: HostRuntime) -> Result<(), Fail> {
    let mut count = 0u32;
    for (bytes, expected) in &ROWS {
        for cut in 0..=bytes.len() {
            for room in 1..=LONGEST {
                let all = found(rt.alloc(), bytes, cut, room)?;
                assert!(rt; all.as_str() == *expected, "{expected} {cut} {room} {all}");
            }
        }
        count = count.saturating_add(1);
    }
    assert!(rt; count == 14);
    Ok(())
}

#[test]
fn offsets_exceed_32_bits(rt: HostRuntime) -> Result<(), Fail> {
    let mut search = MalformedSearch::at(0x1_0000_0000);
    let mut all = String::new(rt.alloc());
    search_piece(&mut search, b"ab\xE2", 1, false, &mut all)?;
    assert!(rt; search.offset() == 0x1_0000_0003);
    assert!(rt; search.pending().1 == 1);
    search_piece(&mut search, b"\x98c", 1, true, &mut all)?;
    assert!(rt; all.as_str() == "4294967298:2T");
    Ok(())
}

#[test]
fn pieces_have_the_bytes(rt: HostRuntime) -> Result<(), Fail> {
    let mut search = MalformedSearch::new();
    assert!(rt; search.next_piece(b"ab\xE2", false) == (SearchPiece::Text("ab"), 2));
    assert!(rt; search.next_piece(b"\xE2", false) == (SearchPiece::InputEmpty, 1));
    let found = StreamMalformation {
        offset: 2,
        length: 2,
        kind: Malformation::Truncated,
    };
    let piece = search.next_piece(b"\x98A", false);
    assert!(rt; piece == (SearchPiece::Malformed(found, [0xE2, 0x98, 0]), 1));
    Ok(())
}
