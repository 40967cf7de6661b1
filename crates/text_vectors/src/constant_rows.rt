//! Constants: the entries of the table, the formulas by them, and the numbers of the variants of public enums.

use crate::assertions::assert_rows;
use encoding_text::mem::Latin1Bidi;
use encoding_text::utf_8::{UTF8_DATA, law_table};
use test_support::rows::{Row, Table};

// the first and the last index of each range of entries, and the entry there
const RANGES: [(usize, usize, u8); 15] = [
    (0x000, 0x07F, 252),
    (0x080, 0x08F, 84),
    (0x090, 0x09F, 148),
    (0x0A0, 0x0BF, 164),
    (0x0C0, 0x0FF, 252),
    (0x100, 0x141, 4),
    (0x142, 0x15F, 8),
    (0x160, 0x160, 16),
    (0x161, 0x16C, 8),
    (0x16D, 0x16D, 32),
    (0x16E, 0x16F, 8),
    (0x170, 0x170, 64),
    (0x171, 0x173, 8),
    (0x174, 0x174, 128),
    (0x175, 0x17F, 4),
];

/// Returns the entry of the range that the index is in.
fn entry_at(place: usize) -> Option<u8> {
    for (first, last, entry) in RANGES {
        if first <= place && place <= last {
            return Some(entry);
        }
    }
    None
}

#[test]
fn each_entry_is_that_of_its_range(rt: HostRuntime) {
    let mut count = 0u32;
    for (place, entry) in UTF8_DATA.table.iter().enumerate() {
        assert!(rt; entry_at(place) == Some(*entry), "{place}");
        count = count.saturating_add(1);
    }
    assert!(rt; count == 384);
}

// a first byte and those after it, and what the formula for this many bytes yields
const FORMULAS: &str = "\
E0 A0 80 | 2
E0 9F BF | 12
ED A0 80 | 22
C1 BF 80 | 6
F0 90 80 80 | 202
F4 90 80 80 | 282
F0 90 80 7F | 102";

/// The formula of three bytes, or in sixteen bits that of four.
fn formula(bytes: &[u8]) -> Option<u16> {
    let (lead, second, third, fourth) = match *bytes {
        [lead, second, third] => (lead, second, third, 0),
        [lead, second, third, fourth] => (lead, second, third, fourth),
        _ => return None,
    };
    law_table(lead, second, third, fourth);
    let common = UTF8_DATA.table[usize::from(second)] & UTF8_DATA.table[usize::from(lead) + 0x80];
    Some(u16::from(common) | u16::from(third >> 6) | (u16::from(fourth & 0xC0) << 2))
}

#[derive(Drop)]
struct Formulas;

impl Table for Formulas {
    const ROWS: &'static str = FORMULAS;

    const COUNT: usize = 7;

    fn holds(&mut self, row: &mut Row<'_>) -> bool {
        let bytes = row.bytes();
        let value = row.units();
        value.length == 1 && formula(bytes.as_slice()) == value.as_slice().first().copied()
    }
}

#[test]
fn formulas_hold(rt: HostRuntime) {
    assert_rows(&rt, &mut Formulas);
}

#[test]
fn count_up(rt: HostRuntime) {
    assert!(rt; Latin1Bidi::Latin1 as u8 == 0 && Latin1Bidi::LeftToRight as u8 == 1);
    assert!(rt; Latin1Bidi::Bidi as u8 == 2);
}
