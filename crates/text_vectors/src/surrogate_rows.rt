//! Unpaired surrogates in UTF-16: how many code units come before the first, and the repair of a slice. And surrogates
//! after 0 to 70 letters, so that they are at each index of a block.

use encoding_text::mem::{ensure_utf16_validity, utf16_valid_up_to};
use test_support::rows::{Row, Table, failing_row};

// code units, and how many of them are valid
const PREFIXES: [([u16; 16], usize); 4] = [
    (
        [
            0, 0, 0, 0, 0, 0, 0, 0, 0, 0, 0, 0, 0x2603, 0xD83D, 0xDCA9, 0x00B6,
        ],
        16,
    ),
    (
        [
            0, 0, 0, 0, 0, 0, 0, 0, 0, 0, 0, 0, 0, 0x2603, 0xD83D, 0x00B6,
        ],
        14,
    ),
    (
        [
            0, 0, 0, 0, 0, 0, 0, 0, 0, 0, 0, 0, 0, 0x2603, 0xDCA9, 0x00B6,
        ],
        14,
    ),
    (
        [
            0, 0, 0, 0, 0, 0, 0, 0, 0, 0, 0, 0, 0, 0x2603, 0x00B6, 0xD83D,
        ],
        15,
    ),
];

#[test]
fn finds_the_first_unpaired_surrogate(rt: HostRuntime) {
    for row in &PREFIXES {
        assert!(rt; utf16_valid_up_to(&row.0) == row.1, "not {}", row.1);
    }
    assert!(rt; utf16_valid_up_to(&[]) == 0);
}

/// Unpaired surrogates at indices 1 and 13, and a pair at 5.
#[test]
fn repairs_each_at_its_place(rt: HostRuntime) {
    let mut units = [0; 31];
    units[1] = 0xD83D;
    units[5] = 0xD83D;
    units[6] = 0xDCA9;
    units[13] = 0xDCA9;
    let mut want = units;
    want[1] = 0xFFFD;
    want[13] = 0xFFFD;
    ensure_utf16_validity(&mut units);
    assert!(rt; units == want);
}

/// Returns whether the repair of these three code units yields those.
fn repairs(mut units: [u16; 3], want: [u16; 3]) -> bool {
    ensure_utf16_validity(&mut units);
    units == want
}

#[test]
fn repairs_what_stands_in_no_pair(rt: HostRuntime) {
    assert!(rt; repairs([0xD83D, 0xD83D, 0xDCA9], [0xFFFD, 0xD83D, 0xDCA9]));
    assert!(rt; repairs([0xDCA9, 0xD83D, 0x0061], [0xFFFD, 0xFFFD, 0x0061]));
    let mut units = [0xDCA9, 0xD83D];
    ensure_utf16_validity(&mut units);
    assert!(rt; units == [0xFFFD, 0xFFFD]);
}

/// Code units, whether they are valid or end what is, and their repair.
const ROWS: &str = "\
D83D | end | FFFD
DCA9 | end | FFFD
D83D D83D | end | FFFD FFFD
DCA9 D83D | end | FFFD FFFD
D83D DCA9 | valid | D83D DCA9";

/// Returns `before` letters, the code units, and other letters after them.
fn framed(before: usize, units: &[u16]) -> [u16; 112] {
    let mut framed = [0x62; 112];
    for at in 0..before.min(112) {
        framed[at] = 0x61;
    }
    for (at, unit) in units.iter().enumerate() {
        let place = before.saturating_add(at);
        if place < 112 {
            framed[place] = *unit;
        }
    }
    framed
}

/// After `before` letters and before forty others.
#[derive(Drop)]
struct AtEachPlace {
    before: usize,
}

impl Table for AtEachPlace {
    const ROWS: &'static str = ROWS;

    const COUNT: usize = 5;

    fn holds(&mut self, row: &mut Row<'_>) -> bool {
        let before = self.before;
        let units = row.units();
        let ends = row.word() == "end";
        let length = before.saturating_add(units.length).saturating_add(40);
        let mut all = framed(before, units.as_slice());
        let Some(buffer) = all.get_mut(..length) else {
            return false;
        };
        let found = utf16_valid_up_to(buffer);
        ensure_utf16_validity(buffer);
        found == (if ends { before } else { length })
            && all == framed(before, row.units().as_slice())
    }
}

#[test]
fn at_each_place(rt: HostRuntime) {
    for before in 0..71 {
        let failing = failing_row(&mut AtEachPlace { before });
        assert!(rt;
            failing.is_none(),
            "{}, {before}",
            failing.unwrap_or_default()
        );
    }
}
