//! Counts of characters, and lengths of repaired text.

use crate::assertions::assert_rows;
use encoding_text::count::{repaired_utf8_length, utf8_count, utf16_count};
use encoding_text::mem::utf16_length_from_utf8;
use test_support::rows::{Row, Table};

/// Bytes, the number of characters, and the length of their text in UTF-8 and in UTF-16, with U+FFFD for each malformed
/// sequence. The values are those of CPython's `decode('utf-8', 'replace')`.
const BYTES: &str = "\
 | 0 | 0 | 0
61 C3 A4 | 2 | 3 | 2
61 C3 | 2 | 4 | 2
61 E2 98 5A | 3 | 5 | 3
F0 9F 92 A9 | 1 | 4 | 2
F0 9F 92 | 1 | 3 | 1
F0 9F 92 FF | 2 | 6 | 2
F5 80 80 80 | 4 | 12 | 4
EF BF BD | 1 | 3 | 1
4D D0 B0 E4 BA 8C F0 90 8C 82 | 4 | 10 | 5
C0 AF E0 80 BF F0 81 82 41 | 9 | 25 | 9
ED A0 80 ED BF BF ED AF 41 | 9 | 25 | 9
F4 91 92 93 FF 41 80 BF 42 | 9 | 23 | 9
E1 80 E2 F0 91 92 F1 BF 41 | 5 | 13 | 5";

/// Code units, and the number of characters and unpaired surrogates. The values are those of CPython's
/// `decode('utf-16-le', 'surrogatepass')`.
const UNITS: &str = "\
 | 0
D83D DCA9 | 1
D83D | 1
DCA9 D83D | 2
D83D D83D DCA9 | 2
DBFF DFFF D800 DC00 | 2
D7FF E000 | 2
D800 0061 DC00 | 3
004D 0430 4E8C D800 DF02 | 4";

#[derive(Drop)]
struct OfBytes;

impl Table for OfBytes {
    const ROWS: &'static str = BYTES;

    const COUNT: usize = 14;

    fn holds(&mut self, row: &mut Row<'_>) -> bool {
        let bytes = row.bytes();
        let bytes = bytes.as_slice();
        utf8_count(bytes) == row.number()
            && repaired_utf8_length(bytes) == Some(row.number())
            && utf16_length_from_utf8(bytes) == row.number()
    }
}

#[test]
fn counts_of_bytes(rt: HostRuntime) {
    assert_rows(&rt, &mut OfBytes);
}

#[derive(Drop)]
struct OfUnits;

impl Table for OfUnits {
    const ROWS: &'static str = UNITS;

    const COUNT: usize = 9;

    fn holds(&mut self, row: &mut Row<'_>) -> bool {
        utf16_count(row.units().as_slice()) == row.number()
    }
}

#[test]
fn counts_of_units(rt: HostRuntime) {
    assert_rows(&rt, &mut OfUnits);
}
