//! Conversions with U+FFFD for each malformed sequence, into a destination of any length.

use crate::assertions::assert_rows;
use encoding_text::mem::{convert_utf8_to_utf16_partial, repair_slice_partial};
use test_support::rows::{Row, Table};
use test_support::texts::are_written;

/// Bytes, the length of the destination, the number of bytes read, and the code units written. The values are those of
/// CPython's `decode('utf-8')` with an error handler that records each malformed sequence.
const UNITS: &str = "\
61 C3 A4 FF | 0 | 0 |
61 C3 A4 FF | 1 | 1 | 0061
61 C3 A4 FF | 2 | 3 | 0061 00E4
61 C3 A4 FF | 3 | 4 | 0061 00E4 FFFD
F0 9F 92 A9 | 0 | 0 |
F0 9F 92 A9 | 1 | 0 |
F0 9F 92 A9 | 2 | 4 | D83D DCA9
61 F0 9F 92 | 0 | 0 |
61 F0 9F 92 | 1 | 1 | 0061
61 F0 9F 92 | 2 | 4 | 0061 FFFD
E2 98 83 F0 9F 92 A9 80 | 0 | 0 |
E2 98 83 F0 9F 92 A9 80 | 1 | 3 | 2603
E2 98 83 F0 9F 92 A9 80 | 2 | 3 | 2603
E2 98 83 F0 9F 92 A9 80 | 3 | 7 | 2603 D83D DCA9
E2 98 83 F0 9F 92 A9 80 | 4 | 8 | 2603 D83D DCA9 FFFD
EF BF BD C0 | 0 | 0 |
EF BF BD C0 | 1 | 3 | FFFD
EF BF BD C0 | 2 | 4 | FFFD FFFD
F4 90 80 61 | 0 | 0 |
F4 90 80 61 | 1 | 1 | FFFD
F4 90 80 61 | 2 | 2 | FFFD FFFD
F4 90 80 61 | 3 | 3 | FFFD FFFD FFFD
F4 90 80 61 | 4 | 4 | FFFD FFFD FFFD 0061";

/// Bytes, the length of the destination, the number of bytes read and of malformed sequences replaced, and the bytes
/// written. The values are those of the same decoder.
const BYTES: &str = "\
61 C3 A4 FF | 0 | 0 | 0 |
61 C3 A4 FF | 1 | 1 | 0 | 61
61 C3 A4 FF | 3 | 3 | 0 | 61 C3 A4
61 C3 A4 FF | 5 | 3 | 0 | 61 C3 A4
61 C3 A4 FF | 6 | 4 | 1 | 61 C3 A4 EF BF BD
F0 9F 92 A9 | 0 | 0 | 0 |
F0 9F 92 A9 | 1 | 0 | 0 |
F0 9F 92 A9 | 3 | 0 | 0 |
F0 9F 92 A9 | 4 | 4 | 0 | F0 9F 92 A9
61 F0 9F 92 | 0 | 0 | 0 |
61 F0 9F 92 | 1 | 1 | 0 | 61
61 F0 9F 92 | 3 | 1 | 0 | 61
61 F0 9F 92 | 4 | 4 | 1 | 61 EF BF BD
E2 98 83 F0 9F 92 A9 80 | 0 | 0 | 0 |
E2 98 83 F0 9F 92 A9 80 | 1 | 0 | 0 |
E2 98 83 F0 9F 92 A9 80 | 7 | 7 | 0 | E2 98 83 F0 9F 92 A9
E2 98 83 F0 9F 92 A9 80 | 9 | 7 | 0 | E2 98 83 F0 9F 92 A9
E2 98 83 F0 9F 92 A9 80 | 10 | 8 | 1 | E2 98 83 F0 9F 92 A9 EF BF BD
EF BF BD C0 | 0 | 0 | 0 |
EF BF BD C0 | 1 | 0 | 0 |
EF BF BD C0 | 3 | 3 | 0 | EF BF BD
EF BF BD C0 | 5 | 3 | 0 | EF BF BD
EF BF BD C0 | 6 | 4 | 1 | EF BF BD EF BF BD
F4 90 80 61 | 0 | 0 | 0 |
F4 90 80 61 | 1 | 0 | 0 |
F4 90 80 61 | 7 | 2 | 2 | EF BF BD EF BF BD
F4 90 80 61 | 9 | 3 | 3 | EF BF BD EF BF BD EF BF BD
F4 90 80 61 | 10 | 4 | 3 | EF BF BD EF BF BD EF BF BD 61";

#[derive(Drop)]
struct ToUtf16;

impl Table for ToUtf16 {
    const ROWS: &'static str = UNITS;

    const COUNT: usize = 23;

    fn holds(&mut self, row: &mut Row<'_>) -> bool {
        let bytes = row.bytes();
        let mut dst = [0x71; 8];
        let Some(room) = dst.get_mut(..row.number()) else {
            return false;
        };
        let (read, written) = convert_utf8_to_utf16_partial(bytes.as_slice(), room);
        read == row.number() && are_written(row.units().as_slice(), &dst, written)
    }
}

#[test]
fn to_utf16_as_far_as_it_fits(rt: HostRuntime) {
    assert_rows(&rt, &mut ToUtf16);
}

#[derive(Drop)]
struct Repaired;

impl Table for Repaired {
    const ROWS: &'static str = BYTES;

    const COUNT: usize = 28;

    fn holds(&mut self, row: &mut Row<'_>) -> bool {
        let bytes = row.bytes();
        let mut dst = [0x71; 16];
        let Some(room) = dst.get_mut(..row.number()) else {
            return false;
        };
        let (read, written, replaced) = repair_slice_partial(bytes.as_slice(), room);
        read == row.number()
            && replaced == row.number()
            && are_written(row.bytes().as_slice(), &dst, written)
    }
}

#[test]
fn repairs_as_far_as_it_fits(rt: HostRuntime) {
    assert_rows(&rt, &mut Repaired);
}
