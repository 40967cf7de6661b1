//! Why sequences are malformed: the bytes of the Unicode Standard's tables 3-8 to 3-11, the first and last bytes of the
//! ranges of Table 3-7, and those next to them.

use crate::assertions::assert_rows;
use Malformation::{
    DisallowedByte, IncompleteAtEnd, Overlong, Surrogate, TooLarge, Truncated,
    UnexpectedContinuation,
};
use encoding_runs::malformed::{Malformation, next_malformation};
use test_support::rows::{Row, Table};

/// Bytes, and their malformed sequences: the length of each and a letter for its kind.
const ROWS: &str = "\
C0 AF E0 80 BF F0 81 82 41 | 1D 1C 1O 1C 1C 1O 1C 1C
ED A0 80 ED BF BF ED AF 41 | 1S 1C 1C 1S 1C 1C 1S 1C
F4 91 92 93 FF 41 80 BF 42 | 1L 1C 1C 1C 1D 1C 1C
E1 80 E2 F0 91 92 F1 BF 41 | 2T 1T 3T 2T
61 |
7F |
80 | 1C
BF | 1C
C0 | 1D
C1 BF | 1D 1C
C2 | 1E
C2 41 | 1T
C2 C0 | 1T 1D
DF 7F | 1T
E0 | 1E
E0 7F | 1T
E0 80 | 1O 1C
E0 9F BF | 1O 1C 1C
E0 A0 | 2E
E0 A0 80 |
E0 C0 | 1T 1D
E1 80 | 2E
EC BF 41 | 2T
ED 9F | 2E
ED A0 | 1S 1C
ED BF | 1S 1C
ED C0 | 1T 1D
EE 80 C2 | 2T 1E
EF BF | 2E
F0 7F | 1T
F0 80 80 80 | 1O 1C 1C 1C
F0 8F BF BF | 1O 1C 1C 1C
F0 90 | 2E
F0 90 80 | 3E
F1 80 80 41 | 3T
F3 BF BF FF | 3T 1D
F4 8F BF | 3E
F4 90 80 80 | 1L 1C 1C 1C
F4 BF | 1L 1C
F4 C0 | 1T 1D
F5 80 | 1D 1C
FF | 1D";

/// Returns the letter of a kind.
fn letter_of(kind: Malformation) -> &'static str {
    match kind {
        UnexpectedContinuation => "C",
        DisallowedByte => "D",
        Overlong => "O",
        Surrogate => "S",
        TooLarge => "L",
        Truncated => "T",
        IncompleteAtEnd => "E",
    }
}

/// Returns whether the first malformed sequence is the one that a word names. Leaves the bytes after it.
fn comes_first(rest: &mut &[u8], word: &str) -> bool {
    let Some((found, kind)) = next_malformation(rest) else {
        return false;
    };
    let end = found.place.saturating_add(found.length);
    *rest = rest.get(end..).unwrap_or_default();
    match word.split_at_checked(1) {
        Some((length, letter)) => {
            length.parse::<usize>() == Ok(found.length) && letter == letter_of(kind)
        }
        None => false,
    }
}

#[derive(Drop)]
struct Kinds;

impl Table for Kinds {
    const ROWS: &'static str = ROWS;

    const COUNT: usize = 42;

    fn holds(&mut self, row: &mut Row<'_>) -> bool {
        let bytes = row.bytes();
        let mut rest = bytes.as_slice();
        let mut holds = true;
        for word in row.word().split_whitespace() {
            holds = holds && comes_first(&mut rest, word);
        }
        holds && next_malformation(rest) == None
    }
}

#[test]
fn rows_hold(rt: HostRuntime) {
    assert_rows(&rt, &mut Kinds);
}
