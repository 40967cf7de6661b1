//! The encoder's vectors: code units, and their UTF-8 if the call is the last one. And the surrogate that an encoder
//! has pending.

use crate::rows::{Bytes, Row, Units};
use encoding_text::utf_8::Utf8Encoder;

/// Code units and their UTF-8, and how many of both are before the last character.
#[derive(Drop)]
pub struct Source {
    pub units: Units,
    pub bytes: Bytes,
    pub prefix_units: usize,
    pub prefix_bytes: usize,
}

impl Source {
    /// Returns the source that a row has.
    pub fn of(row: &mut Row<'_>) -> Source {
        Source {
            units: row.units(),
            bytes: row.bytes(),
            prefix_units: row.number(),
            prefix_bytes: row.number(),
        }
    }
}

/// Code units, their UTF-8, and how many of both are before the last character.
pub const VECTORS: &str = "\
| | 0 | 0
0000 | 00 | 0 | 0
007F | 7F | 0 | 0
0080 | C2 80 | 0 | 0
07FF | DF BF | 0 | 0
0800 | E0 A0 80 | 0 | 0
D7FF | ED 9F BF | 0 | 0
D800 | EF BF BD | 0 | 0
D800 0062 | EF BF BD 62 | 1 | 3
DFFF | EF BF BD | 0 | 0
DFFF 0062 | EF BF BD 62 | 1 | 3
E000 | EE 80 80 | 0 | 0
FFFF | EF BF BF | 0 | 0
D800 DC00 | F0 90 80 80 | 0 | 0
DBFF DFFF | F4 8F BF BF | 0 | 0
DC00 DEDE | EF BF BD EF BF BD | 1 | 3";

/// Characters of each length before one another: code units, their UTF-8, and how many of both are before the last.
pub const LIMITS: &str = "\
0062 | 62 | 0 | 0
00A7 | C2 A7 | 0 | 0
2603 | E2 98 83 | 0 | 0
D83D DCA9 | F0 9F 92 A9 | 0 | 0
0063 0062 | 63 62 | 1 | 1
0063 00A7 | 63 C2 A7 | 1 | 1
0063 2603 | 63 E2 98 83 | 1 | 1
0063 D83D DCA9 | 63 F0 9F 92 A9 | 1 | 1
00B6 0062 | C2 B6 62 | 1 | 2
00B6 00A7 | C2 B6 C2 A7 | 1 | 2
00B6 2603 | C2 B6 E2 98 83 | 1 | 2
00B6 D83D DCA9 | C2 B6 F0 9F 92 A9 | 1 | 2
263A 0062 | E2 98 BA 62 | 1 | 3
263A 00A7 | E2 98 BA C2 A7 | 1 | 3
263A 2603 | E2 98 BA E2 98 83 | 1 | 3
263A D83D DCA9 | E2 98 BA F0 9F 92 A9 | 1 | 3
D83D DE0E 0062 | F0 9F 98 8E 62 | 2 | 4
D83D DE0E 00A7 | F0 9F 98 8E C2 A7 | 2 | 4
D83D DE0E 2603 | F0 9F 98 8E E2 98 83 | 2 | 4
D83D DE0E D83D DCA9 | F0 9F 98 8E F0 9F 92 A9 | 2 | 4
0063 00B6 0062 0062 | 63 C2 B6 62 62 | 3 | 4
0063 00B6 0062 0062 0062 | 63 C2 B6 62 62 62 | 4 | 5
263A 0062 0062 | E2 98 BA 62 62 | 2 | 4
263A 0062 0062 0062 | E2 98 BA 62 62 62 | 3 | 5
0063 00B6 00A7 | 63 C2 B6 C2 A7 | 2 | 3
0063 00B6 00A7 0062 | 63 C2 B6 C2 A7 62 | 3 | 5
263A 00A7 0062 | E2 98 BA C2 A7 62 | 2 | 5
0063 00B6 0062 00A7 | 63 C2 B6 62 C2 A7 | 3 | 4
263A 0062 00A7 | E2 98 BA 62 C2 A7 | 2 | 4
0063 00B6 2603 | 63 C2 B6 E2 98 83 | 2 | 3
0063 00B6 D83D | 63 C2 B6 EF BF BD | 2 | 3
263A D83D | E2 98 BA EF BF BD | 1 | 3
0063 00B6 DCA9 | 63 C2 B6 EF BF BD | 2 | 3
263A DCA9 | E2 98 BA EF BF BD | 1 | 3";

/// Returns whether the pending surrogate of an encoder is that of a field. The query at 0 shows whether there is one,
/// and a low surrogate then shows which.
pub fn is_pending(mut encoder: Utf8Encoder, surrogate: &str) -> bool {
    let room = encoder.max_buffer_length_from_utf16_without_replacement(0);
    let mut dst = [0; 4];
    match surrogate {
        "none" => room == Some(0),
        "D83D" => {
            let (_, _, written) = encoder.encode_from_utf16_raw(&[0xDCA9], &mut dst, true);
            room == Some(3) && written == 4 && dst == [0xF0, 0x9F, 0x92, 0xA9]
        }
        "D800" => {
            let (_, _, written) = encoder.encode_from_utf16_raw(&[0xDC00], &mut dst, true);
            room == Some(3) && written == 4 && dst == [0xF0, 0x90, 0x80, 0x80]
        }
        _ => false,
    }
}
